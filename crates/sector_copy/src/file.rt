//! A file as a source.
ghost use Rattle.std.specs.Prelude.{◌≡◌};

use crate::source::{Slots, Source};
use sector_dev::{DeviceFault, FileDevice};
use std::fs::File;
use std::io::{ErrorKind, Seek, SeekFrom};
use std::os::unix::fs::{FileExt, FileTypeExt};
use std::rt::Files;
use std::{fs, io};

/// A regular file or a block device, opened for reading only and without a lock: its sector `n` is the 512 bytes from
/// byte `512 * n` on. What the system reads is not promised, so nothing is told of it.
#[derive(Drop)]
pub struct FileSource {
    file: File,
    sectors: u32,
    last_error: Option<io::Error>,
}

impl FileSource {
    /// Opens a file that is there. Its sectors are as many as it has whole, at most `u32::MAX`. What the system's
    /// memory holds of it is dropped first, so that reads give what the disk has, and not what a write brought there
    /// that failed.
    ///
    /// Each failure is an error of the system, or `InvalidInput` for what is no regular file and no block device.
    pub fn open<R: Files<File = File>>(files: &R, path: &str) -> io::Result<FileSource> {
        let found = fs::metadata(files, path)?.file_type();
        // The opening of a pipe would wait for who writes into it.
        if !found.is_file() && !found.is_block_device() {
            let message = "no regular file and no block device";
            return Err(io::Error::new(ErrorKind::InvalidInput, message));
        }
        let device = FileDevice::open_to_read(files, path)?;
        let mut file = File::open(files, path)?;
        drop(device);
        let length = file.seek(SeekFrom::End(0))?;
        Ok(FileSource {
            file,
            sectors: u32::try_from(length / 512).unwrap_or(u32::MAX),
            last_error: None,
        })
    }

    /// The system's last error in a read that failed.
    pub fn last_error(&self) -> Option<&io::Error> {
        self.last_error.as_ref()
    }

    // Answers a read, and keeps the system's error.
    fn answer(&mut self, read: io::Result<()>) -> Result<(), DeviceFault>
        ensures { self.new.sectors ≡ self.old.sectors }
    {
        match read {
            Ok(()) => Ok(()),
            Err(error) => {
                self.last_error = Some(error);
                Err(DeviceFault)
            }
        }
    }
}

impl Source for FileSource {
    ghost use Rattle.std.specs.Prelude.{[]};

    ghost told = { λ _. ⊥ };

    ghost image = { λ _ _. [] };

    ghost moment = { λ _. 0 };

    ghost sector_count = { λ source. source.sectors };

    fn sectors(&self) -> u32 {
        self.sectors
    }

    // One call: both stand in one page.
    fn read_slots(&mut self) -> Result<Slots, DeviceFault> {
        let mut both = [0u8; 1024];
        let read = FileExt::read_exact_at(&self.file, &mut both, 0);
        self.answer(read)?;
        let (front, back) = both.split_at(512);
        let mut slots = Slots {
            zero: [0; 512],
            one: [0; 512],
        };
        slots.zero.copy_from_slice(front);
        slots.one.copy_from_slice(back);
        Ok(slots)
    }

    fn read(&mut self, at: u32, into: &mut [u8; 512]) -> Result<(), DeviceFault> {
        let read = FileExt::read_exact_at(&self.file, into, 512 * u64::from(at));
        self.answer(read)
    }
}
