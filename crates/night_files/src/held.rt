//! A file that one program has at a time.
use crate::beside::new_file;
use crate::disk::{DiskFile, EVERYBODYS_MODE};
use std::fs::{self, File};
use std::io::{self, Write};
use std::rt::Files;

/// A file that nobody else has who asks for it (`flock`), until this value ends or the process is killed.
#[derive(Drop)]
pub struct HeldFile<'a> {
    path: &'a str,
    file: DiskFile,
}

impl<'a> HeldFile<'a> {
    /// Opens a file, or makes it. It fails as `DiskFile::open` does, with `WouldBlock` where another has it.
    pub fn open<R: Files<File = File>>(rt: &R, path: &'a str) -> io::Result<HeldFile<'a>> {
        Ok(HeldFile {
            path,
            file: DiskFile::open(rt, path)?,
        })
    }

    // Where another file stands under its name by now, or none, that one is had from here on.
    fn renew<R: Files<File = File>>(&mut self, rt: &R) -> io::Result<()> {
        if !self.file.is_at(rt, self.path)? {
            self.file = DiskFile::open(rt, self.path)?;
        }
        Ok(())
    }

    /// The file that has the name now; where it is another than before, that one is had from here on.
    pub fn file<R: Files<File = File>>(&mut self, rt: &R) -> io::Result<DiskFile> {
        self.renew(rt)?;
        self.file.try_clone()
    }

    /// Puts a text in the file's place, at once: who reads it finds what was there or all of this. A stop may leave
    /// `FILE.new` beside it.
    pub fn replace<R: Files<File = File> + AllocGlobal>(
        &mut self,
        rt: &R,
        text: &[u8],
    ) -> io::Result<()> {
        self.renew(rt)?;
        let path = self.path;
        let new = format!(in rt.alloc(); "{path}.new")?;
        let mut file = new_file(rt, new.as_str(), EVERYBODYS_MODE)?;
        file.write_all(text)?;
        // (before it has the name, so that nobody else has it between)
        let file = DiskFile::locked(rt, new.as_str(), file)?;
        fs::rename(rt, new.as_str(), path)?;
        self.file = file;
        Ok(())
    }
}
