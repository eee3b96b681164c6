// A device as a positioned file.
ghost use Rattle.std.specs.Prelude.{◌≡◌, ◌⊎◌, ◌<◌, ◌*◌, ℕ, Some, IfSome, Ok, OnErr};
ghost use Rattle.sector_dev.specs.declared.device.Sector.TheVariants.{Unreadable};
ghost use Rattle.sector_dev.specs.declared.positioned.Standing.TheVariants.{Named};
ghost use Rattle.sector_dev.specs.Image.{sector_at};
ghost use Rattle.sector_dev.specs.Device.{HasRisen, CountsFailure};
ghost use Rattle.sector_dev.specs.FileCalls.{IsReadAt, IsWriteAt, IsSync};

use crate::{Device, Got, PositionedFile, Standing};
use std::io::{self, ErrorKind};

/// The sectors of a device, one after the other, as a file. It keeps its bytes where the device keeps the model, so a
/// `FileDevice` over it keeps the model there too. It is for tests of what stands on files.
#[derive(Drop)]
pub struct SectorFile<D> {
    device: D,
}

impl<D: Device> SectorFile<D> {
    /// The file that has the device's sectors.
    pub fn new(device: D) -> SectorFile<D>
        ensures { result.device ≡ device }
    {
        SectorFile { device }
    }

    /// The device below.
    pub fn into_device(self) -> D
        ensures { result ≡ self.device }
    {
        self.device
    }
}

// The sector that begins at this byte.
fn sector_from(offset: u64, sectors: u32) -> Option<u32>
    ensures within { IfSome result (λ at. at < sectors × (offset ≡ 512 * at)) }
    ensures found { (at : ℕ) → at < sectors → offset ≡ 512 * at → result ≡ Some at }
{
    match u32::try_from(offset / 512) {
        Ok(at) if offset % 512 == 0 && at < sectors => Some(at),
        _ => None,
    }
}

/// A call that is not of one of the device's sectors fails with `UnexpectedEof`; one that the device fails, and a read
/// of an unreadable sector, with `Other`.
impl<D: Device> PositionedFile for SectorFile<D> {
    ghost state = { λ file. D.state file.device };

    ghost sector_count = { λ file. D.sector_count file.device };

    ghost known_standing = { λ file. Some (Named (512 * D.sector_count file.device)) };

    ghost coherent = { λ file. D.coherent file.device };

    fn read_at(&mut self, into: &mut [u8; 512], offset: u64) -> io::Result<()>
        ensures call { IsReadAt (λ file. D.state file.device) (λ file. D.sector_count file.device)
            self.old self.new into.new offset result }
        // Of a sector it fails only where the device does, or where the sector is unreadable.
        ensures cause { (D.state self.old.device).keeps_model
            → (at : ℕ) → at < D.sector_count self.old.device → offset ≡ 512 * at
            → OnErr result (HasRisen (D.failures self.old.device) (D.failures self.new.device)
            ⊎ (sector_at (D.state self.old.device).reads at ≡ Unreadable)) }
    {
        let Some(at) = sector_from(offset, self.device.sectors()) else {
            return Err(io::Error::from(ErrorKind::UnexpectedEof));
        };
        match self.device.read(at, into) {
            Ok(Got::Whole) => Ok(()),
            Ok(Got::Unreadable) => Err(io::Error::from(ErrorKind::Other)),
            Err(_) => Err(io::Error::from(ErrorKind::Other)),
        }
    }

    fn write_at(&mut self, from: &[u8; 512], offset: u64) -> io::Result<()>
        ensures call { IsWriteAt (λ file. D.state file.device) (λ file. D.sector_count file.device)
            self.old self.new from.now offset result }
        ensures cause { (at : ℕ) → at < D.sector_count self.old.device → offset ≡ 512 * at
            → CountsFailure result (D.failures self.old.device) (D.failures self.new.device) }
    {
        let Some(at) = sector_from(offset, self.device.sectors()) else {
            return Err(io::Error::from(ErrorKind::UnexpectedEof));
        };
        match self.device.write(at, from) {
            Ok(()) => Ok(()),
            Err(_) => Err(io::Error::from(ErrorKind::Other)),
        }
    }

    fn sync(&mut self) -> io::Result<()>
        ensures call { IsSync (λ file. D.state file.device) (λ file. D.sector_count file.device)
            self.old self.new result }
        ensures cause { CountsFailure result (D.failures self.old.device) (D.failures self.new.device) }
    {
        match self.device.sync() {
            Ok(()) => Ok(()),
            Err(_) => Err(io::Error::from(ErrorKind::Other)),
        }
    }

    fn standing(&self) -> io::Result<Standing>
        ensures known { (standing : Standing)
            → Some (Named (512 * D.sector_count self.now.device)) ≡ Some standing → result ≡ Ok standing }
    {
        Ok(Standing::Named(512 * u64::from(self.device.sectors())))
    }
}
