//! A device as a source.
ghost use Rattle.std.specs.Prelude.{◌≡◌};

use crate::source::{Slots, Source};
use sector_dev::{Device, DeviceFault, Got};

/// A device to which nothing is written meanwhile. An unreadable sector is a read that fails.
#[derive(Drop)]
pub struct Still<D> {
    device: D,
}

impl<D: Device> Still<D> {
    /// The source that has the device's sectors.
    pub fn new(device: D) -> Still<D>
        ensures { result.device ≡ device }
    {
        Still { device }
    }

    /// The device below.
    pub fn into_device(self) -> D
        ensures { result ≡ self.device }
    {
        self.device
    }
}

impl<D: Device> Source for Still<D> {
    ghost use Rattle.std.specs.Prelude.{ℕ};

    ghost told = { λ still. (D.state still.device).keeps_model };

    ghost image = { λ still _. (D.state still.device).reads };

    ghost moment = { λ _. 0 };

    ghost sector_count = { λ still. D.sector_count still.device };

    fn sectors(&self) -> u32 {
        self.device.sectors()
    }

    fn read_slots(&mut self) -> Result<Slots, DeviceFault> {
        let mut slots = Slots {
            zero: [0; 512],
            one: [0; 512],
        };
        self.read(0, &mut slots.zero)?;
        self.read(1, &mut slots.one)?;
        Ok(slots)
    }

    fn read(&mut self, at: u32, into: &mut [u8; 512]) -> Result<(), DeviceFault> {
        match self.device.read(at, into)? {
            Got::Whole => Ok(()),
            Got::Unreadable => Err(DeviceFault),
        }
    }
}
