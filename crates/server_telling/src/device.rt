//! A journal's device that tells an operator why a call of it failed.
ghost use Rattle.std.specs.Prelude.{◌≡◌};

use crate::telling::Teller;
use sector_dev::{Device, DeviceFault, FileDevice, Got, PositionedFile};
use std::io;

/// A device that keeps the system's error.
pub trait KeepsError {
    /// The error of the last call that failed.
    fn kept_error(&self) -> Option<&io::Error>;
}

impl<F: PositionedFile> KeepsError for FileDevice<F> {
    fn kept_error(&self) -> Option<&io::Error> {
        self.last_error()
    }
}

/// A device, of whose failures an operator is told: which file, what kind of call, and the system's error. All else is
/// the device below.
#[derive(Drop)]
pub struct TellingDevice<'a, R, D> {
    device: D,
    teller: &'a Teller<'a, R>,
    path: &'a str,
}

impl<'a, R, D> TellingDevice<'a, R, D> {
    /// The device of this path.
    pub fn new(device: D, teller: &'a Teller<'a, R>, path: &'a str) -> Self
        ensures { result.device ≡ device }
    {
        TellingDevice {
            device,
            teller,
            path,
        }
    }
}

impl<R: Eprint, D: KeepsError> TellingDevice<'_, R, D> {
    // What a call gave; an operator is told of one that failed.
    fn told_of_call<T>(&self, given: Result<T, DeviceFault>, what: &str) -> Result<T, DeviceFault>
        ensures { result ≡ given }
    {
        match given {
            Ok(value) => Ok(value),
            Err(fault) => {
                self.teller
                    .failed(self.path, what, self.device.kept_error());
                Err(fault)
            }
        }
    }
}

impl<R: Eprint, D: Device + KeepsError> Device for TellingDevice<'_, R, D> {
    ghost state = { λ telling. D.state telling.device };

    ghost sector_count = { λ telling. D.sector_count telling.device };

    ghost failures = { λ telling. D.failures telling.device };

    ghost calls_left = { λ telling. D.calls_left telling.device };

    ghost coherent = { λ telling. D.coherent telling.device };

    fn sectors(&self) -> u32 {
        self.device.sectors()
    }

    fn read(&mut self, at: u32, into: &mut [u8; 512]) -> Result<Got, DeviceFault> {
        let given = self.device.read(at, into);
        self.told_of_call(given, "a read failed")
    }

    fn write(&mut self, at: u32, from: &[u8; 512]) -> Result<(), DeviceFault> {
        let given = self.device.write(at, from);
        self.told_of_call(given, "a write failed")
    }

    fn sync(&mut self) -> Result<(), DeviceFault> {
        let given = self.device.sync();
        self.told_of_call(given, "a sync failed")
    }

    fn barrier(&mut self) -> Result<(), DeviceFault> {
        let given = self.device.barrier();
        self.told_of_call(given, "a sync failed")
    }
}
