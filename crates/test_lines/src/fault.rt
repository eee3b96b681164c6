//! Why playing ends before the input does.
use sector_dev::DeviceFault;
use std::alloc::{AllocError, Global};
use std::num::ParseIntError;
use std::{fmt, io};

/// Why playing ends before the input does.
#[derive(Drop)]
pub enum Fault {
    /// A line of the input has none of the forms, or cannot be played there.
    Input,
    /// The device failed, where it was not to.
    Device,
    /// What is played on failed otherwise, where it was not to: its own name for that.
    Failed(String),
    /// The system's.
    File(io::Error),
    /// Memory was refused.
    NoMemory,
}

impl Fault {
    /// What is played on failed, with this fault.
    pub fn of<E: fmt::Debug>(alloc: Global, fault: &E) -> Fault {
        match format!(in alloc; "{fault:?}") {
            Ok(name) => Fault::Failed(name),
            Err(_) => Fault::NoMemory,
        }
    }
}

impl From<DeviceFault> for Fault {
    fn from(_: DeviceFault) -> Fault {
        Fault::Device
    }
}

impl From<ParseIntError> for Fault {
    fn from(_: ParseIntError) -> Fault {
        Fault::Input
    }
}

impl From<io::Error> for Fault {
    fn from(error: io::Error) -> Fault {
        Fault::File(error)
    }
}

impl From<AllocError> for Fault {
    fn from(_: AllocError) -> Fault {
        Fault::NoMemory
    }
}

impl fmt::Display for Fault {
    fn fmt<W: fmt::Write>(&self, f: &mut fmt::Formatter<W>) -> fmt::Result {
        match self {
            Fault::Input => f.write_str("a line cannot be played"),
            Fault::Device => f.write_str("the device failed"),
            Fault::Failed(name) => f.write_str(name.as_str()),
            Fault::File(error) => write!(f, "{error}"),
            Fault::NoMemory => f.write_str("no memory"),
        }
    }
}
