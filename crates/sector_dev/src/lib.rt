//! A device of sectors of 512 bytes, and what a crash may leave of it; in memory, over a file of the system's, and over
//! what stands for a file in tests.
//!
//! Modules: `device` has the traits, `memory` and `once` devices in memory; `positioned` has the trait of a file that
//! is read and written at offsets, `file` the device over one, `named` a file of the system under its name, and
//! `sector_file` the sectors of a device as a file, for tests.
#![tactic(auto)]

mod device;
mod file;
mod memory;
mod named;
mod once;
mod positioned;
mod sector_file;

pub use device::{CrashDevice, Device, DeviceFault, Fate, Got, Sector};
pub use file::FileDevice;
pub use memory::MemoryDevice;
pub use named::NamedFile;
pub use once::OnceDevice;
pub use positioned::{PositionedFile, Standing};
pub use sector_file::SectorFile;
