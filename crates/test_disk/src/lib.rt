//! Tests of the crates of the disk, by what these export alone: so none of them is proved twice. They have what neither
//! the part `store` of the stored run of `test_player` nor a clause shows. `device_callers` writes over any device, by
//! the contract of its trait alone: what the crates above a device can prove.
#![tactic(auto)]

#[cfg(test)]
mod callers;
#[cfg(test)]
mod compactions;
#[cfg(test)]
mod contents;
#[cfg(test)]
mod copies;
#[cfg(test)]
mod cycles;
mod device_callers;
#[cfg(test)]
mod fake_files;
#[cfg(test)]
mod files;
#[cfg(test)]
mod journal_memory;
#[cfg(test)]
mod memory_device;
#[cfg(test)]
mod sectors;

pub use device_callers::{
    write_all, write_one, write_two, write_two_and_crash, written_and_crashed,
};
