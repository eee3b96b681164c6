//! Stores in memory.
use chess_store::{Refused, Store};
use rec_codec::Version;
use sector_dev::MemoryDevice;
use std::alloc::Global;
use test_lines::{Fault, Size};

/// The store that was made or opened; else the name of its fault.
pub fn opened(
    alloc: Global,
    opened: Result<Store<MemoryDevice>, Refused<MemoryDevice>>,
) -> Result<Store<MemoryDevice>, Fault> {
    match opened {
        Ok(store) => Ok(store),
        Err(refused) => Err(Fault::of(alloc, &refused.fault)),
    }
}

/// A new store on a new device. `Input`: the limits are not in range.
pub fn store_in_memory(alloc: Global, size: &Size) -> Result<Store<MemoryDevice>, Fault> {
    if !size.limits.is_in_range(Version::Two) {
        return Err(Fault::Input);
    }
    let device = MemoryDevice::new(alloc, size.sectors)?;
    opened(alloc, Store::create(alloc, device, size.limits))
}
