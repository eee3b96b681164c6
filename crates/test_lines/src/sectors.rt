//! A device in memory, sector by sector.
use crate::digits::byte_of_digits;
use crate::fault::Fault;
use sector_dev::{CrashDevice, Device, Fate, Got, MemoryDevice};
use std::alloc::Global;

// The bytes of digits to base 16, two for each.
fn bytes_of(alloc: Global, digits: &str) -> Result<Vec<u8>, Fault> {
    let mut bytes = Vec::new(alloc);
    for pair in digits.as_bytes().chunks(2) {
        let [high, low] = pair else {
            return Err(Fault::Input);
        };
        let byte = byte_of_digits(*high, *low).ok_or(Fault::Input)?;
        bytes.extend_from_slice(&[byte])?;
    }
    Ok(bytes)
}

// The bytes of a sector, which is there and can be read.
fn read(device: &mut MemoryDevice, at: u32) -> Result<[u8; 512], Fault> {
    let mut bytes = [0; 512];
    if at >= device.sectors() {
        return Err(Fault::Input);
    }
    match device.read(at, &mut bytes)? {
        Got::Whole => Ok(bytes),
        Got::Unreadable => Err(Fault::Input),
    }
}

// Writes a sector, which is there.
fn write(device: &mut MemoryDevice, at: u32, bytes: &[u8; 512]) -> Result<(), Fault> {
    if at >= device.sectors() {
        return Err(Fault::Input);
    }
    device.write(at, bytes)?;
    Ok(())
}

/// Puts bytes into a sector from a place on, and syncs.
pub fn put(
    alloc: Global,
    device: &mut MemoryDevice,
    at: u32,
    from: usize,
    digits: &str,
) -> Result<(), Fault> {
    let mut bytes = read(device, at)?;
    let new = bytes_of(alloc, digits)?;
    for (byte, new) in bytes.iter_mut().skip(from).zip(new.iter()) {
        *byte = *new;
    }
    write(device, at, &bytes)?;
    device.sync()?;
    Ok(())
}

/// So many bytes of a sector from a place on, in digits to base 16.
pub fn digits(
    alloc: Global,
    device: &mut MemoryDevice,
    at: u32,
    from: usize,
    count: usize,
) -> Result<String, Fault> {
    let bytes = read(device, at)?;
    let mut text = String::new(alloc);
    for byte in bytes.iter().skip(from).take(count) {
        let pair = format!(in alloc; "{byte:02x}")?;
        text.push_str(pair.as_str())?;
    }
    text.push_str("\n")?;
    Ok(text)
}

/// Makes a sector unreadable, by a crash.
pub fn lose(device: &mut MemoryDevice, at: u32) -> Result<(), Fault> {
    device.sync()?;
    write(device, at, &[0; 512])?;
    device.crash_as(&[Fate::Unreadable]);
    Ok(())
}

/// All sectors, each of which can be read.
pub fn sectors_of(alloc: Global, device: &mut MemoryDevice) -> Result<Vec<[u8; 512]>, Fault> {
    let mut sectors = Vec::new(alloc);
    for at in 0..device.sectors() {
        let bytes = read(device, at)?;
        sectors.extend_from_slice(&[bytes])?;
    }
    Ok(sectors)
}

// Writes sectors from the first on, and syncs.
fn fill(device: &mut MemoryDevice, sectors: &[[u8; 512]]) -> Result<(), Fault> {
    for (at, bytes) in (0..device.sectors()).zip(sectors.iter()) {
        write(device, at, bytes)?;
    }
    device.sync()?;
    Ok(())
}

/// A device of these sectors, with nothing pending.
pub fn device_of(alloc: Global, sectors: &[[u8; 512]]) -> Result<MemoryDevice, Fault> {
    let Ok(count) = u32::try_from(sectors.len()) else {
        return Err(Fault::Input);
    };
    let mut device = MemoryDevice::new(alloc, count)?;
    fill(&mut device, sectors)?;
    Ok(device)
}
