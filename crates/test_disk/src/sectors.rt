//! Sectors, each filled with one byte.
use sector_dev::{Device, DeviceFault, Got};
use std::process::Abort;

/// What a sector that is unreadable counts as. No test fills a sector with it.
pub const NOTHING: u8 = 254;

/// Fills a sector with a byte.
pub fn fill<D: Device>(
    rt: &impl Abort,
    device: &mut D,
    at: u32,
    byte: u8,
) -> Result<(), DeviceFault> {
    assert!(rt; at < device.sectors());
    device.write(at, &[byte; 512])
}

/// The bytes of a sector.
pub fn sector<D: Device>(
    rt: &impl Abort,
    device: &mut D,
    at: u32,
) -> Result<(Got, [u8; 512]), DeviceFault> {
    assert!(rt; at < device.sectors());
    let mut bytes = [255; 512];
    let got = device.read(at, &mut bytes)?;
    Ok((got, bytes))
}

/// The byte with which a sector is filled.
pub fn byte_at<D: Device>(rt: &impl Abort, device: &mut D, at: u32) -> Result<u8, DeviceFault> {
    let (got, bytes) = sector(rt, device, at)?;
    let byte = bytes[0];
    assert!(rt; bytes == [byte; 512]);
    if got == Got::Whole {
        return Ok(byte);
    }
    assert!(rt; byte == 0);
    Ok(NOTHING)
}

/// The first sectors are filled with these bytes.
pub fn check_first<D: Device>(rt: &impl Abort, device: &mut D, bytes: &[u8]) {
    for (at, byte) in (0..u32::MAX).zip(bytes) {
        assert!(rt; byte_at(rt, device, at) == Ok(*byte));
    }
}
