//! `sector_dev`: devices of sectors, and what crashes leave of them.
use sector_dev::{
    CrashDevice, Device, DeviceFault, Fate, FileDevice, Got, MemoryDevice, OnceDevice,
};
use std::alloc::AllocError;
use std::process::Abort;
use std::{fs, io};

fn write<D: Device>(rt: &impl Abort, device: &mut D, at: u32, byte: u8) -> Result<(), DeviceFault> {
    assert!(rt; at < device.sectors());
    device.write(at, &[byte; 512])
}

// The first byte of a sector, and whether it can be read.
fn read<D: Device>(rt: &impl Abort, device: &mut D, at: u32) -> Result<(Got, u8), DeviceFault> {
    assert!(rt; at < device.sectors());
    let mut bytes = [255; 512];
    let got: Got = device.read(at, &mut bytes)?;
    Ok((got, bytes[0]))
}

// Writes a byte to each of three sectors, of which the device serves the first two.
fn write_two_of_three<D: CrashDevice>(rt: &impl Abort, device: &mut D, byte: u8) {
    device.arm(2);
    for (at, is_served) in [(0, true), (1, true), (2, false)] {
        assert!(rt; write(rt, device, at, byte).is_ok() == is_served);
    }
}

// The first write that fails where the device is armed is pending.
#[test]
fn what_a_crash_leaves(rt: HostRuntime) {
    let made: Result<MemoryDevice, AllocError> = MemoryDevice::new(rt.alloc(), 3);
    let mut device = made.expect(&rt, "memory");
    write_two_of_three(&rt, &mut device, 7);
    device.crash_as(&[Fate::Kept, Fate::Lost, Fate::Unreadable]);
    assert!(rt; read(&rt, &mut device, 0) == Ok((Got::Whole, 7)));
    assert!(rt; read(&rt, &mut device, 1) == Ok((Got::Whole, 0)));
    assert!(rt; read(&rt, &mut device, 2) == Ok((Got::Unreadable, 0)));
    write_two_of_three(&rt, &mut device, 8);
    device.crash(&[false, false, true]);
    assert!(rt; read(&rt, &mut device, 2) == Ok((Got::Whole, 8)));
    let failures: u64 = device.failure_count();
    assert!(rt; failures == 2 && device.barrier() == Ok(()));
}

#[test]
fn one_call_fails(rt: HostRuntime) {
    let device = MemoryDevice::new(rt.alloc(), 1).expect(&rt, "memory");
    let mut once: OnceDevice<MemoryDevice> = OnceDevice::new(device);
    once.fail_at(2, true);
    let answers = [once.sync(), write(&rt, &mut once, 0, 7), once.sync()];
    assert!(rt; answers == [Ok(()), Err(DeviceFault), Ok(())]);
    assert!(rt; read(&rt, &mut once, 0) == Ok((Got::Whole, 7)));
}

const PATH: &str = "surface-device";

#[test]
fn a_file_of_sectors(rt: HostRuntime) {
    let created: io::Result<FileDevice> = FileDevice::create(&rt, PATH, 2);
    let mut made = created.expect(&rt, "a file");
    assert!(rt; write(&rt, &mut made, 1, 7).is_ok() && made.sync().is_ok());
    drop(made);
    let found: io::Result<FileDevice> = FileDevice::open(&rt, PATH);
    let mut opened = found.expect(&rt, "a file");
    assert!(rt; opened.sectors() == 2 && read(&rt, &mut opened, 1) == Ok((Got::Whole, 7)));
    assert!(rt; fs::remove_file(&rt, PATH).is_ok());
}
