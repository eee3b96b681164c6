//! Want of memory, and long runs.

use crate::sectors::{byte_at, check_first, fill};
use sector_dev::{CrashDevice, Device, MemoryDevice};
use std::alloc::AllocError;
use std::process::Abort;

// What each of three sectors is filled with.
type Bytes = [u8; 3];

// What the calls that were answered `Ok` come to.
#[derive(Drop)]
struct Expected {
    seen: Bytes,
    /// What a crash leaves that keeps these places.
    left: Bytes,
    keep: [bool; 8],
    pending: usize,
}

// After a sync, or a fill of a sector with a byte.
fn note(expected: &mut Expected, fill: Option<usize>, byte: u8) {
    match fill {
        None => {
            expected.left = expected.seen;
            expected.pending = 0;
        }
        Some(at) if at < 3 => {
            expected.seen[at] = byte;
            if expected.keep.get(expected.pending) == Some(&true) {
                expected.left[at] = byte;
            }
            expected.pending = expected.pending.saturating_add(1);
        }
        Some(_) => {}
    }
}

fn crash(rt: &impl Abort, device: &mut MemoryDevice, expected: &mut Expected) {
    device.crash(&expected.keep);
    expected.seen = expected.left;
    expected.pending = 0;
    check_first(rt, device, &expected.seen);
}

// Which sector the calls fill, in a cycle of five; the third is a sync.
static CYCLE: [Option<usize>; 5] = [Some(0), Some(1), None, Some(2), Some(0)];

// Makes twelve calls, begun at `start` in a cycle of five, and plays a crash at the end, and if `at_once` also after
// each refused call. All is as if the refused calls had not been made.
fn make_or_refuse(
    rt: &impl Abort,
    device: &mut MemoryDevice,
    start: u8,
    keep: &[bool; 8],
    at_once: bool,
) {
    let mut expected = Expected {
        seen: [0; 3],
        left: [0; 3],
        keep: *keep,
        pending: 0,
    };
    for number in start..start.saturating_add(12) {
        let step = CYCLE[usize::from(number % 5)];
        let served = match step {
            Some(at) => fill(rt, device, at as u32, number).is_ok(),
            None => device.sync().is_ok(),
        };
        if served {
            note(&mut expected, step, number);
        }
        check_first(rt, device, &expected.seen);
        if !served && at_once {
            crash(rt, device, &mut expected);
        }
    }
    crash(rt, device, &mut expected);
}

// Which places crashes keep, and whether they come at once.
static KEPT: [([bool; 8], bool); 3] = [
    ([false; 8], true),
    ([true; 8], true),
    ([false, true, false, true, false, true, false, true], false),
];

// Passes whichever allocation is refused. `bench/crash/refused-memory` refuses them in turn; else none is.
#[test]
fn refused_memory(rt: HostRuntime) {
    for (keep, at_once) in &KEPT {
        for start in 1..6u8 {
            match MemoryDevice::new(rt.alloc(), 3) {
                Ok(mut device) => make_or_refuse(&rt, &mut device, start, keep, *at_once),
                Err(AllocError) => {}
            }
        }
    }
}

// Writes and syncs 20,000 times, and then loses a write to each sector: the last write to each before is left. No call
// copies the device: 40,000 copies of its 15 megabytes would outlast the time that a test has.
#[test]
fn a_long_run(rt: HostRuntime) {
    let mut device = MemoryDevice::new(rt.alloc(), 30_000).expect(&rt, "memory");
    for number in 0..20_000u32 {
        assert!(rt; fill(&rt, &mut device, number % 212, (number % 251) as u8).is_ok());
        assert!(rt; device.sync().is_ok());
    }
    for at in 0..212u32 {
        assert!(rt; fill(&rt, &mut device, at, 255).is_ok());
    }
    device.crash(&[]);
    for number in 19_788..20_000u32 {
        assert!(rt; byte_at(&rt, &mut device, number % 212) == Ok((number % 251) as u8));
    }
}
