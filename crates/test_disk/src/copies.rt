//! What copies are made, and when none is.
use crate::sectors::{byte_at, sector};
use rec_codec::{Half, Header, Limits, Version, write_header};
use sector_copy::{Copied, CopyFault, Slots, Source, Still, copy};
use sector_dev::{CrashDevice, DeviceFault, Got, MemoryDevice};
use std::alloc::Global;
use std::process::Abort;

/// A source that has one header when it is asked first and another later, and whose sectors have their number in each
/// byte.
#[derive(Drop)]
struct Scripted {
    first: Slots,
    later: Slots,
    is_read: bool,
    sectors: u32,
}

impl Source for Scripted {
    ghost use Rattle.std.specs.Prelude.{[]};

    ghost told = { λ _. ⊥ };

    ghost image = { λ _ _. [] };

    ghost moment = { λ _. 0 };

    ghost sector_count = { λ source. source.sectors };

    fn sectors(&self) -> u32 {
        self.sectors
    }

    fn read_slots(&mut self) -> Result<Slots, DeviceFault> {
        if self.is_read {
            return Ok(self.later);
        }
        self.is_read = true;
        Ok(self.first)
    }

    fn read(&mut self, at: u32, into: &mut [u8; 512]) -> Result<(), DeviceFault> {
        *into = [(at % 256) as u8; 512];
        Ok(())
    }
}

// Of limits 4 and 60. It names the first sectors of a half, of which the snapshot has three.
const FIRST: Header = Header {
    version: Version::Two,
    sectors: 212,
    seq: 8,
    half: Half::Zero,
    snapshot: 3,
    journal: 100,
    limits: Limits {
        games: 4,
        plies: 60,
    },
};

const OTHER_HALF: Header = Header {
    seq: 9,
    half: Half::One,
    journal: 7,
    ..FIRST
};

// The slots in which a header stands, beside nothing.
fn slots_of(header: Option<&Header>) -> Slots {
    let mut slots = Slots {
        zero: [0; 512],
        one: [0; 512],
    };
    if let Some(header) = header {
        if header.seq % 2 == 0 {
            slots.zero = write_header(header);
        } else {
            slots.one = write_header(header);
        }
    }
    slots
}

// A source that has the first header, and then this one.
fn source_of(later: &Header) -> Scripted {
    Scripted {
        first: slots_of(Some(&FIRST)),
        later: slots_of(Some(later)),
        is_read: false,
        sectors: 212,
    }
}

// The header that is read later, in how many tries it is copied, and the header that stands in the copy, if one is
// made.
type Row = (Header, u32, Option<Header>);

static ROWS: [Row; 7] = [
    // The same header, and the next commit in the same half.
    (FIRST, 1, Some(FIRST)),
    (
        Header {
            seq: 9,
            journal: 101,
            ..FIRST
        },
        1,
        Some(FIRST),
    ),
    (OTHER_HALF, 1, None),
    // It moved once, and then stood still.
    (OTHER_HALF, 2, Some(OTHER_HALF)),
    // Two commits on, a header before, and fewer sectors than before.
    (
        Header {
            seq: 10,
            journal: 102,
            ..FIRST
        },
        1,
        None,
    ),
    (
        Header {
            seq: 7,
            journal: 101,
            ..FIRST
        },
        1,
        None,
    ),
    (
        Header {
            seq: 9,
            journal: 99,
            ..FIRST
        },
        1,
        None,
    ),
];

fn check_row(rt: &impl Abort, target: &mut MemoryDevice, row: &Row) {
    let (later, tries, stands) = row;
    let answer = copy(&mut source_of(later), target, *tries);
    let wanted = match stands {
        Some(_) => Copied::Whole,
        None => Copied::Changed,
    };
    assert!(rt; answer == Ok(wanted));
    let slots = slots_of(stands.as_ref());
    let zero = slots.zero;
    let one = slots.one;
    assert!(rt; sector(rt, target, 0) == Ok((Got::Whole, zero)));
    assert!(rt; sector(rt, target, 1) == Ok((Got::Whole, one)));
    match stands {
        // All sectors that the header names, and no other.
        Some(header) if header.half == Half::Zero => {
            for at in 2..212u32 {
                let byte = if at < 105 { at as u8 } else { 0 };
                assert!(rt; byte_at(rt, target, at) == Ok(byte));
            }
        }
        Some(_) => assert!(rt; byte_at(rt, target, 107) == Ok(107)),
        None => {}
    }
}

#[test]
fn copies_what_stands_still(rt: HostRuntime) {
    for row in &ROWS {
        let mut target = MemoryDevice::new(rt.alloc(), 212).expect(&rt, "memory");
        check_row(&rt, &mut target, row);
    }
}

// Why there is no copy of a source on a device of so many sectors.
fn fault_of<S: Source>(
    rt: &impl Abort,
    alloc: Global,
    source: &mut S,
    sectors: u32,
) -> Option<CopyFault> {
    let mut target = MemoryDevice::new(alloc, sectors).expect(rt, "memory");
    copy(source, &mut target, 1).err()
}

#[test]
fn tells_why_there_is_no_copy(rt: HostRuntime) {
    let alloc = rt.alloc();
    for sectors in [212, 1] {
        let blank = MemoryDevice::new(alloc, sectors).expect(&rt, "memory");
        let fault = fault_of(&rt, alloc, &mut Still::new(blank), 212);
        assert!(rt; fault == Some(CopyFault::NotOurs));
    }
    let mut source = source_of(&FIRST);
    let mut faults = [None; 3];
    faults[0] = fault_of(&rt, alloc, &mut source, 211);
    source.sectors = 211;
    faults[1] = fault_of(&rt, alloc, &mut source, 212);
    source.sectors = 212;
    // The eight bytes alone.
    source.later.zero[12] = 0;
    faults[2] = fault_of(&rt, alloc, &mut source, 212);
    let small = Some(CopyFault::TooSmall);
    assert!(rt; faults == [small, small, Some(CopyFault::Damaged)]);
}

// Five sectors, the sync, the header and the sync.
#[test]
fn tells_of_a_failing_device(rt: HostRuntime) {
    let short = Header {
        journal: 2,
        ..FIRST
    };
    for calls in 0..9 {
        let mut target = MemoryDevice::new(rt.alloc(), 212).expect(&rt, "memory");
        target.arm(calls);
        let mut source = source_of(&short);
        source.first = source.later;
        let wanted = if calls < 8 {
            Err(CopyFault::Device)
        } else {
            Ok(Copied::Whole)
        };
        assert!(rt; copy(&mut source, &mut target, 1) == wanted);
    }
}
