//! The moments of a clock whose system's clock jumps, and those of one that stands still between two lives.
use sector_dev::{Device, MemoryDevice};
use server_clock::{Beat, Beats, ClockFault, SteadyClock, first_moment, stood_still, write_slot};
use std::cell::Cell;
use std::io;
use std::rt::Clock;
use std::time::Duration;

/// The system's clock and the monotonic one, in milliseconds; none can be read at `u64::MAX`.
#[derive(Drop)]
struct Hands {
    system: Cell<u64>,
    monotonic: Cell<u64>,
}

fn time_at(hand: u64) -> io::Result<Duration> {
    if hand == u64::MAX {
        return Err(io::Error::from(io::ErrorKind::Other));
    }
    Ok(Duration::from_millis(hand))
}

impl Clock for Hands {
    fn monotonic(&self) -> io::Result<Duration> {
        time_at(self.monotonic.get())
    }

    fn since_1970(&self) -> io::Result<Duration> {
        time_at(self.system.get())
    }
}

// What the hands show, and the moment that comes then.
static EVENLY: [(u64, u64, u64); 7] = [
    (1_000_000, 5_000, 1_000_000),
    // The system's clock jumps ahead, and back, and cannot be read.
    (9_000_000, 5_001, 1_000_001),
    (0, 6_500, 1_001_500),
    (u64::MAX, 6_501, 1_001_501),
    // The other does not go back, and a reading that fails brings no time.
    (0, 6_000, 1_001_501),
    (0, u64::MAX, 1_001_501),
    (0, 7_000, 1_002_000),
];

// A clock that cannot be read as it begins.
static FAILING: [(u64, u64, u64); 2] = [(u64::MAX, u64::MAX, 0), (u64::MAX, 10_000, 0)];

#[test]
fn goes_on_evenly_or_not_at_all(rt: HostRuntime) {
    for rows in [&EVENLY[..], &FAILING[..]] {
        let hands = Hands {
            system: Cell::new(rows[0].0),
            monotonic: Cell::new(rows[0].1),
        };
        let mut clock = SteadyClock::new(&hands);
        for (system, monotonic, moment) in rows {
            hands.system.set(*system);
            hands.monotonic.set(*monotonic);
            assert!(rt; clock.go_on() == *moment);
        }
    }
}

// A clock that counts 1,000 ms of a gap at most, and is stopped at the third and the fourth of these.
static HELD: [(u64, bool, u64); 7] = [
    (0, false, 500),
    (30_000, false, 1_500),
    (30_010, true, 1_510),
    (40_000, true, 1_510),
    (40_010, false, 1_510),
    (40_020, false, 1_520),
    (40_020, false, 1_520),
];

#[test]
fn a_clock_that_is_held_or_stopped_counts_little_or_nothing(rt: HostRuntime) {
    let hands = Hands {
        system: Cell::new(0),
        monotonic: Cell::new(0),
    };
    let mut clock = SteadyClock::starting(&hands, 500, 1_000);
    for (monotonic, is_stopped, moment) in &HELD {
        hands.monotonic.set(*monotonic);
        assert!(rt; clock.go_on() == *moment);
        clock.stop(*is_stopped);
    }
}

// The system's clock at a start and the last entry's moment; and what the first moment is behind a beat at the moment
// 5,000, when the system's clock had 10,005,000, and for how long clocks stood still.
static STARTS: [(u64, Option<u64>, u64, u64); 5] = [
    // An entry before the beat, one behind it, and none.
    (10_065_000, Some(4_000), 5_000, 60_000),
    (10_065_000, Some(5_900), 5_900, 59_100),
    (10_065_000, None, 5_000, 60_000),
    // The system's clock an hour back, and a day ahead.
    (6_465_000, Some(4_000), 5_000, 0),
    (96_465_000, Some(4_000), 5_000, 86_460_000),
];

const LAST: Beat = Beat {
    number: 5,
    moment: 5_000,
    system: 10_005_000,
};

#[test]
fn a_life_begins_at_the_later_of_entry_and_beat(rt: HostRuntime) {
    for (system, entry, first, stood) in &STARTS {
        assert!(rt; first_moment(*system, *entry, Some(LAST)) == *first);
        assert!(rt; stood_still(*system, *first, Some(LAST)) == *stood);
    }
    // Without a beat, and without an entry too.
    assert!(rt; first_moment(9, Some(7), None) == 7 && stood_still(9, 7, None) == 2);
    assert!(rt; first_moment(9, None, None) == 9 && stood_still(9, 9, None) == 0);
}

/// What stands in a slot.
#[derive(Clone, Copy)]
enum Stands {
    Zeros,
    /// The beat of this number, and one that has lost a bit.
    Whole(u64),
    Torn(u64),
    Letter,
}

fn bytes_of(stands: Stands) -> [u8; 512] {
    let mut bytes = match stands {
        Stands::Zeros => [0; 512],
        Stands::Whole(number) | Stands::Torn(number) => write_slot(&Beat { number, ..LAST }),
        Stands::Letter => [b'a'; 512],
    };
    if matches!(stands, Stands::Torn(_)) {
        bytes[20] = 1;
    }
    bytes
}

// What stands in the slots, and the number of the beat that they tell; `Err` where they are no slots.
static SLOTS: [(Stands, Stands, Result<Option<u64>, ClockFault>); 10] = [
    (Stands::Zeros, Stands::Zeros, Ok(None)),
    (Stands::Whole(4), Stands::Zeros, Ok(Some(4))),
    (Stands::Whole(4), Stands::Whole(5), Ok(Some(5))),
    (Stands::Whole(6), Stands::Whole(5), Ok(Some(6))),
    (Stands::Torn(6), Stands::Whole(5), Ok(Some(5))),
    (Stands::Whole(4), Stands::Torn(5), Ok(Some(4))),
    (Stands::Torn(4), Stands::Torn(5), Ok(None)),
    // A beat in the other slot is none.
    (Stands::Whole(5), Stands::Zeros, Ok(None)),
    (Stands::Letter, Stands::Whole(5), Err(ClockFault::Foreign)),
    (Stands::Zeros, Stands::Letter, Err(ClockFault::Foreign)),
];

// The number of the last beat on a device.
fn number_on(device: MemoryDevice) -> Result<Option<u64>, ClockFault> {
    match Beats::open(device) {
        Ok(beats) => Ok(beats.last().map(|beat| beat.number)),
        Err(fault) => Err(fault),
    }
}

#[test]
fn slots_tell_the_last_whole_beat(rt: HostRuntime) {
    for (first, second, wanted) in &SLOTS {
        let mut device = MemoryDevice::new(rt.alloc(), 2).expect(&rt, "memory");
        assert!(rt; device.sectors() == 2);
        assert!(rt; device.write(0, &bytes_of(*first)).is_ok());
        assert!(rt; device.write(1, &bytes_of(*second)).is_ok());
        assert!(rt; number_on(device) == *wanted);
    }
    let device = MemoryDevice::new(rt.alloc(), 3).expect(&rt, "memory");
    assert!(rt; number_on(device) == Err(ClockFault::Foreign));
}

#[test]
fn beats_follow_one_another(rt: HostRuntime) {
    let device = MemoryDevice::new(rt.alloc(), 2).expect(&rt, "memory");
    let Ok(mut beats) = Beats::open(device) else {
        panic!(rt; "no beats");
    };
    for number in 0..5 {
        assert!(rt; beats.beat(5_000, 10_005_000).is_ok());
        assert!(rt; beats.last() == Some(Beat { number, ..LAST }));
    }
}
