//! What a caller of a device leaves, by the fates of a crash.
use crate::sectors::{NOTHING, check_first};
use crate::{write_two_and_crash, written_and_crashed};
use sector_dev::{Device, Fate, MemoryDevice};

const LOST: Fate = Fate::Lost;

const KEPT: Fate = Fate::Kept;

const RUINED: Fate = Fate::Unreadable;

// How many calls are served, which sector is written second, behind sector 0, the fates of both writes, and what is
// left. A write that fails as the first is pending; the sync is the third call.
static LIVES: [(u64, u32, Fate, Fate, [u8; 2]); 17] = [
    (0, 1, LOST, LOST, [0, 0]),
    (0, 1, KEPT, KEPT, [1, 0]),
    (0, 1, RUINED, RUINED, [NOTHING, 0]),
    (1, 1, LOST, LOST, [0, 0]),
    (1, 1, KEPT, RUINED, [1, NOTHING]),
    (1, 1, LOST, KEPT, [0, 2]),
    (1, 1, RUINED, KEPT, [NOTHING, 2]),
    (2, 1, LOST, RUINED, [0, NOTHING]),
    (2, 1, KEPT, LOST, [1, 0]),
    (2, 1, RUINED, RUINED, [NOTHING, NOTHING]),
    (2, 1, KEPT, KEPT, [1, 2]),
    (3, 1, LOST, LOST, [1, 2]),
    (4, 1, RUINED, RUINED, [1, 2]),
    // Of two writes to one sector the last that is not lost decides.
    (2, 0, KEPT, RUINED, [NOTHING, 0]),
    (2, 0, RUINED, KEPT, [2, 0]),
    (2, 0, RUINED, LOST, [NOTHING, 0]),
    (2, 0, KEPT, LOST, [1, 0]),
];

// What a life of so many calls leaves of two zeroed sectors.
#[test]
fn a_life_leaves_what_the_fates_say(rt: HostRuntime) {
    for (calls, at, one, other, bytes) in &LIVES {
        let mut device = MemoryDevice::new(rt.alloc(), 2).expect(&rt, "memory");
        assert!(rt; device.sectors() >= 2 && *at < device.sectors());
        let (first, second, fates) = ([1; 512], [2; 512], [*one, *other]);
        let written = write_two_and_crash(&mut device, *calls, 0, &first, *at, &second, &fates);
        assert!(rt; written.is_ok() == (*calls >= 3));
        check_first(&rt, &mut device, bytes);
    }
}

// A list of writes has its fates in its order.
#[test]
fn a_list_leaves_what_the_fates_say(rt: HostRuntime) {
    let sectors = [[1; 512], [2; 512], [3; 512]];
    let left = written_and_crashed(rt.alloc(), 4, &sectors, &[KEPT, LOST, RUINED]);
    check_first(&rt, &mut left.expect(&rt, "memory"), &[1, 0, NOTHING, 0]);
}
