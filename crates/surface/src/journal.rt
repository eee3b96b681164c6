//! `sector_journal`: records on a device.
use rec_codec::{Half, Limits, Record, Version, snapshot_records};
use sector_dev::MemoryDevice;
use sector_journal::{Journal, JournalFault, Opened, Refused, format, open};
use std::alloc::Global;
use std::process::Abort;

const FOUR_AND_SIXTY: Limits = Limits {
    games: 4,
    plies: 60,
};

const EIGHT_AND_SIXTY: Limits = Limits {
    games: 8,
    plies: 60,
};

fn formatted(
    rt: &impl Abort,
    alloc: Global,
    sectors: u32,
) -> Result<Journal<MemoryDevice>, Refused<MemoryDevice>> {
    let device = MemoryDevice::new(alloc, sectors).expect(rt, "memory");
    assert!(rt; FOUR_AND_SIXTY.is_in_range(Version::Two));
    format(alloc, device, FOUR_AND_SIXTY)
}

// A compaction, begun and finished.
fn compact(rt: &impl Abort, alloc: Global, journal: &mut Journal<MemoryDevice>) {
    assert!(rt; !journal.due() && !journal.under_way());
    let base: Vec<Record> = Vec::from_slice(alloc, &[Record::default()]).expect(rt, "memory");
    assert!(rt; base.len() == 1 && snapshot_records(journal.limits()) >= 1);
    assert!(rt; journal.ready(1).is_ok() && journal.begin(base) == Ok(()));
    assert!(rt; journal.under_way() && !journal.whole());
    assert!(rt; journal.finish(&[Record::default()]) == Ok(()));
}

fn widen(rt: &impl Abort, journal: &mut Journal<MemoryDevice>, base: &[Record; 1]) {
    let limits: Limits = journal.limits();
    assert!(rt; journal.half() == Half::Zero && limits.games <= 8 && limits.plies <= 60);
    assert!(rt; EIGHT_AND_SIXTY.is_in_range(Version::Two));
    assert!(rt; journal.holds(EIGHT_AND_SIXTY) && snapshot_records(EIGHT_AND_SIXTY) >= 1);
    assert!(rt; journal.widen(EIGHT_AND_SIXTY, base) == Ok(()));
}

// An append, a compaction, a switch and a widening: each is a commit, and the last three change the half.
fn commit_all(rt: &impl Abort, alloc: Global, journal: &mut Journal<MemoryDevice>) {
    let one = [Record::default()];
    assert!(rt; journal.fits(1) && !journal.whole());
    assert!(rt; journal.append(&one) == Ok(()));
    compact(rt, alloc, journal);
    assert!(rt; journal.fits_switch(1, 1));
    assert!(rt; journal.switch(&one, &one) == Ok(()));
    widen(rt, journal, &one);
}

#[test]
fn commits_of_a_journal(rt: HostRuntime) {
    let made = formatted(&rt, rt.alloc(), 216);
    let mut journal = made.ok().expect(&rt, "a journal");
    commit_all(&rt, rt.alloc(), &mut journal);
    let found: Result<Opened<MemoryDevice>, Refused<MemoryDevice>> = open(
        rt.alloc(),
        journal.into_device(),
    );
    let Opened {
        journal,
        base,
        tail,
    } = found.ok().expect(&rt, "a journal");
    assert!(rt; journal.seq() == 5 && journal.half() == Half::One);
    assert!(rt; journal.version() == Version::Two && (base.len(), tail.len()) == (1, 0));
}

// The faults of a journal.
fn place(fault: JournalFault) -> u8 {
    match fault {
        JournalFault::Exists => 0,
        JournalFault::TooSmall => 1,
        JournalFault::NotOurs => 2,
        JournalFault::Damaged => 3,
        JournalFault::DeviceFault => 4,
        JournalFault::NoMemory => 5,
        JournalFault::Worn => 6,
        JournalFault::Failed => 7,
    }
}

#[test]
fn devices_that_are_refused(rt: HostRuntime) {
    let Refused { dev, fault } = formatted(&rt, rt.alloc(), 211)
        .err()
        .expect(&rt, "a refusal");
    assert!(rt; place(fault) == 1);
    let Refused { dev: _, fault } = open(rt.alloc(), dev).err().expect(&rt, "a refusal");
    assert!(rt; place(fault) == 2);
}
