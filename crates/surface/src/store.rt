//! `chess_store`: a table whose commands last.
use chess_entry::{Command, Name};
use chess_hub::{Line, parse};
use chess_store::{Life, LifeReport, Lived, Plan, Refused, Report, Store, StoreFault, lives};
use chess_table::{Reply, Table};
use rec_codec::{Limits, Version};
use sector_dev::{Fate, MemoryDevice};
use std::alloc::Global;
use std::process::Abort;

/// A store in memory for 4 games of 60 moves, on a device of so many sectors.
pub fn created(
    rt: &impl Abort,
    alloc: Global,
    sectors: u32,
) -> Result<Store<MemoryDevice>, Refused<MemoryDevice>> {
    let device = MemoryDevice::new(alloc, sectors).expect(rt, "memory");
    let limits = Limits {
        games: 4,
        plies: 60,
    };
    assert!(rt; limits.is_in_range(Version::Two));
    Store::create(alloc, device, limits)
}

const OPENED: &str = "ann open white 300 0|bob join 1";

const MOVES: &str =
    "ann move 1 0 e4|bob move 1 1 e5|ann move 1 2 Nf3|bob move 1 3 Nc6|ann move 1 4 Bb5";

// The commands of a text, in which each line stands behind who sends it.
fn batch(rt: &impl Abort, alloc: Global, text: &str) -> Vec<Command> {
    let mut commands = Vec::new(alloc);
    for sent in text.split('|') {
        let (who, line) = sent.split_once(' ').expect(rt, "a line");
        let act = match parse(line.as_bytes()) {
            Some(Line::Act(act)) => act,
            _ => panic!(rt; "no act"),
        };
        let command = Command {
            at: 1_000,
            who: Name::try_new(who),
            act,
        };
        assert!(rt; commands.push(command).is_ok());
    }
    commands
}

fn submit(rt: &impl Abort, alloc: Global, store: &mut Store<MemoryDevice>, text: &str) -> usize {
    let commands = batch(rt, alloc, text);
    assert!(rt; 1 <= commands.len() && commands.len() <= 64);
    let replies: Result<Vec<Reply>, StoreFault> = store.submit(&commands);
    replies.ok().expect(rt, "replies").len()
}

// Greater limits need 216 sectors, which it has not.
fn check_widen(rt: &impl Abort, store: &mut Store<MemoryDevice>) {
    let limits: Limits = store.limits();
    let more = Limits {
        games: 8,
        plies: 60,
    };
    assert!(rt; more.is_in_range(Version::Two) && limits.games <= 8 && limits.plies <= 60);
    let widened: Result<(), StoreFault> = store.widen(more);
    assert!(rt; matches!(widened, Err(StoreFault::TooSmall)));
}

fn check_table(rt: &impl Abort, store: &Store<MemoryDevice>, entries: u64) {
    let table: Result<&Table, StoreFault> = store.table();
    assert!(rt; table.ok().expect(rt, "a table").entries() == entries);
}

#[test]
fn a_store_that_is_opened_again(rt: HostRuntime) {
    let mut store = created(&rt, rt.alloc(), 212).ok().expect(&rt, "a store");
    assert!(rt; submit(&rt, rt.alloc(), &mut store, OPENED) == 2);
    assert!(rt; submit(&rt, rt.alloc(), &mut store, MOVES) == 5);
    check_widen(&rt, &mut store);
    let found: Result<Store<MemoryDevice>, Refused<MemoryDevice>> = Store::open(
        rt.alloc(),
        store.into_device(),
    );
    check_table(&rt, &found.ok().expect(&rt, "a store"), 7);
}

// The faults of a store.
fn place(fault: StoreFault) -> u8 {
    match fault {
        StoreFault::Exists => 0,
        StoreFault::TooSmall => 1,
        StoreFault::NotOurs => 2,
        StoreFault::Damaged => 3,
        StoreFault::Device { pending: _ } => 4,
        StoreFault::NoMemory => 5,
        StoreFault::Worn => 6,
        StoreFault::Failed => 7,
    }
}

#[test]
fn devices_that_are_refused(rt: HostRuntime) {
    let Refused { dev, fault } = created(&rt, rt.alloc(), 211).err().expect(&rt, "a refusal");
    assert!(rt; place(fault) == 1);
    let Refused { dev: _, fault } = Store::open(rt.alloc(), dev).err().expect(&rt, "a refusal");
    assert!(rt; place(fault) == 2);
}

fn life(alloc: Global, calls: Option<u64>, batches: Vec<Vec<Command>>) -> Life {
    Life {
        calls,
        batches,
        fates: Vec::new(alloc),
    }
}

// What came of a life; beside it stands how often the device had failed by then.
fn told(report: LifeReport) -> (Option<u64>, [u64; 3]) {
    let LifeReport {
        opened,
        acknowledged,
        accepted,
        unsent,
        failures: _,
    } = report;
    (opened, [acknowledged, accepted, unsent])
}

// Both batches are submitted and not stopped; in the next life the device fails at once.
fn two_lives(rt: &impl Abort, alloc: Global) -> Plan {
    let both = [batch(rt, alloc, OPENED), batch(rt, alloc, MOVES)];
    let batches = Vec::from_array(alloc, both).expect(rt, "memory");
    let first = life(alloc, None, batches);
    let second = life(alloc, Some(0), Vec::new(alloc));
    Plan {
        lives: Vec::from_array(alloc, [first, second]).expect(rt, "memory"),
    }
}

fn check_report(rt: &impl Abort, report: &Report) {
    assert!(rt; report.lives.len() == 2 && report.kept == 7 && report.table.entries() == 7);
    assert!(rt; told(report.lives[0]) == (Some(0), [7, 7, 0]));
    assert!(rt; told(report.lives[1]) == (None, [0, 0, 0]));
}

#[test]
fn lives_of_a_store(rt: HostRuntime) {
    let store = created(&rt, rt.alloc(), 212).ok().expect(&rt, "a store");
    let plan = two_lives(&rt, rt.alloc());
    assert!(rt; plan.is_submittable());
    let lived: Lived<MemoryDevice> = lives(rt.alloc(), store.into_device(), &plan);
    let Lived { dev: _, report } = lived;
    check_report(&rt, &report.ok().expect(&rt, "a report"));
}
