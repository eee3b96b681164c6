//! Memory that is refused to clients over connections: `bench/crash/refused-memory` refuses each allocation in turn.
//! And a device that fails under them.
use crate::peers::{Gives, Takes};
use crate::playing::{Crowd, SECTORS, comes, nobody, nobody_over, take_turn};
use chess_hub::HubFault;
use chess_sockets::Reading;
use chess_store::StoreFault;
use sector_dev::{CrashDevice, MemoryDevice};
use std::alloc::Global;

const ANN: &[Gives] = &[
    Gives::Text("name ann\nopen white 300 0\n"),
    Gives::Text("na"),
    Gives::Text("me ann\n"),
    Gives::Nothing,
    Gives::Nothing,
    Gives::Nothing,
    Gives::Nothing,
    // By now bob has joined her game, also where a turn was lost.
    Gives::Text("move 1 0 e4\n"),
    Gives::Nothing,
];

const BOB: &[Gives] = &[
    Gives::Nothing,
    Gives::Text("name bob\n"),
    Gives::Text("open black 300 0\n"),
    Gives::Text("name bob\n"),
    Gives::Text("join 1\n"),
    Gives::Text("list\npgn 1\n"),
    Gives::Text("show 1\n"),
    Gives::Nothing,
    Gives::Text("move 1 1 e5\n"),
    Gives::Nothing,
];

/// How many answers each is to have.
static ANSWERS: [usize; 2] = [4, 8];

/// What was seen of a refusal: how many turns ended by want of memory; how many commands were answered so; how many
/// clients were closed; and how many answers are to lines that want what was refused.
type Seen = (u64, usize, usize, usize);

/// What is seen where no memory was refused.
const NOTHING: Seen = (0, 0, 0, 0);

// Whether one refusal, or none, came to this. Behind an `open` there are a join and two moves.
fn is_of_one_refusal((refusals, told, closed, behind): Seen) -> bool {
    match (refusals, told, closed) {
        (0, 0, 0) | (1, 0, 0) => behind == 0,
        (0, 1, 0) | (0, 0, 1) => behind <= 3,
        _ => false,
    }
}

// Whether a line is the first of an answer. The others are of a body.
fn is_first(line: &str) -> bool {
    line.starts_with("ok ") || line.starts_with("no ")
}

// The answers to lines that want what was refused: the game is one's own, or not one's own; nobody has joined it; or
// the other has not moved.
static BEHIND: [&str; 4] = [
    "no 16 SamePlayer",
    "no 4 NotSeated",
    "no 5 NotStarted",
    "no 7 WrongPly 0",
];

// How many answers there are, how many say that memory was refused, and how many are to lines that want what was.
// `None` where one is another than `ok` and these.
fn told_of(written: &[u8]) -> Option<[usize; 3]> {
    let (mut answers, mut refused, mut behind) = (0usize, 0usize, 0usize);
    for line in str::from_utf8(written).ok()?.lines() {
        if !is_first(line) {
            continue;
        }
        answers = answers.saturating_add(1);
        if line == "no 22 NoMemory" {
            refused = refused.saturating_add(1);
        } else if BEHIND.contains(&line) {
            behind = behind.saturating_add(1);
        } else if !line.starts_with("ok ") {
            return None;
        }
    }
    Some([answers, refused, behind])
}

// What is seen once all is served. `None` where a client that is open has not all its answers.
fn look(crowd: &Crowd) -> Option<Seen> {
    let (mut told, mut closed, mut behind) = (0usize, 0usize, 0usize);
    for (client, wanted) in crowd.clients.iter().zip(ANSWERS) {
        if !crowd.hub.is_open(client.sid()) {
            closed = closed.saturating_add(1);
            continue;
        }
        let [answers, refused, wants] = told_of(client.stream().written.as_slice())?;
        if answers != wanted {
            return None;
        }
        told = told.saturating_add(refused);
        behind = behind.saturating_add(wants);
    }
    Some((crowd.hub.refusals(), told, closed, behind))
}

// Serves both for so many turns that they have all their answers, and goes on where a turn was refused memory. A fault,
// where it is another.
fn serve(crowd: &mut Crowd) -> Result<(), HubFault> {
    for at in 1_000..1_020 {
        let reading = Reading {
            at,
            is_calm: false,
            silence: None,
        };
        match take_turn(crowd, reading) {
            Err(fault) if !fault.is_for_memory() => return Err(fault),
            _ => {}
        }
    }
    Ok(())
}

// What is seen of both once they are served. `None` where memory was refused before: that is no matter of serving.
fn served(alloc: Global) -> Option<Result<Option<Seen>, HubFault>> {
    let mut crowd = nobody(alloc)?;
    let has_begun = comes(&mut crowd, alloc, ANN, &Takes::All)
        && comes(&mut crowd, alloc, BOB, &Takes::All);
    let seen = match serve(&mut crowd) {
        Ok(()) => Ok(look(&crowd)),
        Err(fault) => Err(fault),
    };
    drop(crowd);
    if has_begun { Some(seen) } else { None }
}

#[test]
fn all_is_answered_where_no_memory_is_refused(rt: HostRuntime) {
    let seen = served(rt.alloc());
    assert!(rt; matches!(seen, Some(Ok(Some(seen))) if seen == NOTHING));
}

#[test]
fn refused_memory(rt: HostRuntime) {
    match served(rt.alloc()) {
        None => {}
        Some(Ok(Some(seen))) => assert!(rt; is_of_one_refusal(seen)),
        Some(Ok(None)) => panic!(rt; "answers are missing"),
        // The device in memory was refused it.
        Some(Err(fault)) => {
            assert!(rt; matches!(fault, HubFault::Store(StoreFault::Device { .. })));
        }
    }
}

// How serving ends over a device that fails behind so many calls. `None` where it failed before.
fn ended(alloc: Global, calls: u64) -> Option<Result<(), HubFault>> {
    let mut device = MemoryDevice::new(alloc, SECTORS).ok()?;
    device.arm(calls);
    let mut crowd = nobody_over(alloc, device)?;
    let has_begun = comes(&mut crowd, alloc, ANN, &Takes::All);
    let end = serve(&mut crowd);
    drop(crowd);
    if has_begun { Some(end) } else { None }
}

#[test]
fn a_device_that_fails_is_told(rt: HostRuntime) {
    let mut is_told = false;
    for calls in 0..40 {
        if let Some(Err(fault)) = ended(rt.alloc(), calls) {
            assert!(rt; matches!(fault, HubFault::Store(StoreFault::Device { .. })));
            is_told = true;
        }
    }
    assert!(rt; is_told);
}
