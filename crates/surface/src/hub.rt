//! `chess_hub`: sessions over a store, and one session from a reader to a writer.
use crate::store::created;
use chess_hub::{Hub, HubFault, Line, ListMoments, Moments, RunFault, Sid, parse, run};
use chess_table::Reply;
use sector_dev::MemoryDevice;
use std::process::Abort;

// Whether a line gives its session a name.
fn is_called(line: &[u8]) -> bool {
    matches!(parse(line), Some(Line::Called(_)))
}

fn feed(rt: &impl Abort, hub: &mut Hub<MemoryDevice>, sid: Sid, piece: &str) {
    assert!(rt; hub.is_open(sid) && piece.len() <= 4_096);
    assert!(rt; hub.feed(sid, piece.as_bytes()).is_ok());
}

// The next answer of a session is this.
fn check_answer(rt: &impl Abort, hub: &mut Hub<MemoryDevice>, sid: Sid, wanted: &str) {
    assert!(rt; hub.is_open(sid));
    let reply: Option<Reply> = hub.output(sid);
    assert!(rt; reply.expect(rt, "an answer").line.as_str() == wanted);
}

fn connected(rt: &impl Abort, hub: &mut Hub<MemoryDevice>) -> Sid {
    let sid: Result<Sid, HubFault> = hub.connect();
    sid.ok().expect(rt, "a session")
}

// Two sessions whose lines come in pieces.
fn check_pieces(rt: &impl Abort, hub: &mut Hub<MemoryDevice>) {
    let (a, b) = (connected(rt, hub), connected(rt, hub));
    for (sid, piece) in [
        (a, "name ann\nopen wh"),
        (b, "name bob\njo"),
        (a, "ite 300 0\n"),
        (b, "in 1\n"),
    ] {
        feed(rt, hub, sid, piece);
    }
    let turned: Result<(), HubFault> = hub.turn(1_000, 64);
    assert!(rt; turned.is_ok());
    for (sid, wanted) in [
        (a, "ok name ann"),
        (b, "ok name bob"),
        (a, "ok open 1"),
        (b, "ok join 1 black"),
    ] {
        check_answer(rt, hub, sid, wanted);
    }
}

const LONG: &str = "\
xxxxxxxxxxxxxxxxxxxxxxxxxxxxxxxxxxxxxxxxxxxxxxxxxxxxxxxxxxxxxxxx\
xxxxxxxxxxxxxxxxxxxxxxxxxxxxxxxxxxxxxxxxxxxxxxxxxxxxxxxxxxxxxxxx\
xxxxxxxxxxxxxxxxxxxxxxxxxxxxxxxxxxxxxxxxxxxxxxxxxxxxxxxxxxxxxxxx\
xxxxxxxxxxxxxxxxxxxxxxxxxxxxxxxxxxxxxxxxxxxxxxxxxxxxxxxxxxxxxxxx";

// A line that is too long, for which there is an answer without a turn.
fn check_long(rt: &impl Abort, hub: &mut Hub<MemoryDevice>) {
    let sid = connected(rt, hub);
    feed(rt, hub, sid, LONG);
    assert!(rt; hub.is_open(sid));
    assert!(rt; hub.waiting(sid) == 0 && !hub.ended(sid));
    check_answer(rt, hub, sid, "bye LineTooLong");
    assert!(rt; hub.is_open(sid) && hub.ended(sid));
    let is_long = matches!(hub.feed(sid, b"list\n"), Err(HubFault::LineTooLong));
    assert!(rt; is_long);
    assert!(rt; hub.is_open(sid));
    hub.close(sid);
    assert!(rt; !hub.is_open(sid));
}

#[test]
fn sessions_of_a_hub(rt: HostRuntime) {
    let store = created(&rt, rt.alloc(), 212).ok().expect(&rt, "a store");
    let mut hub = Hub::new(rt.alloc(), store);
    check_pieces(&rt, &mut hub);
    check_long(&rt, &mut hub);
    drop(hub);
}

// The faults of a session from a reader to a writer.
fn place(fault: RunFault) -> u8 {
    match fault {
        RunFault::Read => 0,
        RunFault::Write => 1,
        RunFault::Hub(HubFault::Busy | HubFault::NoMemory) => 2,
        RunFault::Hub(HubFault::LineTooLong) => 3,
        RunFault::Hub(HubFault::Store(_)) => 4,
        RunFault::LineTooLong => 5,
    }
}

#[test]
fn a_session_from_a_reader(rt: HostRuntime) {
    let store = created(&rt, rt.alloc(), 212).ok().expect(&rt, "a store");
    let mut moments = ListMoments::new(&[1_000, 2_000]);
    assert!(rt; moments.next() == 1_000);
    let mut reader = b"list\nlis".as_slice();
    let mut written = Vec::new(rt.alloc());
    let ran: Result<(), RunFault> = run(rt.alloc(), &mut reader, &mut written, store, moments);
    assert!(rt; ran.is_ok() && written.as_slice() == b"ok list 0\n".as_slice());
    assert!(rt; place(RunFault::LineTooLong) == 5 && is_called(b"name ann"));
}
