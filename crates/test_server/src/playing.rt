//! A hub and its clients, and what is done with them.
use crate::peers::{Gives, Peer, Takes, made};
use chess_hub::{Hub, HubFault};
use chess_sockets::{Client, Reading, serve_clients};
use chess_store::Store;
use rec_codec::Limits;
use sector_dev::MemoryDevice;
use std::alloc::Global;
use std::process::Abort;

/// A hub and its clients.
#[derive(Drop)]
pub struct Crowd {
    pub hub: Hub<MemoryDevice>,
    pub clients: Vec<Client<Peer>>,
    /// The moment of the next turn, in milliseconds.
    pub at: u64,
}

const LIMITS: Limits = Limits {
    games: 4,
    plies: 60,
};

/// So many sectors the limits need.
pub const SECTORS: u32 = 212;

/// A hub over an empty table, without clients. `None` where memory is refused.
pub fn nobody(alloc: Global) -> Option<Crowd> {
    nobody_over(alloc, MemoryDevice::new(alloc, SECTORS).ok()?)
}

/// Such a hub on this device. `None` where memory is refused, or the device fails.
pub fn nobody_over(alloc: Global, device: MemoryDevice) -> Option<Crowd> {
    let Ok(store) = Store::create(alloc, device, LIMITS) else {
        return None;
    };
    Some(Crowd {
        hub: Hub::new(alloc, store),
        clients: Vec::new(alloc),
        at: 1_000,
    })
}

/// Whether a client more is served.
pub fn comes(
    crowd: &mut Crowd,
    alloc: Global,
    gives: &'static [Gives],
    takes: &'static Takes,
) -> bool {
    match crowd.hub.connect() {
        Ok(sid) => {
            let client = Client::new(alloc, made(alloc, gives, takes), sid, crowd.at);
            crowd.clients.push(client).is_ok()
        }
        Err(_) => false,
    }
}

/// Takes a turn.
pub fn take_turn(crowd: &mut Crowd, reading: Reading) -> Result<(), HubFault> {
    match serve_clients(&mut crowd.clients, &mut crowd.hub, reading) {
        Ok(_) => Ok(()),
        Err(fault) => Err(fault),
    }
}

/// So many turns, so many milliseconds apart; whether a calm rest comes before each; and for how long a client may be
/// silent.
pub type Turns = (u64, u64, bool, Option<u64>);

/// What is done with a crowd, and what is seen of it.
#[derive(Clone, Copy)]
pub enum Step {
    /// So many clients come, each of which gives and takes this.
    Come(usize, &'static [Gives], &'static Takes),
    Turns(Turns),
    /// A client by its place is open or not, and was written so many lines, which are all that it was written.
    Client(usize, bool, &'static str, Option<usize>),
    /// A client was read so often.
    Read(usize, usize),
    /// A client was written so many bytes, and these are the last of them.
    Written(usize, usize, &'static str),
    /// Each was written so many lines at least, so many at most, and all together so many.
    Lines(&'static str, usize, usize, usize),
}

/// How often a line stands in a text of such lines alone.
fn count_lines(written: &[u8], line: &str) -> Option<usize> {
    let line = line.as_bytes();
    if line.is_empty() || written.len() % line.len() != 0 {
        return None;
    }
    for (place, byte) in written.iter().enumerate() {
        if *byte != line[place % line.len()] {
            return None;
        }
    }
    Some(written.len() / line.len())
}

fn take_turns(rt: &impl Abort, crowd: &mut Crowd, (count, step, is_calm, silence): Turns) {
    for _ in 0..count {
        let reading = Reading {
            at: crowd.at,
            is_calm,
            silence,
        };
        assert!(rt; take_turn(crowd, reading).is_ok());
        crowd.at = crowd.at.saturating_add(step);
    }
}

fn check_lines(
    rt: &impl Abort,
    clients: &[Client<Peer>],
    line: &str,
    least: usize,
    most: usize,
) -> usize {
    let mut all = 0usize;
    for client in clients {
        let lines = count_lines(&client.stream().written, line).expect(rt, "lines");
        assert!(rt; least <= lines && lines <= most);
        all = all.saturating_add(lines);
    }
    all
}

// Whether this is seen of a client.
fn is_seen(crowd: &Crowd, client: &Client<Peer>, step: Step) -> bool {
    let peer = client.stream();
    let written = peer.written.as_slice();
    match step {
        Step::Client(_, is_open, line, lines) => {
            crowd.hub.is_open(client.sid()) == is_open && count_lines(written, line) == lines
        }
        Step::Read(_, reads) => peer.reads == reads,
        Step::Written(_, length, end) => {
            written.len() == length && written.ends_with(end.as_bytes())
        }
        _ => false,
    }
}

fn take(rt: &impl Abort, alloc: Global, crowd: &mut Crowd, step: Step) {
    match step {
        Step::Come(count, gives, takes) => {
            for _ in 0..count {
                assert!(rt; comes(crowd, alloc, gives, takes));
            }
        }
        Step::Turns(turns) => take_turns(rt, crowd, turns),
        Step::Client(place, ..) | Step::Read(place, _) | Step::Written(place, ..) => {
            let client = crowd.clients.get(place).expect(rt, "a client");
            assert!(rt; is_seen(crowd, client, step));
        }
        Step::Lines(line, least, most, all) => {
            assert!(rt; check_lines(rt, &crowd.clients, line, least, most) == all);
        }
    }
}

/// Takes steps with a hub that has no clients.
pub fn play(rt: &impl Abort, alloc: Global, steps: &[Step]) {
    let mut crowd = nobody(alloc).expect(rt, "a hub");
    for step in steps {
        take(rt, alloc, &mut crowd, *step);
    }
    drop(crowd);
}
