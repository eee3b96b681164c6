//! Sessions on a hub in memory, and runs. In TEXT `\n` is a line feed, `\r` a carriage return, `\\` a backslash, and
//! `\xNN` the byte with these two digits; it may be left out.
//!
//! - `store SECTORS GAMES PLIES CALLS`: what the hubs and runs after it stand on, a new store each, on a device that
//!   serves so many calls more once the store is open, `-` for all;
//! - `hub`: a new hub; `connect`, `open SID`, `feed SID TEXT`, `turn MOMENT MOST`, `output SID` (all answers that are
//!   to be given), `waiting SID`, `ended SID`, `close SID`;
//! - `run READER WRITER MOMENTS TEXT`: a run over a new store from this text. READER and WRITER are `BYTES`, so many at
//!   a time; `BYTES!COUNT`, which fails after so many; `~` before it, interrupted before each. MOMENTS are numbers with
//!   commas between, `-` for none.
use crate::memory::{opened, store_in_memory};
use chess_hub::{Hub, HubFault, ListMoments, RunFault, run};
use chess_store::Store;
use sector_dev::{CrashDevice, MemoryDevice};
use std::alloc::{AllocError, Global};
use std::mem;
use test_lines::escapes::bytes_of;
use test_lines::streams::{Sink, Source, read_manner};
use test_lines::{Fault, SMALL, Size, fault_text, push_reply, read_calls, read_size, split};

/// What hubs and runs stand on.
#[derive(Clone, Copy)]
struct Ground {
    size: Size,
    /// So many calls more the device serves.
    calls: Option<u64>,
}

/// A hub in memory, and what the next stands on.
#[derive(Drop)]
pub struct HubPlayer {
    alloc: Global,
    ground: Ground,
    hub: Option<Hub<MemoryDevice>>,
}

// The moments that a text names.
fn moments_of(alloc: Global, text: &str) -> Result<Vec<u64>, Fault> {
    let mut moments = Vec::new(alloc);
    if text == "-" {
        return Ok(moments);
    }
    for field in text.split(',') {
        match field.parse::<u64>() {
            Ok(moment) => moments.push(moment).map_err(AllocError::from)?,
            Err(_) => return Err(Fault::Input),
        }
    }
    Ok(moments)
}

// `SECTORS GAMES PLIES CALLS`, the limits in range.
fn read_ground(text: &str) -> Result<Ground, Fault> {
    let Some((size, calls)) = text.rsplit_once(' ') else {
        return Err(Fault::Input);
    };
    Ok(Ground {
        size: read_size(size)?,
        calls: read_calls(calls)?,
    })
}

// A new store.
fn store_on(alloc: Global, ground: &Ground) -> Result<Store<MemoryDevice>, Fault> {
    let store = store_in_memory(alloc, &ground.size)?;
    let Some(calls) = ground.calls else {
        return Ok(store);
    };
    // Of an empty store an opening takes three calls.
    let mut device = store.into_device();
    device.arm(calls.saturating_add(3));
    opened(alloc, Store::open(alloc, device))
}

impl HubPlayer {
    /// Without a hub.
    pub fn new(alloc: Global) -> HubPlayer {
        HubPlayer {
            alloc,
            ground: Ground {
                size: SMALL,
                calls: None,
            },
            hub: None,
        }
    }

    /// What a line answers.
    pub fn play(&mut self, line: &str) -> Result<String, Fault> {
        let (word, rest) = split(line);
        match word {
            "store" => self.ground = read_ground(rest)?,
            "hub" => self.begin()?,
            "run" => return self.run(rest),
            _ => {
                return match &mut self.hub {
                    Some(hub) => play_on(self.alloc, hub, word, rest),
                    None => Err(Fault::Input),
                };
            }
        }
        Ok(String::new(self.alloc))
    }

    // Begins a new hub. (The one before goes by a call: an assignment lets go of each part.)
    fn begin(&mut self) -> Result<(), Fault> {
        let store = store_on(self.alloc, &self.ground)?;
        drop(mem::replace(&mut self.hub, Some(Hub::new(self.alloc, store))));
        Ok(())
    }

    // `READER WRITER MOMENTS TEXT`.
    fn run(&self, text: &str) -> Result<String, Fault> {
        let (reader, rest) = split(text);
        let (writer, rest) = split(rest);
        let (moments, text) = split(rest);
        let (reader, writer) = (read_manner(reader)?, read_manner(writer)?);
        let bytes = bytes_of(self.alloc, text)?;
        let moments = moments_of(self.alloc, moments)?;
        let store = store_on(self.alloc, &self.ground)?;
        let mut sink = Sink::new(self.alloc, writer);
        let ended = run_from(
            self.alloc,
            Source::new(&bytes, reader),
            &mut sink,
            store,
            &moments,
        );
        run_text(self.alloc, &sink.written, &ended)
    }
}

// How a run over a store ends, from a source to a sink at these moments.
fn run_from(
    alloc: Global,
    mut source: Source<'_>,
    sink: &mut Sink,
    store: Store<MemoryDevice>,
    moments: &[u64],
) -> Result<(), RunFault> {
    run(alloc, &mut source, sink, store, ListMoments::new(moments))
}

// What a run has written, and how it ended.
fn run_text(alloc: Global, written: &[u8], ended: &Result<(), RunFault>) -> Result<String, Fault> {
    match str::from_utf8(written) {
        Ok(written) => Ok(format!(in alloc; "{written}|\n{ended:?}\n")?),
        Err(_) => Err(Fault::Input),
    }
}

// What is told of a call that may be refused.
fn called_text(alloc: Global, called: Result<(), HubFault>) -> Result<String, Fault> {
    match called {
        Ok(()) => Ok(String::new(alloc)),
        Err(fault) => fault_text(alloc, &fault),
    }
}

// A call of a hub, by its word.
fn play_on(
    alloc: Global,
    hub: &mut Hub<MemoryDevice>,
    word: &str,
    rest: &str,
) -> Result<String, Fault> {
    match word {
        "connect" => match hub.connect() {
            Ok(sid) => Ok(format!(in alloc; "session {sid}\n")?),
            Err(fault) => fault_text(alloc, &fault),
        },
        "turn" => turn(alloc, hub, rest),
        "feed" => feed(alloc, hub, rest),
        _ => play_session(alloc, hub, word, rest.parse::<usize>()?),
    }
}

// A call by a session, by its word.
fn play_session(
    alloc: Global,
    hub: &mut Hub<MemoryDevice>,
    word: &str,
    sid: usize,
) -> Result<String, Fault> {
    if word == "open" {
        return Ok(format!(in alloc; "open {}\n", hub.is_open(sid))?);
    }
    if !hub.is_open(sid) {
        return Err(Fault::Input);
    }
    match word {
        "output" => output(alloc, hub, sid),
        "waiting" => Ok(format!(in alloc; "waiting {}\n", hub.waiting(sid))?),
        "ended" => Ok(format!(in alloc; "ended {}\n", hub.ended(sid))?),
        "close" => {
            hub.close(sid);
            Ok(String::new(alloc))
        }
        _ => Err(Fault::Input),
    }
}

// `MOMENT MOST`, of 1 to 64 lines.
fn turn(alloc: Global, hub: &mut Hub<MemoryDevice>, text: &str) -> Result<String, Fault> {
    let (at, most) = split(text);
    let (at, most) = (at.parse::<u64>()?, most.parse::<usize>()?);
    if most < 1 || most > 64 {
        return Err(Fault::Input);
    }
    called_text(alloc, hub.turn(at, most))
}

// `SID TEXT`.
fn feed(alloc: Global, hub: &mut Hub<MemoryDevice>, text: &str) -> Result<String, Fault> {
    let (sid, text) = split(text);
    let sid = sid.parse::<usize>()?;
    let bytes = bytes_of(alloc, text)?;
    if !hub.is_open(sid) || bytes.len() > 4096 {
        return Err(Fault::Input);
    }
    called_text(alloc, hub.feed(sid, &bytes))
}

// All answers that are to be given.
fn output(alloc: Global, hub: &mut Hub<MemoryDevice>, sid: usize) -> Result<String, Fault> {
    let mut text = String::new(alloc);
    for _ in 0..u32::MAX {
        if !hub.is_open(sid) {
            return Err(Fault::Input);
        }
        match hub.output(sid) {
            Some(reply) => push_reply(&mut text, &reply)?,
            None => return Ok(format!(in alloc; "to {sid}:\n{}", text.as_str())?),
        }
    }
    Err(Fault::Input)
}
