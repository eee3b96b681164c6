//! A server and its clients over loopback, in one thread. A line is one of these:
//!
//! - clients' letters, a space and what these clients do, one after the other (`Clients::act`);
//! - `turns`: the server takes turns until nothing more comes, and what came to each client is written, its letter
//!   before each line, the clients in the order in which they connected;
//! - `turns COUNT`: the server takes so many turns, and no rest;
//! - `told`: what came to each client is written, as above, and the server takes no turn;
//! - clients' letters and ` ?`: the server takes turns until each of these clients has a line or its end, and what came
//!   to each client is written, as above. After 1,000 turns the run ends;
//! - `away`: how many connections were turned away since the server began is written; `elsewhere`: whether it is
//!   reached by another address of this machine;
//! - `moment MOMENT`: that of the turns from now on, in milliseconds, 1,000 at first;
//! - `silence COUNT`: a new server, without clients and over a new store, closes who is silent for so many
//!   milliseconds; with 0 nobody.
use crate::memory::store_in_memory;
use chess_hub::Hub;
use chess_sockets::{Server, Turned};
use sector_dev::MemoryDevice;
use sockets::LocalListener;
use std::mem;
use test_lines::clients::Clients;
use test_lines::{Fault, SMALL};

/// The first turns' moment.
const MOMENT: u64 = 1_000;

/// More turns than any `turns` calls for.
const TURNS: u32 = 10_000;

/// So many turns on end that find nothing to do, and a rest after each, are the end.
const IDLE_TURNS: u32 = 5;

/// Within so many turns, and a rest after each that finds nothing to do, a client has its answer.
const ANSWER_TURNS: u32 = 1_000;

// A server on this listener, over a new store in memory.
fn start(
    rt: &HostRuntime,
    listener: LocalListener,
    silence: Option<u64>,
) -> Option<Server<MemoryDevice>> {
    let alloc = rt.alloc();
    let store = store_in_memory(alloc, &SMALL).ok()?;
    Server::new(rt, alloc, listener, silence, Hub::new(alloc, store)).ok()
}

/// A server, its clients, and the moment of its turns.
#[derive(Drop)]
pub struct SocketPlayer<'a> {
    rt: &'a HostRuntime,
    server: Server<MemoryDevice>,
    clients: Clients,
    at: u64,
}

impl<'a> SocketPlayer<'a> {
    /// A server without clients; with `silence` it closes who is silent for so many milliseconds.
    pub fn begin(rt: &'a HostRuntime, silence: Option<u64>) -> Option<SocketPlayer<'a>> {
        let listener = LocalListener::bind(rt, 0).ok()?;
        let clients = Clients::new(rt.alloc(), listener.port().ok()?);
        let server = start(rt, listener, silence)?;
        Some(SocketPlayer {
            rt,
            server,
            clients,
            at: MOMENT,
        })
    }

    // Takes a turn, and a rest where it found nothing to do.
    fn take_turn(&mut self) -> Option<Turned> {
        let turned = self.server.turn(self.at).ok()?;
        if turned == Turned::Idle {
            self.server.rest();
        }
        Some(turned)
    }

    // Takes turns until nothing more comes.
    fn take_turns(&mut self) -> Option<()> {
        // What the clients sent comes before the first turn.
        self.server.rest();
        self.server.rest();
        let mut left = IDLE_TURNS;
        for _ in 0..TURNS {
            left = match self.take_turn()? {
                Turned::Worked => IDLE_TURNS,
                Turned::Idle => left.saturating_sub(1),
            };
            if left == 0 {
                return Some(());
            }
        }
        None
    }

    // Takes so many turns.
    fn take_turns_alone(&mut self, count: u32) -> Option<()> {
        for _ in 0..count {
            self.server.turn(self.at).ok()?;
        }
        Some(())
    }

    // Takes turns until each of these letters' clients has a line or its end; `None` where they are too many.
    fn take_turns_for(&mut self, letters: &str) -> Option<()> {
        for _ in 0..ANSWER_TURNS {
            self.take_turn()?;
            if self.clients.have_heard(letters).ok()? {
                return Some(());
            }
        }
        None
    }

    // A server in place of this one, without clients and over a new store.
    fn begin_anew(&mut self, silence: u64) -> Option<()> {
        let silence = if silence == 0 { None } else { Some(silence) };
        let player = SocketPlayer::begin(self.rt, silence)?;
        drop(mem::replace(self, player));
        Some(())
    }

    /// What a line answers.
    pub fn play(&mut self, line: &str) -> Result<String, Fault> {
        self.answer(line).ok_or(Fault::Input)
    }

    // What a line answers; `None` where it cannot be played.
    fn answer(&mut self, line: &str) -> Option<String> {
        match line.split_once(" ") {
            None => self.answer_word(line),
            Some((word, rest)) => self.answer_words(word, rest),
        }
    }

    // What a line of one word answers.
    fn answer_word(&mut self, word: &str) -> Option<String> {
        let alloc = self.rt.alloc();
        match word {
            "turns" => {
                self.take_turns()?;
                self.clients.told().ok()
            }
            "told" => self.clients.told().ok(),
            "away" => format!(in alloc; "away {}\n", self.server.turned_away()).ok(),
            "elsewhere" => {
                format!(in alloc; "elsewhere {}\n", self.clients.reach_elsewhere(self.rt)).ok()
            }
            _ => None,
        }
    }

    // What a line of several words answers.
    fn answer_words(&mut self, word: &str, rest: &str) -> Option<String> {
        match (word, rest) {
            ("turns", count) => self.take_turns_alone(count.parse().ok()?)?,
            ("moment", moment) => self.at = moment.parse().ok()?,
            ("silence", count) => self.begin_anew(count.parse().ok()?)?,
            (letters, "?") => {
                self.take_turns_for(letters)?;
                return self.clients.told().ok();
            }
            (letters, text) => self.clients.act(self.rt, letters, text).ok()?,
        }
        Some(String::new(self.rt.alloc()))
    }
}
