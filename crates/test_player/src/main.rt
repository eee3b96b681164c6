//! Plays lines of standard input, for tests by whole runs and for measuring. A line `play WORD` says on what the lines
//! after it are played, anew: a table in memory (`table`), a store in memory (`store`), lives of a store (`lives`), a
//! hub (`hub`), a server over loopback (`sockets`), journals and stores on files (`files`). The head of each of these
//! modules has its lines. What a line answers is written; one that cannot be played is the last, and standard error
//! says why.
#![tactic(auto)]

mod files;
mod hub;
mod lives;
mod memory;
mod socket_lines;
mod store;
mod table;

use files::FilePlayer;
use hub::HubPlayer;
use lives::LivesPlayer;
use socket_lines::SocketPlayer;
use std::mem;
use std::process::ExitCode;
use store::StorePlayer;
use table::TablePlayer;
use test_lines::{Fault, LinePlayer, play_lines};

/// On what lines are played.
#[derive(Drop)]
enum Playing<'a> {
    Nothing,
    Table(TablePlayer),
    Store(StorePlayer),
    Lives(LivesPlayer),
    Hub(HubPlayer),
    Sockets(SocketPlayer<'a>),
    Files(FilePlayer<'a>),
}

impl<'a> Playing<'a> {
    // What a word names, anew.
    fn begin(rt: &'a HostRuntime, word: &str) -> Result<Playing<'a>, Fault> {
        let alloc = rt.alloc();
        match word {
            "table" => Ok(Playing::Table(TablePlayer::new(alloc))),
            "store" => Ok(Playing::Store(StorePlayer::new(alloc))),
            "lives" => Ok(Playing::Lives(LivesPlayer::new(alloc))),
            "hub" => Ok(Playing::Hub(HubPlayer::new(alloc))),
            "sockets" => match SocketPlayer::begin(rt, None) {
                Some(player) => Ok(Playing::Sockets(player)),
                None => Err(Fault::Input),
            },
            "files" => Ok(Playing::Files(FilePlayer::new(rt))),
            _ => Err(Fault::Input),
        }
    }

    // What a line answers.
    fn play(&mut self, line: &str) -> Result<String, Fault> {
        match self {
            Playing::Nothing => Err(Fault::Input),
            Playing::Table(player) => player.play(line),
            Playing::Store(player) => player.play(line),
            Playing::Lives(player) => player.play(line),
            Playing::Hub(player) => player.play(line),
            Playing::Sockets(player) => player.play(line),
            Playing::Files(player) => player.play(line),
        }
    }
}

/// Plays the lines of the whole input.
#[derive(Drop)]
struct Player<'a> {
    rt: &'a HostRuntime,
    playing: Playing<'a>,
}

impl Player<'_> {
    // Begins what a word names. (What was played on before goes by a call: an assignment lets go of each part.)
    fn begin(&mut self, word: &str) -> Result<(), Fault> {
        let playing = Playing::begin(self.rt, word)?;
        drop(mem::replace(&mut self.playing, playing));
        Ok(())
    }
}

impl<'a> LinePlayer for Player<'a> {
    fn play(&mut self, line: &str) -> Result<String, Fault> {
        if let Some(word) = line.strip_prefix("play ") {
            self.begin(word)?;
            return Ok(String::new(self.rt.alloc()));
        }
        self.playing.play(line)
    }
}

fn main(rt: HostRuntime) -> ExitCode {
    let mut player = Player {
        rt: &rt,
        playing: Playing::Nothing,
    };
    let ended = play_lines(&rt, rt.alloc(), &mut player);
    drop(player);
    ended
}
