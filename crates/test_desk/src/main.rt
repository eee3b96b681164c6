//! Plays what browsers, the server and the time do to a desk of three players, and writes what goes to the server and
//! what browsers are told; and makes PGNs of the archive.
//!
//! A line of standard input is `browser` (one more comes), `leave N`, `say N TEXT` (with `|` for a line feed),
//! `link N TOKEN TEXT` (it says a text that asks for a link or a player more, which is made with this token),
//! `renew ROW|ROW ..` (the players are these, each `NAME TOKEN ROLE FULL NAME`), `anew` (a desk begins with these
//! players), `wait MS` (so many milliseconds pass), `log full` and `log goes on` (there is no room for the log, and
//! there is), `hand REASON` and `hand` (all clocks are stopped by hand, and run), `here`, `gone` or `server LINE`. It
//! is written back behind `% `; then what goes to the server, each line behind `> `, and each message behind the numbers
//! of those who are told it, or behind `log`.
//!
//! Or it is `tag NAME VALUE` (event, site, date, round, white or black has this value from there on), `clocks` with
//! numbers of milliseconds (what the clocks showed after the moves of the next game, `-` where that is not known), or
//! `pgn TEXT` (a game's PGN of the server, with `|` for a line feed): behind this stands that of the archive, and no
//! clock is known any more.
#![tactic(auto)]

mod club;
mod play;
mod tags;

use anyhow::Result;
use command_lines::{NotDone, end_of};
use play::Play;
use std::io::{self, BufRead, BufReader, Write};
use std::process::ExitCode;

fn main(rt: HostRuntime) -> ExitCode {
    end_of(&rt, "test_desk", run(&rt).map_err(NotDone::Work))
}

fn run(rt: &HostRuntime) -> Result<()> {
    let mut play = Play::new(rt.alloc())?;
    for line in BufReader::new(rt.alloc(), rt.reader())?.lines(rt.alloc()) {
        let line = line?;
        let text = play.told_of(line.as_str())?;
        io::writer(rt).write_all(text.as_str().as_bytes())?;
    }
    Ok(())
}
