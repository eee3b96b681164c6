//! How many games the server has, as its answer to `list` tells.
ghost use Rattle.std.specs.Prelude.{◌≡◌};
ghost use Rattle.lobby_serving.specs.Listing.{waits, first_told, row_told};

use server_answers::{Row, list_head_of, row_of};
use std::alloc::{AllocError, Global};
use std::str;

/// How many games are on the server's table, and how many of these wait for a second player: of their two seats one
/// alone is empty.
#[derive(Clone, Copy, PartialEq, Eq)]
pub struct Games {
    pub all: u64,
    pub waiting: u64,
}

/// What bytes of the server have told.
#[derive(Clone, Copy, PartialEq, Eq)]
pub enum Told {
    /// The answer is not whole yet.
    Nothing,
    Games(Games),
    /// It is no list: its first line is another, or one behind it is no row.
    NoList,
}

/// The most bytes of a line of a list.
const LINE_MOST: usize = 255;

/// An answer to `list` that comes, piece by piece. Of its lines none is kept.
#[derive(Drop)]
pub struct Listing {
    // What came behind the last whole line.
    held: Vec<u8>,
    // What the lines told, and how many rows came; none before the first line.
    games: Option<Games>,
    rows: u64,
}

// Whether a game waits: one seat alone is empty.
fn waits(row: &Row) -> bool
    ensures { result ≡ waits row.now }
{
    row.seats.white.is_some() != row.seats.black.is_some()
}

// What the first line of an answer tells, where it is a list's.
fn first_told(first: &str) -> Option<Games>
    ensures { result ≡ first_told first.now }
{
    let rows = list_head_of(first)?;
    Some(Games {
        all: u64::from(rows),
        waiting: 0,
    })
}

// What is told once a line more has come, where it is a row.
fn row_told(before: Games, line: &str) -> Option<Games>
    ensures { result ≡ row_told before line.now }
{
    // (the prover takes no `?` of a row, which has names)
    match row_of(line) {
        Some(row) => Some(Games {
            all: before.all,
            waiting: before.waiting.saturating_add(u64::from(waits(&row))),
        }),
        None => None,
    }
}

impl Listing {
    /// Nothing has come.
    pub fn new(alloc: Global) -> Listing {
        Listing {
            held: Vec::new(alloc),
            games: None,
            rows: 0,
        }
    }

    // A line has come, without its line feed.
    fn line(&mut self) -> Told {
        let Ok(line) = str::from_utf8(self.held.as_slice()) else {
            return Told::NoList;
        };
        let told = match self.games {
            None => first_told(line),
            Some(before) => {
                self.rows = self.rows.saturating_add(1);
                row_told(before, line)
            }
        };
        let Some(games) = told else {
            return Told::NoList;
        };
        self.held.clear();
        self.games = Some(games);
        if self.rows >= games.all {
            Told::Games(games)
        } else {
            Told::Nothing
        }
    }

    // A byte has come.
    fn byte(&mut self, byte: u8) -> Result<Told, AllocError> {
        if byte == b'\n' {
            return Ok(self.line());
        }
        if self.held.len() >= LINE_MOST {
            return Ok(Told::NoList);
        }
        self.held.push(byte)?;
        Ok(Told::Nothing)
    }

    /// Takes bytes, up to the end of the answer. After that it is fit for nothing but to be dropped.
    pub fn take(&mut self, bytes: &[u8]) -> Result<Told, AllocError> {
        for byte in bytes {
            let told = self.byte(*byte)?;
            if told != Told::Nothing {
                return Ok(told);
            }
        }
        Ok(Told::Nothing)
    }
}
