//! What is told of the table.
use anyhow::Result;
use night_links::{Answer, Link, refused};
use night_rounds::{Row, Seats};
use server_answers::{Ending, Refusal, list_head_of, pgn_head_of, refusal_of, row_of, shown_of};
use std::alloc::{AllocError, Global};
use text_parts::parts;

/// Who is asked of the table: the server, or the lobby before it.
pub trait Table {
    /// The answer to a line.
    fn ask(&mut self, line: &str) -> Result<Answer>;
}

impl Table for Link {
    fn ask(&mut self, line: &str) -> Result<Answer> {
        Link::ask(self, line)
    }
}

// The game of a line of the list.
fn row_in(line: &str) -> Result<Row> {
    match row_of(line) {
        Some(row) => Ok(Row {
            game: row.game,
            white: row.seats.white,
            black: row.seats.black,
        }),
        None => anyhow::bail!("the list has a row of another form: {line:?}"),
    }
}

// Puts the games of these lines behind others.
fn put_rows(rows: &mut Vec<Row>, lines: &[&str]) -> Result<()> {
    for line in lines {
        let row = row_in(line)?;
        rows.extend_from_slice(&[row])?;
    }
    Ok(())
}

// The games of the server's list.
fn rows_in(alloc: Global, list: &str) -> Result<Vec<Row>> {
    let lines = parts(alloc, list, '\n')?;
    let mut rows = Vec::new(alloc);
    put_rows(&mut rows, lines.as_slice())?;
    Ok(rows)
}

fn list<T: Table>(alloc: Global, table: &mut T) -> Result<Vec<Row>> {
    let answer = table.ask("list")?;
    if list_head_of(answer.first.as_str()).is_none() {
        return Err(refused("list", answer.first.as_str()));
    }
    rows_in(alloc, answer.behind.as_str())
}

/// The games of the table. Where the look `settles`, what an earlier connection sent is among them: who is asked has
/// taken that before its second answer on this one.
pub fn look<T: Table>(alloc: Global, table: &mut T, settles: bool) -> Result<Vec<Row>> {
    if settles {
        list(alloc, table)?;
    }
    list(alloc, table)
}

/// How a game stands: who sits in it, how many moves were made, and how it ended.
#[derive(Drop)]
pub struct Shown {
    pub seats: Seats,
    pub plies: u32,
    /// None while it goes on.
    pub ending: Option<Ending>,
}

// How a game stands by the answer to a line that asks for it; none where it is not on the table.
fn shown_in(line: &str, first: &str) -> Result<Option<Shown>> {
    if let Some(Refusal::NoGame) = refusal_of(first) {
        return Ok(None);
    }
    match shown_of(first) {
        Some(shown) => Ok(Some(Shown {
            seats: Seats {
                white: shown.seats.white,
                black: shown.seats.black,
            },
            plies: shown.ply,
            ending: shown.ending,
        })),
        None => Err(refused(line, first)),
    }
}

/// How a game stands; none where it is not on the table.
pub fn show_game<T: Table>(alloc: Global, table: &mut T, game: u32) -> Result<Option<Shown>> {
    let line = format!(in alloc; "show {game}")?;
    let answer = table.ask(line.as_str())?;
    shown_in(line.as_str(), answer.first.as_str())
}

// Whether a line of a PGN is the tag of these times.
fn is_tag_of(line: &str, times: &str) -> bool {
    match line.strip_prefix("[TimeControl \"") {
        Some(behind) => behind.strip_suffix("\"]") == Some(times),
        None => false,
    }
}

// Whether a PGN has the tag of these times, and none of a position.
fn tells_times(alloc: Global, pgn: &str, times: &str) -> Result<bool, AllocError> {
    let lines = parts(alloc, pgn, '\n')?;
    let has_tag = lines.as_slice().iter().any(|line| is_tag_of(line, times));
    let has_position = lines
        .as_slice()
        .iter()
        .any(|line| line.starts_with("[FEN "));
    Ok(has_tag && !has_position)
}

// The same of the answer to a line that asks for the PGN.
fn has_times_in(alloc: Global, line: &str, answer: &Answer, times: &str) -> Result<bool> {
    let first = answer.first.as_str();
    if let Some(Refusal::NoGame) = refusal_of(first) {
        Ok(false)
    } else if pgn_head_of(first).is_some() {
        Ok(tells_times(alloc, answer.behind.as_str(), times)?)
    } else {
        Err(refused(line, first))
    }
}

/// Whether a game has these times, as the tag TimeControl tells them, and begins with the initial position. One that
/// has left the table has not.
pub fn has_times<T: Table>(alloc: Global, table: &mut T, game: u32, times: &str) -> Result<bool> {
    let line = format!(in alloc; "pgn {game}")?;
    let answer = table.ask(line.as_str())?;
    has_times_in(alloc, line.as_str(), &answer, times)
}
