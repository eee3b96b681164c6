//! A game's PGN as the archive has it, asked of the server.
use anyhow::{Context, Error, Result, anyhow, bail};
use lobby_players::full_name;
use lobby_words::Player;
use night_links::{Link, ToldGame};
use night_log::{LogEntry, clocks};
use server_answers::{Refusal, Row, Shown, pgn_head_of, refusal_of, seat_text, shown_of};
use std::alloc::Global;
use text_pgn::{Heading, archived};

/// What a PGN is made with: the players, what the tags are to say, and what the log has.
#[derive(Clone, Copy)]
pub struct Knowledge<'a> {
    pub players: &'a [Player],
    /// Of White and Black it says nothing yet.
    pub heading: Heading<'a>,
    pub entries: &'a [LogEntry],
    /// Whether there is a log: without one no game has clocks.
    pub is_logged: bool,
}

// What is wrong where the server does not do this with a game, but gives that answer.
fn not_done(verb: &str, game: u32, first: &str) -> Error {
    anyhow!("the server does not {verb} game {game}: {first}")
}

// The PGN of a game as the server tells it; none where the game has left the table since.
fn told(alloc: Global, link: &mut Link, game: u32) -> Result<Option<String>> {
    let line = format!(in alloc; "pgn {game}")?;
    let answer = link.ask(line.as_str())?;
    let first = answer.first.as_str();
    if let Some(Refusal::NoGame) = refusal_of(first) {
        Ok(None)
    } else if pgn_head_of(first).is_some() {
        Ok(Some(answer.behind))
    } else {
        Err(not_done("tell", game, first))
    }
}

// The clocks that the log knows, and beside it how the game stands, where the server tells it.
fn clocks_beside(
    alloc: Global,
    known: &Knowledge<'_>,
    row: &Row,
    asked: Option<Shown>,
) -> Result<Vec<Option<u64>>> {
    Ok(clocks(alloc, known.entries, &asked, row.game, row.ply)?)
}

// The same by this answer of the server; the log's alone where the game has left the table since.
fn clocks_told(
    alloc: Global,
    known: &Knowledge<'_>,
    row: &Row,
    first: &str,
) -> Result<Vec<Option<u64>>> {
    if let Some(Refusal::NoGame) = refusal_of(first) {
        return clocks_beside(alloc, known, row, None);
    }
    match shown_of(first) {
        Some(shown) => clocks_beside(alloc, known, row, Some(shown)),
        None => Err(not_done("show", row.game, first)),
    }
}

// The clocks that the log knows. Where it has none behind the last move, whose answer was lost or is still to come, the
// server is asked.
fn clocks_of(
    alloc: Global,
    link: &mut Link,
    known: &Knowledge<'_>,
    row: &Row,
) -> Result<Vec<Option<u64>>> {
    let logged = clocks_beside(alloc, known, row, None)?;
    if !known.is_logged || !matches!(logged.last(), Some(None)) {
        return Ok(logged);
    }
    let game = row.game;
    let line = format!(in alloc; "show {game}")?;
    let answer = link.ask(line.as_str())?;
    // (the prover takes no type with a name in it that comes out of a call by `?`)
    clocks_told(alloc, known, row, answer.first.as_str())
}

/// Asks for the PGN of a game, and makes it as the archive has it, with the clocks that the log knows, and where it is
/// given that of the last move by the server; none where the game has left the table since.
pub fn pgn_of(
    alloc: Global,
    link: &mut Link,
    known: &Knowledge<'_>,
    row: &Row,
) -> Result<Option<Vec<u8>>> {
    let game = row.game;
    let Some(told) = told(alloc, link, game)? else {
        return Ok(None);
    };
    let heading = Heading {
        white: full_name(known.players, seat_text(&row.seats.white)),
        black: full_name(known.players, seat_text(&row.seats.black)),
        ..known.heading
    };
    let clocks = clocks_of(alloc, link, known, row)?;
    let pgn = archived(alloc, &heading, told.as_str(), clocks.as_slice()).context(format_args!(
        "game {game}"
    ))?;
    Ok(Some(pgn))
}

/// The clocks after the moves of a game that the server has told, by the log, and by how it stood then.
pub fn clocks_after(
    alloc: Global,
    known: &Knowledge<'_>,
    told: &ToldGame,
) -> Result<Vec<Option<u64>>> {
    let Some(shown) = shown_of(told.shown.as_str()) else {
        bail!("game {} does not stand", told.game);
    };
    let plies = shown.ply;
    let asked = if known.is_logged { Some(shown) } else { None };
    Ok(clocks(alloc, known.entries, &asked, told.game, plies)?)
}

/// The PGN of such a game as the archive has it, with these clocks.
pub fn pgn_told(
    alloc: Global,
    known: &Knowledge<'_>,
    told: &ToldGame,
    clocks: &[Option<u64>],
) -> Result<Vec<u8>> {
    let game = told.game;
    let Some(shown) = shown_of(told.shown.as_str()) else {
        bail!("game {game} does not stand");
    };
    let heading = Heading {
        white: full_name(known.players, seat_text(&shown.seats.white)),
        black: full_name(known.players, seat_text(&shown.seats.black)),
        ..known.heading
    };
    archived(alloc, &heading, told.pgn.as_str(), clocks).context(format_args!("game {game}"))
}
