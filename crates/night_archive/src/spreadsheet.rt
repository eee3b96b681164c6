//! The games of an archive as CSV, for a club's spreadsheet and database.
use crate::compared::telling_parts;
use crate::continued::{Halves, halves_of, pgn_continued};
use crate::kept::Kept;
use anyhow::Result;
use night_report::{Cell, push_header, push_row};
use std::alloc::{AllocError, Global};
use text_pgn::{is_move, value_of};

// The names of the columns.
const COLUMNS: [&str; 13] = [
    "game",
    "event",
    "site",
    "date",
    "round",
    "white",
    "black",
    "result",
    "article",
    "plies",
    "fen",
    "continues",
    "pgn",
];

// The tags whose values stand behind the game's number.
const TAGS: [&str; 8] = [
    "Event", "Site", "Date", "Round", "White", "Black", "Result", "Article",
];

// How many moves a PGN has.
fn plies_of(alloc: Global, pgn: &str) -> Result<usize, AllocError> {
    let mut plies: usize = 0;
    for word in telling_parts(alloc, pgn)?.as_slice() {
        if is_move(word) {
            plies = plies.saturating_add(1);
        }
    }
    Ok(plies)
}

// The cell of a tag's value; empty where a PGN lacks it.
fn cell_of(alloc: Global, pgn: &str, tag: &str) -> Result<Cell, AllocError> {
    match value_of(alloc, pgn, tag)? {
        Some(value) => Cell::of_text(alloc, value.as_str()),
        None => Ok(Cell::empty(alloc)),
    }
}

// Puts the cell of a number behind others.
fn push_count(cells: &mut Vec<Cell>, alloc: Global, number: u64) -> Result<(), AllocError> {
    cells.push(Cell::of_number(alloc, number)?)?;
    Ok(())
}

// Puts the cells of a game behind others, but for that of its PGN.
fn push_cells(
    cells: &mut Vec<Cell>,
    alloc: Global,
    game: u32,
    pgn: &str,
) -> Result<(), AllocError> {
    push_count(cells, alloc, u64::from(game))?;
    for tag in &TAGS {
        cells.push(cell_of(alloc, pgn, tag)?)?;
    }
    push_count(cells, alloc, plies_of(alloc, pgn)? as u64)?;
    cells.push(cell_of(alloc, pgn, "FEN")?)?;
    cells.push(cell_of(alloc, pgn, "Continues")?)?;
    Ok(())
}

// Puts the row of a game behind the others.
fn push_game(
    rows: &mut Vec<u8>,
    alloc: Global,
    kept: &Kept,
    halves: &[Halves],
) -> Result<(), AllocError> {
    let mut cells = Vec::new(alloc);
    push_cells(&mut cells, alloc, kept.game, kept.pgn.as_str())?;
    let pgn = pgn_continued(alloc, kept, halves)?;
    cells.push(Cell::of_text(alloc, pgn.as_str())?)?;
    push_row(rows, alloc, cells.as_slice())
}

/// A line for each of these games, in their order, behind one with the names of the columns: the game's number, the
/// values of its tags, how many moves were made, the position from which it began where that is not the initial one,
/// the adjourned game that it continues, and its PGN. It fails where memory is refused.
pub fn rows_of_games(alloc: Global, games: &[Kept]) -> Result<Vec<u8>> {
    let mut rows = Vec::new(alloc);
    push_header(&mut rows, alloc, &COLUMNS)?;
    let halves = halves_of(alloc, games)?;
    for kept in games {
        push_game(&mut rows, alloc, kept, halves.as_slice())?;
    }
    Ok(rows)
}
