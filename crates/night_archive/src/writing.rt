//! The games of an archive, written behind one another.
use crate::continued::{halves_of, pgn_continued};
use crate::kept::Kept;
use crate::spreadsheet::rows_of_games;
use anyhow::Result;
use std::alloc::Global;
use std::io::Write;

/// Writes the PGN of each game, in their order; where another of them continues it, it says by which. It fails where
/// memory is refused, or the output takes no more.
pub fn write_games<W: Write>(alloc: Global, output: &mut W, games: &[Kept]) -> Result<()> {
    let halves = halves_of(alloc, games)?;
    for kept in games {
        let pgn = pgn_continued(alloc, kept, halves.as_slice())?;
        output.write_all(pgn.as_bytes())?;
    }
    Ok(())
}

/// Writes a row for each game as CSV, in their order, behind one with the names of the columns. It fails where memory
/// is refused, or the output takes no more.
pub fn write_rows<W: Write>(alloc: Global, output: &mut W, games: &[Kept]) -> Result<()> {
    let rows = rows_of_games(alloc, games)?;
    output.write_all(rows.as_slice())?;
    Ok(())
}
