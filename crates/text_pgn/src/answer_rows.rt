//! The rows of an answer to `line G` are read.
ghost use Rattle.std.specs.Prelude.{◌≡◌, map, IfOk};
ghost use Rattle.text_pgn.specs.Rows as spec;

use std::alloc::{AllocError, Global};
use text_parts::{before, behind, parts};

/// The move of a row as SAN.
pub fn san_in(row: &str) -> &str
    ensures { result.now ≡ spec.san_in row.entry.now }
{
    before(behind(row, ' '), ' ')
}

/// The move of a row by its squares.
pub fn move_in(row: &str) -> &str
    ensures { result.now ≡ spec.move_in row.entry.now }
{
    before(behind(behind(row, ' '), ' '), ' ')
}

/// The position of a row, as its FEN.
pub fn position_in(row: &str) -> &str
    ensures { result.now ≡ spec.position_in row.entry.now }
{
    behind(behind(behind(row, ' '), ' '), ' ')
}

/// The rows of an answer: that of the start, and one for each move.
pub fn rows_in<'a>(alloc: Global, answer: &'a str) -> Result<Vec<&'a str>, AllocError>
    ensures { IfOk result (λ rows. map (λ row. row.now) rows.items ≡ spec.rows_in answer.entry.now) }
{
    let lines = parts(alloc, answer, '\n')?;
    match lines.as_slice() {
        [] => Ok(Vec::new(alloc)),
        [_, rows @ ..] => Vec::from_slice(alloc, rows),
    }
}

/// The first of rows, and those behind it.
pub fn cut_row<'a, 'b>(rows: &'b [&'a str]) -> (&'a str, &'b [&'a str])
    ensures first { result.0.now ≡ spec.start_row (map (λ row. row.now) rows.entry.now) }
    ensures rest { map (λ row. row.now) result.1.now ≡ spec.move_rows (map (λ row. row.now) rows.entry.now) }
{
    match rows {
        [] => ("", rows),
        [first, rest @ ..] => (*first, rest),
    }
}

/// The last of rows.
pub fn last_row<'a>(rows: &[&'a str]) -> &'a str
    ensures { result.now ≡ spec.last_row (map (λ row. row.now) rows.entry.now) }
{
    let (start, rest) = cut_row(rows);
    let mut last = start;
    for row in rest {
        last = *row;
    }
    last
}
