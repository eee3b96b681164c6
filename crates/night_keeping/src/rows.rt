//! The games of the server's list.
ghost use Rattle.std.specs.Prelude.{◌≡◌, IfOk};
ghost use Rattle.night_keeping.specs.Games.{games_over_in};

use anyhow::{Result, bail};
use server_answers::{Row, row_of};
use std::alloc::{AllocError, Global};
use text_parts::parts;

/// The games of the server's list.
pub fn rows_of(alloc: Global, list: &str) -> Result<Vec<Row>> {
    let mut rows = Vec::new(alloc);
    for line in parts(alloc, list, '\n')?.as_slice() {
        match row_of(line) {
            // (the prover takes no `push` of a type with a name in it)
            Some(row) => rows.extend_from_slice(&[row])?,
            None => bail!("the server's list has a row of another form: {line:?}"),
        }
    }
    Ok(rows)
}

/// The games that are over, in the order of the list.
pub fn games_over(alloc: Global, rows: &[Row]) -> Result<Vec<u32>, AllocError>
    ensures { IfOk result (λ games. games.items ≡ games_over_in rows.now) }
{
    rows.iter()
        .filter(|row| row.result.is_some())
        .map(|row| row.game)
        .collect(alloc)
}
