//! Games that were kept.
use crate::reading::{game_of, pgn_of};
use anyhow::{Result, bail};
use std::alloc::Global;
use text_parts::parts;

/// A game, as it was kept.
#[derive(Drop)]
pub struct Kept {
    pub game: u32,
    pub pgn: String,
}

// The game of a line.
fn kept_of(alloc: Global, line: &str) -> Result<Kept> {
    let Some(game) = game_of(alloc, line)? else {
        bail!("a line is no game's");
    };
    let pgn = String::from_utf8(pgn_of(alloc, line)?)?;
    Ok(Kept { game, pgn })
}

// The games of an archive's lines, in their order.
fn kept_in(alloc: Global, lines: &[&str]) -> Result<Vec<Kept>> {
    let mut games = Vec::new(alloc);
    for line in lines {
        games.push(kept_of(alloc, line)?)?;
    }
    Ok(games)
}

/// The games of a text of an archive's lines, in their order. It fails where a line is no game's, and where memory is
/// refused.
pub fn games_kept(alloc: Global, text: &str) -> Result<Vec<Kept>> {
    let lines = parts(alloc, text, '\n')?;
    kept_in(alloc, lines.as_slice())
}
