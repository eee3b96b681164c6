//! Games that go on in others, and what is told of them.
use crate::kept::Kept;
use anyhow::Result;
use std::alloc::{AllocError, Global};
use text_pgn::{value_of, with_tag};

/// A game that goes on in another.
#[derive(Clone, Copy)]
pub struct Halves {
    first: u32,
    second: u32,
}

/// The game that a PGN's tag says it continues.
pub fn continued_in(alloc: Global, pgn: &str) -> Result<Option<u32>, AllocError> {
    match value_of(alloc, pgn, "Continues")? {
        Some(value) => Ok(value.parse::<u32>().ok()),
        None => Ok(None),
    }
}

/// Which games say that they continue others.
pub fn halves_of(alloc: Global, games: &[Kept]) -> Result<Vec<Halves>> {
    let mut halves = Vec::new(alloc);
    for kept in games {
        if let Some(first) = continued_in(alloc, kept.pgn.as_str())? {
            let second = kept.game;
            halves.push(Halves { first, second })?;
        }
    }
    Ok(halves)
}

// The game that continues another: the last of those that say so.
fn second_of(halves: &[Halves], first: u32) -> Option<u32> {
    let mut second = None;
    for half in halves {
        if half.first == first {
            second = Some(half.second);
        }
    }
    second
}

/// The PGN of a game as it was kept; where another continues it, it says by which.
pub fn pgn_continued(alloc: Global, kept: &Kept, halves: &[Halves]) -> Result<String, AllocError> {
    match second_of(halves, kept.game) {
        Some(second) => with_tag(alloc, kept.pgn.as_str(), "ContinuedBy", second),
        None => kept.pgn.clone(),
    }
}
