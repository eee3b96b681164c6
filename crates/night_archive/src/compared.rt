//! Whether a game of the table is the one that the archive has under its number.
use crate::reading::{game_of, pgn_of};
use std::alloc::{AllocError, Global};
use text_parts::parts;
use text_pgn::is_tag;

// Whether a line is a tag that the call which kept the game has made.
fn is_of_the_call(line: &str) -> bool {
    line.starts_with("[Event ")
        || line.starts_with("[Site ")
        || line.starts_with("[Date ")
        || line.starts_with("[Round ")
        || line.starts_with("[Continues ")
}

// The words of a line of moves, but for the numbers of moves and the comments, which tell what clocks showed. It tells
// whether a comment goes on behind the line.
fn push_words<'a>(
    telling: &mut Vec<&'a str>,
    alloc: Global,
    line: &'a str,
    is_comment: bool,
) -> Result<bool, AllocError> {
    let mut is_comment = is_comment;
    for word in parts(alloc, line, ' ')?.as_slice() {
        is_comment = is_comment || word.starts_with('{');
        if !is_comment && !word.ends_with('.') {
            telling.push(*word)?;
        }
        is_comment = is_comment && !word.ends_with('}');
    }
    Ok(is_comment)
}

/// The tags of a PGN and the words of its moves that say which game it is.
pub fn telling_parts<'a>(alloc: Global, pgn: &'a str) -> Result<Vec<&'a str>, AllocError> {
    let mut telling = Vec::new(alloc);
    let mut is_comment = false;
    for line in parts(alloc, pgn, '\n')?.as_slice() {
        if !is_tag(line) {
            is_comment = push_words(&mut telling, alloc, line, is_comment)?;
        } else if !is_of_the_call(line) {
            telling.push(*line)?;
        }
    }
    Ok(telling)
}

// Whether two PGNs are of one game, whatever their events, sites, dates, rounds and clocks, and whatever game they
// continue.
fn is_same(alloc: Global, one: &[u8], other: &[u8]) -> Result<bool, AllocError> {
    let (Ok(one), Ok(other)) = (str::from_utf8(one), str::from_utf8(other)) else {
        return Ok(false);
    };
    let one = telling_parts(alloc, one)?;
    let other = telling_parts(alloc, other)?;
    Ok(one.as_slice() == other.as_slice())
}

/// Whether a text of an archive's lines has this game with this PGN, whatever its event, site, date, round and clocks.
pub fn has_game(alloc: Global, text: &str, game: u32, pgn: &[u8]) -> Result<bool, AllocError> {
    let front = format!(in alloc; "{{\"game\":{game},")?;
    for line in parts(alloc, text, '\n')?.as_slice() {
        if line.starts_with(front.as_str()) && game_of(alloc, line)? == Some(game) {
            let kept = pgn_of(alloc, line)?;
            return is_same(alloc, kept.as_slice(), pgn);
        }
    }
    Ok(false)
}
