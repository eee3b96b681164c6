//! A line is read.
ghost use Rattle.std.specs.Prelude.{◌≡◌, true, Some, IfOk};
ghost use Rattle.night_archive.specs.Line as spec;

use crate::line::{FRONT, is_text, line_of};
use lobby_words::number_named;
use std::alloc::{AllocError, Global};
use text_parts::{before, behind, cut, skip, unescaped};

// How many bytes of a line are behind its first comma and before its PGN: `"pgn":"`.
const NAME_BYTES: usize = 7;

/// The PGN of a game's line.
pub fn pgn_of(alloc: Global, line: &str) -> Result<Vec<u8>, AllocError>
    ensures { IfOk result (λ pgn. pgn.items ≡ spec.pgn_in line.now) }
{
    unescaped(alloc, skip(behind(line, ',').as_bytes(), NAME_BYTES))
}

// The number behind the front of a line, whatever stands behind it.
fn number_of(line: &str) -> Option<u32>
    ensures { result ≡ spec.number_at line.now }
{
    let (front, rest) = cut(line, ':');
    if front == FRONT {
        number_named(before(rest, ','))
    } else {
        None
    }
}

// Whether a line is the one that is made for a game with the PGN in it.
fn is_spelled(alloc: Global, line: &str, game: u32) -> Result<bool, AllocError>
    ensures { IfOk result (λ is. is ≡ spec.is_line_of line.now game) }
{
    let pgn = pgn_of(alloc, line)?;
    let again = line_of(alloc, game, &pgn)?;
    Ok(is_text(&pgn) && again.as_slice() == line.as_bytes())
}

/// The game of a line. `None` where it is no game's: it is to be spelled as it would be made.
pub fn game_of(alloc: Global, line: &str) -> Result<Option<u32>, AllocError>
    ensures { IfOk result (λ found. found ≡ spec.game_in line.now) }
{
    let Some(game) = number_of(line) else {
        return Ok(None);
    };
    if is_spelled(alloc, line, game)? {
        Ok(Some(game))
    } else {
        Ok(None)
    }
}

/// Whether a line is in UTF-8 and this game's.
pub fn names(alloc: Global, line: &[u8], game: u32) -> Result<bool, AllocError>
    ensures { IfOk result (λ is. is ≡ true → spec.game_in line.now ≡ Some game) }
{
    match str::from_utf8(line) {
        Ok(text) => Ok(game_of(alloc, text)? == Some(game)),
        Err(_) => Ok(false),
    }
}
