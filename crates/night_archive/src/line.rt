//! A game's line.
ghost use Rattle.std.specs.Prelude.{◌≡◌, ◌==◌, ◌||◌, IfOk};
ghost use Rattle.std.specs.List.{list_any};
ghost use Rattle.night_archive.specs.Line as spec;

use itoa::Buffer;
use std::alloc::{AllocError, Global};
use text_parts::push_escaped;

/// What stands before the colon of the number.
pub const FRONT: &str = "{\"game\"";

const MIDDLE: &[u8] = b",\"pgn\":\"";

/// The line of a game: an object of JSON with its number and its PGN, without a line feed at its end.
pub fn line_of(alloc: Global, game: u32, pgn: &[u8]) -> Result<Vec<u8>, AllocError>
    ensures { IfOk result (λ line. line.items ≡ spec.line_of game pgn.now) }
{
    let mut line = Vec::new(alloc);
    let mut buffer = Buffer::new();
    line.extend_from_slice(FRONT.as_bytes())?;
    line.push(b':')?;
    line.extend_from_slice(buffer.format(game).as_bytes())?;
    line.extend_from_slice(MIDDLE)?;
    push_escaped(&mut line, pgn)?;
    line.extend_from_slice(b"\"}")?;
    Ok(line)
}

// Whether a byte may stand in a PGN that is kept.
fn is_text_byte(byte: u8) -> bool
    ensures { result ≡ spec.is_text_byte byte }
{
    byte == b'\n' || 32 <= byte && byte != 127
}

/// Whether a PGN has no control character but line feeds.
pub fn is_text(pgn: &[u8]) -> bool
    ensures { result ≡ spec.is_text pgn.now }
{
    pgn.iter().all(|byte| is_text_byte(*byte))
}

// Whether a byte may not stand in a line.
fn is_spoiling(byte: u8) -> bool
    ensures { result ≡ (byte == 10 || byte == 0) }
{
    byte == b'\n' || byte == 0
}

/// Whether a line has a line feed or a zero.
pub fn is_spoilt(line: &[u8]) -> bool
    ensures { result ≡ list_any (λ b. b == 10 || b == 0) line.now }
{
    line.iter().any(|byte| is_spoiling(*byte))
}
