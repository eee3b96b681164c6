//! The PGN of a game as the archive has it.
ghost use Rattle.std.specs.Prelude.{◌≡◌, true, false, IfOk, IfErr, map};
ghost use Rattle.text_pgn.specs.Archived.{IsArchived, IsLaidOut, archive_tokens, is_laid};
ghost use Rattle.text_pgn.specs.declared.whole.TextFault.TheVariants as faults;

use crate::heading::Heading;
use crate::lines::{are_laid, push_lines};
use crate::moves::told_tokens;
use crate::tags::push_tags;
use crate::tokens_of;
use std::alloc::{AllocError, Global};
use text_parts::parts;
use thiserror::Error;

/// Why a text is not made into the PGN of an archive.
#[derive(Clone, Copy, Debug, PartialEq, Eq, Error)]
pub enum TextFault {
    /// It has no move and no result, or one of over 79 characters, or an empty one.
    #[error("it is no PGN")]
    NoPgn,
    #[error("memory was refused")]
    NoMemory,
}

impl From<AllocError> for TextFault {
    ghost from_gives = { λ _ fault. fault ≡ faults.NoMemory };

    fn from(_fault: AllocError) -> TextFault {
        TextFault::NoMemory
    }
}

// Tags, and tokens that fit into lines, as a text.
fn laid_out(
    alloc: Global,
    heading: &Heading<'_>,
    lines: &[&str],
    tokens: &[Vec<u8>],
) -> Result<Vec<u8>, AllocError>
    requires { is_laid (map (λ t. t.items) tokens.now) ≡ true }
    ensures { IfOk result (λ text. IsLaidOut heading.now (map (λ line. line.now) lines.now)
        (map (λ t. t.items) tokens.now) text.items) }
{
    let mut text = Vec::new(alloc);
    push_tags(&mut text, heading, lines)?;
    text.push(b'\n')?;
    push_lines(&mut text, tokens)?;
    text.push(b'\n')?;
    Ok(text)
}

/// The PGN of a game for the archive, made of the server's: its tags in their order, with the heading's values in the
/// places of Event, Site, Date, Round, White and Black; and its moves, each with a comment that tells what the clock of
/// its player showed after it, in milliseconds, where that is known (`[%clk H:MM:SS]`, rounded down). No line of moves
/// has more than 79 characters.
pub fn archived(
    alloc: Global,
    heading: &Heading<'_>,
    pgn: &str,
    clocks: &[Option<u64>],
) -> Result<Vec<u8>, TextFault>
    ensures text { IfOk result (λ text. IsArchived heading.now pgn.now clocks.now text.items) }
    ensures no_pgn { IfErr result (λ fault. fault ≡ faults.NoPgn
        → is_laid (archive_tokens pgn.now clocks.now) ≡ false) }
{
    let lines = parts(alloc, pgn, '\n')?;
    let tokens = tokens_of(alloc, lines.as_slice())?;
    let told = told_tokens(alloc, tokens.as_slice(), clocks)?;
    if !are_laid(told.as_slice()) {
        return Err(TextFault::NoPgn);
    }
    let text = laid_out(alloc, heading, lines.as_slice(), told.as_slice())?;
    Ok(text)
}
