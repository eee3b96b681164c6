//! The lines of a game's PGN that are no tags, and their words.
ghost use Rattle.std.specs.Prelude.{◌≡◌, ◌++◌, map, IfOk, OnOk};
ghost use Rattle.text_pgn.specs.Pgn.{is_tag, is_move, tokens_of_line, tokens_of};

use std::alloc::{AllocError, Global};
use text_parts::parts;

/// Whether a line is a tag: it begins with `[` (PGN Standard, section 8.1.1).
pub fn is_tag(line: &str) -> bool
    ensures { result ≡ is_tag line.now }
{
    line.as_bytes().first() == Some(&b'[')
}

/// Whether a word behind the tags is a move: it begins with a letter (PGN Standard, section 8.2.3).
pub fn is_move(word: &str) -> bool
    ensures { result ≡ is_move word.now }
{
    match word.as_bytes() {
        [first, ..] => first.is_ascii_alphabetic(),
        [] => false,
    }
}

// The tokens of a line.
fn push_tokens<'a>(
    tokens: &mut Vec<&'a str>,
    alloc: Global,
    line: &'a str,
) -> Result<(), AllocError>
    ensures { OnOk result (map (λ t. t.now) tokens.new.items
        ≡ map (λ t. t.now) tokens.old.items ++ tokens_of_line line.entry.now) }
{
    if is_tag(line) {
        return Ok(());
    }
    let more = parts(alloc, line, ' ')?;
    tokens.extend_from_slice(more.as_slice())?;
    Ok(())
}

/// The tokens of a PGN's lines that are no tags. It fails where memory is refused.
pub fn tokens_of<'a>(alloc: Global, lines: &[&'a str]) -> Result<Vec<&'a str>, AllocError>
    ensures { IfOk result (λ tokens. map (λ t. t.now) tokens.items ≡ tokens_of (map (λ line. line.now) lines.now)) }
{
    let mut tokens = Vec::new(alloc);
    for line in lines {
        push_tokens(&mut tokens, alloc, line)?;
    }
    Ok(tokens)
}
