//! The parts of a text.
ghost use Rattle.std.specs.Prelude.{◌≡◌, ◌<◌, ◌==◌, map, drop, IfOk};
ghost use Rattle.std.specs.List.{before_first, after_first};
ghost use Rattle.text_parts.specs.Parts.{parts_of};

use std::alloc::{AllocError, Global};

/// What stands before the first such sign, an ASCII character, and what stands behind it: all, and nothing, where there
/// is none.
pub fn cut(text: &str, sign: char) -> (&str, &str)
    requires { sign < 128 }
    ensures front { result.0.now ≡ before_first (λ b. b == sign) text.entry.now }
    ensures rest { result.1.now ≡ after_first (λ b. b == sign) text.entry.now }
{
    match text.split_once(sign) {
        Some((front, rest)) => (front, rest),
        None => (text, ""),
    }
}

/// What stands before the first such sign, an ASCII character, or all where there is none.
pub fn before(text: &str, sign: char) -> &str
    requires { sign < 128 }
    ensures { result.now ≡ before_first (λ b. b == sign) text.entry.now }
{
    let (front, _) = cut(text, sign);
    front
}

/// What stands behind the first such sign, an ASCII character, or nothing where there is none.
pub fn behind(text: &str, sign: char) -> &str
    requires { sign < 128 }
    ensures { result.now ≡ after_first (λ b. b == sign) text.entry.now }
{
    let (_, rest) = cut(text, sign);
    rest
}

/// What stands between the first quote and the next, or all behind the first where none follows; nothing where there is
/// none.
pub fn between_quotes(text: &str) -> &str
    ensures { result.now ≡ before_first (λ b. b == 34) (after_first (λ b. b == 34) text.entry.now) }
{
    before(behind(text, '"'), '"')
}

/// All but so many bytes at the front; nothing where there are no more.
pub fn skip(text: &[u8], count: usize) -> &[u8]
    ensures { result.now ≡ drop count text.entry.now }
{
    match text.get(count..) {
        Some(rest) => rest,
        None => &[],
    }
}

/// The parts of a text, each of which ends at a sign, an ASCII character: its lines, where that is a line feed. It
/// fails where memory is refused.
pub fn parts<'a>(alloc: Global, text: &'a str, sign: char) -> Result<Vec<&'a str>, AllocError>
    requires { sign < 128 }
    ensures { IfOk result (λ parts. map (λ part. part.now) parts.items ≡ parts_of sign text.entry.now) }
{
    let mut parts = Vec::new(alloc);
    let mut rest = text;
    while let Some((part, behind)) = rest.split_once(sign) {
        parts.push(part)?;
        rest = behind;
    }
    if !rest.is_empty() {
        parts.push(rest)?;
    }
    Ok(parts)
}
