//! The tags of a game's PGN.
use crate::pgn_lines::is_tag;
use std::alloc::{AllocError, Global};
use text_parts::{before, parts};

/// The value of a tag without its escapes: a backslash stands before each quote and each backslash (PGN Standard,
/// section 7).
pub fn without_escapes(alloc: Global, value: &str) -> Result<String, AllocError> {
    let mut text = String::new(alloc);
    let mut is_escaped = false;
    for character in value.chars() {
        is_escaped = character == '\\' && !is_escaped;
        if !is_escaped {
            text.push(character)?;
        }
    }
    Ok(text)
}

/// What a line has as the value of this tag, with its escapes; none where it is another's.
pub fn value_in<'a>(line: &'a str, tag: &str) -> Option<&'a str> {
    let rest = line.strip_prefix('[')?.strip_prefix(tag)?;
    rest.strip_prefix(" \"")?.strip_suffix("\"]")
}

/// The value of the first such tag of a PGN; none where it has no such tag.
pub fn value_of(alloc: Global, pgn: &str, tag: &str) -> Result<Option<String>, AllocError> {
    for line in parts(alloc, pgn, '\n')?.as_slice() {
        if let Some(value) = value_in(line, tag) {
            return Ok(Some(without_escapes(alloc, value)?));
        }
    }
    Ok(None)
}

// The tags that come first, in an order of their own (PGN Standard, section 8.1.1).
const FIRST: [&str; 7] = [
    "[Event", "[Site", "[Date", "[Round", "[White", "[Black", "[Result",
];

/// Whether a line of a PGN stands behind a tag with this front: it is no tag, or one of a later name, but none of those
/// that come first.
pub fn is_behind(line: &str, front: &str) -> bool {
    let head = before(line, ' ');
    !is_tag(line) || (!FIRST.contains(&head) && head > front)
}

/// A PGN with one tag more, whose value is a number: behind the seven that come first, where its name has its place in
/// the order of ASCII (PGN Standard, section 8.1.1).
pub fn with_tag(alloc: Global, pgn: &str, tag: &str, value: u32) -> Result<String, AllocError> {
    let front = format!(in alloc; "[{tag}")?;
    let mut text = String::new(alloc);
    let mut is_put = false;
    for line in parts(alloc, pgn, '\n')?.as_slice() {
        if !is_put && is_behind(line, front.as_str()) {
            text.push_str(format!(in alloc; "{front} \"{value}\"]\n")?.as_str())?;
            is_put = true;
        }
        text.push_str(line)?;
        text.push('\n')?;
    }
    Ok(text)
}
