//! The tags.
ghost use Rattle.std.specs.Prelude.{◌≡◌, ◌++◌, ◌∷◌, [], OnOk, map, option_map};
ghost use Rattle.text_pgn.specs.Tags as spec;

use crate::heading::Heading;
use crate::is_tag;
use std::alloc::AllocError;
use text_parts::before;

/// What stands before a tag's value.
pub fn head_of(line: &str) -> &str
    ensures { result.now ≡ spec.head_of line.entry.now }
{
    before(line, ' ')
}

// The value that stands in the place of the server's.
#[tactic(auto, unfolding(crate::specs::Tags::value_for))]
fn value_for<'a>(heading: &Heading<'a>, head: &str) -> Option<&'a str>
    ensures { option_map (λ v. v.now) result ≡ spec.value_for heading.now head.now }
{
    if head == "[Event" {
        Some(heading.event)
    } else if head == "[Site" {
        Some(heading.site)
    } else if head == "[Date" {
        Some(heading.date)
    } else if head == "[Round" {
        Some(heading.round)
    } else if head == "[White" {
        Some(heading.white)
    } else if head == "[Black" {
        Some(heading.black)
    } else {
        None
    }
}

// A byte of a value.
fn push_byte(out: &mut Vec<u8>, byte: u8) -> Result<(), AllocError>
    ensures { OnOk result (out.new.items ≡ out.old.items ++ spec.escaped_byte byte) }
{
    if byte == b'"' || byte == b'\\' {
        out.push(b'\\')?;
    }
    out.push(byte)?;
    Ok(())
}

// A value, with a backslash before each quote and each backslash.
fn push_value(out: &mut Vec<u8>, value: &[u8]) -> Result<(), AllocError>
    ensures { OnOk result (out.new.items ≡ out.old.items ++ spec.escaped value.now) }
{
    for byte in value {
        push_byte(out, *byte)?;
    }
    Ok(())
}

/// A tag's line with this value, where there is one, and else as it is; without its line feed.
pub fn push_value_told(out: &mut Vec<u8>, line: &str, value: Option<&str>) -> Result<(), AllocError>
    ensures { OnOk result (out.new.items
        ≡ out.old.items ++ spec.told_value line.now (option_map (λ v. v.now) value.entry)) }
{
    match value {
        None => out.extend_from_slice(line.as_bytes()),
        Some(value) => {
            out.extend_from_slice(head_of(line).as_bytes())?;
            out.extend_from_slice(b" \"")?;
            push_value(out, value.as_bytes())?;
            out.extend_from_slice(b"\"]")
        }
    }
}

// A tag's line without its line feed.
fn push_told(out: &mut Vec<u8>, heading: &Heading<'_>, line: &str) -> Result<(), AllocError>
    ensures { OnOk result (out.new.items ≡ out.old.items
        ++ spec.told_value line.now (spec.value_for heading.now (spec.head_of line.now))) }
{
    push_value_told(out, line, value_for(heading, head_of(line)))
}

// A line, if it is a tag.
#[tactic(auto, unfolding(crate::specs::Tags::told_tag))]
fn push_tag(out: &mut Vec<u8>, heading: &Heading<'_>, line: &str) -> Result<(), AllocError>
    ensures { OnOk result (out.new.items ≡ out.old.items ++ spec.told_tag heading.now line.now) }
{
    if is_tag(line) {
        push_told(out, heading, line)?;
        out.push(b'\n')?;
    }
    Ok(())
}

/// Writes the tags of a PGN's lines behind a text. It fails where memory is refused.
pub fn push_tags(out: &mut Vec<u8>, heading: &Heading<'_>, lines: &[&str]) -> Result<(), AllocError>
    ensures { OnOk result (out.new.items ≡ out.old.items
        ++ spec.told_tags heading.now (map (λ line. line.now) lines.now)) }
{
    for line in lines {
        push_tag(out, heading, line)?;
    }
    Ok(())
}
