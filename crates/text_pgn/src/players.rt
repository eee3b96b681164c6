//! A PGN with other names of the players.
ghost use Rattle.std.specs.Prelude.{◌≡◌, ◌++◌, IfOk, OnOk, map, option_map};
ghost use Rattle.text_pgn.specs.Named as spec;

use crate::tags::{head_of, push_value_told};
use std::alloc::{AllocError, Global};
use text_parts::parts;

// The name that stands in the place of a tag's value.
fn name_for<'a>(white: &'a str, black: &'a str, head: &str) -> Option<&'a str>
    ensures { option_map (λ v. v.now) result ≡ spec.name_for white.entry.now black.entry.now head.now }
{
    if head == "[White" {
        Some(white)
    } else if head == "[Black" {
        Some(black)
    } else {
        None
    }
}

// A line with its line feed, and with these names where it is a tag of a player.
fn push_named(out: &mut Vec<u8>, white: &str, black: &str, line: &str) -> Result<(), AllocError>
    ensures { OnOk result (out.new.items ≡ out.old.items ++ spec.named_line white.now black.now line.now) }
{
    push_value_told(out, line, name_for(white, black, head_of(line)))?;
    out.push(b'\n')?;
    Ok(())
}

// Lines, each so.
fn push_all(out: &mut Vec<u8>, white: &str, black: &str, lines: &[&str]) -> Result<(), AllocError>
    ensures { OnOk result (out.new.items
        ≡ out.old.items ++ spec.named_lines white.now black.now (map (λ line. line.now) lines.now)) }
{
    for line in lines {
        push_named(out, white, black, line)?;
    }
    Ok(())
}

/// A PGN whose tags White and Black have these values, and whose other lines are as they were. It fails where memory is
/// refused.
pub fn with_players(
    alloc: Global,
    pgn: &str,
    white: &str,
    black: &str,
) -> Result<Vec<u8>, AllocError>
    ensures { IfOk result (λ named. named.items ≡ spec.with_players white.now black.now pgn.now) }
{
    let lines = parts(alloc, pgn, '\n')?;
    let mut named = Vec::new(alloc);
    push_all(&mut named, white, black, lines.as_slice())?;
    Ok(named)
}
