//! The tags of a game as values of JSON, and who plays it, by them.
ghost use Rattle.std.specs.Prelude.{◌≡◌, ◌++◌, map, flat_map, option_map, OnOk, IfOk};
ghost use Rattle.std.specs.List.{find};
ghost use Rattle.std.specs.Str.{bytes_eq};
ghost use Rattle.text_pgn.specs.Json.{behind_comma, listed};
ghost use Rattle.text_pgn.specs.Spectators as spec;

use crate::json::{push_number, push_string, push_text};
use crate::pgn_lines::is_tag;
use crate::spectated::Spectated;
use crate::tags::head_of;
use std::alloc::{AllocError, Global};
use text_parts::{behind, parts, skip, unescaped};

// The name of a tag.
fn tag_name(line: &str) -> &[u8]
    ensures { result.now ≡ spec.tag_name line.entry.now }
{
    skip(head_of(line).as_bytes(), 1)
}

// Appends a tag.
fn push_tag(out: &mut Vec<u8>, alloc: Global, line: &str) -> Result<(), AllocError>
    ensures { OnOk result (out.new.items ≡ out.old.items ++ spec.tag_json line.now) }
{
    let value = unescaped(alloc, behind(line, '"').as_bytes())?;
    out.extend_from_slice(b"[")?;
    push_string(out, tag_name(line))?;
    out.extend_from_slice(b",")?;
    push_string(out, value.as_slice())?;
    out.extend_from_slice(b"]")
}

// Appends tags behind another.
fn push_more_tags(out: &mut Vec<u8>, alloc: Global, tags: &[&str]) -> Result<(), AllocError>
    ensures { OnOk result (out.new.items
        ≡ out.old.items ++ flat_map behind_comma (map spec.tag_json (map (λ line. line.now) tags.now))) }
{
    for line in tags {
        out.extend_from_slice(b",")?;
        push_tag(out, alloc, line)?;
    }
    Ok(())
}

// Appends tags.
fn push_tag_list(out: &mut Vec<u8>, alloc: Global, tags: &[&str]) -> Result<(), AllocError>
    ensures { OnOk result (out.new.items
        ≡ out.old.items ++ listed (map spec.tag_json (map (λ line. line.now) tags.now))) }
{
    match tags {
        [] => Ok(()),
        [first, rest @ ..] => {
            push_tag(out, alloc, first)?;
            push_more_tags(out, alloc, rest)
        }
    }
}

// The lines of a text that are tags.
fn tag_lines<'a>(alloc: Global, text: &'a str) -> Result<Vec<&'a str>, AllocError>
    ensures { IfOk result (λ lines. map (λ line. line.now) lines.items ≡ spec.tags_in text.entry.now) }
{
    let mut lines = parts(alloc, text, '\n')?;
    lines.retain(|line| is_tag(line));
    Ok(lines)
}

/// Appends the tags of a text.
pub fn push_tags(out: &mut Vec<u8>, alloc: Global, text: &str) -> Result<(), AllocError>
    ensures { OnOk result (out.new.items ≡ out.old.items ++ spec.tags_json (spec.tags_in text.now)) }
{
    let lines = tag_lines(alloc, text)?;
    out.extend_from_slice(b"[")?;
    push_tag_list(out, alloc, lines.as_slice())?;
    out.extend_from_slice(b"]")?;
    Ok(())
}

// The first of tags that has this name.
fn tag_named<'a>(tags: &[&'a str], name: &[u8]) -> Option<&'a str>
    ensures { option_map (λ line. line.now) result
        ≡ find (λ line. bytes_eq (spec.tag_name line) name.now) (map (λ line. line.now) tags.now) }
{
    for line in tags {
        if tag_name(line) == name {
            return Some(*line);
        }
    }
    None
}

// The value of the first of tags that has this name; empty where none has it.
fn value_named(alloc: Global, tags: &[&str], name: &[u8]) -> Result<Vec<u8>, AllocError>
    ensures { IfOk result (λ value. value.items ≡ spec.value_named name.now (map (λ line. line.now) tags.now)) }
{
    match tag_named(tags, name) {
        Some(line) => unescaped(alloc, behind(line, '"').as_bytes()),
        None => Ok(Vec::new(alloc)),
    }
}

// Appends the values of two tags.
fn push_values(
    out: &mut Vec<u8>,
    alloc: Global,
    white: &[u8],
    black: &[u8],
    tags: &[&str],
) -> Result<(), AllocError>
    ensures { OnOk result (out.new.items
        ≡ out.old.items ++ spec.values_json white.now black.now (map (λ line. line.now) tags.now)) }
{
    let first = value_named(alloc, tags, white)?;
    let second = value_named(alloc, tags, black)?;
    out.extend_from_slice(b"[")?;
    push_string(out, first.as_slice())?;
    out.extend_from_slice(b",")?;
    push_string(out, second.as_slice())?;
    out.extend_from_slice(b"]")?;
    Ok(())
}

// Appends what tags tell of both players: titles and ratings.
fn push_particulars(out: &mut Vec<u8>, alloc: Global, tags: &[&str]) -> Result<(), AllocError>
    ensures { OnOk result (out.new.items
        ≡ out.old.items ++ spec.particulars_json (map (λ line. line.now) tags.now)) }
{
    out.extend_from_slice(b",\"titles\":")?;
    push_values(out, alloc, b"WhiteTitle", b"BlackTitle", tags)?;
    out.extend_from_slice(b",\"ratings\":")?;
    push_values(out, alloc, b"WhiteElo", b"BlackElo", tags)?;
    Ok(())
}

/// Appends who plays.
pub fn push_players(
    out: &mut Vec<u8>,
    alloc: Global,
    game: &Spectated<'_>,
) -> Result<(), AllocError>
    ensures { OnOk result (out.new.items ≡ out.old.items ++ spec.players_json game.now) }
{
    let tags = tag_lines(alloc, game.tags)?;
    push_number(out, b"\"game\":", u64::from(game.game))?;
    push_text(out, b",\"white\":", game.white)?;
    push_text(out, b",\"black\":", game.black)?;
    push_text(out, b",\"names\":[", game.white_name)?;
    push_text(out, b",", game.black_name)?;
    out.extend_from_slice(b"]")?;
    push_particulars(out, alloc, tags.as_slice())?;
    Ok(())
}
