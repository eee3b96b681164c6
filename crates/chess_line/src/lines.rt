//! A line, read.
ghost use Rattle.std.specs.Prelude.{IfSome, IfNone, IsSomeAnd};
ghost use Rattle.chess_line.specs.declared.lines.Line.{Line};
ghost use Rattle.chess_line.specs.Line.{HasForm, IsLineOf, SameLine};

use crate::acts::read_act;
use crate::fields::cut_word;
use chess_entry::{Act, Name};
use std::str;

/// What a line asks for.
#[derive(Clone, Copy)]
pub enum Line {
    /// To be called by this name from now on.
    Called(Name),
    /// An act.
    Act(Act),
}

// A line that is text.
fn read(text: &str) -> Option<Line>
    ensures some { IfSome result (HasForm text.now) }
    ensures every { (line : Line) → HasForm text.now line → IsSomeAnd result (SameLine line) }
{
    let (word, rest) = cut_word(text);
    let Some(rest) = rest else {
        return if word == "list" {
            Some(Line::Act(Act::List))
        } else {
            None
        };
    };
    if word == "name" {
        let name = Name::try_new(rest)?;
        return Some(Line::Called(name));
    }
    let act = read_act(word, rest)?;
    Some(Line::Act(act))
}

/// What a line of at most 255 bytes asks for, given without the line feed at its end and without one carriage return
/// before that. `None` exactly where it is longer, or has no form of the protocol's (`docs/client/PROTOCOL.md`).
pub fn parse(line: &[u8]) -> Option<Line>
    ensures some { IfSome result (IsLineOf line.now) }
    ensures none { IfNone result ((other : Line) → ¬ IsLineOf line.now other) }
    ensures one { IfSome result (λ told. (other : Line) → IsLineOf line.now other → SameLine other told) }
{
    if line.len() > 255 {
        return None;
    }
    match str::from_utf8(line) {
        Ok(text) => read(text),
        Err(_) => None,
    }
}
