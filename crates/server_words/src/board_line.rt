//! What a line asks for.
ghost use Rattle.std.specs.Prelude.{◌↔◌, IsTrue};
ghost use Rattle.server_words.specs.BoardLine.{IsCommand, IsVisibleText};

use std::str;

/// What a line asks for.
#[derive(Clone, Copy)]
pub enum BoardCommand<'a> {
    /// To make the move of this text.
    Move(&'a str),
    /// Nothing that is known.
    Bad,
}

/// Reads a line, without the line feed that ends it.
pub fn parse(line: &[u8]) -> BoardCommand<'_>
    ensures { IsCommand line.now result }
{
    let Some(field) = line.strip_prefix(b"move ") else {
        return BoardCommand::Bad;
    };
    if !is_visible_text(field) {
        return BoardCommand::Bad;
    }
    match str::from_utf8(field) {
        Ok(text) => BoardCommand::Move(text),
        Err(_) => unreachable!("a field is of ASCII"),
    }
}

fn is_visible_text(bytes: &[u8]) -> bool
    ensures { IsTrue result ↔ IsVisibleText bytes.now }
{
    !bytes.is_empty() && bytes.iter().all(|b| b.is_ascii_graphic())
}
