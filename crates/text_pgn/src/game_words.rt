//! What game a PGN tells: the tag of the start, and the words that name moves.
ghost use Rattle.std.specs.Prelude.{◌≡◌, map, Some, IfOk, IfSome};
ghost use Rattle.std.specs.Option.{option_map};
ghost use Rattle.chess_board.specs.Position.{Position};
ghost use Rattle.text_pgn.specs.Pgn.{tokens_of, moves_in};
ghost use Rattle.text_pgn.specs.Game.{is_fen_tag, fen_in, StartsAt};

use crate::pgn_lines::{is_move, tokens_of};
use chess_board::Board;
use chess_fen::fen_read;
use std::alloc::{AllocError, Global};
use text_parts::{before, between_quotes};

// Whether a line is that of a tag FEN.
fn is_fen_tag(line: &str) -> bool
    ensures { result ≡ is_fen_tag line.now }
{
    before(line, ' ') == "[FEN"
}

// The value of the first tag FEN.
fn fen_tag<'a>(lines: &[&'a str]) -> Option<&'a str>
    ensures { option_map (λ fen. fen.now) result ≡ fen_in (map (λ line. line.now) lines.entry.now) }
{
    for line in lines {
        if is_fen_tag(line) {
            return Some(between_quotes(line));
        }
    }
    None
}

// The position of a FEN, where it is that of a valid one.
fn position_of(fen: &str) -> Option<Board>
    ensures some { IfSome result (StartsAt (Some fen.now)) }
    ensures every { (p : Position) → StartsAt (Some fen.now) p → result ≡ Some p }
{
    fen_read(fen).ok()
}

/// The position in which the game of these lines starts.
pub fn start_of(lines: &[&str]) -> Option<Board>
    ensures some { IfSome result (StartsAt (fen_in (map (λ line. line.now) lines.now))) }
    ensures every { (p : Position) → StartsAt (fen_in (map (λ line. line.now) lines.now)) p → result ≡ Some p }
{
    match fen_tag(lines) {
        None => Some(Board::initial()),
        Some(fen) => position_of(fen),
    }
}

/// The words of lines that may name moves.
pub fn words_of<'a>(alloc: Global, lines: &[&'a str]) -> Result<Vec<&'a str>, AllocError>
    ensures { IfOk result (λ words. map (λ word. word.now) words.items
        ≡ moves_in (tokens_of (map (λ line. line.now) lines.entry.now))) }
{
    let mut words = tokens_of(alloc, lines)?;
    words.retain(|word| is_move(word));
    Ok(words)
}
