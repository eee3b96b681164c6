ghost use Rattle.std.specs.Prelude.{IsTrue, ◌↔◌, ◌≡◌, ◌≤◌, ◌<◌, ◌++◌, ℕ, List, decimal, length, IfOk, OnOk};
ghost use Rattle.std.specs.String.{string_bytes};
ghost use Rattle.arrayvec.specs.ArrayString.{array_string_len};
ghost use Rattle.chess_board.specs.Legal.{IsLegal};
ghost use Rattle.chess_board.specs.Line.{IsLegalLine};
ghost use Rattle.chess_text.specs.Movetext.{IsToken, IsUnderWay};
ghost use Rattle.chess_text.specs.Game.{numbers_before, HasRoom, AddsMove, AddsMoves};

use crate::movetext::push_token;
use arrayvec::ArrayString;
use chess_bits::Colour;
use chess_board::{Board, Move};
use chess_fen::FenText;
use chess_moves::legal;
use chess_san::write;
use itoa::Buffer;
use std::alloc::AllocError;

// A number and what follows it, as `1.` or `12...`.
fn numbered(number: u16, dots: &str) -> FenText
    requires { length dots.now ≤ 3 }
    ensures bytes { result.bytes ≡ decimal number ++ dots.now }
    ensures token { IsToken result.bytes }
{
    let mut text = ArrayString::new();
    let mut buffer = Buffer::new();
    text.push_str(buffer.format(number));
    text.push_str(dots);
    text
}

// Writes the number before a move, where one stands there. It answers the width of the last line then, and fails where
// memory is refused.
fn push_number(
    text: &mut String,
    width: usize,
    board: &Board,
    is_first: bool,
) -> Result<usize, AllocError>
    requires { width ≤ 79 }
    ensures under_way { (front : List ℕ) (tokens : List (List ℕ))
        → IsUnderWay front tokens (string_bytes text.old) width →
        IfOk result (λ wide. IsUnderWay front
        (tokens ++ numbers_before board.now.side is_first board.now.fullmove) (string_bytes text.new) wide) }
    ensures width { IfOk result (λ wide. wide ≤ 79) }
{
    match board.side() {
        Colour::White => push_token(text, width, numbered(board.fullmove(), ".").as_str()),
        Colour::Black => {
            if is_first {
                push_token(text, width, numbered(board.fullmove(), "...").as_str())
            } else {
                Ok(width)
            }
        }
    }
}

// Writes a move in SAN, with the number before it. It answers the width of the last line then, and fails where memory
// is refused.
fn push_move(
    text: &mut String,
    width: usize,
    board: &Board,
    mv: Move,
    is_first: bool,
) -> Result<usize, AllocError>
    requires width { width ≤ 79 }
    requires legal { IsLegal board.now mv }
    ensures added { (front : List ℕ) (tokens : List (List ℕ)) → IsUnderWay front tokens (string_bytes text.old) width →
        IfOk result (AddsMove board.now is_first mv front tokens (string_bytes text.new)) }
    ensures width { IfOk result (λ wide. wide ≤ 79) }
{
    let width = push_number(text, width, board, is_first)?;
    push_token(text, width, write(board, mv).as_str())
}

// Whether a move is legal and both counters are below 65,535.
fn can_play(board: &Board, mv: Move) -> bool
    ensures { IsTrue result ↔ (IsLegal board.now mv × (board.now.halfmove < 65535) × (board.now.fullmove < 65535)) }
{
    legal(board, mv) && board.halfmove() < u16::MAX && board.fullmove() < u16::MAX
}

/// Whether the moves are legal, one after the other from the start (FIDE articles 3.1 to 3.10), and before each both
/// counters are below 65,535: what `pgn` asks of a game.
pub fn is_playable(start: &Board, moves: &[Move]) -> bool
    ensures { IsTrue result ↔ (IsLegalLine start.now moves.now × HasRoom start.now moves.now) }
{
    let mut board = *start;
    for mv in moves {
        if !can_play(&board, *mv) {
            return false;
        }
        board = board.apply(*mv);
    }
    true
}

/// Writes the moves of a game in SAN, with their numbers, behind a text, in lines that each take as many tokens as fit
/// (PGN Standard, section 8.2). It answers the width of the last line, and fails where memory is refused.
pub fn push_moves(text: &mut String, start: &Board, moves: &[Move]) -> Result<usize, AllocError>
    requires legal { IsLegalLine start.now moves.now }
    requires room { HasRoom start.now moves.now }
    ensures added { IfOk result (AddsMoves start.now moves.now (string_bytes text.old) (string_bytes text.new)) }
    ensures width { IfOk result (λ wide. wide ≤ 79) }
{
    let mut board = *start;
    let mut width = 0;
    let mut is_first = true;
    for mv in moves {
        width = push_move(text, width, &board, *mv, is_first)?;
        board = board.apply(*mv);
        is_first = false;
    }
    Ok(width)
}
