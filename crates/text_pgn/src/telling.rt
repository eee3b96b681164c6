//! The line `moves CHECK MOVE ..` of a position.
ghost use Rattle.std.specs.Prelude.{◌≡◌, ◌++◌, codes, Some, map, All, IfOk, OnOk, IfSome, IsSomeAnd};
ghost use Rattle.std.specs.String.{string_bytes};
ghost use Rattle.chess_bits.specs.Square.{IsOnBoard};
ghost use Rattle.chess_board.specs.Position.{Position, IsValid};
ghost use Rattle.chess_notation.specs.Name.{square_name};
ghost use Rattle.chess_notation.specs.Fen.{IsFenOf};
ghost use Rattle.text_pgn.specs.Telling.{check_sign, promotion_letter, coordinate_of, spaced, IsBetweenSquares};
ghost use Rattle.text_pgn.specs.Telling.{TellsMoves};

use chess_bits::{Kind, Square};
use chess_board::{Board, Move};
use chess_fen::fen_read;
use chess_moves::legal_moves;
use std::alloc::{AllocError, Global};

// Appends a square's name.
fn push_square(text: &mut String, square: Square) -> Result<(), AllocError>
    ensures bytes { OnOk result (string_bytes text.new ≡ string_bytes text.old ++ square_name square) }
    ensures on_board { OnOk result (IsOnBoard square) }
{
    text.push(char::from(b'`' + square.file()))?;
    text.push(char::from(b'0' + square.rank()))
}

// The small letter of a kind.
fn small_letter(kind: Kind) -> &'static str
    ensures { result.now ≡ promotion_letter (Some kind) }
{
    match kind {
        Kind::Pawn => "p",
        Kind::Knight => "n",
        Kind::Bishop => "b",
        Kind::Rook => "r",
        Kind::Queen => "q",
        Kind::King => "k",
    }
}

/// Appends a space and the coordinate text of a move.
pub fn push_move(text: &mut String, mv: &Move) -> Result<(), AllocError>
    ensures bytes { OnOk result (string_bytes text.new ≡ string_bytes text.old ++ (codes " " ++ coordinate_of mv.now)) }
    ensures squares { OnOk result (IsBetweenSquares mv.now) }
{
    text.push(' ')?;
    push_square(text, mv.from)?;
    push_square(text, mv.to)?;
    match mv.promotion {
        None => Ok(()),
        Some(kind) => text.push_str(small_letter(kind)),
    }
}

// Appends the coordinate texts of moves, a space before each.
fn push_moves(text: &mut String, moves: &[Move]) -> Result<(), AllocError>
    ensures bytes { OnOk result (string_bytes text.new
        ≡ string_bytes text.old ++ spaced (map coordinate_of moves.now)) }
    ensures squares { OnOk result (All IsBetweenSquares moves.now) }
{
    for mv in moves {
        push_move(text, mv)?;
    }
    Ok(())
}

// `+` for check, else `-`.
fn check_text(is_check: bool) -> &'static str
    ensures { result.now ≡ check_sign is_check }
{
    if is_check { "+" } else { "-" }
}

// The line of a board.
fn line_of(alloc: Global, board: &Board) -> Result<String, AllocError>
    ensures { IfOk result (λ text. TellsMoves (string_bytes text) board.now) }
{
    let moves = legal_moves(board);
    let is_check = board.in_check();
    let mut text = String::from_str(alloc, "moves ")?;
    text.push_str(check_text(is_check))?;
    push_moves(&mut text, moves.as_slice())?;
    Ok(text)
}

/// The line that tells the legal moves of the position of a FEN, without the line feed at its end; `None` just where
/// the text is the FEN of no valid position. It fails where memory is refused.
pub fn moves_line(alloc: Global, fen: &str) -> Result<Option<String>, AllocError>
    ensures told { IfOk result (λ line. (p : Position) → IsValid p → IsFenOf fen.now p →
        IsSomeAnd line (λ text. TellsMoves (string_bytes text) p)) }
    ensures valid { IfOk result (λ line. IfSome line (λ _. (p : Position) × IsValid p × IsFenOf fen.now p)) }
{
    match fen_read(fen) {
        Ok(board) => Ok(Some(line_of(alloc, &board)?)),
        Err(_) => Ok(None),
    }
}
