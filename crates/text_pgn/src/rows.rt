//! The rows of an answer.
ghost use Rattle.std.specs.Prelude.{◌≡◌, ◌++◌, codes, IfOk, OnOk};
ghost use Rattle.std.specs.String.{string_bytes};
ghost use Rattle.chess_board.specs.Legal.{IsLegal};
ghost use Rattle.chess_notation.specs.Fen.{fen_of};
ghost use Rattle.text_pgn.specs.Answer.{row, head, PutsRow};

use crate::telling::push_move;
use chess_board::{Board, Move};
use chess_fen::fen_write;
use chess_san::write;
use std::alloc::{AllocError, Global};
use text_parts::push_number;

// Appends a space, a position's FEN and a line feed.
fn push_fen(text: &mut String, board: &Board) -> Result<(), AllocError>
    ensures { OnOk result (string_bytes text.new ≡ string_bytes text.old
        ++ (codes " " ++ (fen_of board.now ++ codes "\n"))) }
{
    text.push(' ')?;
    text.push_str(fen_write(board).as_str())?;
    text.push('\n')
}

// Appends the row of the start.
fn push_start(text: &mut String, start: &Board) -> Result<(), AllocError>
    ensures { OnOk result (string_bytes text.new ≡ string_bytes text.old ++ row 0 (codes "-") (codes "-") start.now) }
{
    push_number(text, 0)?;
    text.push_str(" - -")?;
    push_fen(text, start)?;
    Ok(())
}

/// Appends the row of a move, which has this number.
pub fn push_row(
    text: &mut String,
    number: usize,
    before: &Board,
    mv: &Move,
    after: &Board,
) -> Result<(), AllocError>
    requires { IsLegal before.now mv.now }
    ensures { OnOk result (PutsRow number before.now mv.now after.now (string_bytes text.old) (string_bytes text.new)) }
{
    push_number(text, number as u64)?;
    text.push(' ')?;
    text.push_str(write(before, *mv).as_str())?;
    push_move(text, mv)?;
    push_fen(text, after)?;
    Ok(())
}

/// The answer to `line G` of a game of so many moves, up to the row of the start.
pub fn head_text(
    alloc: Global,
    game: u32,
    count: usize,
    start: &Board,
) -> Result<String, AllocError>
    ensures { IfOk result (λ text. string_bytes text ≡ head game count start.now) }
{
    let mut text = String::from_str(alloc, "ok line ")?;
    push_number(&mut text, u64::from(game))?;
    text.push(' ')?;
    push_number(&mut text, count as u64)?;
    text.push('\n')?;
    push_start(&mut text, start)?;
    Ok(text)
}
