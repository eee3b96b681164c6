ghost use Rattle.std.specs.Prelude.{◌≡◌, Ok, IfOk, IfErr, length};
ghost use Rattle.chess_board.specs.Position.{Position, HasCounters, IsValid};
ghost use Rattle.chess_board.specs.Parts.{described};
ghost use Rattle.chess_fen.specs.declared.fields.FenError.{FenError};
ghost use Rattle.chess_notation.specs.Fen.{IsFenOf, fen_of};
ghost use Rattle.chess_fen.specs.Reading.{IsFenFault, IsTargetOnBoard};

use crate::fields::{FenError, Fields, number_named, rights_named, side_named, target_named};
use crate::squares::{by_number, placement_named};
use chess_board::{Board, Parts};

// The parts that a FEN's fields tell, or the first fault of a field.
fn parts_of(text: &str) -> Result<Parts, FenError>
    ensures fen { IfOk result (λ parts. IsFenOf text.now (described parts)) }
    ensures counters { IfOk result (λ parts. HasCounters (described parts)) }
    ensures whole { IfOk result (λ parts. length parts.men ≡ 64) }
    ensures target { IfOk result (λ parts. IsTargetOnBoard parts.target) }
    ensures fault { IfErr result (IsFenFault text.now) }
{
    let fields = Fields::of(text)?;
    let men = placement_named(fields.placement)?;
    let side = side_named(fields.side)?;
    let rights = rights_named(fields.castling)?;
    let target = target_named(fields.target)?;
    let halfmove = number_named(fields.halfmove, 0)?;
    let fullmove = number_named(fields.fullmove, 1)?;
    Ok(Parts {
        men: by_number(&men),
        side,
        rights,
        target,
        halfmove,
        fullmove,
    })
}

/// The valid position of which the text is the FEN (PGN Standard, section 16.1), in its one spelling; else the first
/// fault, in the order of `FenError`. A `-` for the target gives a position without one. What `fen_write` writes is
/// read again.
pub fn fen_read(text: &str) -> Result<Board, FenError>
    ensures ok { IfOk result (IsFenOf text.now) }
    ensures valid { IfOk result IsValid }
    ensures err { IfErr result (IsFenFault text.now) }
    ensures one_fault { IfErr result (λ fault. (other : FenError) → IsFenFault text.now other → other ≡ fault) }
    ensures read { (p : Position) → IsValid p → IsFenOf text.now p → result ≡ Ok p }
    ensures written { (p : Position) → IsValid p → text.now ≡ fen_of p → result ≡ Ok p }
{
    let parts = parts_of(text)?;
    match Board::try_new(parts) {
        Ok(board) => Ok(board),
        Err(fault) => Err(FenError::Board(fault)),
    }
}
