ghost use Rattle.std.specs.Prelude.{◌↔◌, IsTrue};
ghost use Rattle.chess_mates.specs.Mates.{IsMatedBy, IsMatingLine};

use crate::likeness::is_same_side;
use chess_bits::Colour;
use chess_board::{Board, Move};
use chess_moves::{after_legal, has_legal};

/// Whether a side has given checkmate (FIDE article 5.1.1).
pub fn is_mated_by(board: &Board, side: Colour) -> bool
    ensures { IsTrue result ↔ IsMatedBy side board.now }
{
    let turn = is_same_side(side.other(), board.side());
    let check = board.in_check();
    let moves = has_legal(board);
    turn & check & !moves
}

/// Whether moves are a series of legal moves at whose end the side has given checkmate. It is false too where a counter
/// of a board on the way is at 65,535.
pub fn is_mating_line(board: &Board, side: Colour, moves: &[Move]) -> bool
    ensures { IsTrue result → IsMatingLine side board.now moves.now }
{
    let mut at = *board;
    for mv in moves {
        if at.halfmove() >= u16::MAX {
            return false;
        }
        if at.fullmove() >= u16::MAX {
            return false;
        }
        let Some(after) = after_legal(&at, *mv) else {
            return false;
        };
        at = after;
    }
    is_mated_by(&at, side)
}
