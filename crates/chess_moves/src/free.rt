//! Where men go that no slider pins and that take nothing en passant: what ends every check is all that is asked.
ghost use Rattle.std.specs.Prelude.{◌≡◌, IsTrue, true, Some, length};
ghost use Rattle.chess_bits.specs.declared.men.Kind.TheVariants as kinds;
ghost use Rattle.chess_bits.specs.Square.{Square as Geometric, IsOnBoard};
ghost use Rattle.chess_bits.specs.Table.{has, IsSetOf};
ghost use Rattle.chess_bits.specs.Attack.{pawn_attacks, Reaches};
ghost use Rattle.chess_board.specs.Legal.{HoldsColour};
ghost use Rattle.chess_moves.specs.Targets.{GoesSafely, IsPiece};
ghost use Rattle.chess_moves.specs.Masks.{HoldsMasks};
ghost use Rattle.chess_moves.specs.Counting.{IsFree, AreFree};
ghost use Rattle.chess_moves.specs.Moves.{HasLegal};

use crate::masks::Masks;
use crate::pawns::{one_step, two_steps};
use crate::squares::{is_pawn, men_of};
use crate::targets::attacked;
use chess_attacks::pawn;
use chess_bits::{Bits, Kind, Square};
use chess_board::Board;

// The squares from which a pawn of the side to move could take en passant.
fn passing(board: &Board) -> Bits
    ensures whole { length result ≡ 64 }
    ensures passing { (s t : Geometric) → IsOnBoard s → board.now.target ≡ Some t →
        Reaches (pawn_attacks board.now.side) s t → has result s ≡ true }
{
    match board.target() {
        None => Bits::new(),
        Some(target) => {
            let _on_board = target.number();
            pawn(board.side().other(), target)
        }
    }
}

// The free men of a kind among men of the side to move.
pub fn free_of(board: &Board, masks: &Masks, left: Bits, kind: Kind) -> Bits
    requires masks { HoldsMasks board.now masks.now }
    requires whole { length left ≡ 64 }
    requires own { (s : Geometric) → has left s ≡ true → HoldsColour board.now s board.now.side }
    ensures { AreFree board.now masks.now.pinned kind left result }
{
    let unpinned = left.meet(board.men().of_kind(kind)).without(masks.pinned);
    if is_pawn(kind) {
        unpinned.without(passing(board))
    } else {
        unpinned
    }
}

// Where a free pawn may go.
pub fn free_pawn_goes(board: &Board, masks: &Masks, from: Square) -> Bits
    requires masks { HoldsMasks board.now masks.now }
    requires free { IsFree board.now masks.now.pinned kinds.Pawn from }
    ensures { IsSetOf result (GoesSafely board.now kinds.Pawn from) }
{
    let side = board.side();
    let forward = one_step(board, from).union(two_steps(board, from));
    let takes = pawn(side, from).meet(men_of(board, side.other()));
    forward.union(takes).meet(masks.ends)
}

// Where another free man may go, if it is not the king.
pub fn free_piece_goes(board: &Board, masks: &Masks, from: Square, kind: Kind) -> Bits
    requires masks { HoldsMasks board.now masks.now }
    requires free { IsFree board.now masks.now.pinned kind from }
    requires piece { IsPiece kind }
    ensures { IsSetOf result (GoesSafely board.now kind from) }
{
    let own = men_of(board, board.side());
    attacked(board, from, kind).meet(masks.ends.without(own))
}

// Whether the first of the free knights has a legal move.
fn has_knight_move(board: &Board, masks: &Masks) -> bool
    requires { HoldsMasks board.now masks.now }
    ensures { IsTrue result → HasLegal board.now }
{
    let own = men_of(board, board.side());
    match free_of(board, masks, own, Kind::Knight).first() {
        None => false,
        Some(from) => !free_piece_goes(board, masks, from, Kind::Knight).is_empty(),
    }
}

// Whether the first of the free pawns has one.
fn has_pawn_move(board: &Board, masks: &Masks) -> bool
    requires { HoldsMasks board.now masks.now }
    ensures { IsTrue result → HasLegal board.now }
{
    let own = men_of(board, board.side());
    match free_of(board, masks, own, Kind::Pawn).first() {
        None => false,
        Some(from) => !free_pawn_goes(board, masks, from).is_empty(),
    }
}

/// Whether a free man that is soon looked at has a legal move.
pub fn has_free_move(board: &Board, masks: &Masks) -> bool
    requires { HoldsMasks board.now masks.now }
    ensures { IsTrue result → HasLegal board.now }
{
    has_knight_move(board, masks) || has_pawn_move(board, masks)
}
