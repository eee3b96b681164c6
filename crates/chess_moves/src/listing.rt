ghost use Rattle.std.specs.Prelude.{◌≡◌, ◌+◌, ◌≤◌, ◌↔◌, ◌++◌, IsTrue, length, Some};
ghost use Rattle.arrayvec.specs.ArrayVec.{array_vec_len};
ghost use Rattle.chess_board.specs.Position.{man_at};
ghost use Rattle.chess_moves.specs.Targets.{HasSafeTarget};
ghost use Rattle.chess_moves.specs.Masks.{HoldsMasks};
ghost use Rattle.chess_moves.specs.Moves.{IsListOfLegalMoves, HasLegal, HasLegalFrom};
ghost use Rattle.chess_moves.specs.Listing.{legal_from};

use crate::free::has_free_move;
use crate::masks::{Masks, masks_of};
use crate::promotions::{Moves, push_choices};
use crate::safe::safe_targets;
use crate::squares::men_of;
use arrayvec::ArrayVec;
use chess_bits::{Bits, Kind, Square};
use chess_board::{Board, Move};

// Appends the legal moves of a man of the side to move.
fn push_moves_of(board: &Board, masks: &Masks, from: Square, kind: Kind, moves: &mut Moves)
    requires masks { HoldsMasks board.now masks.now }
    requires own { man_at board.now.placement from ≡ Some (board.now.side, kind) }
    requires room { array_vec_len moves.old + length (legal_from board.now from) ≤ 512 }
    ensures { moves.new.items ≡ moves.old.items ++ legal_from board.now from }
{
    let side = board.side();
    for to in safe_targets(board, masks, from, kind).iter() {
        push_choices(side, kind, from, to, moves);
    }
}

// Appends the legal moves from a square.
fn push_moves_from(board: &Board, masks: &Masks, from: Square, moves: &mut Moves)
    requires masks { HoldsMasks board.now masks.now }
    requires room { array_vec_len moves.old + length (legal_from board.now from) ≤ 512 }
    ensures { moves.new.items ≡ moves.old.items ++ legal_from board.now from }
{
    match board.piece_at(from) {
        None => {}
        Some((colour, kind)) => {
            if colour == board.side() {
                push_moves_of(board, masks, from, kind, moves);
            }
        }
    }
}

/// Puts the legal moves of the side to move into a list, as `legal_moves` tells them, in place of what it held. It is
/// for who lists the moves of many positions: a new list has each of its 512 places filled.
pub fn relist_legal_moves(board: &Board, moves: &mut ArrayVec<Move, 512>)
    ensures { IsListOfLegalMoves board.now moves.new.items }
{
    moves.clear();
    let masks = masks_of(board);
    for from in men_of(board, board.side()).iter() {
        push_moves_from(board, &masks, from, moves);
    }
}

/// The legal moves of the side to move (FIDE articles 3.1 to 3.10), each once and no other, in no promised order. No
/// valid position has more than 512.
pub fn legal_moves(board: &Board) -> ArrayVec<Move, 512>
    ensures { IsListOfLegalMoves board.now result.items }
{
    let mut moves = ArrayVec::new();
    relist_legal_moves(board, &mut moves);
    moves
}

// Whether a man of the kind on a square goes somewhere so that its king is safe.
fn has_safe_target(board: &Board, masks: &Masks, from: Square, kind: Kind) -> bool
    requires own { man_at board.now.placement from ≡ Some (board.now.side, kind) }
    requires masks { HoldsMasks board.now masks.now }
    ensures { IsTrue result ↔ HasSafeTarget board.now kind from }
{
    !safe_targets(board, masks, from, kind).is_empty()
}

// Whether a man of the side to move stands on a square and has a legal move.
fn has_legal_from(board: &Board, masks: &Masks, from: Square) -> bool
    requires { HoldsMasks board.now masks.now }
    ensures { IsTrue result ↔ HasLegalFrom board.now from }
{
    match board.piece_at(from) {
        None => false,
        Some((colour, kind)) => colour == board.side() && has_safe_target(board, masks, from, kind),
    }
}

/// Whether the side to move has a legal move. It looks no further than the first.
pub fn has_legal(board: &Board) -> bool
    ensures { IsTrue result ↔ HasLegal board.now }
{
    let masks = masks_of(board);
    if has_free_move(board, &masks) {
        return true;
    }
    // Most checks are answered by the king; without one, most often another man has a move.
    if masks.ends != Bits::from_word(u64::MAX) && has_legal_from(board, &masks, masks.king) {
        return true;
    }
    for from in men_of(board, board.side()).iter() {
        if has_legal_from(board, &masks, from) {
            return true;
        }
    }
    false
}
