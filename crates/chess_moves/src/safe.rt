//! Where a man may go so that its king is safe.
ghost use Rattle.std.specs.Prelude.{◌≡◌, ◌↔◌, IsTrue, Some, true, false, not, length};
ghost use Rattle.chess_bits.specs.declared.men.Kind.TheVariants as kinds;
ghost use Rattle.chess_bits.specs.Table.{has, put, IsSetOf};
ghost use Rattle.chess_bits.specs.Attack.{Slides, straight as rook_steps, diagonal as bishop_steps};
ghost use Rattle.chess_board.specs.Position.{man_at, occupied_of, IsInCheck};
ghost use Rattle.chess_board.specs.Next.{placement_after};
ghost use Rattle.chess_moves.specs.Targets.{plain as plain_move, GoesTo, LeavesKingSafe, GoesSafely, IsPiece};
ghost use Rattle.chess_moves.specs.Masks.{IsAttackedWithout, HoldsMasks};

use crate::masks::{Masks, allowed, leapers};
use crate::squares::plain;
use crate::targets::targets;
use chess_attacks::{bishop, king, ray, rook};
use chess_bits::{Bits, Kind, Square};
use chess_board::Board;

// The squares with men once that of a square is taken off.
fn occupied_without(board: &Board, square: Square) -> Bits
    ensures { result ≡ put (occupied_of board.now.placement) square false }
{
    let mut occupied = board.men().occupied();
    occupied.remove(square);
    occupied
}

// The men of a set to which a rook slides from the square. Most often none is on its lines, which is soon seen.
fn rook_meets(square: Square, occupied: Bits, men: Bits) -> Bits
    requires { length men ≡ 64 }
    ensures { IsSetOf result (λ c. Slides occupied rook_steps square c × (has men c ≡ true)) }
{
    let file = ray(square, 0).union(ray(square, 4));
    let rank = ray(square, 2).union(ray(square, 6));
    if file.union(rank).meet(men).is_empty() {
        Bits::new()
    } else {
        rook(square, occupied).meet(men)
    }
}

// Those to which a bishop slides.
fn bishop_meets(square: Square, occupied: Bits, men: Bits) -> Bits
    requires { length men ≡ 64 }
    ensures { IsSetOf result (λ c. Slides occupied bishop_steps square c × (has men c ≡ true)) }
{
    let rising = ray(square, 1).union(ray(square, 5));
    let falling = ray(square, 3).union(ray(square, 7));
    if rising.union(falling).meet(men).is_empty() {
        Bits::new()
    } else {
        bishop(square, occupied).meet(men)
    }
}

// Whether a man of the opponent attacks the square once the king is taken off its own.
fn is_attacked_without(board: &Board, masks: &Masks, from: Square, to: Square) -> bool
    requires { HoldsMasks board.now masks.now }
    ensures { IsTrue result ↔ IsAttackedWithout board.now from to }
{
    let _on_board = to.number();
    let occupied = occupied_without(board, from);
    let straight = rook_meets(to, occupied, masks.straight);
    let diagonal = bishop_meets(to, occupied, masks.diagonal);
    !leapers(board, to)
        .union(straight.union(diagonal))
        .is_empty()
}

// Whether the king stands attacked once the men stand as the move leaves them.
fn exposes(board: &Board, from: Square, to: Square) -> bool
    ensures { IsTrue result ↔ IsInCheck (placement_after board.now (plain_move from to)) board.now.side }
{
    board.exposes_king(plain(from, to))
}

// Whether the king is safe once it has gone to the square: in castling, which moves the rook too, the men are placed.
fn is_king_safe(board: &Board, masks: &Masks, from: Square, to: Square) -> bool
    requires own { man_at board.now.placement from ≡ Some (board.now.side, kinds.King) }
    requires masks { HoldsMasks board.now masks.now }
    ensures { IsTrue result ↔ LeavesKingSafe board.now from to }
{
    if king(from).contains(to) {
        !is_attacked_without(board, masks, from, to)
    } else {
        !exposes(board, from, to)
    }
}

// Where the king may go.
fn king_goes(board: &Board, masks: &Masks, from: Square) -> Bits
    requires own { man_at board.now.placement from ≡ Some (board.now.side, kinds.King) }
    requires masks { HoldsMasks board.now masks.now }
    ensures { IsSetOf result (GoesSafely board.now kinds.King from) }
{
    let mut safe = targets(board, from, Kind::King);
    for to in safe.iter() {
        if !is_king_safe(board, masks, from, to) {
            safe.remove(to);
        }
    }
    safe
}

// The squares, and the target of a capture en passant where the king is not exposed by it, whatever the masks say of
// it.
fn with_target(safe: Bits, target: Square, is_exposed: bool) -> Bits
    ensures { result ≡ put safe target (not is_exposed) }
{
    let mut squares = safe;
    squares.assign(target, !is_exposed);
    squares
}

// Where a pawn may go: en passant, which takes two men off a line, the men are placed.
fn pawn_goes(board: &Board, masks: &Masks, from: Square) -> Bits
    requires own { man_at board.now.placement from ≡ Some (board.now.side, kinds.Pawn) }
    requires masks { HoldsMasks board.now masks.now }
    ensures { IsSetOf result (GoesSafely board.now kinds.Pawn from) }
{
    let reached = targets(board, from, Kind::Pawn);
    let safe = reached.meet(allowed(board, masks, from));
    match board.target() {
        None => safe,
        Some(target) => {
            if reached.contains(target) {
                with_target(safe, target, exposes(board, from, target))
            } else {
                safe
            }
        }
    }
}

// Where another man may go.
fn piece_goes(board: &Board, masks: &Masks, from: Square, kind: Kind) -> Bits
    requires own { man_at board.now.placement from ≡ Some (board.now.side, kind) }
    requires piece { IsPiece kind }
    requires masks { HoldsMasks board.now masks.now }
    ensures { IsSetOf result (GoesSafely board.now kind from) }
{
    targets(board, from, kind).meet(allowed(board, masks, from))
}

/// The squares to which a man of the kind may go so that its king is safe.
pub fn safe_targets(board: &Board, masks: &Masks, from: Square, kind: Kind) -> Bits
    requires own { man_at board.now.placement from ≡ Some (board.now.side, kind) }
    requires masks { HoldsMasks board.now masks.now }
    ensures { IsSetOf result (GoesSafely board.now kind from) }
{
    match kind {
        Kind::Pawn => pawn_goes(board, masks, from),
        Kind::King => king_goes(board, masks, from),
        Kind::Knight | Kind::Bishop | Kind::Rook | Kind::Queen => {
            piece_goes(board, masks, from, kind)
        }
    }
}
