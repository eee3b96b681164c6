//! How many legal moves there are, without a list of them.
ghost use Rattle.std.specs.Prelude.{◌≡◌, ◌≤◌, length, Some};
ghost use Rattle.chess_bits.specs.declared.men.Kind.TheVariants as kinds;
ghost use Rattle.chess_bits.specs.Table.{IsSetOf};
ghost use Rattle.chess_board.specs.Position.{man_at, IsValid};
ghost use Rattle.chess_board.specs.Legal.{last_rank};
ghost use Rattle.chess_moves.specs.Targets.{GoesSafely, IsPiece};
ghost use Rattle.chess_moves.specs.Masks.{HoldsMasks};
ghost use Rattle.chess_moves.specs.Moves.{IsNumberOfLegalMoves};
ghost use Rattle.chess_moves.specs.Listing.{legal_from};
ghost use Rattle.chess_moves.specs.Counting.{moves_of, IsFree, HasFree, IsTally};

use crate::free::{free_of, free_pawn_goes, free_piece_goes};
use crate::masks::{Masks, masks_of};
use crate::safe::safe_targets;
use crate::squares::{is_pawn, men_of};
use chess_bits::{Bits, Colour, Kind, Square};
use chess_board::Board;

// The squares on which a side's pawns become other pieces.
fn last_squares(side: Colour) -> Bits
    ensures { IsSetOf result (λ q. q.rank ≡ last_rank side) }
{
    match side {
        Colour::White => Bits::from_word(0xff00_0000_0000_0000),
        Colour::Black => Bits::from_word(0xff),
    }
}

/// A count of legal moves that is being made.
#[derive(Clone, Copy)]
pub struct Tally {
    /// The moves of the men that have been looked at.
    pub count: u32,
    /// The squares of the men that have not.
    pub left: Bits,
}

// How many legal moves a pawn has that may go to the squares: four for each on which it becomes another piece.
fn count_pawn(board: &Board, from: Square, safe: Bits) -> u32
    requires valid { IsValid board.now }
    requires own { man_at board.now.placement from ≡ Some (board.now.side, kinds.Pawn) }
    requires safe { IsSetOf safe (GoesSafely board.now kinds.Pawn from) }
    ensures { result ≡ length (legal_from board.now from) }
{
    let last = safe.meet(last_squares(board.side()));
    if last.is_empty() {
        safe.count()
    } else {
        safe.count() + 3 * last.count()
    }
}

// How many legal moves a man of the side to move has.
fn count_of(board: &Board, masks: &Masks, from: Square, kind: Kind) -> u32
    requires masks { HoldsMasks board.now masks.now }
    requires own { man_at board.now.placement from ≡ Some (board.now.side, kind) }
    ensures { result ≡ length (legal_from board.now from) }
{
    let safe = safe_targets(board, masks, from, kind);
    if is_pawn(kind) {
        count_pawn(board, from, safe)
    } else {
        safe.count()
    }
}

// How many legal moves there are from a square.
fn count_from(board: &Board, masks: &Masks, from: Square) -> u32
    requires { HoldsMasks board.now masks.now }
    ensures { result ≡ length (legal_from board.now from) }
{
    match board.piece_at(from) {
        None => 0,
        Some((colour, kind)) => {
            if colour == board.side() {
                count_of(board, masks, from, kind)
            } else {
                0
            }
        }
    }
}

// How many legal moves a free man has that is neither a pawn nor the king.
fn count_piece(board: &Board, masks: &Masks, from: Square, kind: Kind) -> u32
    requires masks { HoldsMasks board.now masks.now }
    requires free { IsFree board.now masks.now.pinned kind from }
    requires piece { IsPiece kind }
    ensures { result ≡ length (legal_from board.now from) }
{
    free_piece_goes(board, masks, from, kind).count()
}

// How many legal moves a free man has.
fn count_free(board: &Board, masks: &Masks, from: Square, kind: Kind) -> u32
    requires masks { HoldsMasks board.now masks.now }
    requires free { IsFree board.now masks.now.pinned kind from }
    ensures { result ≡ length (legal_from board.now from) }
{
    match kind {
        Kind::Pawn => count_pawn(board, from, free_pawn_goes(board, masks, from)),
        Kind::King => count_of(board, masks, from, kind),
        Kind::Knight | Kind::Bishop | Kind::Rook | Kind::Queen => {
            count_piece(board, masks, from, kind)
        }
    }
}

// How many legal moves free men of a kind have.
fn count_each(board: &Board, masks: &Masks, men: Bits, kind: Kind) -> u32
    requires masks { HoldsMasks board.now masks.now }
    requires free { HasFree board.now masks.now.pinned kind men }
    requires few { moves_of board.now men ≤ 512 }
    ensures { result ≡ moves_of board.now men }
{
    let mut count = 0;
    for from in men.iter() {
        count += count_free(board, masks, from, kind);
    }
    count
}

// The count with the free men of a kind.
fn counted(board: &Board, masks: &Masks, tally: Tally, kind: Kind) -> Tally
    requires masks { HoldsMasks board.now masks.now }
    requires tally { IsTally board.now tally.count tally.left }
    ensures { IsTally board.now result.count result.left }
{
    let free = free_of(board, masks, tally.left, kind);
    Tally {
        count: tally.count + count_each(board, masks, free, kind),
        left: tally.left.without(free),
    }
}

// The count with the men that are left, one by one.
fn count_rest(board: &Board, masks: &Masks, tally: Tally) -> u32
    requires masks { HoldsMasks board.now masks.now }
    requires tally { IsTally board.now tally.count tally.left }
    ensures { IsNumberOfLegalMoves board.now result }
{
    let mut count = tally.count;
    for from in tally.left.iter() {
        count += count_from(board, masks, from);
    }
    count
}

/// How many legal moves the side to move has: the length of the list of exactly the legal moves.
pub fn count_moves(board: &Board) -> u32
    ensures { IsNumberOfLegalMoves board.now result }
{
    let masks = masks_of(board);
    let none = Tally {
        count: 0,
        left: men_of(board, board.side()),
    };
    let pawns = counted(board, &masks, none, Kind::Pawn);
    let knights = counted(board, &masks, pawns, Kind::Knight);
    let bishops = counted(board, &masks, knights, Kind::Bishop);
    let rooks = counted(board, &masks, bishops, Kind::Rook);
    let queens = counted(board, &masks, rooks, Kind::Queen);
    let kings = counted(board, &masks, queens, Kind::King);
    count_rest(board, &masks, kings)
}
