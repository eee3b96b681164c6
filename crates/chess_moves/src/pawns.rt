ghost use Rattle.std.specs.Prelude.{◌≡◌, ◌⊎◌, Some};
ghost use Rattle.chess_bits.specs.declared.men.Kind.TheVariants as kind;
ghost use Rattle.chess_bits.specs.Man.{other};
ghost use Rattle.chess_bits.specs.Table.{IsSetOf};
ghost use Rattle.chess_board.specs.Legal as rules;
ghost use Rattle.chess_moves.specs.Targets.{plain, GoesTo};

use crate::squares::{is_empty, men_of, only};
use chess_attacks::pawn;
use chess_bits::{Bits, Colour, Square};
use chess_board::Board;

// The rank from which a side's pawns may advance two squares.
fn pawn_rank(side: Colour) -> u8
    ensures { result ≡ rules.pawn_rank side }
{
    match side {
        Colour::White => 2,
        Colour::Black => 7,
    }
}

// Where a pawn goes one square forward, to an empty square (FIDE article 3.7.1).
pub fn one_step(board: &Board, from: Square) -> Bits
    ensures { IsSetOf result (λ to. rules.Advances board.now (plain from to)) }
{
    match from.step(board.side().forward()) {
        None => Bits::new(),
        Some(to) => only(to, is_empty(board, to)),
    }
}

// Where a pawn goes two squares forward from its first rank, both empty (FIDE article 3.7.2).
pub fn two_steps(board: &Board, from: Square) -> Bits
    ensures { IsSetOf result (λ to. rules.AdvancesTwo board.now (plain from to)) }
{
    let side = board.side();
    if from.rank() != pawn_rank(side) {
        return Bits::new();
    }
    let Some(crossed) = from.step(side.forward()) else {
        return Bits::new();
    };
    match crossed.step(side.forward()) {
        None => Bits::new(),
        Some(to) => only(to, is_empty(board, crossed) & is_empty(board, to)),
    }
}

// Where a pawn of the side to move can take: a man of the opponent, or the pawn that has just crossed the square
// (FIDE articles 3.7.3 and 3.7.3.1).
fn takable(board: &Board) -> Bits
    ensures { IsSetOf result
        (λ s. rules.HoldsColour board.now s (other board.now.side) ⊎ (board.now.target ≡ Some s)) }
{
    let theirs = men_of(board, board.side().other());
    match board.target() {
        None => theirs,
        Some(target) => theirs.union(only(target, true)),
    }
}

// Where a pawn takes.
fn takes(board: &Board, from: Square) -> Bits
    ensures { IsSetOf result
        (λ to. rules.PawnTakes board.now (plain from to) ⊎ rules.TakesEnPassant board.now (plain from to)) }
{
    pawn(board.side(), from).meet(takable(board))
}

// Where a pawn goes (FIDE article 3.7).
pub fn pawn_targets(board: &Board, from: Square) -> Bits
    ensures { IsSetOf result (GoesTo board.now kind.Pawn from) }
{
    let forward = one_step(board, from).union(two_steps(board, from));
    forward.union(takes(board, from))
}
