ghost use Rattle.std.specs.Prelude.{◌≡◌, ◌↔◌, IsTrue, None};
ghost use Rattle.chess_bits.specs.declared.men.Kind.TheVariants as kinds;
ghost use Rattle.chess_bits.specs.Square.{IsOnBoard};
ghost use Rattle.chess_bits.specs.Table.{IsSetOf};
ghost use Rattle.chess_bits.specs.Man.{is_of};
ghost use Rattle.chess_board.specs.Occupancy.{squares_with};
ghost use Rattle.chess_board.specs.Position.{man_at, IsValid};
ghost use Rattle.chess_board.specs.Legal.{HoldsColour};
ghost use Rattle.chess_moves.specs.Targets.{plain as plain_move};
ghost use Rattle.chess_moves.specs.Listing.{promoted as promoted_move};

use chess_bits::{Bits, Colour, Kind, Square};
use chess_board::{Board, Move};

// Whether a man is a pawn.
pub fn is_pawn(kind: Kind) -> bool
    ensures { IsTrue result ↔ (kind ≡ kinds.Pawn) }
{
    kind == Kind::Pawn
}

// Whether no man stands on a square.
pub fn is_empty(board: &Board, square: Square) -> bool
    ensures empty { IsTrue result ↔ (man_at board.now.placement square ≡ None) }
    ensures on_board { IsOnBoard square }
{
    !board.men().occupied().contains(square)
}

// The squares with men of a colour. The rights are read for what comes with them: that the board is valid.
pub fn men_of(board: &Board, colour: Colour) -> Bits
    ensures squares { result ≡ squares_with (is_of colour) board.now.placement }
    ensures held { IsSetOf result (λ s. HoldsColour board.now s colour) }
    ensures valid { IsValid board.now }
{
    let _valid = board.rights();
    board.men().of(colour)
}

// The set of the square alone, or of none.
pub fn only(square: Square, included: bool) -> Bits
    ensures { IsSetOf result (λ s. (s ≡ square) × IsTrue included) }
{
    let mut set = Bits::new();
    set.assign(square, included);
    set
}

// The move from a square to another, without a promotion.
pub fn plain(from: Square, to: Square) -> Move
    ensures { result ≡ plain_move from to }
{
    Move {
        from,
        to,
        promotion: None,
    }
}

// The move of a pawn that becomes the kind.
pub fn promoted(from: Square, to: Square, kind: Kind) -> Move
    ensures { result ≡ promoted_move from to kind }
{
    Move {
        from,
        to,
        promotion: Some(kind),
    }
}
