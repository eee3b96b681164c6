ghost use Rattle.std.specs.Prelude.{◌≡◌, ◌↔◌, IsTrue, true, Some};
ghost use Rattle.chess_bits.specs.Square.{Square};
ghost use Rattle.chess_bits.specs.Table.{has};
ghost use Rattle.chess_bits.specs.Placement.{man_at};
ghost use Rattle.chess_board.specs.Position.{IsAttacked, IsInCheck};

use crate::men::Men;
use chess_attacks::{bishop, king, knight, pawn, rook};
use chess_bits::{Bits, Colour, Kind, Square};

// Whether a man of the side and the kind stands on one of the squares.
fn stands_among(men: &Men, side: Colour, kind: Kind, squares: Bits) -> bool
    ensures { IsTrue result ↔
        ((a : Square) × (man_at men.now a ≡ Some (side, kind)) × (has squares a ≡ true)) }
{
    !squares.meet(men.of_man(side, kind)).is_empty()
}

/// Whether a man of the side attacks the square (FIDE article 3.1.3). It looks outward from the square: a man of a kind
/// attacks it from where a man of that kind on the square would attack.
pub fn is_attacked(men: &Men, side: Colour, square: Square) -> bool
    ensures { IsTrue result ↔ IsAttacked men.now side square }
{
    let _on_board = square.number();
    let occupied = men.occupied();
    let straight = rook(square, occupied);
    let diagonal = bishop(square, occupied);
    stands_among(men, side, Kind::Pawn, pawn(side.other(), square))
        | stands_among(men, side, Kind::Knight, knight(square))
        | stands_among(men, side, Kind::King, king(square))
        | stands_among(men, side, Kind::Rook, straight)
        | stands_among(men, side, Kind::Bishop, diagonal)
        | stands_among(men, side, Kind::Queen, straight.union(diagonal))
}

/// Whether a king of the side stands on a square that the opponent attacks (FIDE article 3.9.1).
pub fn is_in_check(men: &Men, side: Colour) -> bool
    ensures { IsTrue result ↔ IsInCheck men.now side }
{
    for square in men.of_man(side, Kind::King).iter() {
        if is_attacked(men, side.other(), square) {
            return true;
        }
    }
    false
}
