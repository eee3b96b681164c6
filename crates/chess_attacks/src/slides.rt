ghost use Rattle.chess_bits.specs.declared.men.Colour.{Colour};
ghost use Rattle.chess_bits.specs.declared.men.Kind.TheVariants as kind;
ghost use Rattle.chess_bits.specs.Table.{IsSetOf};
ghost use Rattle.chess_bits.specs.Attack.{Attacks};

use crate::rays::{slide_falling, slide_rising};
use chess_bits::{Bits, Square};

/// The squares that a bishop on the square attacks, where `occupied` are the squares with men (FIDE articles 3.2 and
/// 3.5).
pub fn bishop(square: Square, occupied: Bits) -> Bits
    ensures { (side : Colour) → IsSetOf result (Attacks occupied side kind.Bishop square) }
{
    let north_east = slide_rising(square, 1, occupied);
    let south_east = slide_falling(square, 3, occupied);
    let south_west = slide_falling(square, 5, occupied);
    let north_west = slide_rising(square, 7, occupied);
    north_east.union(south_east.union(south_west.union(north_west)))
}

/// The squares that a rook on the square attacks, where `occupied` are the squares with men (FIDE articles 3.3 and
/// 3.5).
pub fn rook(square: Square, occupied: Bits) -> Bits
    ensures { (side : Colour) → IsSetOf result (Attacks occupied side kind.Rook square) }
{
    let north = slide_rising(square, 0, occupied);
    let east = slide_rising(square, 2, occupied);
    let south = slide_falling(square, 4, occupied);
    let west = slide_falling(square, 6, occupied);
    north.union(east.union(south.union(west)))
}

/// The squares that a queen on the square attacks, where `occupied` are the squares with men (FIDE articles 3.4 and
/// 3.5).
pub fn queen(square: Square, occupied: Bits) -> Bits
    ensures { (side : Colour) → IsSetOf result (Attacks occupied side kind.Queen square) }
{
    rook(square, occupied).union(bishop(square, occupied))
}
