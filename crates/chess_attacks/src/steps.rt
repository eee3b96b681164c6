ghost use Rattle.std.specs.Prelude.{List, Bool};
ghost use Rattle.chess_bits.specs.declared.men.Colour.{Colour};
ghost use Rattle.chess_bits.specs.declared.men.Kind.TheVariants as kind;
ghost use Rattle.chess_bits.specs.Table.{IsSetOf};
ghost use Rattle.chess_bits.specs.Attack.{Attacks};

use crate::tables::{BLACK_PAWN, KING, KNIGHT, WHITE_PAWN};
use chess_bits::{Bits, Colour, Square};

/// The squares that a knight on the square attacks, whatever stands there (FIDE article 3.6).
pub fn knight(square: Square) -> Bits
    ensures { (occupied : List Bool) (side : Colour) → IsSetOf result (Attacks occupied side kind.Knight square) }
{
    Bits::from_word(KNIGHT[usize::from(square.number())])
}

/// The squares that a king on the square attacks, whatever stands there (FIDE article 3.8.1).
pub fn king(square: Square) -> Bits
    ensures { (occupied : List Bool) (side : Colour) → IsSetOf result (Attacks occupied side kind.King square) }
{
    Bits::from_word(KING[usize::from(square.number())])
}

/// The squares that a pawn of the colour on the square attacks, whatever stands there (FIDE article 3.7.3).
pub fn pawn(colour: Colour, square: Square) -> Bits
    ensures { (occupied : List Bool) → IsSetOf result (Attacks occupied colour kind.Pawn square) }
{
    let number = usize::from(square.number());
    match colour {
        Colour::White => Bits::from_word(WHITE_PAWN[number]),
        Colour::Black => Bits::from_word(BLACK_PAWN[number]),
    }
}
