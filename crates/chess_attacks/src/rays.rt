ghost use Rattle.std.specs.Prelude.{◌≡◌, ◌<◌, ◌⊎◌};
ghost use Rattle.chess_bits.specs.Square.{IsOnBoard};
ghost use Rattle.chess_bits.specs.Table.{IsSetOf, empty};
ghost use Rattle.chess_bits.specs.Attack.{SlidesAlong};
ghost use Rattle.chess_attacks.specs.Ways.{way_step, IsRising, IsFalling};

use crate::tables::RAYS;
use chess_bits::{Bits, Square};

/// The squares that lie from a square in one of the eight ways, to the end of the board. Ways count clockwise: 0 is
/// toward rank 8, 1 toward rank 8 and file h, 2 toward file h, and so on to 7, toward rank 8 and file a.
pub fn ray(square: Square, way: u8) -> Bits
    requires { way < 8 }
    ensures squares { IsSetOf result (λ b. SlidesAlong empty square b (way_step way)) }
    ensures on_board { IsOnBoard square }
{
    Bits::from_word(RAYS[usize::from(square.number())][usize::from(way)])
}

/// The squares to which a man slides in a way in which square numbers rise, up to the first man and with it
/// (FIDE article 3.5).
pub fn slide_rising(square: Square, way: u8, occupied: Bits) -> Bits
    requires { IsRising way }
    ensures { IsSetOf result (λ b. SlidesAlong occupied square b (way_step way)) }
{
    let whole = ray(square, way);
    match whole.meet(occupied).first() {
        None => whole,
        Some(blocker) => whole.without(ray(blocker, way)),
    }
}

/// The same in a way in which square numbers fall.
pub fn slide_falling(square: Square, way: u8, occupied: Bits) -> Bits
    requires { IsFalling way }
    ensures { IsSetOf result (λ b. SlidesAlong occupied square b (way_step way)) }
{
    let whole = ray(square, way);
    match whole.meet(occupied).last() {
        None => whole,
        Some(blocker) => whole.without(ray(blocker, way)),
    }
}
