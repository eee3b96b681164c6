//! The way from the king to the nearest slider of the opponent, and what stands on it.
ghost use Rattle.std.specs.Prelude.{◌≡◌, ◌<◌, ◌↔◌, IsTrue, IfSome, IfNone, Some, [], length};
ghost use Rattle.chess_bits.specs.Square.{Square as Geometric, IsOnBoard};
ghost use Rattle.chess_bits.specs.Table.{members, head_of, IsSetOf, IsGreatest};
ghost use Rattle.chess_attacks.specs.Ways.{way_step, IsRising, IsFalling};
ghost use Rattle.chess_moves.specs.Masks.{IsPathTo, NoneAhead, IsWatch};

use chess_attacks::ray;
use chess_bits::{Bits, Square};
use chess_board::Board;

/// What is seen from the king in a way with a slider of the opponent in it.
#[derive(Clone, Copy)]
pub struct Watch {
    /// The squares from the king as far as the slider, and with it.
    pub path: Bits,
    /// Those with men, but for the slider.
    pub between: Bits,
}

// Whether there is one square in the set.
pub fn is_single(set: Bits) -> bool
    requires { length set ≡ 64 }
    ensures { IsTrue result ↔ ((s : Geometric) × IsOnBoard s × IsSetOf set (λ q. q ≡ s)) }
{
    match set.first() {
        None => false,
        Some(square) => {
            let mut rest = set;
            rest.remove(square);
            rest.is_empty()
        }
    }
}

// The sliders' square nearest to the king in the way.
fn nearest(seen: Bits, way: u8) -> Option<Square>
    requires { way < 8 }
    ensures rising { IsRising way → IfSome result (λ s. Some s ≡ head_of (members seen)) }
    ensures falling { IsFalling way → IfSome result (IsGreatest seen) }
    ensures none { IfNone result (members seen ≡ []) }
{
    if way < 3 || way == 7 {
        seen.first()
    } else {
        seen.last()
    }
}

// The squares from the king to the first of the sliders in the way, and with it.
fn path_to(king: Square, way: u8, sliders: Bits) -> Option<Bits>
    requires { way < 8 }
    ensures some { IfSome result (IsPathTo sliders king (way_step way)) }
    ensures none { IfNone result (NoneAhead sliders king (way_step way)) }
{
    let whole = ray(king, way);
    match nearest(whole.meet(sliders), way) {
        None => None,
        Some(slider) => Some(whole.without(ray(slider, way))),
    }
}

/// What is seen from the king in a way, if one of the sliders is in it.
pub fn watch_in(board: &Board, king: Square, way: u8, sliders: Bits) -> Option<Watch>
    requires { way < 8 }
    ensures some { IfSome result (IsWatch board.now sliders king way) }
    ensures none { IfNone result (NoneAhead sliders king (way_step way)) }
{
    match path_to(king, way, sliders) {
        None => None,
        Some(path) => {
            let between = path.meet(board.men().occupied()).without(sliders);
            Some(Watch { path, between })
        }
    }
}
