ghost use Rattle.std.specs.Prelude.{◌≡◌, ◌↔◌, IsTrue, Some};
ghost use Rattle.chess_board.specs.declared.castling.Wing.{Wing};
ghost use Rattle.chess_board.specs.Position.{has_right as right_of};
ghost use Rattle.chess_san.specs.Boards.{DiffersInCounters};

use chess_bits::{Colour, Square};
use chess_board::{Board, Wing, is_same_square};

// Whether the same men stand on two boards.
fn has_same_men(a: &Board, b: &Board) -> bool
    ensures { IsTrue result → b.now.placement ≡ a.now.placement }
{
    let _valid = (a.rights(), b.rights());
    a.men().changes(b.men()).is_empty()
}

// Whether a side may still castle to a wing.
fn has_right(board: &Board, side: Colour, wing: Wing) -> bool
    ensures { result ≡ right_of board.now.rights side wing }
{
    board.rights().allows(side, wing)
}

// Whether a castling right is on both boards or on neither.
fn has_same_right(a: &Board, b: &Board, side: Colour, wing: Wing) -> bool
    ensures { IsTrue result → right_of b.now.rights side wing ≡ right_of a.now.rights side wing }
{
    has_right(a, side, wing) == has_right(b, side, wing)
}

// Whether a side has the same castling rights on two boards.
fn has_same_rights_of(a: &Board, b: &Board, side: Colour) -> bool
    ensures { IsTrue result → (wing : Wing) → right_of b.now.rights side wing ≡ right_of a.now.rights side wing }
{
    let short = has_same_right(a, b, side, Wing::King);
    let long = has_same_right(a, b, side, Wing::Queen);
    short & long
}

// Whether two boards have the same castling rights.
fn has_same_rights(a: &Board, b: &Board) -> bool
    ensures { IsTrue result → b.now.rights ≡ a.now.rights }
{
    let white = has_same_rights_of(a, b, Colour::White);
    let black = has_same_rights_of(a, b, Colour::Black);
    white & black
}

// Whether two en passant targets are one.
fn is_same_target(a: Option<Square>, b: Option<Square>) -> bool
    ensures { IsTrue result → b ≡ a }
{
    match (a, b) {
        (None, None) => true,
        (Some(here), Some(there)) => is_same_square(here, there),
        _ => false,
    }
}

/// Whether two sides are one.
pub fn is_same_side(a: Colour, b: Colour) -> bool
    ensures { IsTrue result ↔ (b ≡ a) }
{
    match (a, b) {
        (Colour::White, Colour::White) => true,
        (Colour::White, Colour::Black) => false,
        (Colour::Black, Colour::White) => false,
        (Colour::Black, Colour::Black) => true,
    }
}

/// Whether two boards differ in their counters alone, if at all.
pub fn is_like(a: &Board, b: &Board) -> bool
    ensures { IsTrue result → DiffersInCounters a.now b.now }
{
    let turn = is_same_side(a.side(), b.side());
    let target = is_same_target(a.target(), b.target());
    let rights = has_same_rights(a, b);
    let men = has_same_men(a, b);
    turn & target & rights & men
}
