ghost use Rattle.std.specs.Prelude.{◌≡◌, ◌↔◌, IsTrue, length};
ghost use Rattle.chess_bits.specs.Table.{IsSetOf};
ghost use Rattle.chess_board.specs.Occupancy.{squares_with};
ghost use Rattle.chess_end.specs.Material.{is_dark, AreKingsAndKnight, AreBishopsOn, AreKingsAndBishops, IsListedDead};
ghost use Rattle.chess_end.specs.Computing.{is_other};

use chess_bits::{Bits, Kind};
use chess_board::{Board, Men};

// The dark squares, a1 among them, and the light ones, by their bits.
const DARK: u64 = 0xAA55_AA55_AA55_AA55;

const LIGHT: u64 = 0x55AA_55AA_55AA_55AA;

// The squares with men other than kings.
fn others(men: &Men) -> Bits
    ensures { result ≡ squares_with is_other men.now }
{
    men.occupied().without(men.of_kind(Kind::King))
}

// The squares of a colour (FIDE article 2.1).
fn squares_of(dark: bool) -> Bits
    ensures { IsSetOf result (λ s. is_dark s ≡ dark) }
{
    if dark {
        Bits::from_word(DARK)
    } else {
        Bits::from_word(LIGHT)
    }
}

// Whether the kings and one knight are left.
fn are_kings_and_knight(men: &Men) -> bool
    requires { length men.now ≡ 64 }
    ensures { IsTrue result ↔ AreKingsAndKnight men.now }
{
    let others = others(men);
    others.count() == 1 && others.without(men.of_kind(Kind::Knight)).is_empty()
}

// Whether the kings alone are left, or with bishops on squares of the colour.
fn are_bishops_on(men: &Men, dark: bool) -> bool
    requires { length men.now ≡ 64 }
    ensures { IsTrue result ↔ AreBishopsOn dark men.now }
{
    let bishops = men.of_kind(Kind::Bishop).meet(squares_of(dark));
    others(men).without(bishops).is_empty()
}

// Whether the kings alone are left, or with bishops, all on squares of one colour.
fn are_kings_and_bishops(men: &Men) -> bool
    requires { length men.now ≡ 64 }
    ensures { IsTrue result ↔ AreKingsAndBishops men.now }
{
    are_bishops_on(men, true) || are_bishops_on(men, false)
}

/// Whether the men that are left are listed as dead material (FIDE article 5.2.2): both kings alone, the kings and one
/// knight, or the kings and any number of bishops of either side, all on squares of one colour. The list is this
/// project's own (`docs/design/LAWS.md`).
pub fn is_listed_dead(board: &Board) -> bool
    ensures { IsTrue result ↔ IsListedDead board.now.placement }
{
    // read for what comes with them: that the board is valid
    let _valid = board.rights();
    let men = board.men();
    are_kings_and_knight(men) || are_kings_and_bishops(men)
}
