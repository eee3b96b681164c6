ghost use Rattle.std.specs.Prelude.{◌≡◌, ◌≢◌, length, IfOk, IfErr, IfSome, IfNone};
ghost use Rattle.chess_bits.specs.Man.{Man};
ghost use Rattle.chess_board.specs.Position.{Placement};
ghost use Rattle.chess_fen.specs.declared.fields.FenError.TheVariants as faults;
ghost use Rattle.chess_notation.specs.Letters.{letter_of};
ghost use Rattle.chess_notation.specs.Fen.{placement_text};
ghost use Rattle.chess_fen.specs.Reading.{TellsPlacement};

use crate::fen::placement;
use crate::fields::FenError;
use chess_bits::{Colour, Kind, Square};
use chess_board::Men;

// The man that a letter stands for (PGN Standard, section 16.1.3.1).
fn man_named(letter: u8) -> Option<(Colour, Kind)>
    ensures found { IfSome result (λ man. letter ≡ letter_of man) }
    ensures none { IfNone result ((man : Man) → letter ≢ letter_of man) }
{
    match letter {
        b'P' => Some((Colour::White, Kind::Pawn)),
        b'N' => Some((Colour::White, Kind::Knight)),
        b'B' => Some((Colour::White, Kind::Bishop)),
        b'R' => Some((Colour::White, Kind::Rook)),
        b'Q' => Some((Colour::White, Kind::Queen)),
        b'K' => Some((Colour::White, Kind::King)),
        b'p' => Some((Colour::Black, Kind::Pawn)),
        b'n' => Some((Colour::Black, Kind::Knight)),
        b'b' => Some((Colour::Black, Kind::Bishop)),
        b'r' => Some((Colour::Black, Kind::Rook)),
        b'q' => Some((Colour::Black, Kind::Queen)),
        b'k' => Some((Colour::Black, Kind::King)),
        _ => None,
    }
}

// The men that a placement's text tells. Of a text that is no placement's it gives some men.
fn men_told(text: &str) -> Men
    ensures whole { length result ≡ 64 }
    ensures told { (p : Placement) → length p ≡ 64 → text.now ≡ placement_text p → result ≡ p }
{
    let mut men = Men::new();
    // How many squares are told, from a8 to h8 and on down to h1.
    let mut told: u8 = 0;
    for &letter in text.as_bytes() {
        if let b'1'..=b'8' = letter {
            told = told.saturating_add(letter - b'0');
        } else if let Some(man) = man_named(letter) {
            if told < 64 {
                men.set(Square::at(told % 8 + 1, 8 - told / 8), Some(man));
                told += 1;
            }
        }
    }
    men
}

/// The men that a field tells: they are read, and the field must be what is written for them. So no rank has more or
/// fewer than eight squares, and no two digits stand side by side.
pub fn placement_named(text: &str) -> Result<Men, FenError>
    ensures told { IfOk result (TellsPlacement text.now) }
    ensures fault { IfErr result (λ fault. fault ≡ faults.Placement) }
    ensures none { IfErr result (λ _. (p : Placement) → ¬ TellsPlacement text.now p) }
{
    let men = men_told(text);
    if placement(&men).as_str() == text {
        Ok(men)
    } else {
        Err(FenError::Placement)
    }
}

/// The men by the numbers of their squares.
pub fn by_number(men: &Men) -> [Option<(Colour, Kind)>; 64]
    requires { length men.now ≡ 64 }
    ensures { result ≡ men.now }
{
    let mut squares = [None; 64];
    for number in 0..64 {
        squares[usize::from(number)] = men.man_at(Square::new(number));
    }
    squares
}
