ghost use Rattle.std.specs.Prelude.{◌≡◌};
ghost use Rattle.chess_bits.specs.Man.{other};

use crate::steps::{NORTH, SOUTH, Step};

/// The two sides (FIDE article 1.2).
#[derive(Clone, Copy, PartialEq, Eq)]
pub enum Colour {
    White,
    Black,
}

impl Colour {
    /// The opponent's colour.
    pub fn other(self) -> Colour
        ensures { result ≡ other self }
    {
        match self {
            Colour::White => Colour::Black,
            Colour::Black => Colour::White,
        }
    }
}

impl Colour {
    ghost use Rattle.chess_bits.specs.Attack.{forward};

    /// The way the colour's pawns go (FIDE article 3.7.1).
    pub fn forward(self) -> Step
        ensures { result ≡ forward self }
    {
        match self {
            Colour::White => NORTH,
            Colour::Black => SOUTH,
        }
    }
}

/// The six kinds of men (FIDE article 2.2).
#[derive(Clone, Copy, PartialEq, Eq)]
pub enum Kind {
    Pawn,
    Knight,
    Bishop,
    Rook,
    Queen,
    King,
}
