ghost use Rattle.std.specs.Prelude.{◌≡◌, ◌<◌, IfSome, IfNone};
ghost use Rattle.chess_bits.specs.Square.{square, square_at, number_of, IsOnBoard};
ghost use Rattle.chess_bits.specs.Attack.{along};

use crate::steps::Step;
use std::marker::Model;

/// A square of the board, by its number: a1 is 0, h1 is 7, a2 is 8, h8 is 63.
#[derive(Clone, Copy, PartialEq, Eq)]
pub struct Square {
    number: u8,
}

impl Model for Square {
    ghost use Rattle.std.specs.Prelude.{ℕ, ◌<◌};
    ghost use Rattle.chess_bits.specs.Square as geometry;
    ghost use Rattle.std.proofs.Common.{ap};

    ghost Value = { geometry.Square };

    ghost view = { λ s. geometry.square_at s.number };

    ghost invariant = { λ s. s.number < 64 };

    ghost inverse = { λ s. record { number = geometry.number_of s } };

    ghost use Rattle.chess_bits.specs.declared.coordinates.Square.TheInside.{Inside};

    ghost inverse_ok = { λ a _. ap (λ (n : ℕ). let i : Inside = record { number = n } in i)
        (geometry.number_of-square_at a.number) };
}

impl Square {
    /// The square of a number below 64.
    pub fn new(number: u8) -> Square
        requires { number < 64 }
        ensures { result ≡ square_at number }
    {
        Square { number }
    }

    /// The square's number, 0 to 63.
    pub fn number(self) -> u8
        ensures number { result ≡ number_of self }
        ensures below { result < 64 }
        ensures on_board { IsOnBoard self }
        ensures named { square_at result ≡ self }
    {
        self.number
    }

    /// The file, 1 (the a-file) to 8.
    pub fn file(self) -> u8
        ensures file { result ≡ self.file }
        ensures on_board { IsOnBoard self }
    {
        self.number % 8 + 1
    }

    /// The rank, 1 to 8.
    pub fn rank(self) -> u8
        ensures rank { result ≡ self.rank }
        ensures on_board { IsOnBoard self }
    {
        self.number / 8 + 1
    }

    /// The square on a file and a rank, each 1 to 8.
    pub fn at(file: u8, rank: u8) -> Square
        requires on_board { IsOnBoard (square file rank) }
        ensures { result ≡ square file rank }
    {
        Square {
            number: (rank - 1) * 8 + (file - 1),
        }
    }

    /// The square that lies one step from this one, or `None` where the board ends before.
    pub fn step(self, step: Step) -> Option<Square>
        ensures some { IfSome result (λ s. (s ≡ along 1 step self) × IsOnBoard s) }
        ensures none { IfNone result (¬ IsOnBoard (along 1 step self)) }
        ensures on_board { IsOnBoard self }
    {
        let file = u16::from(self.file()) + u16::from(step.right);
        let rank = u16::from(self.rank()) + u16::from(step.up);
        let (left, down) = (u16::from(step.left), u16::from(step.down));
        if left < file && file <= left + 8 && down < rank && rank <= down + 8 {
            Some(Square::at((file - left) as u8, (rank - down) as u8))
        } else {
            None
        }
    }
}
