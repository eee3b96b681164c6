ghost use Rattle.std.specs.Prelude.{◌≡◌, ◌≤◌, ◌<◌, ◌^◌, IfSome, IfNone};

use std::marker::Model;

/// The number of a game, from 1.
#[derive(Clone, Copy)]
pub struct GameNumber {
    number: u32,
}

impl Model for GameNumber {
    ghost use Rattle.std.specs.Prelude.{ℕ, ◌≤◌};

    ghost Value = { ℕ };

    ghost view = { λ g. g.number };

    ghost invariant = { λ g. 1 ≤ g.number };

    ghost inverse = { λ n. record { number = n } };
}

impl GameNumber {
    /// The number as a game's.
    pub fn new(number: u32) -> GameNumber
        requires { 1 ≤ number }
        ensures { result ≡ number }
    {
        GameNumber { number }
    }

    /// The number as a game's; `None` exactly at 0.
    pub fn try_new(number: u32) -> Option<GameNumber>
        ensures some { IfSome result (λ game. game ≡ number) }
        ensures none { IfNone result (number ≡ 0) }
    {
        if number == 0 {
            None
        } else {
            Some(GameNumber { number })
        }
    }

    /// The number, 1 to 4,294,967,295.
    pub fn get(self) -> u32
        ensures number { result ≡ self }
        ensures from { 1 ≤ self }
        ensures fits { self < 2 ^ 32 }
    {
        self.number
    }
}
