ghost use Rattle.std.specs.Prelude.{◌≡◌, ◌↔◌, IsTrue, IfSome, IfNone, true, false, [], length};
ghost use Rattle.chess_bits.specs.Table.{has, put, union, meet, without, empty, members, head_of, IsGreatest};
ghost use Rattle.chess_bits.specs.Word.{bools_of};
ghost use Rattle.chess_bits.specs.Square.{IsOnBoard};
ghost use Rattle.chess_bits.specs.SquaresOf.{squares_left};

use crate::coordinates::Square;
use std::marker::Model;

/// A set of squares, one bit for each square by its number.
#[derive(Clone, Copy, PartialEq, Eq)]
pub struct Bits {
    word: u64,
}

impl Model for Bits {
    ghost use Rattle.std.specs.Prelude.{ℕ, ◌<◌, ◌^◌, List, Bool};
    ghost use Rattle.chess_bits.specs.Word.{bools_of, word_of, word_of-bools_of};
    ghost use Rattle.std.proofs.Common.{ap};

    ghost Value = { List Bool };

    ghost view = { λ b. bools_of 64 b.word };

    ghost invariant = { λ b. b.word < 2 ^ 64 };

    ghost inverse = { λ set. record { word = word_of set } };

    ghost use Rattle.chess_bits.specs.declared.bit_set.Bits.TheInside.{Inside};

    ghost inverse_ok = { λ a fits. ap (λ (w : ℕ). let i : Inside = record { word = w } in i)
        (word_of-bools_of 64 a.word fits) };
}

impl Bits {
    /// The set without a square.
    pub fn new() -> Bits
        ensures { result ≡ empty }
    {
        Bits { word: 0 }
    }

    /// The set of the squares whose bits are 1: bit 0 is a1, bit 7 h1, bit 63 h8.
    pub fn from_word(word: u64) -> Bits
        ensures { result ≡ bools_of 64 word }
    {
        Bits { word }
    }

    /// Whether the square is in the set.
    pub fn contains(self, square: Square) -> bool
        ensures member { result ≡ has self square }
        ensures on_board { IsOnBoard square }
    {
        (self.word >> square.number()) & 1 == 1
    }

    /// Puts the square into the set.
    pub fn insert(&mut self, square: Square)
        ensures inserted { self.new ≡ put self.old square true }
        ensures on_board { IsOnBoard square }
    {
        self.word |= 1 << square.number();
    }

    /// Takes the square out of the set.
    pub fn remove(&mut self, square: Square)
        ensures removed { self.new ≡ put self.old square false }
        ensures on_board { IsOnBoard square }
    {
        self.word &= !(1 << square.number());
    }

    /// Puts the square into the set, or takes it out.
    pub fn assign(&mut self, square: Square, member: bool)
        ensures assigned { self.new ≡ put self.old square member }
        ensures on_board { IsOnBoard square }
    {
        if member {
            self.insert(square);
        } else {
            self.remove(square);
        }
    }

    /// The squares in either set.
    pub fn union(self, other: Bits) -> Bits
        ensures { result ≡ union self other }
    {
        Bits {
            word: self.word | other.word,
        }
    }

    /// The squares in both sets.
    pub fn meet(self, other: Bits) -> Bits
        ensures { result ≡ meet self other }
    {
        Bits {
            word: self.word & other.word,
        }
    }

    /// The squares in this set that are not in the other.
    pub fn without(self, other: Bits) -> Bits
        ensures { result ≡ without self other }
    {
        Bits {
            word: self.word & !other.word,
        }
    }

    /// How many squares are in the set.
    pub fn count(self) -> u32
        ensures { result ≡ length (members self) }
    {
        self.word.count_ones()
    }

    /// Whether no square is in the set.
    pub fn is_empty(self) -> bool
        ensures { IsTrue result ↔ (members self ≡ []) }
    {
        self.word == 0
    }

    /// The square of the set with the least number, or `None` of the empty set.
    pub fn first(self) -> Option<Square>
        ensures { result ≡ head_of (members self) }
    {
        if self.word == 0 {
            None
        } else {
            Some(Square::new(self.word.trailing_zeros() as u8))
        }
    }

    /// The square of the set with the greatest number, or `None` of the empty set.
    pub fn last(self) -> Option<Square>
        ensures greatest { IfSome result (IsGreatest self) }
        ensures none { IfNone result (members self ≡ []) }
    {
        if self.word == 0 {
            None
        } else {
            Some(Square::new(63 - self.word.leading_zeros() as u8))
        }
    }

    /// The squares of the set, by rising number.
    pub fn iter(self) -> SquaresOf
        ensures { squares_left result ≡ members self }
    {
        SquaresOf { rest: self }
    }
}

/// The squares of a set that are still to come, by rising number.
#[derive(Clone, Copy)]
pub struct SquaresOf {
    rest: Bits,
}

impl Iterator for SquaresOf {
    ghost use Rattle.std.specs.Iterator.{YieldsFirst, item_count};

    type Item = Square;

    ghost next_gives = { YieldsFirst squares_left };

    ghost remaining = { item_count squares_left };

    fn next(&mut self) -> Option<Square> {
        let square = self.rest.first()?;
        self.rest.remove(square);
        Some(square)
    }
}
