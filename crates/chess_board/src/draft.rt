ghost use Rattle.std.specs.Prelude.{◌≡◌, length, MatchOption, Some};
ghost use Rattle.chess_bits.specs.Man.{is_man as same_man, holds};
ghost use Rattle.chess_board.specs.Computing as test;

use crate::attack::is_in_check;
use crate::castling::{CastlingRights, Wing, king_home, rook_home};
use crate::men::{Men, is_man};
use crate::parts::{BadBoard, Parts};
use chess_bits::{Colour, Kind, Square};

/// A position that may not be valid.
#[derive(Clone, Copy)]
pub struct Draft {
    pub men: Men,
    pub side: Colour,
    pub rights: CastlingRights,
    pub target: Option<Square>,
    pub halfmove: u16,
    pub fullmove: u16,
    ghost whole: { length men ≡ 64 },
}

// The men of the squares by rising number.
fn men_of(men: &[Option<(Colour, Kind)>; 64]) -> Men
    ensures men { result ≡ men.now }
    ensures whole { length result ≡ 64 }
{
    let mut board = Men::new();
    for (number, man) in men.iter().enumerate() {
        board.set(Square::new(number as u8), *man);
    }
    board
}

impl Draft {
    ghost use Rattle.chess_board.specs.Position.{IsValid, man_at};
    ghost use Rattle.chess_board.specs.Parts.{described, drafted, IsFirstBroken};

    /// The position that parts describe.
    pub fn new(parts: &Parts) -> Draft
        ensures { drafted result ≡ described parts.now }
    {
        Draft {
            men: men_of(&parts.men),
            side: parts.side,
            rights: parts.rights,
            target: parts.target,
            halfmove: parts.halfmove,
            fullmove: parts.fullmove,
        }
    }

    // Whether each side has one king.
    fn has_kings(&self) -> bool
        ensures { result ≡ test.has_kings (drafted self.now) }
    {
        self.men.kings_of(Colour::White) == 1 && self.men.kings_of(Colour::Black) == 1
    }

    // Whether no side has more than 16 men.
    fn has_few_men(&self) -> bool
        ensures { result ≡ test.has_few_men (drafted self.now) }
    {
        self.men.count_of(Colour::White) <= 16 && self.men.count_of(Colour::Black) <= 16
    }

    // Whether no pawn stands on rank 1 or 8.
    fn has_pawns_inside(&self) -> bool
        ensures { result ≡ test.has_pawns_inside (drafted self.now) }
    {
        for square in self.men.of_kind(Kind::Pawn).iter() {
            let rank = square.rank();
            if rank == 1 || rank == 8 {
                return false;
            }
        }
        true
    }

    // Whether the side that is not to move is not in check.
    fn has_no_check(&self) -> bool
        ensures { result ≡ test.has_no_check (drafted self.now) }
    {
        !is_in_check(&self.men, self.side.other())
    }

    // Whether a man of a colour and a kind stands on a square.
    fn holds_man(&self, square: Square, colour: Colour, kind: Kind) -> bool
        ensures { result ≡ holds (same_man (colour, kind)) (man_at self.now.men square) }
    {
        is_man(self.men.man_at(square), colour, kind)
    }

    // Whether a right that a side has is true.
    fn has_true_right(&self, side: Colour, wing: Wing) -> bool
        ensures { result ≡ test.has_true_right (drafted self.now) side wing }
    {
        !self.rights.allows(side, wing)
            || (self.holds_man(king_home(side), side, Kind::King)
                && self.holds_man(rook_home(side, wing), side, Kind::Rook))
    }

    // Whether each right has its king and rook at home.
    fn has_true_rights(&self) -> bool
        ensures { result ≡ test.has_true_rights (drafted self.now) }
    {
        self.has_true_right(Colour::White, Wing::King)
            && self.has_true_right(Colour::White, Wing::Queen)
            && self.has_true_right(Colour::Black, Wing::King)
            && self.has_true_right(Colour::Black, Wing::Queen)
    }

    // Whether a pawn of the opponent has just crossed a square.
    fn is_true_target(&self, target: Square) -> bool
        ensures { result ≡ test.is_true_target (drafted self.now) (Some target) }
    {
        let (rank, passed, left) = match self.side {
            Colour::White => (6, 5, 7),
            Colour::Black => (3, 4, 2),
        };
        let file = target.file();
        target.rank() == rank
            && self.men.man_at(target).is_none()
            && self.holds_man(Square::at(file, passed), self.side.other(), Kind::Pawn)
            && self.men.man_at(Square::at(file, left)).is_none()
    }

    // Whether the target, if there is one, is true.
    fn has_true_target(&self) -> bool
        ensures { result ≡ test.has_true_target (drafted self.now) }
    {
        match self.target {
            None => true,
            Some(target) => self.is_true_target(target),
        }
    }

    // Whether the counters are in range; their types bound them from above.
    fn has_counters(&self) -> bool
        ensures { result ≡ test.has_counters (drafted self.now) }
    {
        let _halfmove = self.halfmove;
        self.fullmove >= 1
    }

    /// The first condition of a valid position that is broken.
    pub fn fault(&self) -> Option<BadBoard>
        ensures { MatchOption result (IsValid (drafted self.now)) (λ fault. IsFirstBroken (drafted self.now) fault) }
    {
        if !self.has_kings() {
            Some(BadBoard::Kings)
        } else if !self.has_few_men() {
            Some(BadBoard::Pieces)
        } else if !self.has_pawns_inside() {
            Some(BadBoard::Pawns)
        } else if !self.has_no_check() {
            Some(BadBoard::Check)
        } else if !self.has_true_rights() {
            Some(BadBoard::Rights)
        } else if !self.has_true_target() {
            Some(BadBoard::Target)
        } else if !self.has_counters() {
            Some(BadBoard::Counter)
        } else {
            None
        }
    }
}
