ghost use Rattle.std.specs.Prelude.{⊤, ◌≡◌, ◌<◌, [], ◌∷◌, ◌↔◌, codes, IsTrue};
ghost use Rattle.chess_board.specs.Position.{has_right, home_rank as spec_home_rank, king_home as spec_king_home};
ghost use Rattle.chess_board.specs.Position.{rook_home as spec_rook_home};
ghost use Rattle.chess_board.specs.Next.{castled_king as spec_castled_king, castled_rook as spec_castled_rook};
ghost use Rattle.chess_board.specs.RightsOf.{rights_of, no_rights, HasKnownFlags};

use bitflags::{Flag, Flags, bitflag_items};
use chess_bits::{Colour, Square};

/// The wing to which a king castles (FIDE article 3.8.2).
#[derive(Clone, Copy)]
pub enum Wing {
    King,
    Queen,
}

/// A set of castling rights (FIDE article 3.8.2.1), one bit for each colour and wing.
#[derive(Clone, Copy)]
pub struct CastlingRights(u8);

bitflag_items! {
    impl CastlingRights: u8 {
        const WHITE_KING = 1;
        const WHITE_QUEEN = 2;
        const BLACK_KING = 4;
        const BLACK_QUEEN = 8;
    }
}

impl Flags for CastlingRights {
    type Bits = u8;

    ghost exact = { ⊤ };

    ghost table = { (codes "WHITE_KING", 1) ∷ (codes "WHITE_QUEEN", 2) ∷ (codes "BLACK_KING", 4)
        ∷ (codes "BLACK_QUEEN", 8) ∷ [] };

    ghost set_of = { λ rights. rights.0 };

    fn flags<'a>() -> &'a [Flag<CastlingRights>] {
        CastlingRights::FLAGS
    }

    fn bits(&self) -> u8 {
        self.0
    }

    fn from_bits_retain(bits: u8) -> CastlingRights {
        CastlingRights(bits)
    }
}

impl CastlingRights {
    /// Each side may castle to each wing.
    pub const ALL: CastlingRights = CastlingRights(15);

    /// The set of the rights that are true.
    pub fn of(
        white_king: bool,
        white_queen: bool,
        black_king: bool,
        black_queen: bool,
    ) -> CastlingRights
        ensures rights { rights_of result ≡ record {
          white_king = white_king;
          white_queen = white_queen;
          black_king = black_king;
          black_queen = black_queen;
        } }
        ensures known { HasKnownFlags result }
    {
        CastlingRights(
            u8::from(white_king)
                + 2 * u8::from(white_queen)
                + 4 * u8::from(black_king)
                + 8 * u8::from(black_queen),
        )
    }

    /// The same rights, without flags that stand for none.
    pub fn known(self) -> CastlingRights
        ensures rights { rights_of result ≡ rights_of self }
        ensures known { HasKnownFlags result }
    {
        CastlingRights::of(
            self.allows(Colour::White, Wing::King),
            self.allows(Colour::White, Wing::Queen),
            self.allows(Colour::Black, Wing::King),
            self.allows(Colour::Black, Wing::Queen),
        )
    }

    // Whether no right is left.
    pub(crate) fn is_none(self) -> bool
        ensures { IsTrue result ↔ (rights_of self ≡ no_rights) }
    {
        !(self.allows(Colour::White, Wing::King)
            | self.allows(Colour::White, Wing::Queen)
            | self.allows(Colour::Black, Wing::King)
            | self.allows(Colour::Black, Wing::Queen))
    }

    /// Whether the colour may still castle to the wing (FIDE article 3.8.2.1).
    pub fn allows(self, colour: Colour, wing: Wing) -> bool
        ensures { result ≡ has_right (rights_of self) colour wing }
    {
        match (colour, wing) {
            (Colour::White, Wing::King) => self.0 & 1 == 1,
            (Colour::White, Wing::Queen) => (self.0 >> 1) & 1 == 1,
            (Colour::Black, Wing::King) => (self.0 >> 2) & 1 == 1,
            (Colour::Black, Wing::Queen) => (self.0 >> 3) & 1 == 1,
        }
    }
}

/// The rank on which a side's pieces start (FIDE article 2.3).
pub fn home_rank(side: Colour) -> u8
    ensures { result ≡ spec_home_rank side }
{
    match side {
        Colour::White => 1,
        Colour::Black => 8,
    }
}

/// The square from which a side's king castles (FIDE article 3.8.2).
pub fn king_home(side: Colour) -> Square
    ensures { result ≡ spec_king_home side }
{
    Square::at(5, home_rank(side))
}

/// The square from which a side's rook of a wing castles.
pub fn rook_home(side: Colour, wing: Wing) -> Square
    ensures { result ≡ spec_rook_home side wing }
{
    match wing {
        Wing::King => Square::at(8, home_rank(side)),
        Wing::Queen => Square::at(1, home_rank(side)),
    }
}

/// The square that a side's king reaches by castling to a wing.
pub fn castled_king(side: Colour, wing: Wing) -> Square
    ensures { result ≡ spec_castled_king side wing }
{
    match wing {
        Wing::King => Square::at(7, home_rank(side)),
        Wing::Queen => Square::at(3, home_rank(side)),
    }
}

/// The square that a side's rook reaches, which the king crosses, by castling to a wing.
pub fn castled_rook(side: Colour, wing: Wing) -> Square
    ensures { result ≡ spec_castled_rook side wing }
{
    match wing {
        Wing::King => Square::at(6, home_rank(side)),
        Wing::Queen => Square::at(4, home_rank(side)),
    }
}
