ghost use Rattle.std.specs.Prelude.{◌≡◌, ◌+◌, ◌≤◌, ◌↔◌, ◌++◌, IsTrue, length};
ghost use Rattle.arrayvec.specs.ArrayVec.{array_vec_len};
ghost use Rattle.chess_board.specs.Legal as rules;
ghost use Rattle.chess_moves.specs.Targets.{Becomes};
ghost use Rattle.chess_moves.specs.Listing.{promotions, choices};
ghost use Rattle.chess_bits.specs.declared.men.Kind.TheVariants as kinds;

use crate::squares::{plain, promoted};
use arrayvec::ArrayVec;
use chess_bits::{Colour, Kind, Square};
use chess_board::{Move, home_rank};

/// Room for the moves of a position.
pub type Moves = ArrayVec<Move, 512>;

// Whether a pawn may become the kind.
fn is_promotion_kind(kind: Kind) -> bool
    ensures { IsTrue result ↔ rules.IsPromotionKind kind }
{
    match kind {
        Kind::Queen | Kind::Rook | Kind::Bishop | Kind::Knight => true,
        Kind::Pawn | Kind::King => false,
    }
}

// Whether a pawn that goes to the square becomes what it must (FIDE article 3.7.3.3).
fn is_promotion(side: Colour, to: Square, promotion: Option<Kind>) -> bool
    ensures { IsTrue result ↔ rules.IsPromotion side to promotion }
{
    let is_last = to.rank() == home_rank(side.other());
    match promotion {
        None => !is_last,
        Some(kind) => is_last && is_promotion_kind(kind),
    }
}

// Whether a man of the kind that goes to the square becomes what it may.
pub fn becomes(side: Colour, kind: Kind, to: Square, promotion: Option<Kind>) -> bool
    ensures { IsTrue result ↔ Becomes side kind to promotion }
{
    match kind {
        Kind::Pawn => is_promotion(side, to, promotion),
        Kind::Knight | Kind::Bishop | Kind::Rook | Kind::Queen | Kind::King => promotion.is_none(),
    }
}

// Whether a man of the kind becomes another on the square.
fn is_promoted(side: Colour, kind: Kind, to: Square) -> bool
    ensures { IsTrue result ↔ ((kind ≡ kinds.Pawn) × (to.rank ≡ rules.last_rank side)) }
{
    kind == Kind::Pawn && to.rank() == home_rank(side.other())
}

// Appends the four moves of a pawn that reaches the last rank.
fn push_promotions(from: Square, to: Square, moves: &mut Moves)
    requires { array_vec_len moves.old + 4 ≤ 512 }
    ensures { moves.new.items ≡ moves.old.items ++ promotions from to }
{
    moves.push(promoted(from, to, Kind::Queen));
    moves.push(promoted(from, to, Kind::Rook));
    moves.push(promoted(from, to, Kind::Bishop));
    moves.push(promoted(from, to, Kind::Knight));
}

// Appends the moves of a man of the kind from a square to another: four where a pawn reaches the last rank, else one.
pub fn push_choices(side: Colour, kind: Kind, from: Square, to: Square, moves: &mut Moves)
    requires { array_vec_len moves.old + length (choices side kind from to) ≤ 512 }
    ensures { moves.new.items ≡ moves.old.items ++ choices side kind from to }
{
    if is_promoted(side, kind, to) {
        push_promotions(from, to, moves);
    } else {
        moves.push(plain(from, to));
    }
}
