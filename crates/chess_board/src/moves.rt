use chess_bits::{Kind, Square};

/// A move: the square left, the square reached, and what a pawn becomes on the last rank.
/// Castling is the king's move by two squares (FIDE article 3.8.2).
#[derive(Clone, Copy, PartialEq, Eq)]
pub struct Move {
    pub from: Square,
    pub to: Square,
    pub promotion: Option<Kind>,
}

impl Default for Move {
    // From a1 to a1, which is never legal: what an unused place of a list of moves holds.
    fn default() -> Move {
        Move {
            from: Square::new(0),
            to: Square::new(0),
            promotion: None,
        }
    }
}
