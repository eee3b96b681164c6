use crate::castling::CastlingRights;
use chess_bits::{Colour, Kind, Square};
use thiserror::Error;

/// What a board is made of, by square number (a1 is 0, h1 is 7, h8 is 63); it need not be valid.
#[derive(Clone, Copy)]
pub struct Parts {
    pub men: [Option<(Colour, Kind)>; 64],
    pub side: Colour,
    pub rights: CastlingRights,
    pub target: Option<Square>,
    pub halfmove: u16,
    pub fullmove: u16,
}

/// Why parts are no valid position: the first of these conditions that they break.
#[derive(Clone, Copy, Debug, Error)]
pub enum BadBoard {
    /// A side has no king, or more than one.
    #[error("a side has no king, or more than one")]
    Kings,
    /// A side has more than 16 men.
    #[error("a side has more than 16 men")]
    Pieces,
    /// A pawn stands on rank 1 or 8.
    #[error("a pawn stands on rank 1 or 8")]
    Pawns,
    /// The side not to move is in check.
    #[error("the side that is not to move is in check")]
    Check,
    /// A castling right whose king or rook is not at home.
    #[error("there is a castling right, and its king or rook is not at home")]
    Rights,
    /// An en passant target that no pawn has just crossed.
    #[error("there is an en passant target that no pawn has just crossed")]
    Target,
    /// The fullmove number is 0.
    #[error("the fullmove number is 0")]
    Counter,
}

type Here = Option<(Colour, Kind)>;

const EMPTY: Here = None;

const WHITE_PAWN: Here = Some((Colour::White, Kind::Pawn));

const WHITE_KNIGHT: Here = Some((Colour::White, Kind::Knight));

const WHITE_BISHOP: Here = Some((Colour::White, Kind::Bishop));

const WHITE_ROOK: Here = Some((Colour::White, Kind::Rook));

const WHITE_QUEEN: Here = Some((Colour::White, Kind::Queen));

const WHITE_KING: Here = Some((Colour::White, Kind::King));

const BLACK_PAWN: Here = Some((Colour::Black, Kind::Pawn));

const BLACK_KNIGHT: Here = Some((Colour::Black, Kind::Knight));

const BLACK_BISHOP: Here = Some((Colour::Black, Kind::Bishop));

const BLACK_ROOK: Here = Some((Colour::Black, Kind::Rook));

const BLACK_QUEEN: Here = Some((Colour::Black, Kind::Queen));

const BLACK_KING: Here = Some((Colour::Black, Kind::King));

/// The men of the position in which a game starts (FIDE article 2.3), by square number.
#[rattlefmt::skip]
pub static INITIAL_MEN: [Option<(Colour, Kind)>; 64] = [
    WHITE_ROOK, WHITE_KNIGHT, WHITE_BISHOP, WHITE_QUEEN, WHITE_KING, WHITE_BISHOP, WHITE_KNIGHT, WHITE_ROOK,
    WHITE_PAWN, WHITE_PAWN, WHITE_PAWN, WHITE_PAWN, WHITE_PAWN, WHITE_PAWN, WHITE_PAWN, WHITE_PAWN,
    EMPTY, EMPTY, EMPTY, EMPTY, EMPTY, EMPTY, EMPTY, EMPTY,
    EMPTY, EMPTY, EMPTY, EMPTY, EMPTY, EMPTY, EMPTY, EMPTY,
    EMPTY, EMPTY, EMPTY, EMPTY, EMPTY, EMPTY, EMPTY, EMPTY,
    EMPTY, EMPTY, EMPTY, EMPTY, EMPTY, EMPTY, EMPTY, EMPTY,
    BLACK_PAWN, BLACK_PAWN, BLACK_PAWN, BLACK_PAWN, BLACK_PAWN, BLACK_PAWN, BLACK_PAWN, BLACK_PAWN,
    BLACK_ROOK, BLACK_KNIGHT, BLACK_BISHOP, BLACK_QUEEN, BLACK_KING, BLACK_BISHOP, BLACK_KNIGHT, BLACK_ROOK,
];
