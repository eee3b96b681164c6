//! A chess board: a valid position, and the position after a move.
//!
//! Modules: `board` has the position and its moves' outcome, `men` where the men stand, `castling` the rights and the
//! squares of castling, `attack` what is attacked, `moves` a move, `parts` a position in parts, as it is given and
//! told, `draft` the position that is being made.
#![tactic(auto)]

mod attack;
mod board;
mod castling;
mod draft;
mod men;
mod moves;
mod parts;

pub use attack::{is_attacked, is_in_check};
pub use board::{Board, is_same_square, is_target};
pub use castling::{
    CastlingRights, Wing, castled_king, castled_rook, home_rank, king_home, rook_home,
};
pub use men::Men;
pub use moves::Move;
pub use parts::{BadBoard, Parts};
