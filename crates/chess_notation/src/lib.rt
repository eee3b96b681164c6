//! How squares, men, moves and positions are written, as definitions: coordinate texts, SAN (PGN Standard, section
//! 8.2.3) and FEN (section 16.1); and the square and the move that a coordinate text names.
#![tactic(auto)]

mod coordinates;
mod telling;

pub use coordinates::{coordinate, square_named};
pub use telling::{Among, Origin, Threat};
