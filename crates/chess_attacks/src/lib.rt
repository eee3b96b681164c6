//! The squares that a man attacks (FIDE articles 3.2 to 3.8.1).
#![tactic(auto)]

mod rays;
mod slides;
mod steps;
mod tables;

pub use rays::ray;
pub use slides::{bishop, queen, rook};
pub use steps::{king, knight, pawn};
