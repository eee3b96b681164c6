//! Squares, colours, kinds of men, and sets of squares.
#![tactic(auto)]

mod bit_set;
mod coordinates;
mod men;
mod steps;

pub use bit_set::{Bits, SquaresOf};
pub use coordinates::Square;
pub use men::{Colour, Kind};
pub use steps::Step;
