//! Moves in standard algebraic notation (PGN Standard, section 8.2.3), both ways.
//!
//! Modules: `writing` writes a move, with `origin` for the square that it has to name and `threat` for check and mate;
//! `reading` finds the legal move that a text spells, with `parsing` for what the text asks for.
#![tactic(auto)]

mod origin;
mod parsing;
mod reading;
mod threat;
mod writing;

pub use reading::read;
pub use threat::rewound;
pub use writing::{write, write_made};
