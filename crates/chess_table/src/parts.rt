//! A game's part of a snapshot: its head and its moves, 60 a record.
//!
//! Modules: `writing` appends parts, `runs` gathers the moves of a part into one buffer, `reading` reads the part at
//! the front, `listing` reads a list of parts.
mod listing;
mod reading;
mod runs;
mod writing;

pub use listing::read_games;
pub use writing::push_game;
