//! Positions as text: FEN (PGN Standard, section 16.1), both ways.
#![tactic(auto)]

mod fen;
mod fields;
mod letters;
mod reading;
mod shown;
mod squares;

pub use fen::{FenText, fen_write, push};
pub use fields::FenError;
pub use reading::fen_read;
pub use shown::ShownBoard;
