//! Positions, moves and games as text: FEN both ways, coordinate texts, PGN.
#![tactic(auto)]

mod export;
mod game;
mod movetext;
mod tags;

pub use chess_fen::{FenError, fen_read, fen_write};
pub use chess_notation::coordinate;
pub use export::{GameText, pgn};
pub use game::is_playable;
pub use movetext::{WIDEST, separated};
pub use tags::{article_code, result_code};
