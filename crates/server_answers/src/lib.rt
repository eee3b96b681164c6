//! The answers of the game server, read: each form of a line has a type with a field for each of its fields, and a
//! reader that answers `Some` exactly where a line has the form. Nothing is copied but names.
//!
//! Modules: `fields` cuts a line, `values` has what a field says, `entered` the answers to acts that were entered,
//! `games` the answer to `show` and a row of that to `list`, `heads` the first lines of answers with more lines behind
//! them and the answers to `fen` and `name`, `refusals` what is refused, `law` what is promised of them.
#![tactic(auto)]

mod entered;
mod fields;
mod games;
mod heads;
mod law;
mod refusals;
mod values;

pub use entered::{Done, Entered, Made, entered_of};
pub use games::{Row, Shown, row_of, shown_of};
pub use heads::{PgnHead, fen_game_of, lines_behind, list_head_of, pgn_head_of, takes_name};
pub use law::{law_of_entered, law_of_heads, law_of_refusals, law_of_rows, law_of_shown};
pub use refusals::{Refusal, refusal_of};
pub use values::{
    Article, Clocks, Ending, GameResult, Offers, Seats, Side, result_text, seat_text,
};
