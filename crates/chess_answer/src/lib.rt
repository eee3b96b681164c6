//! The texts of all answers of the line protocol: to what is refused, to acts that become entries, and to reads.
//!
//! Modules: `fields` appends fields to a line, `refusals` has the table of refusals, `acts` the answers to acts that
//! become entries, `reads` those to reads. The line of an act is settled by the table before it is entered: an opening
//! has no game yet, each other entry has one. A move is made for its answer and its entry at once (`play_answered`).
#![tactic(auto)]

mod acts;
mod fields;
mod laws;
mod reads;
mod refusals;

pub use acts::{game_line, named_line, opened_line, play_answered};
pub use fields::AnswerLine;
pub use laws::law_of_coming;
pub use reads::{Reply, fen_line, list_line, pgn_reply, show_line, write_row};
pub use refusals::refusal_line;
