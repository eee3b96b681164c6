//! The command line of the club's program: its words with their options and their help, and what they ask for.
//!
//! Modules: `words` has the table of all and reads what is given; `lobby`, `archive` and `rounds` have three words
//! each, `options` what several of them have, `addresses` reads addresses, `days` what `--begins` and `--ends` may say,
//! `limits` what options say of a player's games. `specs/Options` says what an option says.
#![tactic(auto)]

mod addresses;
mod archive;
mod days;
mod limits;
mod lobby;
mod options;
mod rounds;
mod words;

pub use words::{Word, command, read_words};
