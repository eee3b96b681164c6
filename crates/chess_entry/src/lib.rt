//! What players ask of the server and what comes to pass: commands, entries, and the rules by which a command becomes
//! an entry. The rules are definitions in `specs/`: `Games` reads a table off the whole list of its entries, `Verdict`
//! is the first check that a command meets, and `Follow` is a table with one entry more.
#![tactic(auto)]

mod commands;
mod laws;
mod refusals;
mod verdicts;

pub use commands::{Act, Command, GREATEST_MOMENT, Text, know_name};
pub use laws::{law_of_endings, law_of_follow, law_of_meaning, law_of_snapshots, law_of_times};
pub use rec_codec::{Claim, Entry, Event, GameNumber, Limits, Made, Name, Opening};
pub use refusals::Refusal;
pub use verdicts::Verdict;
