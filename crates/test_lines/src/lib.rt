//! What `test_player` stands on: the lines of standard input one after the other, words that are
//! read in several of their parts, and why playing ends; and what they play with: sectors of a device in memory,
//! streams that work bit by bit or fail, clients over loopback, and commits in a journal.
#![tactic(auto)]

mod answers;
pub mod clients;
pub mod commits;
mod digits;
pub mod escapes;
mod fault;
mod playing;
pub mod sectors;
pub mod streams;
mod words;

pub use answers::{fault_text, push_reply, text_line};
pub use fault::Fault;
pub use playing::{LinePlayer, play_lines};
pub use words::{
    LIMITS, SMALL, Sent, Size, fates_of, read_calls, read_command, read_limits, read_sent,
    read_size, split,
};
