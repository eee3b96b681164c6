//! Repetition of positions: an exact key of a position, and the history of a game with how often each position stood.
#![tactic(auto)]

mod histories;
mod keys;
mod whole_keys;

pub use histories::History;
pub use keys::{is_same, key};
