//! The name of a player, which the server, the lobby and the programs beside them share.
#![tactic(auto)]

mod names;

pub use names::Name;
