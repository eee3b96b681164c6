//! Whether a side can still checkmate by any series of legal moves (FIDE articles 5.2.2 and 6.9).
//!
//! Modules: `deciding` answers. `seeking` looks for a series, goes first where `nearness` tells that mate is near, and
//! proves nothing of what it finds: `lines` judges a series of moves, and `closing` a list of positions that no legal
//! move leaves, found by `places` and compared by `likeness`. `material` tells of men that never suffice.
#![tactic(auto)]

mod closing;
mod deciding;
mod likeness;
mod lines;
mod material;
mod nearness;
mod places;
mod seeking;

pub use deciding::{Answer, Reason, decide};
pub use lines::{is_mated_by, is_mating_line};
