//! How games end: after a move, by a claim, or by a fallen flag.
#![tactic(auto)]

mod after;
mod ending;
mod flag;
mod material;

pub use after::{after_move, claim_fifty, claim_three};
pub use ending::{Article, Ending, GameResult};
pub use flag::flag_result;
pub use material::is_listed_dead;
