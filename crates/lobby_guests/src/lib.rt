//! The lobby's browsers: the connection of each, a stream that does not wait, and what a turn does for each of them.
//!
//! Modules: `guest` has one browser's connection, `waiting` what waits for it, `origin` where it comes from, `place`
//! what its place is among all of them, `guests` what is done for all, `rounds` whose turn it is, and who may act.
//! `proofs/EachGuest` has browsers that are attended one after another.
#![tactic(auto)]

mod guest;
mod guests;
mod origin;
mod place;
mod rounds;
mod waiting;

pub use guest::Guest;
pub use guests::{
    attend_all, deliver, earlier, first_due, has_waiting, is_crowded, let_go, look_after_all,
    wake_one, write_all,
};
pub use origin::Origin;
pub use place::{Place, Role, Work, is_gone, number_of};
pub use rounds::{Rounds, law_of_paces};
pub use waiting::Waiting;
