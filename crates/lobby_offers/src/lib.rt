//! What players offer each other: a pairing that one of two says stands for a time, and is made once the other says the
//! same. Nothing of it is at the server until then.
//!
//! Modules: `offer` has one that stands, `accord` tells what a message is beside those that stand, `noting` which stand
//! then, and `showing` tells a player which are his.
#![tactic(auto)]

mod accord;
mod noting;
mod offer;
mod showing;

pub use accord::accord_of;
pub use noting::note_offers;
pub use offer::Offer;
pub use showing::offers_text;
