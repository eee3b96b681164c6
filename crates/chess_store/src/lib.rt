//! The store: a table whose commands last. `Store::create` makes one, `Store::open` finds the one that a device holds,
//! `Store::widen` sets greater limits. A batch of commands lasts whole or not at all, and its replies leave only once
//! it lasts; a crash at any moment of a call leaves what means the table from before it or that after it, where one was
//! meant.
//!
//! `lives` opens, serves and stops a store, over and over, wherever the device stops.
#![tactic(auto)]

mod batch;
mod checking;
mod commits;
mod drilling;
mod fault;
mod in_memory;
mod laws;
mod laws_of_lives;
mod living;
mod plan;
mod refused;
mod serving;
mod store;

pub use drilling::{Drilled, Tally, drill};
pub use fault::StoreFault;
pub use in_memory::lives_in_memory;
pub use laws::law_of_images;
pub use laws_of_lives::{law_of_batches, law_of_beginning, law_of_kept, law_of_raising};
pub use living::lives;
pub use plan::{Life, LifeReport, Lived, Plan, Report};
pub use refused::Refused;
pub use store::{Parts, Store};
