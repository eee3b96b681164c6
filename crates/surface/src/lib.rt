//! The public surface of the core, crate by crate: each call that a caller is promised is made here once by its
//! crate's name, with the types that are promised, so that a call that is gone, or has another shape, is no longer
//! compiled. What is asserted are worked examples of the rules. What else the calls answer, their clauses say.
#![tactic(auto)]

#[cfg(test)]
mod attacks;
#[cfg(test)]
mod bits;
#[cfg(test)]
mod board;
#[cfg(test)]
mod clock;
#[cfg(test)]
mod codec;
#[cfg(test)]
mod device;
#[cfg(test)]
mod end;
#[cfg(test)]
mod entry;
#[cfg(test)]
mod hub;
#[cfg(test)]
mod journal;
#[cfg(test)]
mod moves;
#[cfg(test)]
mod repeat;
#[cfg(test)]
mod san;
#[cfg(test)]
mod server;
#[cfg(test)]
mod store;
#[cfg(test)]
mod table;
#[cfg(test)]
mod text;
