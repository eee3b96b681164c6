//! Tests of the server's clock, of its clients over connections, and of what sockets are watched, by what their crates
//! export alone: so none of these is proved twice. (What its words do stands in `bench/correct/words`.)
#![tactic(auto)]

#[cfg(test)]
mod clients;
#[cfg(test)]
mod clock;
#[cfg(test)]
mod crowds;
#[cfg(test)]
mod listeners;
#[cfg(test)]
mod memory;
#[cfg(test)]
mod peers;
#[cfg(test)]
mod playing;
#[cfg(test)]
mod watching;
