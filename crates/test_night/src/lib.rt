//! Tests of the files and texts of a night, by what their crates export alone: so none of these is proved twice. (What
//! the words make of them stands in `bench/night/rows`.)
#![tactic(auto)]

#[cfg(test)]
mod acts;
#[cfg(test)]
mod answers;
#[cfg(test)]
mod archive;
#[cfg(test)]
mod beside;
#[cfg(test)]
mod cuts;
#[cfg(test)]
mod dates;
#[cfg(test)]
mod figures;
#[cfg(test)]
mod returned;
#[cfg(test)]
mod room;
