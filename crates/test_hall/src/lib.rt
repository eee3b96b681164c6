//! Tests of the lobby's browsers, of its loop, and of what is kept beside the players' file, by what their crates export
//! alone: so none of them is proved twice. (The file's texts stand in `bench/night/rows/players.txt`.)
#![tactic(auto)]

#[cfg(test)]
mod browser;
#[cfg(test)]
mod club_files;
#[cfg(test)]
mod frames;
#[cfg(test)]
mod hall;
#[cfg(test)]
mod peer;
#[cfg(test)]
mod requests;
