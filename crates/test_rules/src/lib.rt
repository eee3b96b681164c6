//! Tests of the crates that know chess, games and tables, by what these export alone: so none of them is proved twice.
//! Positions, moves and games by their texts, what lines of clients show, and what is read of records of which one byte
//! was changed, are in the stored runs of `perft` and of `test_player`. What sets of squares hold, which squares a man
//! attacks, what a clock shows and how a refusal is told, the clauses of `chess_bits`, `chess_attacks`, `chess_clock`
//! and `chess_answer` settle.
#![tactic(auto)]

#[cfg(test)]
mod board;
#[cfg(test)]
mod clock;
#[cfg(test)]
mod fen;
#[cfg(test)]
mod lines;
#[cfg(test)]
mod mates;
#[cfg(test)]
mod moves;
#[cfg(test)]
mod notation;
#[cfg(test)]
mod repeat;
#[cfg(test)]
mod san;
#[cfg(test)]
mod snapshots;
#[cfg(test)]
mod tables;
