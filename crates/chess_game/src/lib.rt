//! One game of the table: its line, its clock, its offers and claims, and its ending. Each change is one of the
//! entries' of `chess_entry`, whose definitions the contracts cite.
//!
//! Inside, `scoresheet` has the start, the moves, the position that stands and the history of all positions; `sides`
//! has the clock, the seats, the claim of the turn and the ending; `endings` has the endings by an act of a player;
//! `games` has the game of a scoresheet and sides, and other crates see only it, `endings` and `is_finished` of a
//! start. `specs/ClockFor` says which clock and which sides a game has by what the players see of it, `specs/Turn` when
//! an act may come, `proofs/KeptGame` that what holds of every game is kept by all that can happen to it. In it,
//! `restored` has the tests of a head that a snapshot names, each the boolean of one fact of `specs/Restored`, or of
//! one of `chess_entry/specs` behind it, and the sides of its game; `stored` has seats and endings as a snapshot keeps
//! them. `specs/Restored` has `game_named`, the one game that a head and moves can be of, and the facts in the order in
//! which they are asked. `proofs/RestoredLemmas` shows that no other game has the head and the moves;
//! `proofs/ReplayLemmas` is about the line of moves that were handed in.
#![tactic(auto)]

mod endings;
mod games;
mod restored;
mod scoresheet;
mod sides;
mod stored;

pub use endings::{agreed, drawn_by_claim, resigned};
pub use games::{Game, Times};
pub use scoresheet::is_finished;
