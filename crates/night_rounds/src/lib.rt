//! The texts of a round: pairings and results as CSV, which game is which board's, and what is to be done about a
//! board.
//!
//! Modules: `times` has times as a text, `rows` a row of the CSV file, `reading` the file, `notes` the notes of a
//! round's file, `steps` what is to be done about a board, `decisions` the lines of arbiters' decisions, `counting`
//! which of these counts for a board, `outcomes` the results, `law` the laws. `specs/Newer` says which of two games is
//! newer, and `specs/Runs` what may become of a board over runs of `start` that are killed. `proofs/RowByRow` reads
//! rows one after another, `proofs/TimesBack` and `NotesBack` show that times and notes come back,
//! `proofs/DecisionTexts` is of the texts of decisions, `proofs/NewestKept` of the newest game, and `proofs/RunsKept`
//! has what always holds of a board.
#![tactic(auto)]

mod counting;
mod decisions;
mod faults;
mod law;
mod notes;
mod outcomes;
mod reading;
mod rows;
mod steps;
mod times;

pub use counting::{Scored, bye_counted, counted, decision_about, may_have};
pub use decisions::{
    Decision, Ground, Players, Verdict, decision_of, decision_text, verdict_of, verdict_text,
};
pub use faults::{Fault, RowFault};
pub use law::{law_of_notes, law_of_runs, law_of_times};
pub use notes::{Note, Stage, game_in, last_of, note_of, note_text};
pub use outcomes::{Outcome, results};
pub use reading::read;
pub use rows::{Against, Game, Pairing};
pub use steps::{Row, Seats, Step, candidates, is_newer, newest, step_of};
pub use times::{Period, Times, times_of, times_text};
