//! A table of games: what a command meets on it, the table with one entry more, and the table as records, both ways.
//! `chess_entry` has the rules as definitions, which the contracts cite.
//!
//! Modules: `table` has the games, each of them `boxed`; `coming` and `judging` say what a command meets, `entering`
//! adds an entry, `answers` has the line that answers it; `records`, `parts` and `restoring` turn entries, games and
//! whole tables into records and back, `standing` judges what may be restored.
#![tactic(auto)]

mod answers;
mod boxed;
mod coming;
mod entering;
mod judging;
mod parts;
mod records;
mod restoring;
mod standing;
mod table;

pub use answers::{act_line, answer};
pub use chess_answer::{AnswerLine, Reply, refusal_line};
pub use chess_game::{Game, Times};
pub use entering::{enter, enter_answered};
pub use judging::judge;
pub use records::{entry_record, record_entry};
pub use restoring::TableFault;
pub use table::Table;
