//! What the words of the program's command line ask for and do, how a run of it ends, and what an operator is told.
//!
//! Modules: `command_line` is the table of the words with their help, `words` what they ask for, `ends` has the exit
//! status and the name of each end, `opening` opens a journal's file and the store in it; `telling` is what an operator
//! is told of a word's end and of a store, `causes` why a fault came, where the system has not said it. `memory` has
//! `board`, `journals` makes and widens files, `reading` has `copy` and `show`, `running` has `run`, `serving` has
//! `serve`, `drilling` the drill of the lives of a store.
//!
//! Of one board `board_line` reads a line, `board_answer` answers it, and `board_loop` has `AnsweredBoard`, an
//! `Answerer` of `text_lines` whose state is the position; the loop over lines is that of `text_lines`.
//! `proofs/BoardRunLemmas` turns what the loop says (`Ended`) into the clauses of `board`, by totality of the answers:
//! every line has one, at every valid position. `proofs/BoardCuts` says that more bytes only bring more lines, and none
//! after one that is too long.
#![tactic(auto)]

mod board_answer;
mod board_line;
mod board_loop;
mod causes;
mod command_line;
mod drilling;
mod ends;
mod journals;
mod memory;
mod opening;
mod reading;
mod running;
mod serving;
mod telling;
mod words;

pub use board_loop::{BoardFault, board};
pub use command_line::command;
pub use drilling::tell_drill;
pub use ends::{End, Fault, end_of_words, end_of_work, fault_name, status};
pub use journals::{format, is_blank, stays_blank, widen};
pub use memory::play_board;
pub use opening::{open_file, open_on, opened};
pub use reading::{copy_journal, show_games, write_games};
pub use running::run_journal;
pub use serving::{Door, FoundStore, serve, serve_store};
pub use telling::{found_in, printed, told};
pub use words::{Copying, Formatting, JournalLimits, Pacing, Place, Serving, Word, read_words};
