//! An archive of games in a file of records, a line a game, each game once; these lines for those who only read them,
//! and their games as PGN and as rows; and the clerk: which games' PGNs are asked for, which are handed to the archive,
//! and which games may leave the table. The clerk has no files and no sockets: what happened goes in, and what is to be
//! done comes out and is done on a `Night`.
//!
//! Modules: `line` makes a game's line, `reading` reads one, `archive` keeps games, `lines` has the lines for those who
//! only read them, `opened` an archive that was opened and its lines, `law` their law. `kept` has the games of lines,
//! `compared` tells whether a game is the one that was kept. Of adjourned games, whose first half an arbiter ended, and
//! whose second was opened from where it stood, `acts` finds a game's acts in the log, `halves` the kept game that goes
//! on in another, `order` puts games in the order in which they were opened, `continued` has which say that they go on
//! in others. `spreadsheet` makes rows of games, `writing` writes them. `clerk` decides, `night` does in one look what
//! it decides, `clerk_laws` has its laws. `proofs/Keeping` shows what a game that is kept makes of an archive,
//! `proofs/Cuts` that a line is read, `proofs/Later` has the latest of games so far, `proofs/Placed` that sorted games
//! are the same in order; `proofs/Runs` that the clerk's laws hold of each run, `proofs/Stages` has how far games are,
//! `proofs/Lists` fronts of lists.
#![tactic(auto)]

mod acts;
mod archive;
mod clerk;
mod clerk_laws;
mod compared;
mod continued;
mod faults;
mod halves;
mod kept;
mod law;
mod line;
mod lines;
mod night;
mod opened;
mod order;
mod reading;
mod spreadsheet;
mod writing;

pub use acts::{act_game, is_opened_for};
pub use archive::Archive;
pub use clerk::{Clerk, Stage, is_among};
pub use clerk_laws::{law_of_decisions, law_of_drops, law_of_games, law_of_safety};
pub use compared::has_game;
pub use faults::Fault;
pub use halves::{EndedGame, first_half, push_ended};
pub use kept::{Kept, games_kept};
pub use law::law_of_lines;
pub use lines::{lines_of, lines_told};
pub use night::{Night, look};
pub use opened::{Opened, open_archive};
pub use order::in_order;
pub use reading::{game_of, pgn_of};
pub use writing::{write_games, write_rows};
