//! What is told of games besides: of an archive's, who the players are and which board they are; what the log has of a
//! game, as lines and as a page to print; and the particulars of players, a file of CSV.
//!
//! Modules: `told` puts what is known of players and boards into a PGN, and `called` finds whom a tag of it calls so;
//! `evidence` tells of the log, by `gaps` of what is missing there, and whether it stands as it was put; `page` tells
//! the same as a page, into which `html` puts texts so that none is read as markup, `law` has the law; `last_line` has
//! how far a log goes. `particulars` has what a row tells of a player, `roster` the rows of the file, `roster_faults`
//! what may be wrong with them; `roster_file` reads it.
#![tactic(auto)]

mod called;
mod evidence;
mod gaps;
mod html;
mod last_line;
mod law;
mod page;
mod particulars;
mod roster;
mod roster_faults;
mod roster_file;
mod told;

pub use evidence::{Evidence, print_evidence, verify_log};
pub use html::push_text;
pub use last_line::{LastLine, last_line_of};
pub use law::law_of_texts;
pub use page::print_page;
pub use roster::{Roster, roster_of};
pub use roster_faults::{RosterFault, RowFault};
pub use roster_file::roster_in;
pub use told::{BoardGame, Telling};
