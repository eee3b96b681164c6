//! The words by which games are kept, exported and written live, and by which the log tells of one.
//!
//! Modules: `asked` has what is asked of them, `keeping`, `exporting`, `living`, `evidence_word` are what the four do.
//! `keeper` does what the clerk decides. `rows` has the games of the server's list, `asking` asks for a game's PGN,
//! `sources` has what PGNs are made with: `players` has the players of their file, `log_reader` the log, read on as it
//! grows; `initials` tells of players by their initials; `besides` reads what is told of players and boards besides,
//! `board_games` which game is which board; `kept` writes the file of all games of an archive.
//! `specs/Games` says which games of a list are over, `specs/Names` how a tag tells of a player, `specs/Told` what is
//! told of a decision.
#![tactic(auto)]

mod asked;
mod asking;
mod besides;
mod board_games;
mod evidence_word;
mod exporting;
mod initials;
mod keeper;
mod keeping;
mod kept;
mod living;
mod log_reader;
mod players;
mod rows;
mod sources;

pub use asked::{AskedEvidence, Besides, Exporting, Form, Keeping, Living, Source};
pub use evidence_word::evidence;
pub use exporting::export;
pub use keeping::keep;
pub use living::live;
