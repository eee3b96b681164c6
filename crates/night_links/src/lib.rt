//! What the programs of a night ask of server and lobby: a connection to the game server, the games of its table, and
//! which games the browsers of a lobby watch; and the folder of files by which spectators watch them.
//!
//! Modules: `link` is the connection to the server, `table` asks about the games that have changed; `watchers` asks the
//! lobby, `watched` and `figures` read what it says; `spectated_game` has what spectators are told of a game,
//! `spectators` of all, and `folder` writes the files; `written` is a file that is written anew where it has changed,
//! `delay` has texts wait, `reading` reads files, and `file_state` tells whether one is another. `telling` does work
//! again and again, and tells what goes wrong once. `specs/Asked` says which games are asked about, `specs/Told` what
//! their files tell.
#![tactic(auto)]

mod delay;
mod figures;
mod file_state;
mod folder;
mod link;
mod reading;
mod spectated_game;
mod spectators;
mod table;
mod telling;
mod watched;
mod watchers;
mod written;

pub use delay::Delay;
pub use file_state::{FileState, NO_FILE, state_of};
pub use folder::GamesFolder;
pub use link::{Answer, Link, refused};
pub use reading::{bytes_from, found};
pub use spectated_game::{GameNow, SpectatedGame, spectated_now};
pub use spectators::Spectators;
pub use table::{Table, ToldGame, rows_asked};
pub use telling::{Pace, Telling, Work, go_on};
pub use watchers::Watchers;
pub use written::WrittenFile;
