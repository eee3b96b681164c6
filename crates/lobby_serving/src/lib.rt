//! The word that serves browsers: the page, the figures and the files that are looked at, the log of acts.
//!
//! Modules: `asked` has what is asked of it, `serving` takes turns, `page` has the files at the start, `health` makes
//! the figures by `lines`, `table` asks the server whether it is up and how many games it has, by a `question`, of
//! whose answer `listing` counts them, `games_file` reads a file of games, `games_folder` those of a folder,
//! `games_files` all of them, and `players` that of the players, by `mark`, which tells whether a file has changed,
//! `links` changes links in it, hands decisions on, and looks for clocks that are stopped by hand, `log` keeps the log
//! in its file.
#![tactic(auto)]

mod asked;
mod games_file;
mod games_files;
mod games_folder;
mod health;
mod lines;
mod links;
mod listing;
mod log;
mod mark;
mod page;
mod players;
mod question;
mod serving;
mod table;

pub use asked::Serving;
pub use links::KeepsDecisions;
pub use listing::{Games, Listing, Told};
pub use serving::serve;
