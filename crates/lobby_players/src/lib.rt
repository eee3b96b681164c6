//! The players' file: a line a player, and the tokens that players show; who is put into it, and who has a new link. On
//! a disk it is read whole and put whole in its own place, by one at a time. And what is halted: beside that file
//! stands whether entries are paused, and in a file of its own why all clocks are stopped.
//!
//! Modules: `line` has the line of a player, `lines` what stands in front of a line and which names are alike,
//! `reading` the file, `seen` what its lines had so far, `adding` a player more, `joining` one who walks in,
//! `relinking` a player's new link, `token` tokens and links, `faults` what is wrong; `file` reads and puts the file on
//! a disk, by one at a time (`Hold`), `halts` has what an arbiter halts, and what is found that halts games,
//! `pause_file` keeps beside the file whether entries are paused, `stop_file` why clocks are stopped, `players` has who
//! stands in a file, `putting` is the word that puts a player into one. `proofs/Told` has what a line tells,
//! `proofs/EachLine` the players of lines, `proofs/SeenOf` what lines had so far, as their players have it,
//! `proofs/Written` that a file that was written is read back, `proofs/NewLink` whose the new link is,
//! `proofs/Newcomer` who has walked in, `proofs/Same` which players are the same, and `proofs/TokenText` that a token's
//! text is one.
#![tactic(auto)]

mod adding;
mod faults;
mod file;
mod halts;
mod joining;
mod line;
mod lines;
mod pause_file;
mod players;
mod putting;
mod reading;
mod relinking;
mod seen;
mod stop_file;
mod token;

pub use adding::{Addition, WithPlayer, added};
pub use faults::{
    AddFault, JoinFault, LineFault, LinkFault, OrderFault, PlayersFault, RereadFault,
};
pub use file::{Hold, check_short, put_file, read_file};
pub use halts::{Finding, Halts, found_line, hand_text};
pub use joining::{carried_out, newcomer_said};
pub use pause_file::PauseFile;
pub use players::{full_name, later_players_of, players_of};
pub use putting::{Adding, add_player};
pub use reading::{read, reread};
pub use relinking::ChangedFile;
pub use stop_file::StopFile;
pub use token::{forget, link_text, new_token, token_text};
