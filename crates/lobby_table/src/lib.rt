//! The server's table as the lobby knows it: the line to the server, with whose answers come, what these have told of
//! the games, and who is there and is told of what.
//!
//! Modules: `server_line` is the line to the server, and `owing` tells for whom its answers are. By these are known who
//! has a seat in which game (`waiting`), which games are kept for one player (`pairings`), and how many acts were
//! refused (`refusals`). `visitors` tells who is connected, `present` which players that are, `renewing` for whom they
//! act when the players are others, `watching` who is told of what, and `rooms` who of a game's players is there.
//! `adding` adds.
#![tactic(auto)]

mod adding;
mod owing;
mod pairings;
mod present;
mod refusals;
mod renewing;
mod rooms;
mod server_line;
mod visitors;
mod waiting;
mod watching;

pub use adding::number_after;
pub use owing::asker;
pub use pairings::{Pairing, game_bar, join_bar, keep, note_pairing, open_bar};
pub use present::present_rows;
pub use refusals::{RefusedActs, count_of, game_named, note_refused};
pub use renewing::{note_renewed, renew_all};
pub use rooms::{Attendance, Left, attend, note_left, room_text};
pub use server_line::{Acting, Due, Notice, ServerLine, waiting_act};
pub use visitors::{Visitor, is_named, open_ones, put, who_acts};
pub use waiting::{note_act, note_list, note_opened};
pub use watching::{
    Watch, add_watch, followers, games_of, is_at_table, is_full, is_watched, keep_table,
    keep_watches, rise, sit, unwatch, unwatch_all,
};
