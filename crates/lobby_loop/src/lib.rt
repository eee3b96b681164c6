//! The lobby's loop: all that are connected, turn by turn, their sockets, and the log of acts.
//!
//! Modules: `hall` has a turn over all that are connected, for any streams, `places` who has a place and who makes
//! room, `seating` the places of all, `comers` how many come in a second, `act_log` what a log of acts is, `listener`
//! accepts who comes in, `lobby` has the system's sockets and the wait, `law` the laws over a whole life. `proofs/Room`
//! has what is promised of who makes room, `proofs/Waking` who is admitted and what is awake, `proofs/Serving` what is
//! done at one browser's connection, `proofs/Speaking` what its bytes say, and `proofs/Living` the laws of a life.
#![tactic(auto)]

mod act_log;
mod comers;
mod hall;
mod law;
mod listener;
mod lobby;
mod places;
mod seating;

pub use act_log::{ActLog, Fault, NoActLog};
pub use comers::Comers;
pub use hall::Hall;
pub use law::{law_of_browsers, law_of_halls, law_of_leaving, law_of_lobbies};
pub use listener::{Acceptor, LobbyListener, Welcomed, welcome};
pub use lobby::{Beginning, Lobby, Turned};
pub use lobby_talk::{ACTS, BOUNDS, Counts, KeepsLinks, Roll};
