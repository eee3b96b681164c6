//! The web's side of the lobby: one browser's connection without its socket. HTTP/1.1 for the files of the page, and
//! after an upgrade the messages of a WebSocket.
//!
//! Modules: `site` has the files and the hosts, `answer` what a request is answered (a `Service` of the kit's
//! `http_server`), `listed` the elements of a field that is a list,
//! `heading` where the heads of requests end, `socket` the frames of a WebSocket over the kit's
//! `websocket`, `browser` the way from one to the other, `laws` the laws over a socket's whole life.
//! `proofs/FrameLemmas` shows that no frame changes whose side a connection is on, so that what is sent is never
//! masked; `proofs/RoomLemmas` that what frames bring is no longer than they are; `proofs/ShutLemmas` that a socket on
//! which nothing may be said stays so; `proofs/LifeLemmas`, `SayingLemmas` and `HoldingLemmas` have the laws.
#![tactic(auto)]

mod answer;
mod browser;
mod heading;
mod laws;
mod listed;
mod site;
mod socket;

pub use crate::browser::{Browser, MOST_AT_ONCE};
pub use crate::laws::{law_of_floods, law_of_heads, law_of_messages, law_of_sayings};
pub use crate::site::{File, Kind, Site};
pub use crate::socket::{Heard, Unsaid};
