//! The hub: sessions over a store. What players send is cut into lines, which are taken in turn from all sessions;
//! their commands go to the store as one batch, and each session is given the answers to its lines. `run` is one
//! session from a reader to a writer, each line of which has a turn of its own.
#![tactic(auto)]

mod answering;
mod fault;
mod hub;
mod laws;
mod moments;
mod run_laws;
mod running;
mod sessions;
mod talk;
mod turn;

pub use chess_line::{Line, parse};
pub use fault::HubFault;
pub use hub::Hub;
pub use laws::law_of_sessions;
pub use moments::{ListMoments, Moments};
pub use run_laws::law_of_run;
pub use running::{RunFault, run, run_reads};
pub use sessions::Sid;
pub use text_lines::Reads;
