//! What programs that wait for several sockets at once ask of the system: a port or a Unix socket with the connections
//! that are accepted there, or why none was, a connection to a server, the wait until a socket is ready, and the time
//! by the clock that is never set.
//!
//! Modules: `listener` accepts connections, `owned` makes a Unix socket that is its owner's, `accepting` has what it
//! says that none was accepted, `address` where a server is reached, `calls` a connection to it, `watch` the wait,
//! `moments` the clock.
#![tactic(auto)]

mod accepting;
mod address;
mod calls;
mod listener;
mod moments;
mod owned;
mod watch;

pub use accepting::{AcceptFault, accept_fault};
pub use address::{PATH_ROOM, ServerAddress};
pub use calls::{Call, RETRY, begin, call, is_made, watch_call};
pub use listener::{
    ACCEPT_TRIES, AcceptOutcome, Connection, Listens, LocalListener, descriptor, may_wait,
    next_connection, outcome_of,
};
pub use moments::{Moments, milliseconds};
pub use watch::Watch;
