//! Why a server does not begin.

use std::io;
use thiserror::Error;

/// Why a server does not begin.
#[derive(Debug, Drop, Error)]
pub enum ServerFault {
    /// The place cannot be listened on, or its socket not be watched: what the system said.
    #[error("it cannot be listened on: {0}")]
    Socket(#[from] io::Error),
}
