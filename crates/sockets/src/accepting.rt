//! What it says that no connection was accepted.
ghost use Rattle.std.specs.Prelude.{◌≡◌, ◌≢◌, ◌↔◌};
ghost use Rattle.sockets.specs.Accepting.{IsLost};

use std::io::ErrorKind;

/// What a fault of `accept` says.
#[derive(Clone, Copy)]
pub enum AcceptFault {
    /// None waits.
    Nobody,
    /// One that was lost before it was there, or a signal: another may wait behind it.
    Lost,
    /// One may wait, and was not given: the system has no descriptor or no memory for it, or another fault.
    Refused,
}

/// What a fault of `accept` says.
pub fn accept_fault(kind: ErrorKind) -> AcceptFault
    ensures nobody { result ≡ AcceptFault.Nobody ↔ (kind ≡ ErrorKind.WouldBlock) }
    ensures lost { result ≡ AcceptFault.Lost ↔ IsLost kind }
    ensures refused { result ≡ AcceptFault.Refused ↔ ((kind ≢ ErrorKind.WouldBlock) × ¬ IsLost kind) }
{
    if kind == ErrorKind::WouldBlock {
        AcceptFault::Nobody
    } else if kind == ErrorKind::ConnectionAborted
        || kind == ErrorKind::ConnectionReset
        || kind == ErrorKind::Interrupted
    {
        AcceptFault::Lost
    } else {
        AcceptFault::Refused
    }
}
