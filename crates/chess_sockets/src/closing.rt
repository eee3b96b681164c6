//! Why the session of a client is closed.

/// Why the session of a client is closed.
#[derive(Clone, Copy)]
pub enum Closing {
    /// A read failed, or a write.
    Fault,
    /// Memory was refused for it.
    NoMemory,
    /// The peer began as HTTP or TLS does.
    OtherProtocol,
    /// Nothing came for as long as it may be silent, and nothing waited for it.
    Silence,
    /// The peer sends no more, and its whole lines are answered.
    End,
    /// Its farewell is written.
    Farewell,
}
