//! A listener, and the connections that it accepts.
ghost use Rattle.std.specs.Prelude.{◌≡◌, ◌<◌, ◌+◌, ◌-◌, ◌^◌, ◌↔◌, false, Some, None, IsSome, IfSome, IfNone, IfOk};
ghost use Rattle.std.specs.Prelude.{OnErr};
ghost use Rattle.sockets.specs.Accepting.{IsLost};
ghost use Rattle.sockets.specs.Listeners.{IsAsked};

use crate::accepting::{AcceptFault, accept_fault};
use crate::owned::listen_owned;
use either::{Either, Left, Right};
use std::io;
use std::io::ErrorKind;
use std::net::{Ipv4Addr, Net, TcpListener, TcpStream};
use std::os::fd::{AsRawFd, RawFd};
use std::os::unix::net::{UnixListener, UnixStream};
use std::rt::Files;

/// A connection over a port, or over a Unix socket.
pub type Connection = Either<TcpStream, UnixStream>;

/// The descriptor of a connection.
pub fn descriptor(connection: &Connection) -> RawFd {
    match connection {
        Left(stream) => stream.as_raw_fd(),
        Right(stream) => stream.as_raw_fd(),
    }
}

/// What came of a try to accept a connection.
#[derive(Clone, Copy, PartialEq, Eq)]
pub enum AcceptOutcome {
    /// A connection.
    Connection,
    /// None waits. A socket that wakes the server tells of the next.
    Nobody,
    /// One that was lost before it was there, or a signal: another may wait behind it.
    Lost,
    /// One may wait, and was not given: the system has no descriptor or no memory for it, or another fault.
    Refused,
}

/// What came of a try at which `accept` failed so.
pub fn outcome_of(fault: ErrorKind) -> AcceptOutcome
    ensures nobody { result ≡ AcceptOutcome.Nobody ↔ (fault ≡ ErrorKind.WouldBlock) }
    ensures lost { result ≡ AcceptOutcome.Lost ↔ IsLost fault }
    ensures refused { result ≡ AcceptOutcome.Connection → ⊥ }
{
    match accept_fault(fault) {
        AcceptFault::Nobody => AcceptOutcome::Nobody,
        AcceptFault::Lost => AcceptOutcome::Lost,
        AcceptFault::Refused => AcceptOutcome::Refused,
    }
}

/// Whether a connection may wait after a try of which this came.
pub fn may_wait(outcome: AcceptOutcome) -> bool
    ensures { result ≡ false ↔ (outcome ≡ AcceptOutcome.Nobody) }
{
    outcome != AcceptOutcome::Nobody
}

/// A listener: what accepts connections.
pub trait Listens {
    ghost use Rattle.std.specs.Prelude.{ℕ, ◌≡◌, ◌+◌, ◌↔◌, IsSome, IfSome, IfNone};
    ghost use Rattle.sockets.specs.declared.listener.AcceptOutcome.{AcceptOutcome};
    ghost use Rattle.sockets.specs.Listeners.{IsAsked};

    type Stream: Drop;

    /// What came of the last try.
    ghost last_outcome: { Self → AcceptOutcome };

    /// How many connections it has given.
    ghost given_so_far: { Self → ℕ };

    /// How many tries it has made, up to 2^64 - 1.
    ghost tried_so_far: { Self → ℕ };

    /// Accepts a connection, if one is there, without waiting.
    fn accept_one(&mut self) -> Option<Self::Stream>
        ensures found { IsSome result ↔ (last_outcome self.new ≡ AcceptOutcome.Connection) }
        ensures one { IfSome result (λ stream. given_so_far self.new ≡ given_so_far self.old + 1) }
        ensures none { IfNone result (given_so_far self.new ≡ given_so_far self.old) }
        ensures asked { IsAsked (tried_so_far self.old) (tried_so_far self.new) };

    /// What came of the last try.
    fn outcome(&self) -> AcceptOutcome
        ensures { result ≡ last_outcome self.now };
}

/// The most tries to accept a connection that a turn makes.
pub const ACCEPT_TRIES: usize = 64;

/// Accepts the next connection, if one waits. Those that were lost are passed over, up to 64 tries; where the system
/// has nothing for it, it is tried no further for now.
pub fn next_connection<L: Listens>(listener: &mut L) -> Option<L::Stream>
    ensures found { IsSome result ↔ (L.last_outcome listener.new ≡ AcceptOutcome.Connection) }
    // It is the only one that the listener has given.
    ensures one { IfSome result (λ stream. L.given_so_far listener.new ≡ L.given_so_far listener.old + 1) }
    ensures none { IfNone result (L.given_so_far listener.new ≡ L.given_so_far listener.old) }
    ensures asked { IsAsked (L.tried_so_far listener.old) (L.tried_so_far listener.new) }
{
    for _ in 1..ACCEPT_TRIES {
        if let Some(stream) = listener.accept_one() {
            return Some(stream);
        }
        if listener.outcome() != AcceptOutcome::Lost {
            return None;
        }
    }
    listener.accept_one()
}

/// A listener on a port of this machine, or by a Unix socket.
#[derive(Drop)]
pub struct LocalListener {
    listener: Either<TcpListener, UnixListener>,
    outcome: AcceptOutcome,
    /// So many connections it has given.
    given: u64,
    /// So many tries it has made, up to 2^64 - 1.
    tries: u64,
}

impl LocalListener {
    /// Listens on a port of 127.0.0.1, where 0 leaves the choice to the system. A connection may wait.
    pub fn bind<R: Net<Listener = TcpListener, Stream = TcpStream>>(
        net: &R,
        port: u16,
    ) -> io::Result<LocalListener> {
        let listener = TcpListener::bind(net, (Ipv4Addr::LOCALHOST, port))?;
        listener.set_nonblocking(true)?;
        Ok(LocalListener::of(Left(listener)))
    }

    /// Listens by a Unix socket at this path, to which nobody but the owner connects, at no moment. A socket by which
    /// nobody listens is replaced. It fails where somebody does, where anything else stands there, which is left as it
    /// is, and where the system refuses it. A connection may wait.
    pub fn bind_path<R: Files + Net>(rt: &R, path: &str) -> io::Result<LocalListener> {
        let listener = listen_owned(rt, path)?;
        listener.set_nonblocking(true)?;
        Ok(LocalListener::of(Right(listener)))
    }

    // It has given none, and one may wait.
    fn of(listener: Either<TcpListener, UnixListener>) -> LocalListener {
        LocalListener {
            listener,
            outcome: AcceptOutcome::Lost,
            given: 0,
            tries: 0,
        }
    }

    /// The port; 0 where it listens by a Unix socket.
    pub fn port(&self) -> io::Result<u16> {
        match &self.listener {
            Left(listener) => Ok(listener.local_addr()?.port()),
            Right(_) => Ok(0),
        }
    }

    /// The listener's socket.
    pub fn socket(&self) -> RawFd {
        match &self.listener {
            Left(listener) => listener.as_raw_fd(),
            Right(listener) => listener.as_raw_fd(),
        }
    }

    // Accepts a connection, if one is there.
    fn accept(&self) -> io::Result<Connection> {
        match &self.listener {
            Left(listener) => {
                let (stream, _) = listener.accept()?;
                Ok(Left(stream))
            }
            Right(listener) => {
                let (stream, _) = listener.accept()?;
                Ok(Right(stream))
            }
        }
    }

    // What it comes to that a connection was accepted: it is given; or its socket takes no option, and it counts as
    // lost, so that the next is tried.
    fn settle(&mut self, prepared: io::Result<Connection>) -> Option<Connection>
        requires { self.old.given < 2 ^ 64 - 1 }
        ensures given { IfOk prepared (λ stream. (result ≡ Some stream) × (self.new.outcome ≡ AcceptOutcome.Connection)
            × (self.new.given ≡ self.old.given + 1)) }
        ensures lost { OnErr prepared ((result ≡ None) × (self.new.outcome ≡ AcceptOutcome.Lost)
            × (self.new.given ≡ self.old.given)) }
        ensures tries { self.new.tries ≡ self.old.tries }
    {
        match prepared {
            Ok(stream) => {
                self.outcome = AcceptOutcome::Connection;
                self.given += 1;
                Some(stream)
            }
            Err(_) => {
                self.outcome = AcceptOutcome::Lost;
                None
            }
        }
    }
}

// A connection that is not waited for: answers are short, and a client waits for them.
fn prepared(connection: Connection) -> io::Result<Connection> {
    match &connection {
        Left(stream) => {
            stream.set_nonblocking(true)?;
            stream.set_nodelay(true)?;
        }
        Right(stream) => stream.set_nonblocking(true)?,
    }
    Ok(connection)
}

impl Listens for LocalListener {
    type Stream = Connection;

    ghost last_outcome = { λ listener. listener.outcome };

    ghost given_so_far = { λ listener. listener.given };

    ghost tried_so_far = { λ listener. listener.tries };

    fn accept_one(&mut self) -> Option<Connection> {
        self.tries = self.tries.saturating_add(1);
        // So many never come.
        if self.given == u64::MAX {
            self.outcome = AcceptOutcome::Refused;
            return None;
        }
        match self.accept() {
            Ok(connection) => self.settle(prepared(connection)),
            Err(fault) => {
                self.outcome = outcome_of(fault.kind());
                None
            }
        }
    }

    fn outcome(&self) -> AcceptOutcome {
        self.outcome
    }
}
