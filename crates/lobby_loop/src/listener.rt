//! The listener at which browsers come in.
ghost use Rattle.std.specs.Prelude.{List, IfOk, ⊤};
ghost use Rattle.std.specs.declared.net.ip_addr.IpAddr.{IpAddr};
ghost use Rattle.lobby_loop.specs.Turning.{Comer, IsReceived, AreAdmitted, AreFrom};

use crate::hall::Hall;
use either::Left;
use mio::net::TcpListener;
use mio::{Registry, Token};
use sockets::{AcceptFault, Call, accept_fault, watch_call};
use std::io;
use std::net::{IpAddr, Net, SocketAddr};

/// So many who wait are accepted in a turn at most.
const ACCEPTED_MOST: usize = 16;

/// What accepts connections, and watches them.
pub trait Acceptor {
    type Stream: Drop;

    /// That a connection is from a peer of this address.
    ghost is_from: { Self.Stream → IpAddr → Type 0 } = { λ _ _. ⊤ };

    /// Accepts a connection, if one is there, without waiting, with its peer's address.
    fn accept_one(&mut self) -> Result<(Self::Stream, IpAddr), AcceptFault>
        ensures { IfOk result (λ came. is_from came.0 came.1) };

    /// Watches a connection under this name; false where the system refuses that.
    fn watch(&mut self, stream: &mut Self::Stream, key: usize) -> bool
        ensures { (peer : IpAddr) → is_from stream.old peer → is_from stream.new peer };
}

/// A lobby's listener on an address.
#[derive(Drop)]
pub struct LobbyListener {
    pub(crate) listener: TcpListener,
}

impl LobbyListener {
    /// Listens on an address, where port 0 leaves the choice to the system.
    pub fn bind(net: &impl Net, address: SocketAddr) -> io::Result<LobbyListener> {
        Ok(LobbyListener {
            listener: TcpListener::bind(net, address)?,
        })
    }

    /// The address that is listened on.
    pub fn address(&self) -> io::Result<SocketAddr> {
        self.listener.local_addr()
    }
}

/// A listener, with what watches the connections that it accepts.
#[derive(Drop)]
pub struct LobbyAcceptor<'a> {
    pub listener: &'a TcpListener,
    pub registry: &'a Registry,
}

impl Acceptor for LobbyAcceptor<'_> {
    type Stream = Call;

    fn accept_one(&mut self) -> Result<(Call, IpAddr), AcceptFault> {
        let (stream, peer) = match self.listener.accept() {
            Ok((stream, peer)) => (stream, peer.ip()),
            Err(error) => return Err(accept_fault(error.kind())),
        };
        match stream.set_nodelay(true) {
            Ok(()) => Ok((Left(stream), peer)),
            Err(_) => Err(AcceptFault::Lost),
        }
    }

    fn watch(&mut self, stream: &mut Call, key: usize) -> bool {
        watch_call(self.registry, stream, Token(key)).is_ok()
    }
}

/// What is left to do at the listener.
#[derive(Clone, Copy, PartialEq, Eq)]
pub enum Welcomed {
    /// Nobody waits there until it is ready.
    All,
    /// More may wait.
    Some,
    /// More may wait, and the system has nothing for them.
    Refused,
}

// A browser comes in, or is turned away where there is no room.
fn take_in<A: Acceptor>(
    acceptor: &mut A,
    hall: &mut Hall<A::Stream>,
    mut stream: A::Stream,
    peer: IpAddr,
    at: u64,
)
    requires { A.is_from stream peer }
    ensures { (comer : Comer A.Stream) × A.is_from comer.stream comer.peer × IsReceived at comer hall.old hall.new }
{
    match hall.next_key() {
        Some(key) => {
            if acceptor.watch(&mut stream, key) {
                hall.admit(stream, key, peer, at);
            } else {
                hall.turn_away();
            }
        }
        None => hall.turn_away(),
    }
}

/// Accepts those who wait, up to 16.
pub fn welcome<A: Acceptor>(acceptor: &mut A, hall: &mut Hall<A::Stream>, at: u64) -> Welcomed
    ensures { (comers : List (Comer A.Stream)) × AreFrom A.is_from comers × AreAdmitted at comers hall.old hall.new }
{
    for _ in 0..ACCEPTED_MOST {
        match acceptor.accept_one() {
            Ok((stream, peer)) => take_in(acceptor, hall, stream, peer, at),
            Err(AcceptFault::Nobody) => return Welcomed::All,
            Err(AcceptFault::Lost) => {}
            Err(AcceptFault::Refused) => return Welcomed::Refused,
        }
    }
    Welcomed::Some
}
