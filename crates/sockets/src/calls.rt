//! Connections that begin, and that are made. No clause says what a socket gives.
use crate::address::ServerAddress;
use either::{Either, Left, Right};
use mio::net::{TcpStream, UnixStream};
use mio::{Interest, Registry, Token};
use std::io;
use std::io::ErrorKind;
use std::net::Net;

/// A connection over a port, or over a Unix socket. Its reads and writes do not wait.
pub type Call = Either<TcpStream, UnixStream>;

/// So many milliseconds lie between two tries to reach a server.
pub const RETRY: u64 = 500;

/// Watches a connection under this name.
pub fn watch_call(registry: &Registry, call: &mut Call, token: Token) -> io::Result<()> {
    let interest = Interest::READABLE | Interest::WRITABLE;
    match call {
        Left(stream) => registry.register(stream, token, interest),
        Right(stream) => registry.register(stream, token, interest),
    }
}

/// A connection to a server that begins. The system's error where it does not begin it, or set it up. Nothing is waited
/// for.
pub fn begin(net: &impl Net, address: &ServerAddress) -> io::Result<Call> {
    match address {
        ServerAddress::Port(address) => {
            let stream = TcpStream::connect(net, *address)?;
            stream.set_nodelay(true)?;
            Ok(Left(stream))
        }
        ServerAddress::Socket(path) => Ok(Right(UnixStream::connect(net, path.as_str())?)),
    }
}

/// A connection to a server that begins, and is watched under this name. `None` where the system does not begin, watch
/// or set it up. Nothing is waited for.
pub fn call(
    net: &impl Net,
    registry: &Registry,
    address: &ServerAddress,
    token: Token,
) -> Option<Call> {
    let mut call = begin(net, address).ok()?;
    watch_call(registry, &mut call, token).ok()?;
    Some(call)
}

// Whether a connection to a port that began is made.
fn is_port_made(call: &TcpStream) -> Option<bool> {
    match call.take_error() {
        Ok(None) => {}
        _ => return Some(false),
    }
    match call.peer_addr() {
        Ok(_) => Some(true),
        Err(error) if error.kind() == ErrorKind::NotConnected => None,
        Err(_) => Some(false),
    }
}

/// Whether a connection that began is made; `None` where that is open still, and `false` where it fails.
pub fn is_made(call: &Call) -> Option<bool> {
    match call {
        Left(call) => is_port_made(call),
        Right(_) => Some(true),
    }
}
