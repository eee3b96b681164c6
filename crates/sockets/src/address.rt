//! Where a server is reached.
use arrayvec::ArrayString;
use std::fmt;
use std::net::SocketAddr;

/// The most bytes of a socket's path, as the system has room for them.
pub const PATH_ROOM: usize = 107;

/// Where a server is reached: at a port of a machine, or by a Unix socket, which is a file of this machine.
#[derive(Clone, Copy)]
pub enum ServerAddress {
    Port(SocketAddr),
    /// Its path.
    Socket(ArrayString<PATH_ROOM>),
}

impl ServerAddress {
    /// The address that a text names: with a `/` in it a socket's path, and else an IP address and a port, as
    /// 127.0.0.1:5001. `None` where it names neither, or the path has more than 107 bytes.
    pub fn named(text: &str) -> Option<ServerAddress> {
        if text.contains('/') {
            Some(ServerAddress::Socket(ArrayString::from(text).ok()?))
        } else {
            Some(ServerAddress::Port(text.parse().ok()?))
        }
    }
}

impl fmt::Display for ServerAddress {
    fn fmt<W: fmt::Write>(&self, f: &mut fmt::Formatter<W>) -> fmt::Result {
        match self {
            ServerAddress::Port(address) => address.fmt(f),
            ServerAddress::Socket(path) => path.as_str().fmt(f),
        }
    }
}
