//! Unix sockets to which nobody but their owner connects.
use mio::net;
use std::io::{Error, ErrorKind};
use std::net::Net;
use std::os::fd::{AsFd, AsRawFd, OwnedFd};
use std::os::unix::fs::{FileTypeExt, PermissionsExt};
use std::os::unix::net::{SocketAddr, UnixListener};
use std::rt::Files;
use std::{fs, io};

/// Reading and writing for the owner, and nothing for anybody else: who may not write to a socket may not connect to
/// it.
const OWNERS_MODE: u32 = 0o600;

/// As many connections may wait for an `accept` as the system allows.
const BACKLOG: i32 = -1;

// Whether somebody listens by the socket at a path; a fault is that of the system which does not tell.
fn is_living<R: Net>(rt: &R, path: &str) -> io::Result<bool> {
    match net::UnixStream::connect(rt, path) {
        Ok(_) => Ok(true),
        Err(error) => match error.kind() {
            // who has no room for one more listens
            ErrorKind::WouldBlock => Ok(true),
            ErrorKind::ConnectionRefused => Ok(false),
            _ => Err(error),
        },
    }
}

// Makes way at a path: a socket by which nobody listens is taken away. It fails where somebody listens there, and where
// anything else stands there, also a symbolic link, which is not followed; that is left as it is.
fn make_way<R: Files + Net>(rt: &R, path: &str) -> io::Result<()> {
    let stands = match fs::symlink_metadata(rt, path) {
        Ok(stands) => stands,
        Err(error) if error.kind() == ErrorKind::NotFound => return Ok(()),
        Err(error) => return Err(error),
    };
    if !stands.file_type().is_socket() {
        return Err(Error::new(ErrorKind::AlreadyExists, "what stands there is no socket"));
    }
    if is_living(rt, path)? {
        return Err(Error::new(ErrorKind::AddrInUse, "somebody listens there already"));
    }
    fs::remove_file(rt, path)
}

// Whether nobody but the owner may connect by what stands at a path.
fn is_owners<R: Files>(rt: &R, path: &str) -> io::Result<bool> {
    let mode = fs::symlink_metadata(rt, path)?.permissions().mode();
    Ok(mode & 0o777 == OWNERS_MODE)
}

// A Unix socket with that path, which is its owner's from its beginning: it has these rights before it has a path.
fn bind_owned<R: Files + Net>(rt: &R, path: &str) -> io::Result<OwnedFd> {
    let socket = rt.unix_socket()?;
    if libc::fchmod(socket.as_raw_fd(), OWNERS_MODE) != 0 {
        return Err(Error::from_raw_os_error(os::errno()));
    }
    rt.bind_unix(socket.as_fd(), &SocketAddr::from_pathname(path)?)?;
    Ok(socket)
}

/// Listens by a Unix socket at a path, to which nobody but the owner connects, at no moment. A socket by which nobody
/// listens is replaced. It fails where somebody does, where anything else stands there, which is left as it is, and
/// where the system refuses it.
pub fn listen_owned<R: Files + Net>(rt: &R, path: &str) -> io::Result<UnixListener> {
    make_way(rt, path)?;
    let socket = bind_owned(rt, path)?;
    // Nobody connects before it listens.
    if !is_owners(rt, path)? {
        return Err(Error::new(
            ErrorKind::PermissionDenied,
            "the system leaves it open to others",
        ));
    }
    if libc::net::listen(socket.as_raw_fd(), BACKLOG) != 0 {
        return Err(Error::from_raw_os_error(os::errno()));
    }
    Ok(UnixListener::from(socket))
}
