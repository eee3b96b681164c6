//! A peer's stream that gives and takes little, has always more, or fails.
use crate::frames::UPGRADE;
use std::alloc::Global;
use std::io::{self, Error, ErrorKind, Read, Write};

/// A stream that gives at each read what stands up to the next `~`, nothing where nothing stands there, and takes so
/// many bytes at a write.
#[derive(Drop)]
pub struct Peer {
    gives: &'static [u8],
    /// How often it was read.
    pub reads: usize,
    /// So many bytes were read of one that has always more.
    pub read: usize,
    takes: usize,
    is_full: bool,
    /// What it has taken.
    pub written: Vec<u8>,
}

impl Peer {
    /// Nothing was given or taken yet.
    pub fn new(alloc: Global, gives: &'static [u8], takes: usize) -> Peer {
        Peer {
            gives,
            reads: 0,
            read: 0,
            takes,
            is_full: false,
            written: Vec::new(alloc),
        }
    }

    // What this read gives.
    fn given(&self) -> &'static [u8] {
        let mut pieces = self.gives.split(|byte| *byte == b'~');
        pieces.nth(self.reads).unwrap_or(b"")
    }
}

// A piece that stands for the upgrade, for the end, and for a connection that is reset.
const UP: &[u8] = b"UP";

const END: &[u8] = b"END";

const RESET: &[u8] = b"RESET";

/// What a peer gives that has always more: requests of 512 bytes each, as many as are taken.
pub const MANY: &[u8] = b"MANY";

const FRONT: &[u8] = b"GET /none HTTP/1.1\r\nHost: a:1\r\nX: ";

// The byte at this place of such requests.
fn byte_of_many(at: usize) -> u8 {
    let place = at % 512;
    match FRONT.get(place) {
        Some(byte) => *byte,
        None => match place {
            508 | 510 => b'\r',
            509 | 511 => b'\n',
            _ => b'a',
        },
    }
}

// A piece that stands for the server's answer to `pgn 1` of a game of 9,000 plies.
const LONG: &[u8] = b"LONG";

const LONG_HEAD: &[u8] = b"ok pgn 1 2250\n";

const LONG_ROW: &[u8] = b"1. Nf3 Nf6 2. Ng1 Ng8\n";

const LONG_ROWS: usize = 2_250;

// The byte at this place of it.
fn byte_of_long(at: usize) -> Option<u8> {
    match LONG_HEAD.get(at) {
        Some(byte) => Some(*byte),
        None => {
            let place = at.saturating_sub(LONG_HEAD.len());
            if place < LONG_ROWS * LONG_ROW.len() {
                LONG_ROW.get(place % LONG_ROW.len()).copied()
            } else {
                None
            }
        }
    }
}

/// What a peer gives that upgrades, and then pings without end: so many bytes of empty pings.
pub const PINGS: &[u8] = b"PINGS";

const PING: [u8; 6] = [0x89, 0x80, 0, 0, 0, 0];

impl Peer {
    // Fills a buffer with what it has always more of.
    fn fill(&mut self, buf: &mut [u8]) {
        for byte in buf.iter_mut() {
            *byte = if self.gives == MANY {
                byte_of_many(self.read)
            } else {
                PING.get(self.read % 6).copied().unwrap_or(0)
            };
            self.read = self.read.saturating_add(1);
        }
    }

    // Fills a buffer with what comes next of a long answer. It tells how many bytes that were.
    fn fill_long(&mut self, buf: &mut [u8]) -> usize {
        let mut count: usize = 0;
        for byte in buf.iter_mut() {
            let Some(next) = byte_of_long(self.read) else {
                break;
            };
            *byte = next;
            self.read = self.read.saturating_add(1);
            count = count.saturating_add(1);
        }
        count
    }
}

impl Read for Peer {
    fn read(&mut self, buf: &mut [u8]) -> io::Result<usize> {
        if self.gives == MANY || self.gives == PINGS && self.reads > 0 {
            self.fill(buf);
            return Ok(buf.len());
        }
        let given = self.given();
        if given == LONG {
            return match self.fill_long(buf).min(buf.len()) {
                0 => Err(Error::from(ErrorKind::WouldBlock)),
                count => Ok(count),
            };
        }
        self.reads = self.reads.saturating_add(1);
        if given.is_empty() {
            return Err(Error::from(ErrorKind::WouldBlock));
        }
        if given == RESET {
            return Err(Error::from(ErrorKind::ConnectionReset));
        }
        let bytes = if given == UP || given == PINGS {
            UPGRADE
        } else {
            given
        };
        if given == END || bytes.len() > buf.len() {
            return Ok(0);
        }
        buf[..bytes.len()].copy_from_slice(bytes);
        Ok(bytes.len())
    }
}

impl Write for Peer {
    fn write(&mut self, buf: &[u8]) -> io::Result<usize> {
        self.is_full = !self.is_full;
        if !self.is_full {
            return Err(Error::from(ErrorKind::WouldBlock));
        }
        let count = buf.len().min(self.takes);
        self.written.extend_from_slice(&buf[..count])?;
        Ok(count)
    }

    fn flush(&mut self) -> io::Result<()> {
        Ok(())
    }
}
