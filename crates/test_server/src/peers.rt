//! Connections that give and take little, or fail.
ghost use Rattle.std.specs.Io.{ReadsAtMost};

use std::alloc::Global;
use std::io;
use std::io::{Error, ErrorKind, Read, Write};

/// What a connection gives at a read.
pub enum Gives {
    Text(&'static str),
    /// As many bytes as a read takes: sixteen lines of 255 `x`.
    Most,
    Nothing,
    End,
    Reset,
}

/// What a connection does at a write.
pub enum Takes {
    All,
    /// It takes so many bytes, and nothing at the next write.
    Some(usize),
    Nothing,
    /// It takes all until it has so many bytes, and then 7, and nothing at the next write.
    SlowsAt(usize),
    /// It fails once it has taken so many bytes.
    Fails(usize),
}

/// So many bytes a read takes.
const MOST: usize = 4_096;

/// What a slow connection takes at a write.
const SLOW: usize = 7;

/// A connection that gives these, one at a read, and the last one again and again.
#[derive(Drop)]
pub struct Peer {
    gives: &'static [Gives],
    pub reads: usize,
    takes: &'static Takes,
    is_full: bool,
    pub written: Vec<u8>,
}

/// A connection to which nothing was written. It has room for much of that, unless memory is refused.
pub fn made(alloc: Global, gives: &'static [Gives], takes: &'static Takes) -> Peer {
    let mut written = Vec::new(alloc);
    let _ = written.reserve(2_000);
    Peer {
        gives,
        reads: 0,
        takes,
        is_full: false,
        written,
    }
}

// Sixteen lines of 255 `x`.
fn sixteen() -> [u8; MOST] {
    let mut lines = [b'x'; MOST];
    for line in 0..16 {
        lines[line * 256 + 255] = b'\n';
    }
    lines
}

// Reads a text, where there is room for it.
fn give(text: &[u8], buf: &mut [u8]) -> io::Result<usize>
    ensures { ReadsAtMost result buf.new }
{
    if text.len() > buf.len() {
        return Ok(0);
    }
    buf[..text.len()].copy_from_slice(text);
    Ok(text.len())
}

impl Read for Peer {
    fn read(&mut self, buf: &mut [u8]) -> io::Result<usize> {
        let last = self.gives.len().saturating_sub(1);
        let place = if self.reads < last { self.reads } else { last };
        self.reads = self.reads.saturating_add(1);
        match self.gives.get(place) {
            Some(Gives::Text(text)) => give(text.as_bytes(), buf),
            Some(Gives::Most) => give(&sixteen(), buf),
            Some(Gives::Nothing) => Err(Error::from(ErrorKind::WouldBlock)),
            Some(Gives::Reset) => Err(Error::from(ErrorKind::ConnectionReset)),
            _ => Ok(0),
        }
    }
}

impl Write for Peer {
    fn write(&mut self, buf: &[u8]) -> io::Result<usize> {
        let held = self.written.len();
        let most = match self.takes {
            Takes::All => buf.len(),
            Takes::SlowsAt(most) if held < *most => *most - held,
            Takes::Some(most) if !self.is_full => *most,
            Takes::SlowsAt(_) if !self.is_full => SLOW,
            Takes::Some(_) | Takes::SlowsAt(_) | Takes::Nothing => {
                self.is_full = false;
                return Err(Error::from(ErrorKind::WouldBlock));
            }
            Takes::Fails(most) if held < *most => *most - held,
            Takes::Fails(_) => return Err(Error::from(ErrorKind::BrokenPipe)),
        };
        let count = if buf.len() < most { buf.len() } else { most };
        self.written.extend_from_slice(&buf[..count])?;
        self.is_full = true;
        Ok(count)
    }

    fn flush(&mut self) -> io::Result<()> {
        Ok(())
    }
}
