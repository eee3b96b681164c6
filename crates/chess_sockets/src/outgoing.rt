//! What is to be written on a connection.
ghost use Rattle.std.specs.Prelude.{◌≡◌, ◌≤◌, ◌++◌, ◌↔◌, [], true, false, IsTrue, OnOk, OnErr, length, take};
ghost use Rattle.std.specs.Prelude.{vec_capacity};
ghost use Rattle.std.specs.Io.KnownBytes.{Appends};

use crate::wire::Wire;
use std::alloc::{AllocError, Global};
use std::io::{ErrorKind, Write};

/// How far a write came.
#[derive(Clone, Copy, PartialEq, Eq)]
pub enum Sent {
    /// Everything is written.
    All,
    /// The connection takes no more for now. The rest waits.
    Part,
    /// The connection has failed.
    Fault,
}

/// How many bytes were written, and whether that was all.
#[derive(Clone, Copy)]
pub struct Written {
    pub count: usize,
    pub sent: Sent,
}

/// Writes a text until the writer takes no more.
pub(crate) fn send<W: Write>(writer: &mut W, text: &[u8]) -> Written
    ensures within { result.count ≤ length text.now }
    ensures front { Appends (W.contents writer.old) (W.contents writer.new) (take result.count text.now) }
    ensures all { result.sent ≡ Sent.All ↔ (result.count ≡ length text.now) }
{
    let mut count = 0;
    for _ in 0..u32::MAX {
        if count == text.len() {
            break;
        }
        let sent = match writer.write(&text[count..]) {
            Ok(0) => Sent::Fault,
            Ok(more) => {
                count += more;
                continue;
            }
            Err(error) => match error.kind() {
                ErrorKind::Interrupted => continue,
                ErrorKind::WouldBlock => Sent::Part,
                _ => Sent::Fault,
            },
        };
        return Written { count, sent };
    }
    let sent = if count == text.len() {
        Sent::All
    } else {
        Sent::Part
    };
    Written { count, sent }
}

/// So much room is kept for what is to be written; more is given back once all is.
const KEPT_ROOM: usize = 65_536;

/// Bytes that wait to be written, in their order.
#[derive(Drop)]
pub struct Outgoing {
    alloc: Global,
    text: Vec<u8>,
    /// So many bytes of the text are written.
    sent: usize,
    /// Whether memory was refused for one. Only `push` tells.
    was_refused: bool,
    ghost within: { sent ≤ length text.items },
}

impl Outgoing {
    ghost use Rattle.chess_sockets.specs.Sending.{waiting, HandsOn};

    /// Nothing waits.
    pub fn new(alloc: Global) -> Outgoing
        ensures nothing { waiting result ≡ [] }
        ensures sound { result.was_refused ≡ false }
    {
        Outgoing {
            alloc,
            text: Vec::new(alloc),
            sent: 0,
            was_refused: false,
        }
    }

    /// Whether nothing waits.
    pub fn is_empty(&self) -> bool
        ensures { IsTrue result ↔ (waiting self.now ≡ []) }
    {
        self.text[self.sent..].is_empty()
    }

    /// How many bytes wait.
    pub fn len(&self) -> usize
        ensures { result ≡ length (waiting self.now) }
    {
        self.text.len() - self.sent
    }

    /// Puts bytes behind those that wait. `AllocError` where memory is refused; then no more waits than before.
    pub fn push(&mut self, bytes: &[u8]) -> Result<(), AllocError>
        ensures ok { OnOk result (waiting self.new ≡ waiting self.old ++ bytes.now) }
        ensures err { OnErr result (waiting self.new ≡ waiting self.old) }
        ensures refused { OnErr result (self.new.was_refused ≡ true) }
        ensures sound { OnOk result (self.new.was_refused ≡ self.old.was_refused) }
    {
        match self.text.extend_from_slice(bytes) {
            Ok(()) => Ok(()),
            Err(refused) => {
                self.was_refused = true;
                Err(refused)
            }
        }
    }

    // Nothing waits: its room is kept, or given back where it is large.
    fn clear(&mut self)
        ensures nothing { waiting self.new ≡ [] }
        ensures room { vec_capacity self.new.text ≤ 65_536 }
        ensures sound { self.new.was_refused ≡ self.old.was_refused }
    {
        self.text.clear();
        self.sent = 0;
        if self.text.capacity() > KEPT_ROOM {
            self.text = Vec::new(self.alloc);
        }
    }

    /// Writes what waits, until the writer takes no more. Where all is written, no more room is kept for it than 65,536
    /// bytes.
    pub fn write_to<W: Write>(&mut self, writer: &mut Wire<W>) -> Sent
        // What was written stood at the front of what waited, and the rest waits on, also after a fault.
        ensures front { HandsOn (W.contents writer.old.stream) (W.contents writer.new.stream) (waiting self.old)
            (waiting self.new) }
        ensures all { result ≡ Sent.All ↔ (waiting self.new ≡ []) }
        ensures room { waiting self.new ≡ [] → vec_capacity self.new.text ≤ 65_536 }
        ensures failed { result ≡ Sent.Fault → writer.new.has_failed ≡ true }
        ensures sound { self.new.was_refused ≡ self.old.was_refused }
    {
        let written = writer.transmit(&self.text[self.sent..]);
        self.sent += written.count;
        if self.is_empty() {
            self.clear();
        }
        written.sent
    }
}
