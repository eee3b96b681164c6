//! A question to the server, over a connection of its own: `list` goes there, and nothing else.
ghost use Rattle.std.specs.Prelude.{ℕ, List, codes, ◌≡◌, IfSome};
ghost use Rattle.lobby_talk.specs.Held.{HandsOn};

use crate::listing::{Games, Listing, Told};
use sockets::{Call, ServerAddress};
use std::alloc::{AllocError, Global};
use std::io::{ErrorKind, Read, Write};
use std::net::Net;

/// What is asked, with its end.
const LIST: &[u8] = b"list\n";

/// So many bytes a read takes, and so many reads a look.
const ROOM: usize = 16_384;

const READS: u32 = 16;

/// A question on its way. Nobody else writes to its stream.
#[derive(Drop)]
pub struct Question<S> {
    stream: S,
    // What of the line is to be said yet.
    left: &'static [u8],
    listing: Listing,
    /// Until when an answer may come.
    pub until: u64,
}

/// Whether there is more to be seen of a question.
#[derive(Clone, Copy)]
pub enum Seen {
    /// Not for now.
    Nothing,
    Games(Games),
    /// There are no games: the server says something else, or has closed the connection, as where it serves all that it
    /// may.
    Lost,
    /// It took too long.
    Silent,
}

// What a fault of a stream that does not wait says.
fn seen_at(kind: ErrorKind) -> Seen {
    match kind {
        ErrorKind::WouldBlock | ErrorKind::Interrupted | ErrorKind::NotConnected => Seen::Nothing,
        _ => Seen::Lost,
    }
}

/// Begins a question, which may take until then.
pub fn begin(
    net: &impl Net,
    alloc: Global,
    server: &ServerAddress,
    until: u64,
) -> Option<Question<Call>>
    ensures { IfSome result (λ question. question.left.now ≡ codes "list\n") }
{
    let stream = sockets::begin(net, server).ok()?;
    Some(Question {
        stream,
        left: LIST,
        listing: Listing::new(alloc),
        until,
    })
}

impl<S: Write> Question<S> {
    /// Says what is left of the line, once the connection is made.
    pub fn say(&mut self) -> Seen
        ensures { (front : List ℕ) × HandsOn front (S.contents self.old.stream) (S.contents self.new.stream)
            self.old.left.now self.new.left.now }
    {
        if self.left.is_empty() {
            return Seen::Nothing;
        }
        match self.stream.write(self.left) {
            Ok(0) => Seen::Lost,
            Ok(count) => {
                self.left = &self.left[count..];
                Seen::Nothing
            }
            Err(error) => seen_at(error.kind()),
        }
    }
}

impl<S: Read> Question<S> {
    // Reads a piece. It tells nothing where there may be more at once.
    fn read(&mut self, piece: &mut [u8; ROOM]) -> Result<Option<Seen>, AllocError>
        ensures { self.new.left ≡ self.old.left }
    {
        match self.stream.read(piece) {
            Ok(0) => Ok(Some(Seen::Lost)),
            Ok(count) => match self.listing.take(&piece[..count])? {
                Told::Nothing => Ok(None),
                Told::Games(games) => Ok(Some(Seen::Games(games))),
                Told::NoList => Ok(Some(Seen::Lost)),
            },
            Err(error) => Ok(Some(seen_at(error.kind()))),
        }
    }

    /// Reads what is there of the answer, once the line is said.
    pub fn hear(&mut self) -> Result<Seen, AllocError>
        ensures { self.new.left ≡ self.old.left }
    {
        if !self.left.is_empty() {
            return Ok(Seen::Nothing);
        }
        let mut piece = [0u8; ROOM];
        for _ in 0..READS {
            if let Some(seen) = self.read(&mut piece)? {
                return Ok(seen);
            }
        }
        Ok(Seen::Nothing)
    }
}
