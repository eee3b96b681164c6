//! What a peer has sent and its session was not given yet.
ghost use Rattle.std.specs.Prelude.{ℕ, ◌≡◌, ◌≤◌, ◌↔◌, ◌⊎◌, true, [], IsTrue, length, take, drop};
ghost use Rattle.text_lines.specs.Lines.{HasNoFeed, IsUnfinished};
ghost use Rattle.chess_sockets.specs.Portions.{is_dear, AreLines, AreFewLines, BeginDear, IsPortionOf};
ghost use Rattle.chess_sockets.specs.Protocols.{IsRequest, AreOfAnotherProtocol};
ghost use Rattle.std.specs.Io.KnownBytes.{Keeps, IsAtEnd};
ghost use Rattle.chess_sockets.specs.Pieces.{Brings, Takes};

use crate::wire::Wire;
use arrayvec::ArrayVec;
use std::io::Read;
use text_lines::{Came, LINE_ROOM, first_feed};

/// The most bytes of a peer that are held back, and that one read takes.
pub const PIECE_ROOM: usize = 4096;

/// Bytes that are held back, in their order.
#[derive(Drop)]
pub struct Incoming {
    bytes: ArrayVec<u8, PIECE_ROOM>,
    ghost few: { length bytes.items ≤ 4096 },
}

/// How many lines a session is given at once. It is given more when these are answered and the answers are written: so
/// what waits for one client is bounded.
const PORTION: usize = 16;

/// Whether a line asks for much, by how it begins: only `list` and `pgn` are answered by more than a line.
pub fn is_dear(line: &[u8]) -> bool
    ensures { result ≡ is_dear line.now }
{
    line.starts_with(b"list") || line.starts_with(b"pgn ")
}

/// What a record of TLS that opens a connection begins with: a handshake's.
const TLS_HANDSHAKE: u8 = 22;

// Whether a line is a request of HTTP.
fn is_request(line: &[u8]) -> bool
    ensures { IsTrue result ↔ IsRequest line.now }
{
    let mut rest = line;
    while let Some((_, after)) = rest.split_first() {
        if rest.starts_with(b" HTTP/") {
            return true;
        }
        rest = after;
    }
    false
}

// Whether bytes begin with a handshake of TLS, or a line that is a request of HTTP.
fn are_of_another_protocol(bytes: &[u8]) -> bool
    ensures { IsTrue result ↔ AreOfAnotherProtocol bytes.now }
{
    if bytes.starts_with(&[TLS_HANDSHAKE]) {
        return true;
    }
    match first_feed(bytes) {
        Some(at) if at > LINE_ROOM => false,
        Some(at) => is_request(&bytes[..at]),
        None => false,
    }
}

// Where the last of so many lines ends that are whole and ask for little, of which the first ends here.
fn end_of_lines(bytes: &[u8], first: usize) -> usize
    requires within { first ≤ length bytes.now }
    requires line { AreLines 1 (take first bytes.now) }
    ensures further { first ≤ result }
    ensures within { result ≤ length bytes.now }
    ensures lines { AreFewLines (take result bytes.now) }
    ensures most { AreLines 16 (take result bytes.now) ⊎ HasNoFeed (drop result bytes.now)
        ⊎ BeginDear (drop result bytes.now) }
{
    let mut end = first;
    for _ in 1..PORTION {
        let Some(at) = first_feed(&bytes[end..]) else {
            return end;
        };
        if is_dear(&bytes[end..end + at]) {
            return end;
        }
        end += at + 1;
    }
    end
}

impl Incoming {
    ghost use Rattle.chess_sockets.specs.Incoming.{held};

    /// Nothing is held back.
    pub fn new() -> Incoming
        ensures { held result ≡ [] }
    {
        Incoming {
            bytes: ArrayVec::new(),
        }
    }

    /// Whether no line is held back: what is held can still become one.
    pub fn is_unfinished(&self) -> bool
        ensures { IsTrue result ↔ IsUnfinished (held self.now) }
    {
        self.bytes.len() <= LINE_ROOM && first_feed(self.bytes.as_slice()).is_none()
    }

    /// Whether what is held back begins as HTTP or TLS does: with a whole line that is a request, or with a handshake's
    /// byte.
    pub fn is_of_another_protocol(&self) -> bool
        ensures { IsTrue result ↔ AreOfAnotherProtocol (held self.now) }
    {
        are_of_another_protocol(self.bytes.as_slice())
    }

    /// The most of what is held back that a session may be given at once: one line that asks for much, or up to 16 that
    /// don't, or what belongs to a line that is too long; and nothing just where no line is held back.
    pub fn portion(&self) -> &[u8]
        ensures portion { IsPortionOf (held self.now) result.now }
        ensures some { result.now ≡ [] → IsUnfinished (held self.now) }
    {
        let bytes = self.bytes.as_slice();
        match first_feed(bytes) {
            Some(at) if is_dear(&bytes[..at]) => &bytes[..at + 1],
            Some(at) => &bytes[..end_of_lines(bytes, at + 1)],
            None if bytes.len() > LINE_ROOM => bytes,
            None => &bytes[..0],
        }
    }

    #[tactic(auto, using(crate::proofs::HeardLemmas::brings, crate::proofs::HeardLemmas::at_end))]
    /// Reads once, without waiting where the reader doesn't wait, and holds back what came.
    pub fn read_from<R: Read>(&mut self, reader: &mut Wire<R>, piece: &mut [u8; PIECE_ROOM]) -> Came
        requires { IsUnfinished (held self.old) }
        ensures takes { Takes (R.remaining reader.old.stream) (R.remaining reader.new.stream) (held self.old)
            (held self.new) }
        ensures brings { Brings (R.remaining reader.old.stream) (R.remaining reader.new.stream) result }
        ensures end { result ≡ Came.End → IsAtEnd (R.remaining reader.new.stream) }
        ensures nothing { result ≡ Came.Nothing → Keeps (R.remaining reader.old.stream) (R.remaining reader.new.stream)
            × (held self.new ≡ held self.old) }
        ensures still { result ≡ Came.End → held self.new ≡ held self.old }
        ensures failed { result ≡ Came.Fault → reader.new.has_failed ≡ true }
    {
        let room = PIECE_ROOM - self.bytes.len();
        let came = reader.receive(&mut piece[..room]);
        if let Came::Bytes(count) = came {
            let _ = self.bytes.try_extend_from_slice(&piece[..count]);
        }
        came
    }

    /// Gives up the first bytes.
    pub fn give_up(&mut self, count: usize)
        requires { count ≤ length (held self.old) }
        ensures { held self.new ≡ drop count (held self.old) }
    {
        let left = self.bytes.len() - count;
        self.bytes.as_mut_slice().copy_within(count.., 0);
        self.bytes.truncate(left);
    }
}
