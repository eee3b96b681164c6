//! The lines that a session has sent, and that were not taken.
ghost use Rattle.std.specs.Prelude.{◌≡◌, ◌+◌, ◌<◌, ◌≤◌, ◌++◌, ◌↔◌, ℕ, List, true, false, [], ◌∷◌, drop, length, IsTrue};
ghost use Rattle.std.specs.Prelude.{IsSome, IfSome, IfNone, OnOk, OnErr, IsErrOf, vec_len, vec_capacity};
ghost use Rattle.std.specs.Bool.{OnTrue, OnFalse};
ghost use Rattle.text_lines.specs.Lines.{HasNoFeed, IsUnfinished, lines_of, has_long_line};
ghost use Rattle.text_lines.specs.Heard.{kept_of, heard, heard_more, IsCut, IsFirstLine};
ghost use Rattle.text_lines.specs.Holding.{IsHeldFor};

use crate::cuts::{LINE_ROOM, first_feed, without_return};
use crate::pieces::give_up;
use arrayvec::ArrayVec;
use std::alloc::{AllocError, Global};
use std::marker::Model;

/// Why bytes were not taken.
#[derive(Clone, Copy)]
pub enum FeedFault {
    /// Memory was refused.
    NoMemory,
    /// A line was too long before.
    LineTooLong,
}

impl From<AllocError> for FeedFault {
    ghost use Rattle.std.specs.Prelude.{◌≡◌};
    ghost use Rattle.text_lines.specs.declared.heard.FeedFault.TheVariants.{NoMemory};

    ghost from_gives = { λ _ fault. fault ≡ NoMemory };

    fn from(_: AllocError) -> FeedFault {
        FeedFault::NoMemory
    }
}

/// The bytes that a session has sent, and that were not taken: whole lines, and what has come of the next one. Of a
/// line that is too long, and after it, no byte is kept; of the bytes that were taken at most as many are held as wait.
#[derive(Drop)]
pub struct Lines {
    // Whole lines with their line feeds, the first bytes of which were taken, at most half of them.
    whole: Vec<u8>,
    taken: usize,
    // What has come of the next line.
    rest: ArrayVec<u8, LINE_ROOM>,
    is_long: bool,
}

impl Model for Lines {
    ghost use Rattle.text_lines.specs.Heard.{Heard};
    ghost use Rattle.text_lines.specs.Holding.{held_by, IsHolding};

    ghost Value = { Heard };

    ghost view = { λ l. held_by l.whole.items l.taken l.rest.items l.is_long };

    ghost invariant = { λ l. IsHolding l.whole.items l.taken l.rest.items l.is_long };
}

// The bytes before the first line feed, and those after it.
fn split_feed(bytes: &[u8]) -> Option<(&[u8], &[u8])>
    ensures split { IfSome result (λ p. bytes.entry.now ≡ p.0.now ++ 10 ∷ p.1.now) }
    ensures first { IfSome result (λ p. HasNoFeed p.0.now) }
    ensures none { IfNone result (HasNoFeed bytes.entry.now) }
{
    let end = first_feed(bytes)?;
    Some((&bytes[..end], &bytes[end + 1..]))
}

// Takes bytes of a line that does not end with them, and answers whether they fit.
fn take_part(rest: &mut ArrayVec<u8, LINE_ROOM>, part: &[u8]) -> bool
    requires unfinished { IsUnfinished rest.old.items }
    requires no_feed { HasNoFeed part.now }
    ensures taken { OnTrue result (rest.new.items ≡ rest.old.items ++ part.now) }
    ensures unfinished { IsUnfinished rest.new.items }
    ensures long { OnFalse result (255 < length rest.old.items + length part.now) }
    ensures nothing { OnFalse result (rest.new.items ≡ []) }
{
    if rest.try_extend_from_slice(part).is_ok() {
        return true;
    }
    rest.clear();
    false
}

// A line feed ends the line that has come.
fn end_line(whole: &mut Vec<u8>, rest: &mut ArrayVec<u8, LINE_ROOM>)
    requires room { vec_len whole.old + length rest.old.items < vec_capacity whole.old }
    ensures items { whole.new.items ≡ whole.old.items ++ (rest.old.items ++ 10 ∷ []) }
    ensures len { vec_len whole.new ≡ vec_len whole.old + (length rest.old.items + 1) }
    ensures capacity { vec_capacity whole.new ≡ vec_capacity whole.old }
    ensures empty { rest.new.items ≡ [] }
{
    for byte in rest.as_slice() {
        whole.push_reserved(*byte);
    }
    whole.push_reserved(b'\n');
    rest.clear();
}

// Takes the bytes that follow what has come of a line, up to a line that is too long, and answers whether one is.
fn take_piece(whole: &mut Vec<u8>, rest: &mut ArrayVec<u8, LINE_ROOM>, piece: &[u8]) -> bool
    requires unfinished { IsUnfinished rest.old.items }
    requires room { vec_len whole.old + (length rest.old.items + length piece.now) ≤ vec_capacity whole.old }
    ensures { (added : List ℕ) × (whole.new.items ≡ whole.old.items ++ added)
        × IsCut (rest.old.items ++ piece.now) added rest.new.items result }
{
    let mut more = piece;
    while let Some((part, after)) = split_feed(more) {
        if !take_part(rest, part) {
            return true;
        }
        end_line(whole, rest);
        more = after;
    }
    !take_part(rest, more)
}

// The most room that stays where no byte is held; what a session mostly sends needs less.
const EMPTY_ROOM: usize = 8192;

// Gives up the bytes that were taken, once they are half of all, and answers how many of them are still held. Where no
// byte is left, room beyond the usual is given up too.
fn drop_taken(bytes: &mut Vec<u8>, taken: usize) -> usize
    requires { taken ≤ vec_len bytes.old }
    ensures kept { drop result bytes.new.items ≡ drop taken bytes.old.items }
    ensures half { result + result ≤ length bytes.new.items }
    ensures room { length bytes.new.items ≡ 0 → vec_capacity bytes.new ≤ 8192 }
{
    if taken < bytes.len() - taken {
        return taken;
    }
    give_up(bytes, taken);
    if bytes.is_empty() && bytes.capacity() > EMPTY_ROOM {
        bytes.shrink_to_fit();
    }
    0
}

impl Lines {
    /// Nothing has come.
    pub fn new(alloc: Global) -> Self
        ensures { result ≡ heard [] false }
    {
        Lines {
            whole: Vec::new(alloc),
            taken: 0,
            rest: ArrayVec::new(),
            is_long: false,
        }
    }

    /// Takes bytes that come after those before. `LineTooLong` exactly where a line was too long before; `NoMemory`
    /// where memory is refused. After both nothing has changed. A line of more than 255 bytes before its line feed is
    /// too long: of it, and of what comes after it, no byte is kept, and this call answers `Ok`.
    pub fn feed(&mut self, piece: &[u8]) -> Result<(), FeedFault>
        requires { length piece.now ≤ 4096 }
        ensures fed { OnOk result (self.new ≡ heard_more self.old piece.now) }
        ensures refused { OnErr result (self.new ≡ self.old) }
        ensures long { IsErrOf result FeedFault.LineTooLong ↔ (self.old.is_long ≡ true) }
    {
        if self.is_long {
            return Err(FeedFault::LineTooLong);
        }
        self.whole.reserve(self.rest.len() + piece.len())?;
        self.is_long = take_piece(&mut self.whole, &mut self.rest, piece);
        Ok(())
    }

    /// Whether a line was too long.
    pub fn is_too_long(&self) -> bool
        ensures { result ≡ self.now.is_long }
    {
        self.is_long
    }

    /// How many bytes came and were not taken, line feeds too; of a line that is too long none.
    pub fn waiting(&self) -> usize
        ensures { result ≡ length self.now.bytes }
    {
        self.whole.len() - self.taken + self.rest.len()
    }

    /// How many bytes are held, those that were taken and not yet given up too: all that wait, and at most twice as
    /// many.
    pub fn held(&self) -> usize
        ensures { IsHeldFor result self.now }
    {
        self.whole.len() + self.rest.len()
    }

    /// The lines that wait, from the oldest on.
    pub fn ahead(&self) -> Ahead<'_>
        ensures { lines_of result.bytes.now ≡ lines_of self.now.bytes }
    {
        Ahead {
            bytes: &self.whole.as_slice()[self.taken..],
        }
    }

    /// Whether a whole line waits.
    pub fn has_line(&self) -> bool
        ensures { IsTrue result ↔ (0 < length (lines_of self.now.bytes)) }
    {
        self.ahead().next_line().is_some()
    }

    /// Takes the oldest line, if one waits.
    pub fn drop_line(&mut self)
        ensures taken { 0 < length (lines_of self.old.bytes) →
            (line : List ℕ) × IsFirstLine self.old.bytes line self.new.bytes }
        ensures none { lines_of self.old.bytes ≡ [] → self.new ≡ self.old }
        ensures long { self.new.is_long ≡ self.old.is_long }
    {
        if let Some((part, _)) = split_feed(&self.whole.as_slice()[self.taken..]) {
            let taken = self.taken + (part.len() + 1);
            self.taken = drop_taken(&mut self.whole, taken);
        }
    }
}

/// Lines that wait, lent one after the other.
#[derive(Clone, Copy)]
pub struct Ahead<'a> {
    bytes: &'a [u8],
}

impl<'a> Ahead<'a> {
    /// The next line, without its line feed and without one carriage return before that.
    pub fn next_line(&mut self) -> Option<&'a [u8]>
        ensures line { IfSome result (λ line. lines_of self.old.bytes.now ≡ line.now ∷ lines_of self.new.bytes.now) }
        ensures none { IfNone result (lines_of self.old.bytes.now ≡ []) }
        ensures stays { IfNone result (self.new ≡ self.old) }
    {
        let (part, after) = split_feed(self.bytes)?;
        if part.len() > LINE_ROOM {
            return None;
        }
        self.bytes = after;
        Some(without_return(part))
    }
}
