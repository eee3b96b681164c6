//! Sessions, each under its number.
ghost use Rattle.std.specs.Prelude.{ℕ, ◌≡◌, ◌≢◌, ◌<◌, ◌≤◌, ◌↔◌, true, false, [], Some, None, length, codes, option_map};
ghost use Rattle.std.specs.Prelude.{IsTrue, IsSome, IfSome, IfNone, IfOk, OnOk, OnErr, IsErrOf};
ghost use Rattle.text_lines.specs.Heard.{heard_more};
ghost use Rattle.chess_hub.specs.Session.{said, fresh, shown, session_at, session_count, Changes, IsUnchanged, due};
ghost use Rattle.chess_hub.specs.Session.{first_due, given_one, is_done};

use chess_answer::{AnswerLine, Reply};
use player_name::Name;
use slab::Slab;
use std::alloc::Global;
use std::collections::VecDeque;
use text_lines::{FeedFault, Lines};

/// The number of a session. It may be given again once the session is closed.
pub type Sid = usize;

/// The most sessions at a time.
pub(crate) const SESSION_ROOM: usize = 64;

/// Why a session did not begin.
#[derive(Clone, Copy)]
pub(crate) enum ConnectFault {
    /// There are as many sessions as there may be.
    Busy,
    /// Memory was refused.
    NoMemory,
}

/// A session.
#[derive(Drop)]
pub(crate) struct Session {
    pub(crate) lines: Lines,
    pub(crate) name: Option<Name>,
    // The answers that were not taken, from the oldest on.
    pub(crate) answers: VecDeque<Reply>,
    // Whether the farewell to a line that is too long was taken.
    pub(crate) has_left: bool,
}

/// The sessions that are open.
#[derive(Drop)]
pub(crate) struct Sessions {
    pub(crate) alloc: Global,
    pub(crate) slab: Slab<Session>,
}

impl Session {
    // A session that begins.
    fn new(alloc: Global) -> Self
        ensures { shown result ≡ fresh }
    {
        Session {
            lines: Lines::new(alloc),
            name: None,
            answers: VecDeque::new(alloc),
            has_left: false,
        }
    }

    // Whether a line was too long and the lines before it were taken.
    fn is_done(&self) -> bool
        ensures { result ≡ is_done self.now.lines }
    {
        self.lines.is_too_long() && !self.lines.has_line()
    }

    // Whether an answer was not taken, or the farewell that is due.
    fn is_due(&self) -> bool
        ensures { result ≡ false ↔ (due (shown self.now) ≡ []) }
    {
        if !self.answers.is_empty() {
            return true;
        }
        self.is_done() && !self.has_left
    }

    // The oldest answer that was not taken, and behind all answers the farewell.
    fn output(&mut self, alloc: Global) -> Option<Reply>
        ensures given { option_map said result ≡ first_due (due (shown self.old)) }
        ensures after { shown self.new ≡ given_one (shown self.old) }
    {
        if let Some(reply) = self.answers.pop_front() {
            return Some(reply);
        }
        if self.has_left || !self.is_done() {
            return None;
        }
        self.has_left = true;
        Some(Reply::alone(alloc, farewell_line()))
    }
}

// What is said to a session of which a line was too long.
fn farewell_line() -> AnswerLine
    ensures { result.bytes ≡ codes "bye LineTooLong" }
{
    let mut line = AnswerLine::new();
    line.push_str("bye LineTooLong");
    line
}

impl Sessions {
    /// No session is open.
    pub(crate) fn new(alloc: Global) -> Self
        ensures { (sid : ℕ) → session_at result sid ≡ None }
    {
        Sessions {
            alloc,
            slab: Slab::new(alloc),
        }
    }

    /// Begins a session, under a number that no open one has. `Busy` exactly where 64 are open, or more; `NoMemory`
    /// where memory is refused. After both all sessions are as they were.
    pub(crate) fn connect(&mut self) -> Result<Sid, ConnectFault>
        ensures new { IfOk result (λ sid. session_at self.old sid ≡ None) }
        ensures opened { IfOk result (λ sid. Changes self.old self.new sid (Some fresh)) }
        ensures busy { IsErrOf result ConnectFault.Busy ↔ (64 ≤ session_count self.old) }
        ensures refused { OnErr result (IsUnchanged self.old self.new) }
    {
        if self.slab.len() >= SESSION_ROOM {
            return Err(ConnectFault::Busy);
        }
        if self.slab.reserve(1).is_err() {
            return Err(ConnectFault::NoMemory);
        }
        Ok(self.slab.insert_reserved(Session::new(self.alloc)))
    }

    /// Whether a session of this number is open.
    pub(crate) fn is_open(&self, sid: Sid) -> bool
        ensures { IsTrue result ↔ IsSome (session_at self.now sid) }
    {
        self.slab.contains(sid)
    }

    /// Takes bytes that a session sends. `LineTooLong` exactly where a line of it was too long before; `NoMemory` where
    /// memory is refused. After both all sessions are as they were.
    pub(crate) fn feed(&mut self, sid: Sid, piece: &[u8]) -> Result<(), FeedFault>
        requires open { IsSome (session_at self.old sid) }
        requires short { length piece.now ≤ 4096 }
        ensures fed { IfSome (session_at self.old sid) (λ s. OnOk result (Changes self.old self.new sid
            (Some (record s { heard = heard_more s.heard piece.now })))) }
        ensures refused { OnErr result (IsUnchanged self.old self.new) }
        ensures long { IfSome (session_at self.old sid) (λ s.
            IsErrOf result FeedFault.LineTooLong ↔ (s.heard.is_long ≡ true)) }
    {
        match self.slab.get_mut(sid) {
            Some(session) => session.lines.feed(piece),
            None => unreachable!(),
        }
    }

    /// The oldest answer that a session was not given, if there is one; behind all its answers, where a line was too
    /// long and no line before that waits, once `bye LineTooLong`.
    pub(crate) fn output(&mut self, sid: Sid) -> Option<Reply>
        requires { IsSome (session_at self.old sid) }
        ensures given { IfSome (session_at self.old sid) (λ s. option_map said result ≡ first_due (due s)) }
        ensures after { IfSome (session_at self.old sid) (λ s. Changes self.old self.new sid (Some (given_one s))) }
    {
        let alloc = self.alloc;
        match self.slab.get_mut(sid) {
            Some(session) => session.output(alloc),
            None => unreachable!(),
        }
    }

    /// How many bytes a session has sent that were not taken, line feeds too; of a line that is too long none.
    pub(crate) fn waiting(&self, sid: Sid) -> usize
        requires { IsSome (session_at self.now sid) }
        ensures { IfSome (session_at self.now sid) (λ s. result ≡ length s.heard.bytes) }
    {
        match self.slab.get(sid) {
            Some(session) => session.lines.waiting(),
            None => unreachable!(),
        }
    }

    /// Whether anything is due to a session that it was not given: an answer, or `bye LineTooLong`.
    pub(crate) fn is_due(&self, sid: Sid) -> bool
        requires { IsSome (session_at self.now sid) }
        ensures { IfSome (session_at self.now sid) (λ s. result ≡ false ↔ (due s ≡ [])) }
    {
        match self.slab.get(sid) {
            Some(session) => session.is_due(),
            None => unreachable!(),
        }
    }

    /// Whether a session was given `bye LineTooLong`.
    pub(crate) fn ended(&self, sid: Sid) -> bool
        requires { IsSome (session_at self.now sid) }
        ensures { IfSome (session_at self.now sid) (λ s. result ≡ s.has_left) }
    {
        match self.slab.get(sid) {
            Some(session) => session.has_left,
            None => unreachable!(),
        }
    }

    /// Ends a session, with all that waits of it.
    pub(crate) fn close(&mut self, sid: Sid)
        ensures { Changes self.old self.new sid None }
    {
        let _ = self.slab.try_remove(sid);
    }
}
