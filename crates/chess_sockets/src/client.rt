//! A connection and its session.
ghost use Rattle.std.specs.Prelude.{◌≡◌, ◌≢◌, ◌≤◌, ◌++◌, ◌+◌, ◌-◌, ◌↔◌, ◌⊎◌, true, false, [], Some, None, IsTrue};
ghost use Rattle.std.specs.Prelude.{IfSome, IfOk, OnOk, OnErr};
ghost use Rattle.std.specs.Io.KnownBytes.{Keeps};
ghost use Rattle.chess_hub.specs.Law.{hub_store, hub_refusals};
ghost use Rattle.chess_hub.specs.Session.{said, session_at, due, Changes};
ghost use Rattle.chess_sockets.specs.Clients.{standing, stream_of, IsOpen, OthersStay, IsSilent, IsHeardAt, IsEndSeen};
ghost use Rattle.chess_sockets.specs.Clients.{GivesOn, TakesIn, HandsOut, bytes_of, to_go, ahead, pending};
ghost use Rattle.chess_sockets.specs.Closings.{IsSound, IsForeign, IsTrouble, WasRefused};
ghost use Rattle.text_lines.specs.Lines.{IsUnfinished};
ghost use Rattle.chess_sockets.specs.Incoming.{held};
ghost use Rattle.chess_sockets.specs.Pieces.{Takes};
ghost use Rattle.chess_sockets.specs.Sending.{waiting};
ghost use Rattle.chess_sockets.specs.Rounds.{AreGiven, IsHandedOut};

use crate::closing::Closing;
use crate::incoming::{Incoming, PIECE_ROOM};
use crate::memory::Memory;
use crate::outgoing::{Outgoing, Sent};
use crate::room::Room;
use crate::wire::Wire;
use chess_answer::Reply;
use chess_hub::{Hub, Sid};
use sector_dev::Device;
use std::alloc::{AllocError, Global};
use std::io::{Read, Write};
use text_lines::Came;

/// A connection, and the session that its bytes go to.
#[derive(Drop)]
pub struct Client<S> {
    wire: Wire<S>,
    sid: Sid,
    /// Bytes on their way to the session.
    incoming: Incoming,
    /// Answers on their way to the peer.
    outgoing: Outgoing,
    memory: Memory,
    /// Whether the peer sends no more.
    has_ended: bool,
    /// Whether it was read to its end for now: the last read found nothing, and none was put off since.
    is_quiet: bool,
    /// The moment at which it began, or last sent something, in milliseconds.
    heard_at: u64,
    /// For so many turns on end it had a line that asks for much, and there was no room for it.
    waited: u32,
    /// Whether its session was given anything yet.
    has_spoken: bool,
    /// For so many turns more it is heard after its farewell.
    patience: u8,
    /// Why its session was closed.
    closing: Option<Closing>,
}

/// For so many turns a client is heard after its farewell, so that this is not lost: a connection that is closed before
/// all is read is reset.
const PATIENCE: u8 = u8::MAX;

impl<S> Client<S> {
    /// A connection that begins, for a session that is open.
    pub fn new(alloc: Global, stream: S, sid: Sid, at: u64) -> Client<S>
        ensures sid { result.sid ≡ sid }
        ensures stream { stream_of result ≡ stream }
        ensures sound { IsSound result }
        ensures heard { result.heard_at ≡ at }
        ensures wait { result.waited ≡ 0 }
        ensures first { result.has_spoken ≡ false }
        ensures lasts { result.has_ended ≡ false }
        ensures nothing { (held result.incoming ≡ []) × (waiting result.outgoing ≡ []) }
    {
        Client {
            wire: Wire::new(stream),
            sid,
            incoming: Incoming::new(),
            outgoing: Outgoing::new(alloc),
            memory: Memory::new(),
            has_ended: false,
            is_quiet: false,
            heard_at: at,
            waited: 0,
            has_spoken: false,
            patience: PATIENCE,
            closing: None,
        }
    }

    /// The connection.
    pub fn stream(&self) -> &S
        ensures { result.now ≡ stream_of self.now }
    {
        self.wire.stream()
    }

    /// The number of its session.
    pub fn sid(&self) -> Sid
        ensures { result ≡ self.now.sid }
    {
        self.sid
    }

    /// Whether all that had come was read. Then there is nothing to read until its socket is ready.
    pub(crate) fn is_quiet(&self) -> bool
        ensures { result ≡ self.now.is_quiet }
    {
        self.is_quiet
    }

    /// Whether no line of it is held back.
    pub(crate) fn is_unfinished(&self) -> bool
        ensures { IsTrue result ↔ IsUnfinished (held self.now.incoming) }
    {
        self.incoming.is_unfinished()
    }

    /// For how many turns on end a line that asks for much has waited.
    pub(crate) fn waited(&self) -> u32
        ensures { result ≡ self.now.waited }
    {
        self.waited
    }

    // Whether its session was given nothing yet, and what is held back for it begins as another protocol does.
    fn is_foreign(&self) -> bool
        ensures { IsTrue result ↔ IsForeign self.now }
    {
        !self.has_spoken && self.incoming.is_of_another_protocol()
    }

    /// Closes its session, for this reason.
    pub(crate) fn close<D: Device>(&mut self, hub: &mut Hub<D>, closing: Closing)
        ensures closed { Changes hub.old.sessions hub.new.sessions self.old.sid None }
        ensures told { self.new.closing ≡ Some closing }
        ensures marks { (self.new.wire ≡ self.old.wire) × (self.new.outgoing ≡ self.old.outgoing) }
        ensures peer { (self.new.sid ≡ self.old.sid) × (self.new.has_ended ≡ self.old.has_ended)
            × (self.new.is_quiet ≡ self.old.is_quiet) × (held self.new.incoming ≡ held self.old.incoming)
            × (waiting self.new.outgoing ≡ waiting self.old.outgoing) × (self.new.wire.stream ≡ self.old.wire.stream)
            × (self.new.heard_at ≡ self.old.heard_at) × (standing self.new ≡ standing self.old) }
        ensures store { hub_store hub.new ≡ hub_store hub.old }
        ensures refusals { hub_refusals hub.new ≡ hub_refusals hub.old }
    {
        hub.close(self.sid);
        self.closing = Some(closing);
    }

    /// Whether nothing came from it for so many milliseconds, by this moment, and nothing waits for it.
    pub(crate) fn is_silent<D: Device>(&self, hub: &Hub<D>, at: u64, most: u64) -> bool
        requires { IsOpen hub.now.sessions self.now.sid }
        ensures { IsTrue result ↔ IsSilent self.now hub.now.sessions at most }
    {
        self.heard_at <= at
            && at - self.heard_at >= most
            && self.outgoing.is_empty()
            && hub.waiting(self.sid) == 0
            && !hub.is_due(self.sid)
            && self.incoming.is_unfinished()
    }
}

// Puts an answer behind what waits to be written.
fn push(outgoing: &mut Outgoing, reply: &Reply) -> Result<(), AllocError>
    ensures ok { OnOk result (waiting outgoing.new ≡ waiting outgoing.old ++ bytes_of (said reply.now)) }
    ensures refused { OnErr result (outgoing.new.was_refused ≡ true) }
{
    outgoing.push(reply.line.as_str().as_bytes())?;
    outgoing.push(b"\n")?;
    outgoing.push(reply.body.as_bytes())
}

/// What was gathered of a session's answers.
#[derive(Clone, Copy)]
struct Gathered {
    any: bool,
    /// Whether no more is due.
    is_all: bool,
}

// Puts the answers of a session behind what waits to be written: all, or 4,294,967,295. Where memory is refused an
// answer may be lost, and then the session is to be closed.
fn gather<D: Device>(
    hub: &mut Hub<D>,
    sid: Sid,
    outgoing: &mut Outgoing,
) -> Result<Gathered, AllocError>
    requires { IsOpen hub.old.sessions sid }
    ensures open { IsOpen hub.new.sessions sid }
    ensures same { OnOk result (to_go (session_at hub.new.sessions sid) (waiting outgoing.new)
        ≡ to_go (session_at hub.old.sessions sid) (waiting outgoing.old)) }
    ensures all { IfOk result (λ gathered. gathered.is_all ≡ true
        → IfSome (session_at hub.new.sessions sid) (λ s. due s ≡ [])) }
    ensures given { AreGiven sid hub.old.sessions hub.new.sessions }
    ensures refused { OnErr result (outgoing.new.was_refused ≡ true) }
    ensures others { OthersStay hub.old.sessions hub.new.sessions sid }
    ensures store { hub_store hub.new ≡ hub_store hub.old }
    ensures refusals { hub_refusals hub.new ≡ hub_refusals hub.old }
{
    let mut any = false;
    for _ in 0..u32::MAX {
        let Some(reply) = hub.output(sid) else {
            return Ok(Gathered { any, is_all: true });
        };
        push(outgoing, &reply)?;
        any = true;
    }
    Ok(Gathered { any, is_all: false })
}

// How far a write came behind which more is due, or all is written.
fn as_far(sent: Sent, is_all: bool) -> Sent
    ensures all { result ≡ Sent.All → (sent ≡ Sent.All) × (is_all ≡ true) }
    ensures fault { result ≡ Sent.Fault ↔ (sent ≡ Sent.Fault) }
{
    if sent == Sent::All && !is_all {
        Sent::Part
    } else {
        sent
    }
}

/// What a connection wrote.
#[derive(Clone, Copy)]
struct Wrote {
    /// Whether answers came to it.
    any: bool,
    sent: Sent,
}

impl Wrote {
    // Whether there was anything to do: answers came, or what was stuck is written.
    fn is_work(self, was_stuck: bool) -> bool
        ensures { IsTrue result ↔ ((self.any ≡ true) ⊎ ((was_stuck ≡ true) × (self.sent ≡ Sent.All))) }
    {
        self.any || was_stuck && self.sent == Sent::All
    }
}

impl<S: Read + Write> Client<S> {
    #[tactic(auto, using(crate::proofs::HeardLemmas::reading_steps))]
    // Reads at most one piece, unless the peer sends no more, and holds it back. `Nothing` where there is none to read
    // for now.
    fn read_more(&mut self, at: u64, piece: &mut [u8; PIECE_ROOM]) -> Came
        requires { IsUnfinished (held self.old.incoming) }
        ensures takes { Takes (S.remaining self.old.wire.stream) (S.remaining self.new.wire.stream)
            (held self.old.incoming)
            (held self.new.incoming) }
        ensures heard { IsHeardAt (S.remaining self.old.wire.stream)
            (S.remaining self.new.wire.stream) at self.old.heard_at
            self.new.heard_at }
        ensures ended { IsEndSeen (S.remaining self.new.wire.stream) self.old.has_ended self.new.has_ended }
        ensures quiet { self.new.is_quiet ≡ true → (result ≡ Came.Nothing)
            × Keeps (S.remaining self.old.wire.stream) (S.remaining self.new.wire.stream)
            × (held self.new.incoming ≡ held self.old.incoming) }
        ensures peer { (self.new.sid ≡ self.old.sid) × (waiting self.new.outgoing ≡ waiting self.old.outgoing)
            × (standing self.new ≡ standing self.old) }
        ensures nothing { result ≡ Came.Nothing → held self.new.incoming ≡ held self.old.incoming }
        ensures end { result ≡ Came.End → held self.new.incoming ≡ held self.old.incoming }
        ensures failed { result ≡ Came.Fault → self.new.wire.has_failed ≡ true }
    {
        self.is_quiet = false;
        if self.has_ended {
            return Came::Nothing;
        }
        let came = self.incoming.read_from(&mut self.wire, piece);
        match came {
            Came::Nothing => self.is_quiet = true,
            Came::Bytes(_) => self.heard_at = at,
            Came::End => self.has_ended = true,
            Came::Interrupted | Came::Fault => {}
        }
        came
    }

    // Gives the session a portion of what is held back for it, unless something of it waits, or a line asks for much
    // and the turn has no room for it. Where memory is refused the session is closed, and so is, with nothing given to
    // it, that of a peer that begins as another protocol does.
    fn hand_on<D: Device>(&mut self, hub: &mut Hub<D>, room: &mut Room)
        requires { IsOpen hub.old.sessions self.old.sid }
        ensures gives { IfSome (session_at hub.old.sessions self.old.sid) (λ s.
            GivesOn (ahead room.old.longest (waiting self.old.outgoing)) (pending self.old room.old.lines)
            (pending self.new room.new.lines) s (session_at hub.new.sessions self.old.sid)) }
        ensures longest { room.new.longest ≡ room.old.longest }
        ensures peer { (self.new.sid ≡ self.old.sid) × (waiting self.new.outgoing ≡ waiting self.old.outgoing) }
        ensures quiet { self.new.is_quiet ≡ self.old.is_quiet }
        ensures heard { self.new.heard_at ≡ self.old.heard_at }
        ensures ended { self.new.has_ended ≡ self.old.has_ended }
        ensures stream { self.new.wire.stream ≡ self.old.wire.stream }
        ensures reason { session_at hub.new.sessions self.old.sid ≡ None → IsTrouble self.new }
        ensures refused { session_at hub.new.sessions self.old.sid ≡ None
            → (room.new.lines ≡ room.old.lines) ⊎ WasRefused self.new }
        ensures foreign { IsForeign self.old → session_at hub.new.sessions self.old.sid ≡ None }
        ensures others { OthersStay hub.old.sessions hub.new.sessions self.old.sid }
        ensures store { hub_store hub.new ≡ hub_store hub.old }
        ensures refusals { hub_refusals hub.new ≡ hub_refusals hub.old }
    {
        if self.is_foreign() {
            self.close(hub, Closing::OtherProtocol);
            return;
        }
        if hub.waiting(self.sid) > 0 {
            return;
        }
        let portion = self.incoming.portion();
        if !room.admit(portion, self.waited) {
            self.waited = self.waited.saturating_add(1);
            return;
        }
        let count = portion.len();
        if self.memory.feed(hub, self.sid, portion) {
            self.waited = 0;
            self.has_spoken |= count > 0;
            self.incoming.give_up(count);
        } else {
            self.closing = Some(Closing::NoMemory);
        }
    }

    #[tactic(auto, using(crate::proofs::HeardLemmas::heard_as_before))]
    /// Reads at most one piece for the session, unless a line of it is held back or the peer doesn't take its answers;
    /// and gives the session a portion, once the lines before are answered and the answers are written: one line that
    /// asks for much, where the turn has room for it, or up to 16 that don't. The session is closed after a fault,
    /// where memory is refused for it, and, with nothing given to it, where the peer begins as HTTP or TLS does. It
    /// tells whether there may be more to do.
    pub(crate) fn take_in<D: Device>(
        &mut self,
        hub: &mut Hub<D>,
        at: u64,
        piece: &mut [u8; PIECE_ROOM],
        room: &mut Room,
    ) -> bool
        requires { IsOpen hub.old.sessions self.old.sid }
        ensures taken { IfSome (session_at hub.old.sessions self.old.sid) (λ s.
            TakesIn (S.remaining self.old.wire.stream) (S.remaining self.new.wire.stream)
            (ahead room.old.longest (waiting self.old.outgoing)) (pending self.old room.old.lines)
            (pending self.new room.new.lines) s (session_at hub.new.sessions self.old.sid)) }
        ensures longest { room.new.longest ≡ room.old.longest }
        ensures peer { (self.new.sid ≡ self.old.sid) × (waiting self.new.outgoing ≡ waiting self.old.outgoing) }
        ensures heard { IsHeardAt (S.remaining self.old.wire.stream)
            (S.remaining self.new.wire.stream) at self.old.heard_at
            self.new.heard_at }
        ensures ended { IsEndSeen (S.remaining self.new.wire.stream) self.old.has_ended self.new.has_ended }
        // Who has sent something is asked for more.
        ensures quiet { self.new.is_quiet ≡ true → (result ≡ false)
            × Keeps (S.remaining self.old.wire.stream) (S.remaining self.new.wire.stream)
            × (held self.new.incoming ≡ held self.old.incoming) × (hub.new.sessions ≡ hub.old.sessions)
            × (room.new.lines ≡ room.old.lines) × (standing self.new ≡ standing self.old)
            × IsUnfinished (held self.new.incoming) }
        // Of who doesn't take its answers nothing is read, and nothing that it sent goes on.
        ensures unread { waiting self.old.outgoing ≢ [] → (self.new.wire.stream ≡ self.old.wire.stream)
            × (held self.new.incoming ≡ held self.old.incoming) × (hub.new.sessions ≡ hub.old.sessions) }
        ensures reason { session_at hub.new.sessions self.old.sid ≡ None → IsTrouble self.new }
        // Of those that are closed only one that memory was refused for takes room.
        ensures refused { session_at hub.new.sessions self.old.sid ≡ None
            → (room.new.lines ≡ room.old.lines) ⊎ WasRefused self.new }
        ensures others { OthersStay hub.old.sessions hub.new.sessions self.old.sid }
        ensures store { hub_store hub.new ≡ hub_store hub.old }
        ensures refusals { hub_refusals hub.new ≡ hub_refusals hub.old }
    {
        self.is_quiet = false;
        if !self.outgoing.is_empty() {
            return false;
        }
        if !self.incoming.is_unfinished() {
            self.hand_on(hub, room);
            return true;
        }
        match self.read_more(at, piece) {
            Came::Nothing => return false,
            Came::Bytes(_) | Came::Interrupted => self.hand_on(hub, room),
            Came::End => {}
            Came::Fault => self.close(hub, Closing::Fault),
        }
        true
    }

    // Writes what waits and what the session is due, as far as the peer takes it. Where memory is refused an answer may
    // be lost.
    fn write_out<D: Device>(&mut self, hub: &mut Hub<D>) -> Result<Wrote, AllocError>
        requires { IsOpen hub.old.sessions self.old.sid }
        ensures open { IsOpen hub.new.sessions self.old.sid }
        ensures hands { OnOk result (HandsOut (S.contents self.old.wire.stream) (S.contents self.new.wire.stream)
            (to_go (session_at hub.old.sessions self.old.sid) (waiting self.old.outgoing))
            (to_go (session_at hub.new.sessions self.old.sid) (waiting self.new.outgoing))) }
        ensures refused { OnErr result (HandsOut (S.contents self.old.wire.stream) (S.contents self.new.wire.stream)
            (to_go (session_at hub.old.sessions self.old.sid) (waiting self.old.outgoing)) None) }
        ensures all { IfOk result (λ wrote. wrote.sent ≡ Sent.All → waiting self.new.outgoing ≡ []) }
        ensures due { IfOk result (λ wrote. wrote.sent ≡ Sent.All
            → IfSome (session_at hub.new.sessions self.old.sid) (λ s. due s ≡ [])) }
        ensures failed { IfOk result (λ wrote. wrote.sent ≡ Sent.Fault → self.new.wire.has_failed ≡ true) }
        ensures memory { OnErr result (self.new.outgoing.was_refused ≡ true) }
        ensures given { AreGiven self.old.sid hub.old.sessions hub.new.sessions }
        ensures peer { (self.new.sid ≡ self.old.sid) × (self.new.has_ended ≡ self.old.has_ended)
            × (self.new.is_quiet ≡ self.old.is_quiet) × (held self.new.incoming ≡ held self.old.incoming)
            × (self.new.heard_at ≡ self.old.heard_at) × (standing self.new ≡ standing self.old) }
        ensures others { OthersStay hub.old.sessions hub.new.sessions self.old.sid }
        ensures store { hub_store hub.new ≡ hub_store hub.old }
        ensures refusals { hub_refusals hub.new ≡ hub_refusals hub.old }
    {
        let sent = self.outgoing.write_to(&mut self.wire);
        if sent != Sent::All {
            return Ok(Wrote { any: false, sent });
        }
        let gathered = match gather(hub, self.sid, &mut self.outgoing) {
            Ok(gathered) => gathered,
            Err(refused) => return Err(refused),
        };
        let sent = self.outgoing.write_to(&mut self.wire);
        Ok(Wrote {
            any: gathered.any,
            sent: as_far(sent, gathered.is_all),
        })
    }

    // Whether the session is over, after a write. Where the peer sends no more, that is once its whole lines are
    // answered. After its farewell it is once nothing comes, or after 255 turns.
    fn is_over<D: Device>(&mut self, hub: &Hub<D>, wrote: Wrote) -> bool
        requires { IsOpen hub.now.sessions self.old.sid }
        ensures fault { wrote.sent ≡ Sent.Fault → result ≡ true }
        ensures part { wrote.sent ≡ Sent.Part → result ≡ false }
        ensures answered { wrote.sent ≡ Sent.All → IfSome (session_at hub.now.sessions self.old.sid)
            (λ s. s.has_left ≡ false → (IsTrue result ↔ ((self.old.has_ended ≡ true) × (wrote.any ≡ false)
            × (s.heard.bytes ≡ []) × IsUnfinished (held self.old.incoming)))) }
        ensures left { wrote.sent ≡ Sent.All → IfSome (session_at hub.now.sessions self.old.sid)
            (λ s. s.has_left ≡ true → (self.new.patience ≡ self.old.patience - 1) × (IsTrue result
            ↔ ((self.old.has_ended ≡ true) ⊎ (self.old.is_quiet ≡ true) ⊎ (self.old.patience ≤ 1)))) }
        ensures marks { self.new.wire ≡ self.old.wire }
        ensures peer { (self.new.sid ≡ self.old.sid) × (self.new.has_ended ≡ self.old.has_ended)
            × (self.new.is_quiet ≡ self.old.is_quiet) × (held self.new.incoming ≡ held self.old.incoming)
            × (waiting self.new.outgoing ≡ waiting self.old.outgoing) × (self.new.wire.stream ≡ self.old.wire.stream)
            × (self.new.heard_at ≡ self.old.heard_at) × (standing self.new ≡ standing self.old) }
    {
        match wrote.sent {
            Sent::Fault => true,
            Sent::Part => false,
            Sent::All if hub.ended(self.sid) => {
                self.patience = self.patience.saturating_sub(1);
                self.has_ended || self.is_quiet || self.patience == 0
            }
            Sent::All => {
                self.has_ended
                    && !wrote.any
                    && hub.waiting(self.sid) == 0
                    && self.incoming.is_unfinished()
            }
        }
    }

    // Why the session is over, where it is, after a write.
    fn reason<D: Device>(&self, hub: &Hub<D>, wrote: Wrote) -> Closing
        requires { IsOpen hub.now.sessions self.now.sid }
        ensures fault { wrote.sent ≡ Sent.Fault → result ≡ Closing.Fault }
        ensures farewell { wrote.sent ≡ Sent.All → IfSome (session_at hub.now.sessions self.now.sid)
            (λ s. s.has_left ≡ true → result ≡ Closing.Farewell) }
        ensures end { wrote.sent ≡ Sent.All → IfSome (session_at hub.now.sessions self.now.sid)
            (λ s. s.has_left ≡ false → result ≡ Closing.End) }
    {
        if wrote.sent == Sent::Fault {
            Closing::Fault
        } else if hub.ended(self.sid) {
            Closing::Farewell
        } else {
            Closing::End
        }
    }

    /// Writes what can be written of the session's answers, after a turn. The session is closed after a fault, and
    /// where memory is refused for it; where the peer sends no more, once its whole lines are answered; and after its
    /// farewell to a line that is too long, once nothing comes behind that line, or after 255 turns. It tells whether
    /// there was anything to do.
    pub(crate) fn hand_out<D: Device>(&mut self, hub: &mut Hub<D>) -> bool
        requires { IsOpen hub.old.sessions self.old.sid }
        ensures given { IsHandedOut S.contents self.old self.new hub.old.sessions hub.new.sessions }
        ensures peer { (self.new.sid ≡ self.old.sid) × (self.new.has_ended ≡ self.old.has_ended)
            × (self.new.is_quiet ≡ self.old.is_quiet) × (held self.new.incoming ≡ held self.old.incoming)
            × (self.new.heard_at ≡ self.old.heard_at) × (standing self.new ≡ standing self.old) }
        ensures others { OthersStay hub.old.sessions hub.new.sessions self.old.sid }
        ensures store { hub_store hub.new ≡ hub_store hub.old }
        ensures refusals { hub_refusals hub.new ≡ hub_refusals hub.old }
    {
        let was_stuck = !self.outgoing.is_empty();
        let Ok(wrote) = self.write_out(hub) else {
            self.close(hub, Closing::NoMemory);
            return true;
        };
        if self.is_over(hub, wrote) {
            let reason = self.reason(hub, wrote);
            self.close(hub, reason);
            return true;
        }
        wrote.is_work(was_stuck)
    }
}
