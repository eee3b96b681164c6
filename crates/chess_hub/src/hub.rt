//! A hub.
ghost use Rattle.std.specs.Prelude.{ℕ, ◌≡◌, ◌≤◌, ◌↔◌, true, false, [], Some, None, Err, length, option_map, IsTrue};
ghost use Rattle.std.specs.Prelude.{IsSome, IfSome, IfOk, IfErr, OnOk, OnErr, IsErrOf};
ghost use Rattle.text_lines.specs.Heard.{heard_more};
ghost use Rattle.chess_hub.specs.Answers.{name_at, commands_of};
ghost use Rattle.chess_hub.specs.Delivery.{HaveRoom, asking_count};
ghost use Rattle.chess_hub.specs.Turn.{AreTurnLines, turn_lines, waiting_of};
ghost use Rattle.chess_hub.specs.Session.{said, fresh, session_at, session_count, Changes, IsUnchanged, due, first_due};
ghost use Rattle.chess_hub.specs.Session.{given_one};
ghost use Rattle.chess_store.specs.Batch.{AreAnswered};
ghost use Rattle.chess_hub.specs.Faults.{IsConnectFault, IsFeedFault, refusals_after};
ghost use Rattle.chess_hub.specs.Law.{hub_state};
ghost use Rattle.chess_hub.specs.Storing.{StoreMayBeAsked, StoreRefuses, StoreLasts, StoreTried};
ghost use Rattle.chess_hub.specs.Turning.{HasTurned, AsksFor, IsTurnFault};

use crate::fault::HubFault;
use crate::sessions::{Sessions, Sid};
use crate::turn::TurnLine;
use chess_answer::Reply;
use chess_entry::Command;
use chess_store::Store;
use sector_dev::Device;
use std::alloc::{AllocError, Global};

/// Sessions over a store, which it keeps.
#[derive(Drop)]
pub struct Hub<D: Device> {
    alloc: Global,
    sessions: Sessions,
    store: Store<D>,
    /// To how many turns memory was refused.
    refusals: u64,
}

// A count of refusals, after this fault.
fn counted(refusals: u64, fault: HubFault) -> u64
    ensures { result ≡ refusals_after {T = Unit {0}} (Err fault) refusals }
{
    if fault.is_for_memory() {
        refusals.saturating_add(1)
    } else {
        refusals
    }
}

// Submits commands, at most 64; without one the store is not called. A refusal of memory is counted.
fn ask<D: Device>(
    alloc: Global,
    store: &mut Store<D>,
    commands: &[Command],
    refusals: &mut u64,
) -> Result<Vec<Reply>, HubFault>
    requires few { length commands.now ≤ 64 }
    ensures replies { IfOk result (λ replies.
        AreAnswered store.old.table commands.now replies.items store.new.table) }
    ensures count { IfOk result (λ replies. length replies.items ≡ length commands.now) }
    ensures quiet { commands.now ≡ [] → store.new ≡ store.old }
    ensures works { OnOk result (StoreMayBeAsked store.old commands.now) }
    ensures fault { IfErr result (λ fault. IsTurnFault fault ⊥
        (λ refused. StoreRefuses store.old store.new refused commands.now)) }
    ensures lasts { StoreLasts store.old store.new result }
    ensures tried { StoreTried store.old store.new result }
    ensures counts { refusals.new ≡ refusals_after result refusals.old }
{
    // With it, the table's bounds are known.
    let _limits = store.limits();
    if commands.is_empty() {
        return Ok(Vec::new(alloc));
    }
    match store.submit(commands) {
        Ok(replies) => Ok(replies),
        Err(fault) => {
            let refused = HubFault::Store(fault);
            *refusals = counted(*refusals, refused);
            Err(refused)
        }
    }
}

// What a turn asks: the lines that stand next in turn, with their commands.
#[derive(Drop)]
struct Gathered {
    lines: Vec<TurnLine>,
    commands: Vec<Command>,
}

// Reads the lines that stand next in turn, at most so many, and makes room for their answers.
fn gather(sessions: &mut Sessions, at: u64, most: usize) -> Result<Gathered, AllocError>
    ensures lines { IfOk result (λ g. AreTurnLines (turn_lines most (waiting_of sessions.old)) g.lines.items) }
    ensures commands { IfOk result (λ g.
        g.commands.items ≡ commands_of at (name_at sessions.old) g.lines.items) }
    ensures count { IfOk result (λ g. length g.commands.items ≡ asking_count at g.lines.items) }
    ensures few { IfOk result (λ g. length g.commands.items ≤ most) }
    ensures room { IfOk result (λ g. HaveRoom (length g.lines.items) sessions.new.slab g.lines.items) }
    ensures unchanged { IsUnchanged sessions.old sessions.new }
{
    let lines = sessions.next_lines(most)?;
    let commands = sessions.commands(at, &lines)?;
    sessions.reserve(&lines)?;
    Ok(Gathered { lines, commands })
}

impl<D: Device> Hub<D> {
    /// A hub without sessions, over a store, which it keeps.
    pub fn new(alloc: Global, store: Store<D>) -> Self
        ensures none { (sid : ℕ) → session_at result.sessions sid ≡ None }
        ensures store { result.store ≡ store }
        ensures refusals { result.refusals ≡ 0 }
    {
        Hub {
            alloc,
            sessions: Sessions::new(alloc),
            store,
            refusals: 0,
        }
    }

    /// To how many turns memory was refused, so that they answered `NoMemory` or `Store(NoMemory)`; at most 2^64 - 1.
    pub fn refusals(&self) -> u64
        ensures { result ≡ self.now.refusals }
    {
        self.refusals
    }

    /// Begins a session, under a number that no open one has. `Busy` exactly where 64 are open, or more; `NoMemory`
    /// where memory is refused. After both nothing has changed.
    pub fn connect(&mut self) -> Result<Sid, HubFault>
        ensures new { IfOk result (λ sid. session_at self.old.sessions sid ≡ None) }
        ensures opened { IfOk result (λ sid. Changes self.old.sessions self.new.sessions sid (Some fresh)) }
        ensures busy { IsErrOf result HubFault.Busy ↔ (64 ≤ session_count self.old.sessions) }
        ensures refused { OnErr result (IsUnchanged self.old.sessions self.new.sessions) }
        ensures fault { IfErr result IsConnectFault }
        ensures store { self.new.store ≡ self.old.store }
        ensures refusals { self.new.refusals ≡ self.old.refusals }
    {
        Ok(self.sessions.connect()?)
    }

    /// Whether a session of this number is open.
    pub fn is_open(&self, sid: Sid) -> bool
        ensures { IsTrue result ↔ IsSome (session_at self.now.sessions sid) }
    {
        self.sessions.is_open(sid)
    }

    /// Takes bytes that an open session sends, at most 4,096. `LineTooLong` exactly where a line of it was too long
    /// before; `NoMemory` where memory is refused. After both nothing has changed.
    pub fn feed(&mut self, sid: Sid, piece: &[u8]) -> Result<(), HubFault>
        requires open { IsSome (session_at self.old.sessions sid) }
        requires short { length piece.now ≤ 4096 }
        ensures fed { IfSome (session_at self.old.sessions sid) (λ s. OnOk result (Changes self.old.sessions
            self.new.sessions sid (Some (record s { heard = heard_more s.heard piece.now })))) }
        ensures refused { OnErr result (IsUnchanged self.old.sessions self.new.sessions) }
        ensures long { IfSome (session_at self.old.sessions sid) (λ s.
            IsErrOf result HubFault.LineTooLong ↔ (s.heard.is_long ≡ true)) }
        ensures fault { IfErr result IsFeedFault }
        ensures store { self.new.store ≡ self.old.store }
        ensures refusals { self.new.refusals ≡ self.old.refusals }
    {
        Ok(self.sessions.feed(sid, piece)?)
    }

    /// Takes lines that wait, at most `most` of 1 to 64: round the sessions by rising number, one line of each, then
    /// the second of each, and so on. Their commands go to the store as one batch, at this moment, and each session has
    /// the answers to its lines. A `name` line is answered here, and the name holds for the session's lines after it; a
    /// session without a name asks by none. Without a command the store is not called.
    ///
    /// After a fault every session is as it was, and no answer has left: `NoMemory`, where memory was refused to the
    /// sessions, and the store is as it was; or `Store`, the store's own, with what it leaves as `submit` says.
    /// `refusals` counts the turns that end by either's `NoMemory`, and no others.
    ///
    /// Where the store was kept, a crash at any moment of the turn leaves what means the table from before or that with
    /// the whole batch; at `Ok` every image means the latter.
    pub fn turn(&mut self, at: u64, most: usize) -> Result<(), HubFault>
        requires some { 1 ≤ most }
        requires few { most ≤ 64 }
        ensures turned { OnOk result (HasTurned at most self.old.sessions self.new.sessions
            (hub_state self.old).table (hub_state self.new).table) }
        ensures quiet { OnOk result (AsksFor at most self.old.sessions
            (λ commands. commands ≡ [] → self.new.store ≡ self.old.store)) }
        ensures works { OnOk result (AsksFor at most self.old.sessions (StoreMayBeAsked self.old.store)) }
        ensures unchanged { OnErr result (IsUnchanged self.old.sessions self.new.sessions) }
        ensures fault { IfErr result (λ fault. IsTurnFault fault (self.new.store ≡ self.old.store)
            (λ refused. AsksFor at most self.old.sessions (StoreRefuses self.old.store self.new.store refused))) }
        ensures lasts { StoreLasts self.old.store self.new.store result }
        ensures counts { self.new.refusals ≡ refusals_after result self.old.refusals }
        ensures tried { StoreTried self.old.store self.new.store result }
    {
        // With it, the table's bounds are known.
        let _limits = self.store.limits();
        let Ok(gathered) = gather(&mut self.sessions, at, most) else {
            self.refusals = self.refusals.saturating_add(1);
            return Err(HubFault::NoMemory);
        };
        let (lines, commands) = (&gathered.lines, &gathered.commands);
        let replies = ask(self.alloc, &mut self.store, commands, &mut self.refusals)?;
        self.sessions.deliver(at, lines, replies);
        Ok(())
    }

    /// The oldest answer that an open session was not given, if there is one; behind all its answers, where a line was
    /// too long and no line before that waits, once `bye LineTooLong`. It takes no memory.
    pub fn output(&mut self, sid: Sid) -> Option<Reply>
        requires { IsSome (session_at self.old.sessions sid) }
        ensures given { IfSome (session_at self.old.sessions sid) (λ s. option_map said result ≡ first_due (due s)) }
        ensures after { IfSome (session_at self.old.sessions sid) (λ s.
            Changes self.old.sessions self.new.sessions sid (Some (given_one s))) }
        ensures store { self.new.store ≡ self.old.store }
        ensures refusals { self.new.refusals ≡ self.old.refusals }
    {
        self.sessions.output(sid)
    }

    /// How many bytes an open session has sent that were not taken, line feeds too; of a line that is too long none. It
    /// takes no memory.
    pub fn waiting(&self, sid: Sid) -> usize
        requires { IsSome (session_at self.now.sessions sid) }
        ensures { IfSome (session_at self.now.sessions sid) (λ s. result ≡ length s.heard.bytes) }
    {
        self.sessions.waiting(sid)
    }

    /// Whether anything is due to an open session that it was not given: an answer, or `bye LineTooLong`. It takes no
    /// memory.
    pub fn is_due(&self, sid: Sid) -> bool
        requires { IsSome (session_at self.now.sessions sid) }
        ensures { IfSome (session_at self.now.sessions sid) (λ s. result ≡ false ↔ (due s ≡ [])) }
    {
        self.sessions.is_due(sid)
    }

    /// Whether an open session was given `bye LineTooLong`. It takes no memory.
    pub fn ended(&self, sid: Sid) -> bool
        requires { IsSome (session_at self.now.sessions sid) }
        ensures { IfSome (session_at self.now.sessions sid) (λ s. result ≡ s.has_left) }
    {
        self.sessions.ended(sid)
    }

    /// Ends a session, if it is open, with all that waits of it. It takes no memory.
    pub fn close(&mut self, sid: Sid)
        ensures closed { Changes self.old.sessions self.new.sessions sid None }
        ensures store { self.new.store ≡ self.old.store }
        ensures refusals { self.new.refusals ≡ self.old.refusals }
    {
        self.sessions.close(sid);
    }
}
