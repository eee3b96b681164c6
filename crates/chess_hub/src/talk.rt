//! One session of a hub, whose lines are answered one a turn.
ghost use Rattle.std.specs.Prelude.{ℕ, ◌≡◌, true, [], List, Option, None, Ok, Err, IfOk, IfErr, OnOk};
ghost use Rattle.std.specs.Io.BufRead.{strip_last};
ghost use Rattle.sector_dev.specs.Device.{measures};
ghost use Rattle.text_lines.specs.Lines.{IsUnfinished};
ghost use Rattle.chess_hub.specs.Session.{said};
ghost use Rattle.chess_hub.specs.Answers.{name_at};
ghost use Rattle.chess_hub.specs.Storing.{StoreMayBeAsked, StoreRefuses};
ghost use Rattle.chess_hub.specs.Law.{hub_state};
ghost use Rattle.chess_hub.specs.Turning.{IsTurnFault, kept};
ghost use Rattle.chess_hub.specs.Running.{Serves, IsAlone, IsTalking, IsAsking, IsTold, LineAsksFor, asks};
ghost use Rattle.chess_hub.specs.Running.{stands, standing};

use crate::fault::HubFault;
use crate::hub::Hub;
use crate::moments::Moments;
use crate::sessions::Sid;
use chess_answer::Reply;
use chess_store::Store;
use sector_dev::Device;
use std::alloc::Global;
use text_lines::{Answer, Answerer};

/// A hub with one session, and the moments of its turns.
#[derive(Drop)]
pub(crate) struct Talk<D: Device, M: Moments> {
    hub: Hub<D>,
    sid: Sid,
    moments: M,
}

// A hub over a store, with a session that has said nothing.
pub(crate) fn begin<D: Device + Drop, M: Moments + Drop>(
    alloc: Global,
    store: Store<D>,
    moments: M,
) -> Result<Talk<D, M>, HubFault>
    ensures talks { IfOk result (λ talk. IsTalking talk.hub.sessions talk.sid) }
    ensures begins { IfOk result (λ talk.
        standing talk.hub talk.sid talk.moments ≡ stands (kept store) None moments) }
    ensures fault { IfErr result (λ fault. fault ≡ HubFault.NoMemory) }
{
    let mut hub = Hub::new(alloc, store);
    let sid = hub.connect()?;
    Ok(Talk { hub, sid, moments })
}

// Takes a line that the session sends, and its line feed.
fn hear<D: Device>(hub: &mut Hub<D>, sid: Sid, line: &[u8]) -> Result<(), HubFault>
    requires talks { IsTalking hub.old.sessions sid }
    requires unfinished { IsUnfinished line.now }
    ensures heard { OnOk result (IsAlone hub.new.sessions sid (asks (name_at hub.old.sessions sid) line.now)) }
    ensures fault { IfErr result (λ fault. fault ≡ HubFault.NoMemory) }
    ensures store { hub.new.store ≡ hub.old.store }
{
    hub.feed(sid, line)?;
    hub.feed(sid, b"\n")
}

// The turn of the line that the session has sent, and its answer.
fn take_turn<D: Device>(hub: &mut Hub<D>, sid: Sid, at: u64) -> Result<Reply, HubFault>
    requires asks { IsAsking hub.old.sessions sid }
    ensures told { IfOk result (λ reply. (name : Option (List ℕ)) (part : List ℕ) → IsUnfinished part
        → IsAlone hub.old.sessions sid (asks name part) → IsTold at name (strip_last 13 part) (said reply)
        hub.old.store.table (hub_state hub.new) sid) }
    ensures works { OnOk result ((name : Option (List ℕ)) (part : List ℕ) → IsUnfinished part
        → IsAlone hub.old.sessions sid (asks name part)
        → LineAsksFor at name (strip_last 13 part) (StoreMayBeAsked hub.old.store)) }
    ensures serves { OnOk result
        (Serves (measures D.state D.sector_count D.failures) (kept hub.old.store) (kept hub.new.store) (Ok tt)) }
    ensures fault { IfErr result (λ fault. (name : Option (List ℕ)) (part : List ℕ) → IsUnfinished part
        → IsAlone hub.old.sessions sid (asks name part) → IsTurnFault fault (hub.new.store ≡ hub.old.store)
        (λ refused. LineAsksFor at name (strip_last 13 part) (StoreRefuses hub.old.store hub.new.store refused))) }
    ensures serves_err { IfErr result (λ fault.
        Serves (measures D.state D.sector_count D.failures) (kept hub.old.store) (kept hub.new.store) (Err fault)) }
{
    hub.turn(at, 1)?;
    match hub.output(sid) {
        Some(reply) => Ok(reply),
        None => unreachable!(),
    }
}

impl<D: Device, M: Moments> Answerer for Talk<D, M> {
    ghost use Rattle.sector_dev.specs.Device.{measures};
    ghost use Rattle.chess_hub.specs.Running.{IsTalking, standing, AnswersLine, RefusesLine};

    type Fault = HubFault;

    ghost is_ready = { λ t. IsTalking t.hub.sessions t.sid };

    ghost answers = { λ old line text new. AnswersLine (measures D.state D.sector_count D.failures) M.gives
        (standing old.hub old.sid old.moments) line text (standing new.hub new.sid new.moments) };

    ghost breaks = { λ old line fault new. RefusesLine (measures D.state D.sector_count D.failures) M.gives
        (standing old.hub old.sid old.moments) line fault (standing new.hub new.sid new.moments) };

    fn answer(&mut self, line: &[u8], said: &mut Answer) -> Result<(), HubFault> {
        hear(&mut self.hub, self.sid, line)?;
        let reply = take_turn(&mut self.hub, self.sid, self.moments.next())?;
        *said = Answer {
            line: reply.line,
            body: Some(reply.body),
        };
        Ok(())
    }
}
