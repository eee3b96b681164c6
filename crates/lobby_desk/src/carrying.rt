//! What is done by a plan for a message.
ghost use Rattle.std.specs.Prelude.{ℕ, codes, ◌≡◌, ◌++◌, ◌==◌, ◌||◌, IfOk, IfSome, OnOk, map, is_some};
ghost use Rattle.std.specs.Prelude.{if◌then◌else◌};
ghost use Rattle.std.specs.String.{string_bytes};
ghost use Rattle.lobby_desk.specs.Lines.{bytes_of, lines_of, said_after, IsNamed};
ghost use Rattle.lobby_table.specs.Sending.{IsHeardSame};
ghost use Rattle.lobby_desk.specs.Events.{plan_asker};
ghost use Rattle.lobby_table.specs.Owed.{owed_of, owed_lines};
ghost use Rattle.lobby_desk.specs.Tellings.{token_told};
ghost use Rattle.lobby_words.specs.Plans.{closes};
ghost use Rattle.lobby_table.specs.Visitors.{who_in, open_in_map, until_in};
ghost use Rattle.lobby_desk.specs.Who.{who_noted, plan_watches, plan_table};
ghost use Rattle.lobby_desk.specs.Who.{is_own, seen, view, IsOwnText};

use crate::desk::Desk;
use lobby_offers::offers_text;
use lobby_table::{
    Due, ServerLine, Visitor, Watch, present_rows, put, rise, room_text, unwatch, waiting_act,
    who_acts,
};
use lobby_words::{
    Call, Change, Identity, Order, Plan, Refusal, as_line, headed, login_line, player_rows,
    taken_line,
};
use std::alloc::{AllocError, Global};
use std::collections::BTreeMap;

/// A connection is told no more of what it leaves.
pub fn forget(watches: &mut Vec<Watch>, table: &mut Vec<u64>, from: u64, plan: &Plan)
    ensures watches { watches.new.items ≡ plan_watches plan.now from watches.old.items }
    ensures table { table.new.items ≡ plan_table plan.now from table.old.items }
{
    match plan {
        Plan::LeaveLobby => rise(table, from),
        Plan::Leave(game) => unwatch(watches, from, *game),
        _ => {}
    }
}

impl Desk {
    /// The line that a connection is answered for a plan by which nothing is sent; of `moves`, which is made as it goes
    /// out, none.
    pub(crate) fn own_answer(&self, plan: &Plan) -> Result<Option<String>, AllocError>
        ensures own { IfOk result (λ answer. is_some answer ≡ is_own plan.now) }
        ensures text { IfOk result (λ answer. IfSome answer (λ text.
            IsOwnText (seen (view self.now)) self.now.players.items plan.now (string_bytes text))) }
    {
        let alloc = self.alloc;
        let players = self.players.as_slice();
        let visitors = &self.visitors;
        match plan {
            Plan::Refuse(refusal) => Ok(Some(String::from_str(alloc, refusal.line())?)),
            Plan::Offer(_) => Ok(Some(String::from_str(alloc, "ok offered\n")?)),
            Plan::Unpair(_) => Ok(Some(String::from_str(alloc, "ok unpair\n")?)),
            Plan::Offers(who, at) => {
                let offers = self.offers.as_slice();
                Ok(Some(offers_text(alloc, offers, visitors, who, *at)?))
            }
            Plan::Login(who) => Ok(Some(login_line(alloc, who, players)?)),
            Plan::Players => Ok(Some(player_rows(alloc, players)?)),
            Plan::Who => {
                let is_paused = self.halts.is_paused;
                Ok(Some(present_rows(alloc, is_paused, players, visitors)?))
            }
            Plan::Pause => Ok(Some(String::from_str(alloc, "ok pause entries\n")?)),
            Plan::Resume => Ok(Some(String::from_str(alloc, "ok resume entries\n")?)),
            Plan::Call(Call::StopClocks) => Ok(Some(String::from_str(alloc, "ok stop clocks\n")?)),
            Plan::Call(Call::StartClocks) => {
                Ok(Some(String::from_str(alloc, "ok start clocks\n")?))
            }
            Plan::Call(Call::Announce) => Ok(Some(String::from_str(alloc, "ok announce\n")?)),
            Plan::Call(Call::Decide) => Ok(Some(String::from_str(alloc, "ok decide\n")?)),
            Plan::Order(_) => Ok(Some(String::from_str(alloc, Refusal::NotWritten.line())?)),
            Plan::Taken(name) => Ok(Some(taken_line(alloc, name)?)),
            Plan::LeaveLobby => Ok(Some(String::from_str(alloc, "ok leave lobby\n")?)),
            Plan::Leave(game) => Ok(Some(headed(alloc, "ok leave ", u64::from(*game))?)),
            Plan::Room(game, at) => {
                let seats = self.line.seats.as_slice();
                let watches = self.watches.as_slice();
                let attendances = self.attendances.as_slice();
                let text = room_text(alloc, *game, *at, seats, watches, attendances, visitors)?;
                Ok(Some(text))
            }
            Plan::Moves => Ok(Some(String::new(alloc))),
            _ => Ok(None),
        }
    }
}

/// The name that was said last on the connection to the server, and the lines of a plan.
pub fn send(
    line: &mut ServerLine,
    alloc: Global,
    from: u64,
    text: &str,
    plan: &Plan,
    wire: &mut Vec<u8>,
) -> Result<(), AllocError>
    ensures sent { OnOk result (wire.new.items ≡ wire.old.items
        ++ bytes_of (lines_of plan.now line.old.said text.now)) }
    ensures owed { OnOk result (map owed_of line.new.queue.items
        ≡ map owed_of line.old.queue.items ++ owed_lines (plan_asker plan.now from text.now)
        (lines_of plan.now line.old.said text.now)) }
    ensures said { OnOk result (line.new.said ≡ said_after plan.now line.old.said) }
    ensures here { line.new.is_here ≡ line.old.is_here }
    ensures heard { IsHeardSame line.old line.new }
    ensures named { OnOk result (IsNamed plan.now) }
{
    match plan {
        Plan::Read => line.pass(text, Due::Reply(from), wire),
        Plan::Act(who) => {
            let act = waiting_act(alloc, from, who.name, text)?;
            line.pass_act(act, who.name, text, wire)
        }
        Plan::ActAs(who, name) => {
            let act = waiting_act(alloc, from, who.name, text)?;
            line.pass_act(act, *name, as_line(text), wire)
        }
        Plan::Pair(who, white, black) => {
            let act = waiting_act(alloc, from, who.name, text)?;
            line.open_pair(act, text, *white, *black, wire)
        }
        Plan::Drop(who, game) => {
            let act = waiting_act(alloc, from, who.name, text)?;
            line.ask("show ", *game, Due::Drop(act), wire)
        }
        Plan::Lobby => line.pass("list", Due::Table(from), wire),
        Plan::Watch(game) => line.ask_standing(*game, Due::Watch(from, *game), wire),
        Plan::Line(game) => line.ask("pgn ", *game, Due::Positions(from), wire),
        _ => Ok(()),
    }
}

// For whom a connection acts after a plan.
fn who_noted(before: Option<Identity>, plan: &Plan) -> Option<Identity>
    ensures { result ≡ who_noted plan.now before }
{
    match plan {
        Plan::Login(who) => Some(*who),
        _ => before,
    }
}

/// The answer to a message that asks for a change of the players' file, once that is done.
pub fn linked_line(
    alloc: Global,
    text: &str,
    order: &Order,
    token: &str,
) -> Result<String, AllocError>
    ensures { IfOk result (λ line. string_bytes line
        ≡ codes "ok " ++ text.now ++ token_told (closes order.now.change) token.now) }
{
    let mut line = String::from_str(alloc, "ok ")?;
    line.push_str(text)?;
    if !matches!(order.change, Change::NoLink) {
        line.push(' ')?;
        line.push_str(token)?;
    }
    line.push('\n')?;
    Ok(line)
}

/// What stays of a plan: for whom the connection acts, and until when its time is taken.
pub fn note(
    visitors: &mut BTreeMap<u64, Visitor>,
    from: u64,
    plan: &Plan,
    until: u64,
) -> Result<(), AllocError>
    ensures who { OnOk result ((c : ℕ) → who_in visitors.new c
        ≡ (if from == c then who_noted plan.now (who_in visitors.old c) else who_in visitors.old c)) }
    ensures opens { OnOk result ((c : ℕ) → open_in_map visitors.new c ≡ (from == c || open_in_map visitors.old c)) }
    ensures untils { OnOk result ((c : ℕ) → until_in visitors.new c
        ≡ (if from == c then until else until_in visitors.old c)) }
{
    let before = who_acts(visitors, from);
    put(visitors, from, who_noted(before, plan), until)
}
