//! What a browser says, as the desk takes it.
ghost use Rattle.std.specs.Prelude.{ℕ, ◌≡◌, true, List, [], Some, IfSome, IsUtf8, OnOk};
ghost use Rattle.std.specs.String.{string_bytes};
ghost use Rattle.lobby_words.specs.Players.{IsCarriedOut};
ghost use Rattle.lobby_words.specs.Words.{full_said};
ghost use Rattle.lobby_desk.specs.Events.{message_values};
ghost use Rattle.lobby_desk.specs.Who.{IsReady, IsDecisionTold, decides_now, order_asked};
ghost use Rattle.lobby_talk.specs.Talking.{Says, IsTextSaid, IsOrderTold, IsOrdered, order_said};
ghost use Rattle.lobby_talk.specs.Deciding.{IsDecided, name_in};
ghost use Rattle.lobby_desk.specs.Strangers.{player_at};

use crate::links::KeepsLinks;
use crate::talk::Talk;
use lobby_desk::Order;
use lobby_words::{Linked, full_said};
use player_name::Name;
use std::alloc::AllocError;
use std::str;

// A message is said to the desk that asked for this order, which was carried out so, or was not.
fn say_done(
    shown: &str,
    number: u64,
    talk: &mut Talk,
    at: u64,
    order: &Order,
    done: Option<Linked>,
) -> Result<(), AllocError>
    requires ready { IsReady talk.old.desk number }
    requires asked { order_asked talk.old.desk number shown.now at ≡ Some order.now }
    requires carried { IfSome done (λ linked. IsCarriedOut order.now (full_said shown.now)
        (string_bytes linked.token) talk.old.desk.players.items linked.players.items) }
    ensures says { OnOk result (Says shown.now number at talk.old talk.new) }
    ensures told { OnOk result (IsOrderTold order.now done number shown.now talk.old talk.new) }
{
    match done {
        None => {
            talk.unlinked(number, shown, at, order)?;
            Ok(())
        }
        Some(linked) => {
            talk.linked(number, shown, at, order, linked)?;
            Ok(())
        }
    }
}

// A message is said to the desk that asks for a change of the players' file: whoever keeps it is asked first.
fn say_order<K: KeepsLinks>(
    shown: &str,
    number: u64,
    talk: &mut Talk,
    at: u64,
    order: &Order,
    links: &mut K,
) -> Result<(), AllocError>
    requires ready { IsReady talk.old.desk number }
    requires asked { order_asked talk.old.desk number shown.now at ≡ Some order.now }
    ensures says { OnOk result (Says shown.now number at talk.old talk.new) }
    ensures changed { OnOk result (IsOrdered (Some order.now) number shown.now (K.changed links.old)
        (K.changed links.new) talk.old talk.new) }
    ensures decided { K.decided links.new ≡ K.decided links.old }
{
    let done = links.change(order, full_said(shown), talk.desk().players());
    say_done(shown, number, talk, at, order, done)
}

// A message is said to the desk by which an arbiter decides, which has been put, or has not.
fn say_decided(
    shown: &str,
    number: u64,
    talk: &mut Talk,
    at: u64,
    is_put: bool,
) -> Result<(), AllocError>
    requires ready { IsReady talk.old.desk number }
    requires decides { decides_now talk.old.desk number shown.now at ≡ true }
    ensures says { OnOk result (Says shown.now number at talk.old talk.new) }
    ensures told { OnOk result (IsDecisionTold is_put talk.old.desk number shown.now
        (message_values talk.old.told.items) (message_values talk.new.told.items)) }
{
    if is_put {
        talk.decided(number, shown, at)?;
    } else {
        talk.said(number, shown, at)?;
    }
    Ok(())
}

// A name, and the empty text where there is none.
fn name_in(by: &Option<Name>) -> &str
    ensures { result.now ≡ name_in by.now }
{
    match by {
        None => "",
        Some(name) => name.as_str(),
    }
}

// A message is said to the desk by which an arbiter decides: whoever keeps the decisions is asked first.
fn say_decision<K: KeepsLinks>(
    shown: &str,
    number: u64,
    talk: &mut Talk,
    at: u64,
    links: &mut K,
) -> Result<(), AllocError>
    requires ready { IsReady talk.old.desk number }
    requires decides { decides_now talk.old.desk number shown.now at ≡ true }
    ensures says { OnOk result (Says shown.now number at talk.old talk.new) }
    ensures decided { OnOk result (IsDecided true number shown.now (K.decided links.old) (K.decided links.new)
        talk.old talk.new) }
    ensures changed { K.changed links.new ≡ K.changed links.old }
{
    let by = talk.desk().player_at(number);
    let is_put = links.decide(name_in(&by), shown, talk.desk().players());
    say_decided(shown, number, talk, at, is_put)
}

// A message is said to the desk that decides nothing.
fn say_plain<K: KeepsLinks>(
    shown: &str,
    number: u64,
    talk: &mut Talk,
    at: u64,
    links: &mut K,
) -> Result<(), AllocError>
    requires { IsReady talk.old.desk number }
    ensures says { OnOk result (Says shown.now number at talk.old talk.new) }
    ensures changed { OnOk result (IsOrdered (order_asked talk.old.desk number shown.now at) number shown.now
        (K.changed links.old) (K.changed links.new) talk.old talk.new) }
    ensures decided { K.decided links.new ≡ K.decided links.old }
{
    match talk.desk().order(number, shown, at) {
        None => {
            talk.said(number, shown, at)?;
            Ok(())
        }
        Some(order) => say_order(shown, number, talk, at, &order, links),
    }
}

// A message is said to the desk.
fn say<K: KeepsLinks>(
    shown: &str,
    number: u64,
    talk: &mut Talk,
    at: u64,
    links: &mut K,
) -> Result<(), AllocError>
    requires { IsReady talk.old.desk number }
    ensures says { OnOk result (Says shown.now number at talk.old talk.new) }
    ensures changed { OnOk result (IsOrdered (order_said talk.old number shown.now at) number shown.now
        (K.changed links.old) (K.changed links.new) talk.old talk.new) }
    ensures decided { OnOk result (IsDecided (decides_now talk.old.desk number shown.now at) number shown.now
        (K.decided links.old) (K.decided links.new) talk.old talk.new) }
{
    if talk.desk().decides(number, shown, at) {
        say_decision(shown, number, talk, at, links)
    } else {
        say_plain(shown, number, talk, at, links)
    }
}

/// A text of a connection is said to the desk; one that is no UTF-8 as the empty text, which is refused. Where it is an
/// arbiter's decision, it is put first, and told just where that was done; and where it asks for a change of the
/// players' file that is made first, and the players are those that were handed back, just where it was done.
pub fn say_to_desk<K: KeepsLinks>(
    text: &[u8],
    number: u64,
    talk: &mut Talk,
    at: u64,
    links: &mut K,
) -> Result<(), AllocError>
    requires { IsReady talk.old.desk number }
    ensures said { OnOk result (IsTextSaid text.now number at talk.old talk.new) }
    ensures decided { OnOk result ((shown : List ℕ) × (IsUtf8 text.now → shown ≡ text.now)
        × (¬ IsUtf8 text.now → shown ≡ []) × IsDecided (decides_now talk.old.desk number shown at) number shown
        (K.decided links.old) (K.decided links.new) talk.old talk.new) }
    ensures changed { OnOk result ((shown : List ℕ) × (IsUtf8 text.now → shown ≡ text.now)
        × (¬ IsUtf8 text.now → shown ≡ []) × IsOrdered (order_said talk.old number shown at) number shown
        (K.changed links.old) (K.changed links.new) talk.old talk.new) }
{
    let shown = str::from_utf8(text).unwrap_or("");
    say(shown, number, talk, at, links)
}
