//! For whom connections act when the players are others, and whom they leave.
ghost use Rattle.std.specs.Prelude.{ℕ, ◌≡◌, true};
ghost use Rattle.std.specs.Option.{option_copied};
ghost use Rattle.lobby_words.specs.Players.{goes_on, renewed};
ghost use Rattle.lobby_table.specs.Rooms.{AreLeft};
ghost use Rattle.lobby_table.specs.Visitors.{who_in, open_in_map, until_in, visitor_renewed};

use crate::rooms::{Attendance, note_left};
use crate::visitors::{Visitor, who_acts};
use lobby_words::{Identity, Player, is_same_sum, player_by_name};
use std::collections::BTreeMap;

// For whom a connection acts on that acted for a player of one list, where the other list has a player of the name.
fn goes_on(before: Option<&Player>, after: Option<&Player>) -> Option<Identity>
    ensures { result ≡ goes_on (option_copied before.entry) (option_copied after.entry) }
{
    let before = before?;
    let after = after?;
    if is_same_sum(&before.sum, &after.sum) {
        Some(Identity {
            name: after.name,
            is_arbiter: after.is_arbiter,
        })
    } else {
        None
    }
}

// For whom a connection acts when the players are others.
fn renewed(before: &[Player], later: &[Player], who: Option<Identity>) -> Option<Identity>
    ensures { result ≡ renewed before.now later.now who }
{
    let who = who.as_ref()?;
    let name = who.name.as_str();
    let old = player_by_name(before, name);
    let new = player_by_name(later, name);
    goes_on(old, new)
}

// For whom a connection acts when the players are others, written where it stands. It tells that the connection stays.
fn renew(visitor: &mut Visitor, before: &[Player], later: &[Player]) -> bool
    ensures stays { result ≡ true }
    ensures renewed { visitor.new ≡ visitor_renewed before.now later.now visitor.old }
{
    visitor.who = renewed(before, later, visitor.who);
    true
}

/// From now on each connection acts for whom it does when the players are others.
pub fn renew_all(visitors: &mut BTreeMap<u64, Visitor>, before: &[Player], later: &[Player])
    ensures who { (c : ℕ) → who_in visitors.new c ≡ renewed before.now later.now (who_in visitors.old c) }
    ensures opens { (c : ℕ) → open_in_map visitors.new c ≡ open_in_map visitors.old c }
    ensures untils { (c : ℕ) → until_in visitors.new c ≡ until_in visitors.old c }
{
    visitors.retain(|_, visitor| renew(visitor, before, later));
}

/// Notes whom connections leave that act for whom they do when the players are others.
pub fn note_renewed(
    all: &mut [Attendance],
    visitors: &BTreeMap<u64, Visitor>,
    before: &[Player],
    later: &[Player],
)
    ensures { AreLeft (open_in_map visitors.now) (who_in visitors.now)
        (λ c. renewed before.now later.now (who_in visitors.now c)) all.old all.new }
{
    for connection in visitors.keys() {
        let who = who_acts(visitors, *connection);
        let after = renewed(before, later, who);
        note_left(all, &who, &after);
    }
}
