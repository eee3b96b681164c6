//! Which players are there.
ghost use Rattle.std.specs.Prelude.{ℕ, List, ◌≡◌, ◌||◌, IfOk, OnOk};
ghost use Rattle.std.specs.HashSet.{contains_text};
ghost use Rattle.std.specs.String.{string_bytes};
ghost use Rattle.lobby_words.specs.Players.{is_named, is_present, present_names};
ghost use Rattle.lobby_table.specs.Visitors.{who_in, open_in_map, IsPresence};

use crate::adding::add_if;
use crate::visitors::{Visitor, open_ones, who_acts};
use lobby_words::{Identity, Player, is_among, who_text};
use player_name::Name;
use std::alloc::{AllocError, Global};
use std::collections::{BTreeMap, HashSet};

// Puts the name of the player for whom a connection acts among others, if it acts for one.
fn note_name(
    names: &mut HashSet<String>,
    alloc: Global,
    who: &Option<Identity>,
) -> Result<(), AllocError>
    ensures { OnOk result ((name : List ℕ) →
        contains_text names.new name ≡ (contains_text names.old name || is_named who.now name)) }
{
    if let Some(who) = who {
        names.insert(String::from_str(alloc, who.name.as_str())?)?;
    }
    Ok(())
}

// The names of the players for whom these connections act. Each connection is looked at once, and then each player.
fn names_acted_for(
    alloc: Global,
    visitors: &BTreeMap<u64, Visitor>,
    connections: &[u64],
) -> Result<HashSet<String>, AllocError>
    ensures { IfOk result (λ names. (name : List ℕ) →
        contains_text names name ≡ is_present (who_in visitors.now) connections.now name) }
{
    let mut names = HashSet::new(alloc);
    for connection in connections {
        let who = who_acts(visitors, *connection);
        note_name(&mut names, alloc, &who)?;
    }
    Ok(names)
}

// The names of the players for whom one of these connections acts, in the list's order.
fn present_names(
    alloc: Global,
    players: &[Player],
    visitors: &BTreeMap<u64, Visitor>,
    connections: &[u64],
) -> Result<Vec<Name>, AllocError>
    ensures { IfOk result (λ names. names.items ≡ present_names (who_in visitors.now) connections.now players.now) }
{
    let present = names_acted_for(alloc, visitors, connections)?;
    let mut names = Vec::new(alloc);
    for player in players {
        let is_here = is_among(&present, player);
        add_if(&mut names, is_here, player.name)?;
    }
    Ok(names)
}

/// The answer to `who`: whether entries are paused, and the players for whom a connection acts that is open.
pub fn present_rows(
    alloc: Global,
    is_paused: bool,
    players: &[Player],
    visitors: &BTreeMap<u64, Visitor>,
) -> Result<String, AllocError>
    ensures { IfOk result (λ text. IsPresence is_paused players.now (open_in_map visitors.now) (who_in visitors.now)
        (string_bytes text)) }
{
    let all = open_ones(alloc, visitors)?;
    let names = present_names(alloc, players, visitors, all.as_slice())?;
    who_text(alloc, is_paused, names.as_slice())
}
