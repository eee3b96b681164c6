//! Who is connected.
ghost use Rattle.std.specs.Prelude.{ℕ, ◌≡◌, ◌==◌, ◌||◌, IfOk, OnOk, if◌then◌else◌};
ghost use Rattle.lobby_words.specs.Players.{is_named};
ghost use Rattle.lobby_table.specs.Visitors.{who_in, open_in_map, until_in};
ghost use Rattle.lobby_table.specs.Watching.{at_table};

use lobby_words::Identity;
use std::alloc::{AllocError, Global};
use std::collections::BTreeMap;

/// A connection.
#[derive(Clone, Copy)]
pub struct Visitor {
    /// For whom it acts.
    pub who: Option<Identity>,
    /// Until when its time is taken by what it said.
    pub until: u64,
}

/// For whom a connection acts.
pub fn who_acts(visitors: &BTreeMap<u64, Visitor>, connection: u64) -> Option<Identity>
    ensures { result ≡ who_in visitors.now connection }
{
    visitors.get(&connection).and_then(|visitor| visitor.who)
}

/// Whether it is the player of this name.
pub fn is_named(who: &Option<Identity>, name: &str) -> bool
    ensures { result ≡ is_named who.now name.now }
{
    who.as_ref().is_some_and(|who| who.name.as_str() == name)
}

/// A connection is so from now on.
pub fn put(
    visitors: &mut BTreeMap<u64, Visitor>,
    connection: u64,
    who: Option<Identity>,
    until: u64,
) -> Result<(), AllocError>
    ensures who { OnOk result ((c : ℕ) → who_in visitors.new c
        ≡ (if connection == c then who else who_in visitors.old c)) }
    ensures opens { OnOk result ((c : ℕ) → open_in_map visitors.new c
        ≡ (connection == c || open_in_map visitors.old c)) }
    ensures untils { OnOk result ((c : ℕ) → until_in visitors.new c
        ≡ (if connection == c then until else until_in visitors.old c)) }
{
    let visitor = Visitor { who, until };
    visitors.insert(connection, visitor)?;
    Ok(())
}

/// The connections that are open.
pub fn open_ones(alloc: Global, visitors: &BTreeMap<u64, Visitor>) -> Result<Vec<u64>, AllocError>
    ensures { IfOk result (λ to. (c : ℕ) → at_table to.items c ≡ open_in_map visitors.now c) }
{
    let mut to = Vec::new(alloc);
    for connection in visitors.keys() {
        to.push(*connection)?;
    }
    Ok(to)
}
