ghost use Rattle.std.specs.Prelude.{◌≡◌, ◌≤◌, length, slice_get, IfSome, IfNone, None};
ghost use Rattle.indexmap.specs.IndexMap.{values};
ghost use Rattle.std.specs.Option.{option_copied};
ghost use Rattle.rec_codec.specs.declared.limits.Version.TheVariants.{Two};
ghost use Rattle.rec_codec.specs.Limits.{IsInRange};
ghost use Rattle.chess_entry.specs.State.{find_game};
ghost use Rattle.chess_entry.specs.Table.{empty_table, IsTable, IsOnTable};
ghost use Rattle.chess_table.specs.Places.{AreNumbered, IsPlaceOf};
ghost use Rattle.chess_table.specs.Widened.{with_limits};

use crate::boxed::BoxedGame;
use chess_game::Game;
use indexmap::IndexMap;
use rec_codec::Limits;
use std::alloc::Global;
use std::marker::Model;

/// A table of games by rising number, each looked up by it, and what the entries so far have in common.
#[derive(Drop)]
pub struct Table {
    pub(crate) limits: Limits,
    pub(crate) games: IndexMap<u32, BoxedGame>,
    pub(crate) moment: u64,
    pub(crate) last: u32,
    pub(crate) entries: u64,
}

impl Model for Table {
    ghost use Rattle.chess_entry.specs.State.{TableState};
    ghost use Rattle.chess_table.specs.TableInside.{table_seen, IsSound};

    ghost Value = { TableState };

    ghost view = { table_seen };

    ghost invariant = { IsSound };
}

impl Table {
    /// The table without any entry. It takes no memory yet.
    pub fn new(alloc: Global, limits: Limits) -> Table
        requires { IsInRange Two limits }
        ensures { result ≡ empty_table limits }
    {
        Table {
            limits,
            games: IndexMap::new(alloc),
            moment: 0,
            last: 0,
            entries: 0,
        }
    }

    /// How many games the table may have, and how many moves a game.
    pub fn limits(&self) -> Limits
        ensures limits { result ≡ self.now.limits }
        ensures table { IsTable self.now }
    {
        self.limits
    }

    /// How many games stand on the table, at most 4,096.
    pub fn games(&self) -> usize
        ensures games { result ≡ length self.now.games }
        ensures few { result ≤ 4096 }
    {
        self.games.len()
    }

    /// The game at a place, from 0 by rising number; `None` past the last.
    pub fn game_at(&self, place: usize) -> Option<&Game>
        ensures game { option_copied result ≡ slice_get self.now.games place }
    {
        match self.games.get_index(place) {
            Some((_, boxed)) => Some(boxed.game()),
            None => None,
        }
    }

    /// The game of a number; `None` where no game of the table has it.
    pub fn find(&self, number: u32) -> Option<&Game>
        ensures game { option_copied result ≡ find_game number self.now.games }
        ensures on_table { IfSome result (λ game. IsOnTable self.now game.now) }
    {
        match self.games.get(&number) {
            Some(boxed) => Some(boxed.game()),
            None => None,
        }
    }

    /// The greatest moment of any entry so far, in milliseconds; 0 before the first.
    pub fn moment(&self) -> u64
        ensures { result ≡ self.now.moment }
    {
        self.moment
    }

    /// The last number that was given to a game; 0 before the first.
    pub fn last(&self) -> u32
        ensures { result ≡ self.now.last }
    {
        self.last
    }

    /// The number of entries so far.
    pub fn entries(&self) -> u64
        ensures { result ≡ self.now.entries }
    {
        self.entries
    }

    /// Sets greater limits. Everything else stays.
    pub fn widen(&mut self, limits: Limits)
        requires in_range { IsInRange Two limits }
        requires games { self.old.limits.games ≤ limits.games }
        requires plies { self.old.limits.plies ≤ limits.plies }
        ensures { self.new ≡ with_limits limits self.old }
    {
        self.limits = limits;
    }
}

// Where the game of a number stands among games under their numbers.
pub(crate) fn place_of(games: &IndexMap<u32, BoxedGame>, number: u32) -> Option<usize>
    requires { AreNumbered games.now.entries }
    ensures some { IfSome result (IsPlaceOf (values games.now) number) }
    ensures none { IfNone result (find_game number (values games.now) ≡ None) }
{
    games.get_index_of(&number)
}
