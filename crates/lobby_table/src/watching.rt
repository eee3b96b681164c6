//! Who is told of what.
ghost use Rattle.std.specs.Prelude.{◌≡◌, ◌==◌, nat_le, length, filter, OnOk, IfOk};
ghost use Rattle.lobby_table.specs.Watching.{is_watch, watched, games_of, at_table, watch_if, sit_if};
ghost use Rattle.lobby_table.specs.Watching.{unwatched, watches_kept, table_kept};
ghost use Rattle.lobby_table.specs.Watching.{none_watched, risen, followers};
ghost use Rattle.lobby_table.specs.Visitors.{who_in, acting};

use crate::adding::add_if;
use crate::visitors::{Visitor, who_acts};
use std::alloc::{AllocError, Global};
use std::collections::BTreeMap;

// The most games that a connection watches.
const WATCH_ROOM: usize = 16;

/// A connection that is told of a game.
#[derive(Clone, Copy)]
pub struct Watch {
    pub by: u64,
    pub game: u32,
}

// Whether this is a connection that is told of a game.
fn is_watch(watch: &Watch, by: u64, game: u32) -> bool
    ensures { result ≡ is_watch by game watch.now }
{
    watch.by == by && watch.game == game
}

/// Whether a connection watches a game.
pub fn is_watched(watches: &[Watch], by: u64, game: u32) -> bool
    ensures { result ≡ watched watches.now by game }
{
    watches.iter().any(|watch| is_watch(watch, by, game))
}

/// The games that are watched, each once for each connection that watches it.
pub fn games_of(alloc: Global, watches: &[Watch]) -> Result<Vec<u32>, AllocError>
    ensures { IfOk result (λ games. games.items ≡ games_of watches.now) }
{
    let mut games = Vec::new(alloc);
    for watch in watches {
        games.push(watch.game)?;
    }
    Ok(games)
}

/// Whether a connection may watch no game but those that it watches.
pub fn is_full(watches: &[Watch], by: u64) -> bool
    ensures { result ≡ nat_le 16 (length (filter (λ (watch : Watch). watch.by == by) watches.now)) }
{
    watches.iter().filter(|watch| watch.by == by).count() >= WATCH_ROOM
}

/// Whether a connection is told of the table.
pub fn is_at_table(table: &[u64], by: u64) -> bool
    ensures { result ≡ at_table table.now by }
{
    table.iter().any(|one| *one == by)
}

/// A connection is told of a game from now on, if it may be.
pub fn add_watch(watches: &mut Vec<Watch>, may: bool, by: u64, game: u32) -> Result<(), AllocError>
    ensures { OnOk result (watches.new.items ≡ watch_if may by game watches.old.items) }
{
    if may && !is_watched(watches.as_slice(), by, game) {
        watches.push(Watch { by, game })?;
    }
    Ok(())
}

/// A connection is told of the table from now on, if it may be.
pub fn sit(table: &mut Vec<u64>, may: bool, by: u64) -> Result<(), AllocError>
    ensures { OnOk result (table.new.items ≡ sit_if may by table.old.items) }
{
    if may && !is_at_table(table.as_slice(), by) {
        table.push(by)?;
    }
    Ok(())
}

/// A connection is told no more of a game.
pub fn unwatch(watches: &mut Vec<Watch>, by: u64, game: u32)
    ensures { watches.new.items ≡ unwatched by game watches.old.items }
{
    watches.retain(|watch| !is_watch(watch, by, game));
}

/// A connection is told no more of any game.
pub fn unwatch_all(watches: &mut Vec<Watch>, by: u64)
    ensures { watches.new.items ≡ none_watched by watches.old.items }
{
    watches.retain(|watch| watch.by != by);
}

/// A connection is told no more of the table.
pub fn rise(table: &mut Vec<u64>, by: u64)
    ensures { table.new.items ≡ risen by table.old.items }
{
    table.retain(|one| *one != by);
}

/// Of games those alone are told from now on who act for a player.
pub fn keep_watches(watches: &mut Vec<Watch>, visitors: &BTreeMap<u64, Visitor>)
    ensures { watches.new.items ≡ watches_kept (acting (who_in visitors.now)) watches.old.items }
{
    watches.retain(|watch| who_acts(visitors, watch.by).is_some());
}

/// Of the table those alone are told from now on who act for a player.
pub fn keep_table(table: &mut Vec<u64>, visitors: &BTreeMap<u64, Visitor>)
    ensures { table.new.items ≡ table_kept (acting (who_in visitors.now)) table.old.items }
{
    table.retain(|one| who_acts(visitors, *one).is_some());
}

/// The connections that watch a game, and perhaps those that are told of the table; each once.
pub fn followers(
    alloc: Global,
    watches: &[Watch],
    table: &[u64],
    game: u32,
    is_table: bool,
) -> Result<Vec<u64>, AllocError>
    ensures { IfOk result (λ to. to.items ≡ followers watches.now table.now game is_table) }
{
    let mut to = Vec::new(alloc);
    for watch in watches {
        add_if(&mut to, watch.game == game, watch.by)?;
    }
    if !is_table {
        return Ok(to);
    }
    for one in table {
        let is_told = is_watched(watches, *one, game);
        add_if(&mut to, !is_told, *one)?;
    }
    Ok(to)
}
