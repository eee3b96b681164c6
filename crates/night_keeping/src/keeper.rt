//! One look at a server's games: what a clerk decides is done on its table, on the archive's file and at the lobby.
ghost use Rattle.std.specs.Prelude.{ℕ, ◌≡◌, ◌==◌, ◌&&◌, true, false, OnOk, OnErr, if◌then◌else◌};
ghost use Rattle.std.specs.BTreeSet as set;
ghost use Rattle.std.specs.Ordering.{nat_cmp};
ghost use Rattle.night_archive.specs.Files.{contains};
ghost use Rattle.night_keeping.specs.Games.{games_over_in, is_at};

use crate::asking::{Knowledge, pgn_of};
use anyhow::{Context, Result, anyhow, bail};
use night_archive::{
    Archive, EndedGame, Kept, Night, first_half, games_kept, has_game, is_opened_for, push_ended,
};
use night_files::DiskFile;
use night_links::Link;
use server_answers::{Row, seat_text};
use std::alloc::{AllocError, Global};
use std::collections::BTreeSet;
use text_pgn::with_tag;

/// How many games were kept and dropped, and how many are in the archive.
#[derive(Clone, Copy)]
pub struct Counts {
    pub kept: u32,
    pub dropped: u32,
    pub all: usize,
}

/// Nothing was kept or dropped.
pub const NOTHING: Counts = Counts {
    kept: 0,
    dropped: 0,
    all: 0,
};

/// Who tells whether a game stays for somebody who looks at it.
pub trait Onlookers {
    /// Whether it does for nobody.
    fn are_gone(&mut self, game: u32) -> Result<bool>;
}

/// An archive that is filled from a server.
#[derive(Drop)]
pub struct Keeper<'a, O> {
    pub alloc: Global,
    pub link: Link,
    pub archive: Archive<DiskFile>,
    /// The archive's lines when it was opened, and the games that were kept since.
    pub lines: String,
    pub kept: Vec<Kept>,
    pub known: Knowledge<'a>,
    /// The games of the table.
    pub rows: &'a [Row],
    /// Whether games are dropped still.
    pub drops: bool,
    pub onlookers: O,
    pub done: Done,
    pub counts: Counts,
    /// What went wrong first, though the work went on.
    pub fault: Option<anyhow::Error>,
}

/// A game's PGN, as it is made of what the table told.
#[derive(Drop)]
pub struct TablePgn {
    game: u32,
    pgn: Vec<u8>,
}

/// What was done about the games.
#[derive(Drop)]
pub struct Done {
    /// Those that have left the table.
    gone: BTreeSet<u32>,
    /// Whose PGN the table told last.
    told: Option<u32>,
    /// Those of which the archive has the PGN that the table told last.
    matched: BTreeSet<u32>,
    /// The one that stays for nobody who looks at it, as the lobby answered within the last second.
    unwatched: Option<u32>,
    /// Those that have another PGN in the archive, that somebody looks at, or for which a drop was sent.
    settled: BTreeSet<u32>,
}

impl Done {
    /// Nothing was done yet.
    pub fn nothing(alloc: Global) -> Done {
        Done {
            gone: BTreeSet::new(alloc),
            told: None,
            matched: BTreeSet::new(alloc),
            unwatched: None,
            settled: BTreeSet::new(alloc),
        }
    }
}

// A game is among games from now on.
fn put_among(games: &mut BTreeSet<u32>, game: u32) -> Result<(), AllocError>
    ensures put { OnOk result ((g : ℕ) →
        set.contains nat_cmp games.new g ≡ (if game == g then true else set.contains nat_cmp games.old g)) }
    ensures same { OnErr result ((g : ℕ) → set.contains nat_cmp games.new g ≡ set.contains nat_cmp games.old g) }
{
    games.insert(game)?;
    Ok(())
}

// A game is not among games any more.
fn take_off(games: &mut BTreeSet<u32>, game: u32)
    ensures { (g : ℕ) → set.contains nat_cmp games.new g
        ≡ (if game == g then false else set.contains nat_cmp games.old g) }
{
    games.remove(&game);
}

// A game is among games from now on, or it is not any more.
fn set_among(games: &mut BTreeSet<u32>, game: u32, is_among: bool) -> Result<(), AllocError>
    ensures set { OnOk result ((g : ℕ) →
        set.contains nat_cmp games.new g ≡ (if game == g then is_among else set.contains nat_cmp games.old g)) }
    ensures off { OnErr result ((g : ℕ) →
        set.contains nat_cmp games.new g ≡ (if game == g then false else set.contains nat_cmp games.old g)) }
{
    take_off(games, game);
    if is_among {
        put_among(games, game)?;
    }
    Ok(())
}

// Notes what goes wrong, where nothing did before.
fn note(fault: &mut Option<anyhow::Error>, new: anyhow::Error) {
    if fault.is_none() {
        *fault = Some(new);
    }
}

// The game that stays for nobody who looks at it, where that is so of this one.
fn left_game(game: u32, is_left: bool) -> Option<u32>
    ensures { (g : ℕ) → is_at g result ≡ (game == g && is_left) }
{
    if is_left { Some(game) } else { None }
}

// Whether the archive's lines have a game with just this PGN. Where they have another, that is noted.
fn is_kept_as(
    alloc: Global,
    lines: &str,
    game: u32,
    pgn: &[u8],
    fault: &mut Option<anyhow::Error>,
) -> Result<bool> {
    let is_same = has_game(alloc, lines, game, pgn)?;
    if !is_same {
        note(
            fault,
            anyhow!("the archive has another game {game} than the table: it is not dropped"),
        );
    }
    Ok(is_same)
}

// The row of a game.
fn row_of(rows: &[Row], game: u32) -> Result<&Row> {
    for row in rows {
        if row.game == game {
            return Ok(row);
        }
    }
    bail!("the server's list has no game {game}")
}

// Whether the server drops a game, asked under the name of a player who has a seat in it.
fn is_dropped(alloc: Global, link: &mut Link, row: &Row) -> Result<bool> {
    let white = seat_text(&row.seats.white);
    let game = row.game;
    let name = format!(in alloc; "name {white}")?;
    let drop = format!(in alloc; "drop {game}")?;
    Ok(link.is_done(name.as_str())? && link.is_done(drop.as_str())?)
}

impl<O> Keeper<'_, O> {
    // Puts those of the archive's games behind others that may go on in a game with this PGN.
    fn push_halves(&self, ended: &mut Vec<EndedGame>, pgn: &str) -> Result<()> {
        let alloc = self.alloc;
        let before = games_kept(alloc, self.lines.as_str())?;
        push_ended(ended, alloc, before.as_slice(), pgn)?;
        push_ended(ended, alloc, self.kept.as_slice(), pgn)?;
        Ok(())
    }

    // The game that goes on in a game with this PGN, where the log tells how an arbiter opened it.
    fn half_of(&self, game: u32, pgn: &str) -> Result<Option<u32>> {
        let alloc = self.alloc;
        let entries = self.known.entries;
        let white = seat_text(&row_of(self.rows, game)?.seats.white);
        if !is_opened_for(entries, game, white) {
            return Ok(None);
        }
        let mut ended = Vec::new(alloc);
        self.push_halves(&mut ended, pgn)?;
        Ok(first_half(alloc, entries, game, white, ended.as_slice())?)
    }

    // A PGN with the game that it continues.
    fn linked(&self, game: u32, pgn: Vec<u8>) -> Result<String> {
        let pgn = String::from_utf8(pgn)?;
        match self.half_of(game, pgn.as_str())? {
            Some(half) => Ok(with_tag(self.alloc, pgn.as_str(), "Continues", half)?),
            None => Ok(pgn),
        }
    }

    /// What came of a look that was done, or broke off.
    pub fn end(&mut self, done: Result<()>) -> Result<(Counts, Result<()>)> {
        done?;
        let mut counts = self.counts;
        counts.all = self.archive.games().len();
        match self.fault.take() {
            Some(fault) => Ok((counts, Err(fault))),
            None => Ok((counts, Ok(()))),
        }
    }
}

impl<O: Onlookers> Night for Keeper<'_, O> {
    type Pgn = TablePgn;

    type Fault = anyhow::Error;

    ghost is_over = { λ k game. contains game (games_over_in k.rows.now) };

    // (a game of the archive is safe: `Archive::keep`)
    ghost is_safe = { λ k game. contains game k.archive.games.items };

    ghost has_left = { λ k game. set.contains nat_cmp k.done.gone game };

    ghost drops_games = { λ k. k.drops };

    ghost is_told = { λ k game pgn. is_at game k.done.told && pgn.game == game };

    ghost is_matched = { λ k game. set.contains nat_cmp k.done.matched game };

    ghost is_unwatched = { λ k game. is_at game k.done.unwatched };

    ghost is_settled = { λ k game. set.contains nat_cmp k.done.settled game };

    fn games(&self) -> &[u32] {
        self.archive.games()
    }

    fn drops(&self) -> bool {
        self.drops
    }

    fn ask(&mut self, game: u32) -> Result<Option<TablePgn>> {
        self.done.unwatched = None;
        self.done.told = None;
        take_off(&mut self.done.matched, game);
        take_off(&mut self.done.settled, game);
        let row = row_of(self.rows, game)?;
        let Some(pgn) = pgn_of(self.alloc, &mut self.link, &self.known, row)? else {
            put_among(&mut self.done.gone, game)?;
            return Ok(None);
        };
        self.done.told = Some(game);
        Ok(Some(TablePgn { game, pgn }))
    }

    fn is_same(&mut self, game: u32, told: &TablePgn) -> Result<bool> {
        self.done.unwatched = None;
        take_off(&mut self.done.matched, game);
        let is_same = self.archive.has(game)
            && is_kept_as(
                self.alloc,
                self.lines.as_str(),
                game,
                told.pgn.as_slice(),
                &mut self.fault,
            )?;
        set_among(&mut self.done.settled, game, !is_same)?;
        set_among(&mut self.done.matched, game, is_same)?;
        Ok(is_same)
    }

    fn put(&mut self, game: u32, told: TablePgn) -> Result<()> {
        self.done.unwatched = None;
        take_off(&mut self.done.matched, game);
        take_off(&mut self.done.settled, game);
        let pgn = self.linked(game, told.pgn)?;
        self.archive
            .keep(self.alloc, game, pgn.as_bytes())
            .context(format_args!("game {game}"))?;
        self.kept.push(Kept { game, pgn })?;
        self.counts.kept = self.counts.kept.saturating_add(1);
        put_among(&mut self.done.matched, game)?;
        Ok(())
    }

    fn is_left(&mut self, game: u32) -> Result<bool> {
        self.done.unwatched = None;
        match self.onlookers.are_gone(game) {
            Ok(is_left) => {
                set_among(&mut self.done.settled, game, !is_left)?;
                self.done.unwatched = left_game(game, is_left);
                Ok(is_left)
            }
            Err(error) => {
                // (nor is any game behind this one)
                self.drops = false;
                note(&mut self.fault, error.context("nothing is dropped"));
                put_among(&mut self.done.settled, game)?;
                Ok(false)
            }
        }
    }

    fn drop_game(&mut self, game: u32) -> Result<bool> {
        self.done.unwatched = None;
        let row = row_of(self.rows, game)?;
        let is_done = is_dropped(self.alloc, &mut self.link, row)?;
        if is_done {
            self.counts.dropped = self.counts.dropped.saturating_add(1);
        }
        put_among(&mut self.done.settled, game)?;
        Ok(is_done)
    }
}
