//! The clerk: whose PGNs are asked for, what is handed to the archive, and what may leave the table.
ghost use Rattle.std.specs.Prelude.{ℕ, ◌≡◌, ◌==◌, true, OnOk, IfOk, Option, Some, None, if◌then◌else◌};
ghost use Rattle.std.specs.BTreeMap as map;
ghost use Rattle.std.specs.BTreeSet as set;
ghost use Rattle.std.specs.Ordering.{nat_cmp};
ghost use Rattle.night_archive.specs.Steps.{Begun, Over, Came, Refused, Synced, Left};
ghost use Rattle.night_archive.specs.Files.{contains};
ghost use Rattle.night_archive.specs.Clerk.{View, view, IsStep, drops};

use std::alloc::{AllocError, Global};
use std::collections::{BTreeMap, BTreeSet};

/// How far a game is that was seen to be over.
#[derive(Clone, Copy)]
pub enum Stage {
    /// Its PGN was asked for.
    Asked,
    /// It stood in the archive before. That the table has the same PGN of it is not known.
    Found,
    /// It was handed to the archive, or it stood there before, and the table has the same PGN of it.
    Kept,
    /// A drop was sent for it.
    Dropped,
}

/// The clerk. After an error it is fit for nothing but to be dropped.
#[derive(Drop)]
pub struct Clerk {
    // The games of the archive.
    kept: BTreeSet<u32>,
    // Those that were handed to it since the last sync.
    fresh: Vec<u32>,
    // The games of the table that were seen to be over.
    stages: BTreeMap<u32, Stage>,
}

// The games of the archive, in their order.
fn list_of(alloc: Global, archive: &[u32]) -> Result<Vec<u32>, AllocError>
    ensures { IfOk result (λ games. games.items ≡ archive.now) }
{
    let mut games = Vec::new(alloc);
    games.extend_from_slice(archive)?;
    Ok(games)
}

/// Whether a game is among games.
pub fn is_among(games: &[u32], game: u32) -> bool
    ensures { result ≡ contains game games.now }
{
    games.iter().any(|one| *one == game)
}

// How far a game is.
fn stage_of(stages: &BTreeMap<u32, Stage>, game: u32) -> Option<Stage>
    ensures { result ≡ map.get nat_cmp stages.now game }
{
    match stages.get(&game) {
        Some(stage) => Some(*stage),
        None => None,
    }
}

// A game is so far from now on.
fn put(stages: &mut BTreeMap<u32, Stage>, game: u32, stage: Stage) -> Result<(), AllocError>
    ensures { OnOk result ((g : ℕ) → map.get nat_cmp stages.new g
        ≡ (if game == g then Some stage else map.get nat_cmp stages.old g)) }
{
    stages.insert(game, stage)?;
    Ok(())
}

// A game is not seen to be over any more.
fn take_off(stages: &mut BTreeMap<u32, Stage>, game: u32)
    ensures { (g : ℕ) → map.get nat_cmp stages.new g ≡ (if game == g then None else map.get nat_cmp stages.old g) }
{
    stages.remove(&game);
}

// A game stands in the archive.
fn keep(kept: &mut BTreeSet<u32>, game: u32) -> Result<(), AllocError>
    ensures { OnOk result ((g : ℕ) → set.contains nat_cmp kept.new g
        ≡ (if game == g then true else set.contains nat_cmp kept.old g)) }
{
    kept.insert(game)?;
    Ok(())
}

// The games of the archive, as a set.
fn set_of(alloc: Global, archive: &[u32]) -> Result<BTreeSet<u32>, AllocError>
    ensures { IfOk result (λ kept. (game : ℕ) → set.contains nat_cmp kept game ≡ contains game archive.now) }
{
    let mut kept = BTreeSet::new(alloc);
    for game in archive {
        keep(&mut kept, *game)?;
    }
    Ok(kept)
}

// How far a game is that is seen to be over for the first time.
fn first_stage(asks: bool) -> Stage
    ensures { result ≡ (if asks then Stage.Asked else Stage.Found) }
{
    if asks { Stage::Asked } else { Stage::Found }
}

// How far a game is whose PGN has come.
fn next_stage(is_other: bool) -> Stage
    ensures { result ≡ (if is_other then Stage.Found else Stage.Kept) }
{
    if is_other { Stage::Found } else { Stage::Kept }
}

impl Clerk {
    /// A clerk for an archive that shows these games, each record whole, in their order. Of them none counts as safe
    /// before a sync has answered.
    pub fn new(alloc: Global, archive: &[u32]) -> Result<Clerk, AllocError>
        ensures { IfOk result (λ clerk. (old : View) → IsStep old (Begun archive.now) (view clerk)) }
    {
        let kept = set_of(alloc, archive)?;
        let fresh = list_of(alloc, archive)?;
        Ok(Clerk {
            kept,
            fresh,
            stages: BTreeMap::new(alloc),
        })
    }

    /// A game is seen to be over, and may be dropped or not. It answers whether its PGN is to be asked for: to be
    /// handed to the archive, or to be compared with what stands there.
    pub fn over(&mut self, game: u32, droppable: bool) -> Result<bool, AllocError>
        ensures { IfOk result (λ asks. IsStep (view self.old) (Over game droppable asks) (view self.new)) }
    {
        if stage_of(&self.stages, game).is_some() {
            return Ok(false);
        }
        let asks = droppable || !self.kept.contains(&game);
        put(&mut self.stages, game, first_stage(asks))?;
        Ok(asks)
    }

    /// The PGN of a game has come; `is_same` says that the archive has the game with just this one. It answers whether
    /// it is to be handed to the archive.
    pub fn came(&mut self, game: u32, is_same: bool) -> Result<bool, AllocError>
        ensures { IfOk result (λ puts. IsStep (view self.old) (Came game is_same puts) (view self.new)) }
    {
        let is_asked = matches!(stage_of(&self.stages, game), Some(Stage::Asked));
        if !is_asked {
            return Ok(false);
        }
        let has = self.kept.contains(&game);
        put(&mut self.stages, game, next_stage(has && !is_same))?;
        if has {
            return Ok(false);
        }
        keep(&mut self.kept, game)?;
        self.fresh.push(game)?;
        Ok(true)
    }

    /// What was asked of a game, its PGN or its drop, was refused. It may be seen to be over again.
    pub fn refused(&mut self, game: u32)
        ensures { IsStep (view self.old) (Refused game) (view self.new) }
    {
        take_off(&mut self.stages, game);
    }

    /// The archive was synced after all that was handed to it, and the sync has answered that it is done.
    pub fn synced(&mut self)
        ensures { IsStep (view self.old) Synced (view self.new) }
    {
        self.fresh.clear();
    }

    /// Whether a drop would be sent for a game if nobody looked at it now.
    pub fn may_go(&self, game: u32) -> bool
        ensures { result ≡ drops (view self.now) game }
    {
        let is_kept = matches!(stage_of(&self.stages, game), Some(Stage::Kept));
        let has = self.kept.contains(&game);
        is_kept && has && !is_among(self.fresh.as_slice(), game)
    }

    /// Nobody looks at a game. It answers whether a drop is to be sent for it.
    pub fn left(&mut self, game: u32) -> Result<bool, AllocError>
        ensures { IfOk result (λ drops. IsStep (view self.old) (Left game drops) (view self.new)) }
    {
        let drops = self.may_go(game);
        if drops {
            put(&mut self.stages, game, Stage::Dropped)?;
        }
        Ok(drops)
    }
}
