//! The drill: a batch of moves, stopped at each of its device calls.
ghost use Rattle.std.specs.Prelude.{◌≡◌, ◌+◌, ◌-◌, ◌^◌, ◌<◌, ◌≤◌, ◌==◌, cond, min, IfOk, IfErr, map, length};
ghost use Rattle.player_name.specs.Name.{IsName};
ghost use Rattle.chess_store.specs.Drill.{IsDrillPlan, IsCase, AreCases, IsTold, IsFaultInMemory};
ghost use Rattle.chess_store.specs.DrillLife.{asked, played, shown, opening_batch, moves_batch, stop_of, fate_of};
ghost use Rattle.chess_store.specs.DrillLife.{fates_of};

use crate::StoreFault;
use crate::in_memory::lives_in_memory;
use crate::plan::{Life, Lived, Plan};
use chess_bits::Colour;
use chess_entry::{Act, Command, Text};
use rec_codec::{Limits, Name};
use sector_dev::{Fate, MemoryDevice};
use std::alloc::{AllocError, Global};

/// How many cases were played, in how many no move of the batch shows, and in how many all five do.
#[derive(Clone, Copy)]
pub struct Tally {
    pub cases: u32,
    pub none: u32,
    pub all: u32,
}

/// Of each case of the drill, the device that is left and what came of its life.
#[derive(Drop)]
pub struct Drilled {
    pub cases: Vec<Lived<MemoryDevice>>,
    /// Their tally, or the fault of the first case that has one.
    pub tally: Result<Tally, StoreFault>,
}

// The table's limits.
const LIMITS: Limits = Limits {
    games: 4,
    plies: 60,
};

// How many cases there are.
const CASES: u32 = 28;

const MOMENT: u64 = 1_000;

// The entries of the game's opening, of which none is a move, and those with all five moves.
const WITHOUT_MOVES: u64 = 2;

const WITH_MOVES: u64 = 7;

// After how many calls the life of a case stops, and in which of the ways: each write that is pending then may have
// three fates. The opening makes three calls and the batch that opens and joins a game four. The batch of five moves
// makes five: it writes two sectors, syncs, writes the header, and syncs.
fn stop(case: u32) -> (Option<u64>, u32)
    ensures calls { result.0 ≡ (stop_of case).calls }
    ensures way { result.1 ≡ (stop_of case).way }
{
    match case {
        0..=2 => (Some(7), case),
        3..=11 => (Some(8), case - 3),
        12..=20 => (Some(9), case - 12),
        21..=23 => (Some(10), case - 21),
        24..=26 => (Some(11), case - 24),
        _ => (None, 0),
    }
}

fn command(who: &str, act: Act) -> Command
    ensures { IsName who.now → result ≡ asked who.now act }
{
    Command {
        at: MOMENT,
        who: Name::try_new(who),
        act,
    }
}

fn play(who: &str, ply: u32, text: &str) -> Command
    ensures { IsName who.now → length text.now ≤ 255 → shown result ≡ played who.now ply text.now }
{
    let text = match Text::from(text) {
        Ok(text) => text,
        Err(_) => Text::new(),
    };
    command(who, Act::Play { game: 1, ply, text })
}

fn opening(alloc: Global) -> Result<Vec<Command>, AllocError>
    ensures { IfOk result (λ batch. batch.items ≡ opening_batch) }
{
    let game = Act::NewGame {
        colour: Colour::White,
        initial: 300,
        increment: 0,
        fen: None,
        period: None,
    };
    Vec::from_slice(
        alloc,
        &[command("ann", game), command("bob", Act::Join { game: 1 })],
    )
}

fn moves(alloc: Global) -> Result<Vec<Command>, AllocError>
    ensures { IfOk result (λ batch. map shown batch.items ≡ moves_batch) }
{
    Vec::from_slice(
        alloc,
        &[
            play("ann", 0, "e4"),
            play("bob", 1, "e5"),
            play("ann", 2, "Nf3"),
            play("bob", 3, "Nc6"),
            play("ann", 4, "Bb5"),
        ],
    )
}

// What becomes of the first and the second pending write in one of the ways.
fn fates(alloc: Global, way: u32) -> Result<Vec<Fate>, AllocError>
    ensures { IfOk result (λ fates. fates.items ≡ fates_of way) }
{
    Vec::from_slice(alloc, &[fate(way % 3), fate(way / 3 % 3)])
}

fn fate(way: u32) -> Fate
    ensures { result ≡ fate_of way }
{
    match way {
        0 => Fate::Lost,
        1 => Fate::Kept,
        _ => Fate::Unreadable,
    }
}

// One life, in which both batches are submitted.
fn plan(alloc: Global, case: u32) -> Result<Plan, AllocError>
    ensures { IfOk result (IsDrillPlan case) }
{
    let (calls, way) = stop(case);
    let life = Life {
        calls,
        batches: Vec::from_array(alloc, [opening(alloc)?, moves(alloc)?])?,
        fates: fates(alloc, way)?,
    };
    let lives = Vec::from_array(alloc, [life])?;
    Ok(Plan { lives })
}

// Lives the life of a case.
fn live(alloc: Global, case: u32) -> Result<Lived<MemoryDevice>, AllocError>
    ensures { IfOk result (IsCase case) }
{
    let plan = plan(alloc, case)?;
    lives_in_memory(alloc, LIMITS, &plan)
}

// Counts one case more, after which so many entries show.
fn count(tally: &mut Tally, kept: u64)
    ensures cases { tally.new.cases ≡ min (tally.old.cases + 1) (2 ^ 32 - 1) }
    ensures none { tally.new.none ≡ min (tally.old.none + cond (kept == 2) 1 0) (2 ^ 32 - 1) }
    ensures all { tally.new.all ≡ min (tally.old.all + cond (kept == 7) 1 0) (2 ^ 32 - 1) }
{
    tally.cases = tally.cases.saturating_add(1);
    tally.none = tally.none.saturating_add(u32::from(kept == WITHOUT_MOVES));
    tally.all = tally.all.saturating_add(u32::from(kept == WITH_MOVES));
}

// The tally of cases, or the first fault.
fn tallied(cases: &[Lived<MemoryDevice>]) -> Result<Tally, StoreFault>
    requires { length cases.now < 2 ^ 32 }
    ensures { IsTold cases.now result }
{
    let mut tally = Tally {
        cases: 0,
        none: 0,
        all: 0,
    };
    for case in cases {
        match &case.report {
            Ok(report) => count(&mut tally, report.kept),
            Err(fault) => return Err(*fault),
        }
    }
    Ok(tally)
}

/// Plays every case: a life on a device in memory, from the empty table, in which a game is opened and five moves are
/// made as one batch, and which stops at one of the device calls of that batch, or at none, with each pending write
/// lost, kept or unreadable. A fault is that of its case, as `lives_in_memory` says it. `AllocError`: memory was
/// refused for a plan, for a device or for the cases.
pub fn drill(alloc: Global) -> Result<Drilled, AllocError>
    ensures cases { IfOk result (λ drilled. AreCases 0 drilled.cases.items) }
    ensures all { IfOk result (λ drilled. length drilled.cases.items ≡ 28) }
    ensures told { IfOk result (λ drilled. IsTold drilled.cases.items drilled.tally) }
    ensures fault { IfOk result (λ drilled. IfErr drilled.tally IsFaultInMemory) }
{
    let mut cases = Vec::with_capacity(alloc, CASES as usize)?;
    for case in 0..CASES {
        cases.push_reserved(live(alloc, case)?);
    }
    let tally = tallied(&cases);
    Ok(Drilled { cases, tally })
}
