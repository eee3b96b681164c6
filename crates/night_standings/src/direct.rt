//! The direct encounter: what tied players scored against each other (FIDE's Handbook, C.07, article 6).
ghost use Rattle.std.specs.Prelude.{◌≡◌, ◌≤◌, ◌<◌, ◌+◌, ◌*◌, length, map, IfOk, sum_by};
ghost use Rattle.std.specs.List.{list_all, list_any};
ghost use Rattle.std.specs.Str.{bytes_eq};
ghost use Rattle.night_standings.specs.Places as spec;

use crate::breaks::{is_played, rounds_of};
use crate::places::{Rank, place_at, places_in};
use night_report::cells::{Cell, Meeting};
use std::alloc::{AllocError, Global};

/// How a player stands among those who are tied: the half points against them, and how many were not met.
#[derive(Clone, Copy)]
pub struct Tied {
    pub number: u32,
    pub place: usize,
    pub won: u32,
    pub missing: u32,
}

// Whether a round has a game that was played and is over.
fn is_encounter(cell: Cell) -> bool
    ensures { result ≡ spec.is_encounter cell }
{
    is_played(cell) && cell.sign != b' '
}

// Whether the player of this number has this place.
fn has_place(places: &[usize], place: usize, number: u32) -> bool
    ensures { result ≡ spec.has_place places.now place number }
{
    if number == 0 {
        return false;
    }
    match places.get(number as usize - 1) {
        Some(other) => *other == place,
        None => false,
    }
}

// The half points of a round, where it was played against who is tied.
fn won_in(places: &[usize], place: usize, cell: Cell) -> u32
    ensures won { result ≡ spec.won_in places.now place cell }
    ensures few { result ≤ 255 }
{
    if is_encounter(cell) && has_place(places, place, cell.opponent) {
        u32::from(cell.halves)
    } else {
        0
    }
}

fn won(places: &[usize], place: usize, cells: &[Cell]) -> u32
    requires { length cells.now ≤ 99 }
    ensures { result ≡ spec.won places.now place cells.now }
{
    let mut won: u32 = 0;
    for cell in cells {
        won += won_in(places, place, *cell);
    }
    won
}

fn is_met_in(number: u32, cell: Cell) -> bool
    ensures { result ≡ spec.is_met_in number cell }
{
    is_encounter(cell) && cell.opponent == number
}

fn has_met(number: u32, cells: &[Cell]) -> bool
    ensures { result ≡ spec.has_met number cells.now }
{
    cells.iter().any(|cell| is_met_in(number, *cell))
}

// Whether another player is tied and was not met.
fn lacks(number: u32, cells: &[Cell], other: u32, is_tied: bool) -> bool
    ensures { result ≡ spec.lacks number cells.now other is_tied }
{
    is_tied && other != number && !has_met(other, cells)
}

// How many of so many players are tied and were not met.
fn missing(number: u32, cells: &[Cell], places: &[usize], place: usize, count: u32) -> u32
    ensures { result ≡ spec.missing number cells.now places.now place count }
{
    let mut missing: u32 = 0;
    for at in 0..count {
        if lacks(number, cells, at + 1, has_place(places, place, at + 1)) {
            missing += 1;
        }
    }
    missing
}

// How a player stands among those who are tied.
fn tied_of(
    alloc: Global,
    rounds: &[Vec<Meeting>],
    places: &[usize],
    count: u32,
    at: u32,
) -> Result<Tied, AllocError>
    requires rounds { length rounds.now ≤ 99 }
    requires at { at < count }
    ensures { IfOk result (λ tied. tied
        ≡ spec.tied_of (map (λ round. round.items) rounds.now) places.now count (at + 1)) }
{
    let number = at + 1;
    let cells = rounds_of(alloc, number, rounds)?;
    let place = place_at(places, at as usize);
    Ok(Tied {
        number,
        place,
        won: won(places, place, cells.as_slice()),
        missing: missing(number, cells.as_slice(), places, place, count),
    })
}

fn all_tied(
    alloc: Global,
    rounds: &[Vec<Meeting>],
    places: &[usize],
    count: u32,
) -> Result<Vec<Tied>, AllocError>
    requires { length rounds.now ≤ 99 }
    ensures { IfOk result (λ all. all.items
        ≡ spec.all_tied (map (λ round. round.items) rounds.now) places.now count count) }
{
    let mut all = Vec::new(alloc);
    for at in 0..count {
        all.push(tied_of(alloc, rounds, places, count, at)?)?;
    }
    Ok(all)
}

// The most that a player may still have.
fn most(tied: Tied) -> u64
    ensures { result ≡ spec.most tied }
{
    u64::from(tied.won) + 2 * u64::from(tied.missing)
}

fn is_met_by_all(tied: Tied, other: Tied) -> bool
    ensures { result ≡ spec.is_met_by_all tied other }
{
    other.place != tied.place || other.missing == 0
}

// Whether all who are tied with a player have met each other.
fn is_complete(all: &[Tied], tied: Tied) -> bool
    ensures { result ≡ spec.is_complete all.now tied }
{
    all.iter().all(|other| is_met_by_all(tied, *other))
}

// Whether a player stays before another, or that is no one to stay before.
fn stays_before(tied: Tied, other: Tied) -> bool
    ensures { result ≡ spec.stays_before tied other }
{
    other.number == tied.number
        || other.place != tied.place
        || tied.won < other.won
        || most(other) < u64::from(tied.won)
}

fn is_sure(all: &[Tied], tied: Tied) -> bool
    ensures { result ≡ spec.is_sure all.now tied }
{
    all.iter().all(|other| stays_before(tied, *other))
}

// Whether another player's standing leaves a player's rank sure.
fn leaves_sure(all: &[Tied], tied: Tied, other: Tied) -> bool
    ensures { result ≡ spec.leaves_sure all.now tied other }
{
    other.place != tied.place || other.won < tied.won || is_sure(all, other)
}

fn is_ranked(all: &[Tied], tied: Tied) -> bool
    ensures { result ≡ spec.is_ranked all.now tied }
{
    all.iter().all(|other| leaves_sure(all, tied, *other))
}

// What counts of a player among those who are tied.
fn direct_value(all: &[Tied], tied: Tied) -> u64
    ensures { result ≡ spec.direct_value all.now tied }
{
    if is_complete(all, tied) {
        u64::from(tied.won)
    } else if is_ranked(all, tied) {
        u64::from(tied.won) + 1
    } else {
        0
    }
}

fn direct_ranks(alloc: Global, all: &[Tied]) -> Result<Vec<Rank>, AllocError>
    ensures { IfOk result (λ ranks. ranks.items ≡ spec.direct_ranks all.now) }
{
    let mut ranks = Vec::new(alloc);
    for tied in all {
        ranks.push(Rank {
            place: tied.place,
            value: direct_value(all, *tied),
        })?;
    }
    Ok(ranks)
}

// The places where it is looked at once.
fn once(
    alloc: Global,
    rounds: &[Vec<Meeting>],
    count: u32,
    places: &[usize],
) -> Result<Vec<usize>, AllocError>
    requires { length rounds.now ≤ 99 }
    ensures { IfOk result (λ next. next.items
        ≡ spec.once (map (λ round. round.items) rounds.now) count places.now) }
{
    let tied = all_tied(alloc, rounds, places, count)?;
    let ranks = direct_ranks(alloc, tied.as_slice())?;
    places_in(alloc, ranks.as_slice())
}

fn is_same(places: &[usize], others: &[usize]) -> bool
    ensures { result ≡ bytes_eq places.now others.now }
{
    places == others
}

/// The places by the direct encounter, among those who are tied, and anew among those who are tied still.
pub fn settled(
    alloc: Global,
    rounds: &[Vec<Meeting>],
    count: u32,
    places: &[usize],
) -> Result<Vec<usize>, AllocError>
    requires { length rounds.now ≤ 99 }
    ensures { IfOk result (λ settled. settled.items
        ≡ spec.settled (map (λ round. round.items) rounds.now) count count places.now) }
{
    let mut settled = Vec::from_slice(alloc, places)?;
    for at in 0..count {
        let _time = at;
        let next = once(alloc, rounds, count, settled.as_slice())?;
        if is_same(next.as_slice(), settled.as_slice()) {
            return Ok(next);
        }
        settled = next;
    }
    Ok(settled)
}

// The half points of each player of these.
fn won_of(alloc: Global, all: &[Tied]) -> Result<Vec<u64>, AllocError>
    ensures { IfOk result (λ won. won.items ≡ map (λ tied. tied.won) all.now) }
{
    let mut won = Vec::new(alloc);
    for tied in all {
        won.push(u64::from(tied.won))?;
    }
    Ok(won)
}

/// What each player has against those with whom there is a tie, in half points.
pub fn all_won(
    alloc: Global,
    rounds: &[Vec<Meeting>],
    places: &[usize],
    count: u32,
) -> Result<Vec<u64>, AllocError>
    requires { length rounds.now ≤ 99 }
    ensures { IfOk result (λ won. won.items
        ≡ spec.all_won (map (λ round. round.items) rounds.now) places.now count) }
{
    let tied = all_tied(alloc, rounds, places, count)?;
    won_of(alloc, tied.as_slice())
}
