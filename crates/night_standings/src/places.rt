//! Places of players, by points and by one tie-break after another (FIDE's Handbook, C.07).
ghost use Rattle.std.specs.Prelude.{◌≡◌, ◌≤◌, length, map, get_or, count_by, [], IfOk};
ghost use Rattle.night_standings.specs.Places as spec;
ghost use Rattle.night_standings.specs.Breaks as sums;

use crate::breaks::{Break, Criterion, System, all_adjusted, all_points, all_values, rounds_in};
use crate::direct::{all_won, settled};
use night_report::cells::Meeting;
use std::alloc::{AllocError, Global};

/// How many players are before by what was looked at before, and what a player has by what is looked at now.
#[derive(Clone, Copy)]
pub struct Rank {
    pub place: usize,
    pub value: u64,
}

/// By what players are ranked who have as many points.
#[derive(Drop)]
pub struct Ranking {
    pub system: System,
    /// The tie-breaks, in their order.
    pub criteria: Vec<Criterion>,
}

/// The standings of players, in the order of their numbers.
#[derive(Drop)]
pub struct Standings {
    /// How many are before each: players who have as many are tied.
    pub places: Vec<usize>,
    /// Half points.
    pub points: Vec<u64>,
    /// What each has by each tie-break, in their order.
    pub columns: Vec<Vec<u64>>,
}

fn is_before(rank: Rank, other: Rank) -> bool
    ensures { result ≡ spec.is_before rank other }
{
    other.place < rank.place || (other.place == rank.place && rank.value < other.value)
}

// How many are before.
fn place_in(ranks: &[Rank], rank: Rank) -> usize
    ensures { result ≡ spec.place_in ranks.now rank }
{
    ranks
        .iter()
        .filter(|other| is_before(rank, **other))
        .count()
}

/// How many are before each.
pub fn places_in(alloc: Global, ranks: &[Rank]) -> Result<Vec<usize>, AllocError>
    ensures { IfOk result (λ places. places.items ≡ spec.places_in ranks.now) }
{
    let mut places = Vec::new(alloc);
    for rank in ranks {
        places.push(place_in(ranks, *rank))?;
    }
    Ok(places)
}

/// A player's place; 0 of none.
pub fn place_at(places: &[usize], at: usize) -> usize
    ensures { result ≡ get_or places.now at 0 }
{
    match places.get(at) {
        Some(place) => *place,
        None => 0,
    }
}

/// What a player has; 0 where none is known.
pub fn value_at(values: &[u64], at: usize) -> u64
    ensures { result ≡ get_or values.now at 0 }
{
    match values.get(at) {
        Some(value) => *value,
        None => 0,
    }
}

// So many players with their places and what each has.
fn ranks_of(
    alloc: Global,
    places: &[usize],
    values: &[u64],
    count: u32,
) -> Result<Vec<Rank>, AllocError>
    ensures { IfOk result (λ ranks. ranks.items ≡ spec.ranks_of places.now values.now count) }
{
    let mut ranks = Vec::new(alloc);
    for at in 0..count {
        ranks.push(Rank {
            place: place_at(places, at as usize),
            value: value_at(values, at as usize),
        })?;
    }
    Ok(ranks)
}

// The places by what each has, among those who are tied.
fn placed(
    alloc: Global,
    places: &[usize],
    values: &[u64],
    count: u32,
) -> Result<Vec<usize>, AllocError>
    ensures { IfOk result (λ next. next.items ≡ spec.places_in (spec.ranks_of places.now values.now count)) }
{
    let ranks = ranks_of(alloc, places, values, count)?;
    places_in(alloc, ranks.as_slice())
}

// What players have by a tie-break.
fn values_by(
    alloc: Global,
    by: Break,
    rounds: &[Vec<Meeting>],
    scores: &[u32],
    boards: &[u64],
    count: u32,
    places: &[usize],
) -> Result<Vec<u64>, AllocError>
    requires { length rounds.now ≤ 99 }
    ensures { IfOk result (λ values. values.items
        ≡ spec.values_by by.system by.criterion (map (λ round. round.items) rounds.now) scores.now boards.now count places.now) }
{
    match by.criterion {
        Criterion::Direct => all_won(alloc, rounds, places, count),
        Criterion::BoardPoints => Vec::from_slice(alloc, boards),
        _ => all_values(alloc, by, scores, rounds, count),
    }
}

// The places by a tie-break, by which players have these values.
fn places_by(
    alloc: Global,
    criterion: Criterion,
    rounds: &[Vec<Meeting>],
    values: &[u64],
    count: u32,
    places: &[usize],
) -> Result<Vec<usize>, AllocError>
    requires { length rounds.now ≤ 99 }
    ensures { IfOk result (λ next. next.items
        ≡ spec.places_by criterion (map (λ round. round.items) rounds.now) values.now count places.now) }
{
    match criterion {
        Criterion::Direct => settled(alloc, rounds, count, places),
        _ => placed(alloc, places, values, count),
    }
}

// The places by points.
fn places_by_points(alloc: Global, points: &[u64], count: u32) -> Result<Vec<usize>, AllocError>
    ensures { IfOk result (λ places. places.items ≡ spec.places_in (spec.ranks_of [] points.now count)) }
{
    placed(alloc, &[], points, count)
}

/// The standings of so many players by the meetings of each round: by points, and among those who are tied by one
/// tie-break after another. Of teams, whose meetings are matches, `boards` has the half points of their boards.
pub fn standings_of(
    alloc: Global,
    system: System,
    rounds: &[Vec<Meeting>],
    boards: &[u64],
    count: u32,
    criteria: &[Criterion],
) -> Result<Standings, AllocError>
    requires { length rounds.now ≤ 99 }
    ensures points { IfOk result (λ told. told.points.items
        ≡ sums.all_points (map (λ round. round.items) rounds.now) count) }
    ensures places { IfOk result (λ told. told.places.items
        ≡ spec.places_of system criteria.now (map (λ round. round.items) rounds.now) boards.now count) }
    ensures columns { IfOk result (λ told. map (λ column. column.items) told.columns.items
        ≡ spec.columns_of system criteria.now (map (λ round. round.items) rounds.now) boards.now count) }
{
    let scores = all_adjusted(alloc, system, rounds, count)?;
    let seen = rounds_in(alloc, system, rounds)?;
    let points = all_points(alloc, rounds, count)?;
    let mut places = places_by_points(alloc, points.as_slice(), count)?;
    let mut columns = Vec::new(alloc);
    for criterion in criteria {
        let values = values_by(
            alloc,
            Break {
                system,
                criterion: *criterion,
            },
            seen.as_slice(),
            scores.as_slice(),
            boards,
            count,
            places.as_slice(),
        )?;
        places = places_by(
            alloc,
            *criterion,
            seen.as_slice(),
            values.as_slice(),
            count,
            places.as_slice(),
        )?;
        columns.push(values)?;
    }
    Ok(Standings {
        places,
        points,
        columns,
    })
}
