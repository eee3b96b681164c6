//! Points and tie-breaks of players (FIDE's Handbook, C.07).
ghost use Rattle.std.specs.Prelude.{◌≡◌, ◌≤◌, ◌<◌, ◌*◌, ◌^◌, length, map, get_or, filter, sum_by, count_by, None, IfOk};
ghost use Rattle.std.specs.List.{list_all, list_any};
ghost use Rattle.night_standings.specs.Breaks as spec;

use night_report::Play;
use night_report::cells::{Cell, Meeting, cell_of};
use std::alloc::{AllocError, Global};

/// By which rules rounds count for tie-breaks.
#[derive(Clone, Copy)]
pub enum System {
    Swiss,
    /// Each meets each: forfeits are games, and a round without an opponent is none, but for wins.
    RoundRobin,
}

/// What is looked at among players, or teams, who have as many points.
#[derive(Clone, Copy)]
pub enum Criterion {
    /// The points of a team's boards.
    BoardPoints,
    /// What they scored against each other.
    Direct,
    /// Buchholz without its least part.
    BuchholzCut,
    Buchholz,
    SonnebornBerger,
    Wins,
}

/// A tie-break, and the rules by which rounds count for it.
#[derive(Clone, Copy)]
pub struct Break {
    pub system: System,
    pub criterion: Criterion,
}

fn is_swiss(system: System) -> bool
    ensures { result ≡ spec.is_swiss system }
{
    match system {
        System::Swiss => true,
        System::RoundRobin => false,
    }
}

// How a game came, as it counts.
fn play_in(system: System, play: Play) -> Play
    ensures { result ≡ spec.play_in system play }
{
    match play {
        Play::Board | Play::Short => play,
        Play::Forfeit => {
            if is_swiss(system) {
                Play::Forfeit
            } else {
                Play::Board
            }
        }
    }
}

fn meeting_in(system: System, meeting: Meeting) -> Meeting
    ensures { result ≡ spec.meeting_in system meeting }
{
    Meeting {
        play: play_in(system, meeting.play),
        ..meeting
    }
}

fn round_in(alloc: Global, system: System, round: &[Meeting]) -> Result<Vec<Meeting>, AllocError>
    ensures { IfOk result (λ seen. seen.items ≡ map (spec.meeting_in system) round.now) }
{
    let mut seen = Vec::new(alloc);
    for meeting in round {
        seen.push(meeting_in(system, *meeting))?;
    }
    Ok(seen)
}

/// The rounds as tie-breaks see them.
pub fn rounds_in(
    alloc: Global,
    system: System,
    rounds: &[Vec<Meeting>],
) -> Result<Vec<Vec<Meeting>>, AllocError>
    ensures rounds { IfOk result (λ seen. map (λ round. round.items) seen.items
        ≡ spec.rounds_in system (map (λ round. round.items) rounds.now)) }
    ensures all { IfOk result (λ seen. length seen.items ≡ length rounds.now) }
{
    let mut seen = Vec::new(alloc);
    for at in 0..rounds.len() {
        seen.push(round_in(alloc, system, rounds[at].as_slice())?)?;
    }
    Ok(seen)
}

/// Whether a round was played: there is an opponent, and both came.
pub fn is_played(cell: Cell) -> bool
    ensures { result ≡ spec.is_played cell }
{
    cell.opponent != 0 && !cell.is_forfeit
}

// Whether it is a bye for half a point or for none.
fn is_asked_for(cell: Cell) -> bool
    ensures { result ≡ spec.is_asked_for cell }
{
    cell.sign == b'H' || cell.sign == b'Z'
}

// Whether the player chose not to play.
fn is_voluntary(cell: Cell) -> bool
    ensures { result ≡ spec.is_voluntary cell }
{
    is_asked_for(cell) || cell.sign == b'-'
}

fn are_voluntary(cells: &[Cell]) -> bool
    ensures { result ≡ list_all spec.is_voluntary cells.now }
{
    cells.iter().all(|cell| is_voluntary(*cell))
}

fn has_voluntary(cells: &[Cell]) -> bool
    ensures { result ≡ list_any spec.is_voluntary cells.now }
{
    cells.iter().any(|cell| is_voluntary(*cell))
}

/// The rounds of a player.
pub fn rounds_of(
    alloc: Global,
    number: u32,
    rounds: &[Vec<Meeting>],
) -> Result<Vec<Cell>, AllocError>
    ensures cells { IfOk result (λ cells. cells.items ≡ spec.rounds_of number (map (λ round. round.items) rounds.now)) }
    ensures all { IfOk result (λ cells. length cells.items ≡ length rounds.now) }
{
    let mut cells = Vec::new(alloc);
    for at in 0..rounds.len() {
        cells.push(cell_of(number, rounds[at].as_slice()))?;
    }
    Ok(cells)
}

/// A player's half points.
pub fn points(cells: &[Cell]) -> u32
    requires { length cells.now ≤ 99 }
    ensures { result ≡ spec.points cells.now }
{
    let mut points: u32 = 0;
    for cell in cells {
        points += u32::from(cell.halves);
    }
    points
}

// What a round counts for the player's opponents, by those behind it.
fn counted(system: System, cell: Cell, later: &[Cell]) -> u32
    ensures counted { result ≡ spec.counted system cell later.now }
    ensures few { result ≤ 255 }
{
    if is_swiss(system) && is_asked_for(cell) && are_voluntary(later) {
        1
    } else {
        u32::from(cell.halves)
    }
}

// A player's half points as they count for the opponents.
fn adjusted(system: System, cells: &[Cell]) -> u32
    requires { length cells.now ≤ 99 }
    ensures { result ≡ spec.adjusted system cells.now }
{
    let mut adjusted: u32 = 0;
    for at in 0..cells.len() {
        adjusted += counted(system, cells[at], &cells[at + 1..]);
    }
    adjusted
}

/// The half points of so many players, as they count for the opponents.
pub fn all_adjusted(
    alloc: Global,
    system: System,
    rounds: &[Vec<Meeting>],
    count: u32,
) -> Result<Vec<u32>, AllocError>
    requires { length rounds.now ≤ 99 }
    ensures { IfOk result (λ all. all.items ≡ spec.all_adjusted system (map (λ round. round.items) rounds.now) count) }
{
    let mut all = Vec::new(alloc);
    for at in 0..count {
        let cells = rounds_of(alloc, at + 1, rounds)?;
        all.push(adjusted(system, cells.as_slice()))?;
    }
    Ok(all)
}

// What the player of this number has.
fn of_number(scores: &[u32], number: u32) -> u32
    ensures { result ≡ spec.of_number scores.now number }
{
    if number == 0 {
        return 0;
    }
    match scores.get(number as usize - 1) {
        Some(score) => *score,
        None => 0,
    }
}

// What a round adds to the tie-breaks by opponents.
fn contribution(scores: &[u32], own: u32, cell: Cell) -> u32
    ensures { result ≡ spec.contribution scores.now own cell }
{
    if is_played(cell) {
        of_number(scores, cell.opponent)
    } else {
        own
    }
}

// Buchholz.
fn buchholz(scores: &[u32], cells: &[Cell]) -> u64
    requires { length cells.now ≤ 99 }
    ensures { result ≡ spec.buchholz scores.now cells.now }
{
    let own = points(cells);
    let mut sum: u64 = 0;
    for cell in cells {
        sum += u64::from(contribution(scores, own, *cell));
    }
    sum
}

fn lesser(found: Option<u32>, number: u32) -> u32
    ensures { result ≡ spec.lesser found number }
{
    match found {
        None => number,
        Some(least) => if number < least { number } else { least },
    }
}

fn may_be_cut(has_voluntary: bool, cell: Cell) -> bool
    ensures { result ≡ spec.may_be_cut has_voluntary cell }
{
    !has_voluntary || is_voluntary(cell)
}

// The least of what rounds add, among those that may be cut.
fn cut_among(scores: &[u32], own: u32, has_voluntary: bool, cells: &[Cell]) -> Option<u32>
    ensures { result ≡ spec.cut_among scores.now own has_voluntary cells.now }
{
    let mut found = None;
    for cell in cells {
        if may_be_cut(has_voluntary, *cell) {
            found = Some(lesser(found, contribution(scores, own, *cell)));
        }
    }
    found
}

// What Cut 1 leaves out.
fn cut(scores: &[u32], cells: &[Cell]) -> u32
    requires { length cells.now ≤ 99 }
    ensures { result ≡ spec.cut scores.now cells.now }
{
    match cut_among(scores, points(cells), has_voluntary(cells), cells) {
        Some(least) => least,
        None => 0,
    }
}

// Buchholz without its least part.
fn buchholz_cut(scores: &[u32], cells: &[Cell]) -> u64
    requires { length cells.now ≤ 99 }
    ensures { result ≡ spec.buchholz_cut scores.now cells.now }
{
    buchholz(scores, cells).saturating_sub(u64::from(cut(scores, cells)))
}

// What a round adds to Sonneborn-Berger.
fn worth(scores: &[u32], own: u32, cell: Cell) -> u64
    ensures worth { result ≡ spec.worth scores.now own cell }
    ensures few { result ≤ 255 * 2 ^ 32 }
{
    u64::from(cell.halves) * u64::from(contribution(scores, own, cell))
}

// Sonneborn-Berger, in quarters.
fn sonneborn_berger(scores: &[u32], cells: &[Cell]) -> u64
    requires { length cells.now ≤ 99 }
    ensures { result ≡ spec.sonneborn_berger scores.now cells.now }
{
    let own = points(cells);
    let mut sum: u64 = 0;
    for cell in cells {
        sum += worth(scores, own, *cell);
    }
    sum
}

// Rounds that were worth as much as a win.
fn wins(cells: &[Cell]) -> usize
    ensures { result ≡ spec.wins cells.now }
{
    cells.iter().filter(|cell| cell.halves == 2).count()
}

// What a player has by a tie-break.
fn value_of(criterion: Criterion, scores: &[u32], cells: &[Cell]) -> u64
    requires { length cells.now ≤ 99 }
    ensures { result ≡ spec.value_of criterion scores.now cells.now }
{
    match criterion {
        Criterion::BoardPoints | Criterion::Direct => 0,
        Criterion::BuchholzCut => buchholz_cut(scores, cells),
        Criterion::Buchholz => buchholz(scores, cells),
        Criterion::SonnebornBerger => sonneborn_berger(scores, cells),
        Criterion::Wins => wins(cells) as u64,
    }
}

// Whether a round has a part in a tie-break.
fn has_part(by: Break, cell: Cell) -> bool
    ensures { result ≡ spec.has_part by.system by.criterion cell }
{
    match by.criterion {
        Criterion::Wins => true,
        _ => is_swiss(by.system) || cell.opponent != 0,
    }
}

// The rounds of a player that have a part in a tie-break.
fn with_part(alloc: Global, by: Break, cells: &[Cell]) -> Result<Vec<Cell>, AllocError>
    ensures cells { IfOk result (λ kept. kept.items ≡ spec.with_part by.system by.criterion cells.now) }
    ensures few { IfOk result (λ kept. length kept.items ≤ length cells.now) }
{
    let mut kept = Vec::new(alloc);
    for cell in cells {
        if has_part(by, *cell) {
            kept.push(*cell)?;
        }
    }
    Ok(kept)
}

/// What each of so many players has by a tie-break: half points, of Sonneborn-Berger quarters, or wins.
pub fn all_values(
    alloc: Global,
    by: Break,
    scores: &[u32],
    rounds: &[Vec<Meeting>],
    count: u32,
) -> Result<Vec<u64>, AllocError>
    requires { length rounds.now ≤ 99 }
    ensures { IfOk result (λ all. all.items
        ≡ spec.all_values by.system by.criterion scores.now (map (λ round. round.items) rounds.now) count) }
{
    let mut all = Vec::new(alloc);
    for at in 0..count {
        let cells = rounds_of(alloc, at + 1, rounds)?;
        let kept = with_part(alloc, by, cells.as_slice())?;
        all.push(value_of(by.criterion, scores, kept.as_slice()))?;
    }
    Ok(all)
}

/// The half points of so many players.
pub fn all_points(
    alloc: Global,
    rounds: &[Vec<Meeting>],
    count: u32,
) -> Result<Vec<u64>, AllocError>
    requires { length rounds.now ≤ 99 }
    ensures { IfOk result (λ all. all.items ≡ spec.all_points (map (λ round. round.items) rounds.now) count) }
{
    let mut all = Vec::new(alloc);
    for at in 0..count {
        let cells = rounds_of(alloc, at + 1, rounds)?;
        all.push(u64::from(points(cells.as_slice())))?;
    }
    Ok(all)
}
