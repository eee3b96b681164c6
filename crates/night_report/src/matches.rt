//! Matches of teams, by the boards at which their players meet.
ghost use Rattle.std.specs.Prelude.{◌≡◌, ◌≤◌, ◌<◌, ◌*◌, ◌==◌, true, false, length, map, IfOk};
ghost use Rattle.std.specs.List.{list_any, list_all};
ghost use Rattle.std.specs.Option.{option_to_list};
ghost use Rattle.night_report.specs.Matches as spec;

use crate::cells::{Meeting, Opponent, Play, Score, black_cell, white_cell};
use crate::teams::Team;
use std::alloc::{AllocError, Global};

fn has_member(team: &Team<'_>, number: u32) -> bool
    ensures { result ≡ spec.has_member number team.now }
{
    team.numbers.iter().any(|member| *member == number)
}

// The number of the first team, from 1 on, that has a player; 0 where none has.
fn team_of(teams: &[Team<'_>], number: u32) -> u32
    requires { length teams.now ≤ 9999 }
    ensures { result ≡ spec.team_from 1 teams.now number }
{
    for at in 0..teams.len() {
        if has_member(&teams[at], number) {
            return at as u32 + 1;
        }
    }
    0
}

/// The teams of so many players, by the starting numbers: teams are numbered from 1 on, and 0 is none.
pub fn sides_of(alloc: Global, teams: &[Team<'_>], count: u32) -> Result<Vec<u32>, AllocError>
    requires { length teams.now ≤ 9999 }
    ensures { IfOk result (λ sides. sides.items ≡ spec.sides_of teams.now count) }
{
    let mut sides = Vec::new(alloc);
    for at in 0..count {
        sides.push(team_of(teams, at + 1))?;
    }
    Ok(sides)
}

fn side(sides: &[u32], number: u32) -> u32
    ensures { result ≡ spec.side sides.now number }
{
    if number == 0 {
        return 0;
    }
    match sides.get(number as usize - 1) {
        Some(side) => *side,
        None => 0,
    }
}

fn black_side(sides: &[u32], black: Opponent) -> u32
    ensures { result ≡ spec.black_side sides.now black }
{
    match black {
        Opponent::Bye(_) => 0,
        Opponent::Player(number) => side(sides, number),
    }
}

// Whether a board is one at which this team meets another one.
fn is_of(sides: &[u32], team: u32, meeting: Meeting) -> bool
    ensures { result ≡ spec.is_of sides.now team meeting }
{
    let white = side(sides, meeting.white);
    let black = black_side(sides, meeting.black);
    white != 0 && black != 0 && white != black && (white == team || black == team)
}

// The team's first board in a round.
fn first_of(sides: &[u32], team: u32, round: &[Meeting]) -> Option<Meeting>
    ensures { result ≡ spec.first_of sides.now team round.now }
{
    for meeting in round {
        if is_of(sides, team, *meeting) {
            return Some(*meeting);
        }
    }
    None
}

fn is_between(sides: &[u32], one: u32, other: u32, meeting: Meeting) -> bool
    ensures { result ≡ spec.is_between sides.now one other meeting }
{
    let white = side(sides, meeting.white);
    let black = black_side(sides, meeting.black);
    (white == one && black == other) || (white == other && black == one)
}

// What a board is worth to a team, in half points.
fn points_on(sides: &[u32], team: u32, meeting: Meeting) -> u32
    ensures points { result ≡ spec.points_on sides.now team meeting }
    ensures few { result ≤ 2 }
{
    if side(sides, meeting.white) == team {
        u32::from(white_cell(meeting).halves)
    } else if black_side(sides, meeting.black) == team {
        u32::from(black_cell(meeting).halves)
    } else {
        0
    }
}

/// A team's board points in a round, in half points: those of its players.
pub fn board_points(sides: &[u32], team: u32, round: &[Meeting]) -> u32
    requires { length round.now ≤ 9999 }
    ensures points { result ≡ spec.board_points sides.now team round.now }
    ensures few { result ≤ 2 * length round.now }
{
    let mut points: u32 = 0;
    for meeting in round {
        points += points_on(sides, team, *meeting);
    }
    points
}

// Whether a match has a board without a result.
fn goes_on(sides: &[u32], one: u32, other: u32, round: &[Meeting]) -> bool
    ensures { result ≡ spec.goes_on sides.now one other round.now }
{
    round.iter().any(|meeting| {
        is_between(sides, one, other, *meeting) && matches!(meeting.score, Score::Open)
    })
}

// Whether each board of a match is a forfeit.
fn is_unplayed(sides: &[u32], one: u32, other: u32, round: &[Meeting]) -> bool
    ensures { result ≡ spec.is_unplayed sides.now one other round.now }
{
    round.iter().all(|meeting| {
        !is_between(sides, one, other, *meeting) || matches!(meeting.play, Play::Forfeit)
    })
}

fn match_score(ours: u32, theirs: u32) -> Score
    ensures { result ≡ spec.match_score ours theirs }
{
    if theirs < ours {
        Score::White
    } else if ours < theirs {
        Score::Black
    } else if ours == 0 {
        Score::Neither
    } else {
        Score::Draw
    }
}

// The match of two teams in a round, of which one is named first, by the number of its first board.
fn match_of(sides: &[u32], first: u32, one: u32, other: u32, round: &[Meeting]) -> Meeting
    requires { length round.now ≤ 9999 }
    ensures { result ≡ spec.match_of sides.now first one other round.now }
{
    let ours = board_points(sides, one, round);
    let theirs = board_points(sides, other, round);
    Meeting {
        board: first,
        white: one,
        black: Opponent::Player(other),
        score: if goes_on(sides, one, other, round) {
            Score::Open
        } else {
            match_score(ours, theirs)
        },
        play: if is_unplayed(sides, one, other, round) {
            Play::Forfeit
        } else {
            Play::Board
        },
    }
}

// The first bye in a round that a player of a team has, as that of the team.
fn bye_of(sides: &[u32], team: u32, round: &[Meeting]) -> Option<Meeting>
    ensures { result ≡ spec.bye_of sides.now team round.now }
{
    for meeting in round {
        if matches!(meeting.black, Opponent::Bye(_)) && side(sides, meeting.white) == team {
            return Some(Meeting {
                white: team,
                ..*meeting
            });
        }
    }
    None
}

// Whether a board of a match of two teams has one player alone.
fn is_alone(sides: &[u32], one: u32, other: u32, meeting: Meeting) -> bool
    ensures { result ≡ spec.is_alone sides.now one other meeting meeting.black }
{
    match meeting.black {
        Opponent::Player(_) => false,
        Opponent::Bye(_) => {
            let side = side(sides, meeting.white);
            side == one || side == other
        }
    }
}

// Whether who has Black at the first board at which two teams meet would have White at the first of all.
fn is_turned(sides: &[u32], one: u32, other: u32, round: &[Meeting]) -> bool
    ensures { result ≡ spec.is_turned sides.now one other false round.now }
{
    let mut turned = false;
    for meeting in round {
        if is_between(sides, one, other, *meeting) {
            return turned;
        }
        if is_alone(sides, one, other, *meeting) {
            turned = !turned;
        }
    }
    turned
}

fn is_led(sides: &[u32], team: u32, round: &[Meeting], white: u32, black: u32) -> bool
    ensures { result ≡ spec.is_led sides.now team round.now white black }
{
    if is_turned(sides, white, black, round) {
        black == team
    } else {
        white == team
    }
}

fn other_side(team: u32, white: u32, black: u32) -> u32
    ensures { result ≡ spec.other_side team white black }
{
    if white == team { black } else { white }
}

// The match in which a team is named first, or its bye.
fn led_by(sides: &[u32], team: u32, round: &[Meeting]) -> Option<Meeting>
    requires { length round.now ≤ 9999 }
    ensures { option_to_list result ≡ spec.led_by sides.now team round.now (spec.first_of sides.now team round.now) }
{
    match first_of(sides, team, round) {
        None => bye_of(sides, team, round),
        Some(first) => {
            let white = side(sides, first.white);
            let black = black_side(sides, first.black);
            if is_led(sides, team, round, white, black) {
                let other = other_side(team, white, black);
                Some(match_of(sides, first.board, team, other, round))
            } else {
                None
            }
        }
    }
}

/// The matches of a round among so many teams, by the numbers of those that are named first, which have White at the
/// first board, or would have it there: whoever has more board points has won. A team without a match has the bye of its first player with one.
pub fn matches_in(
    alloc: Global,
    sides: &[u32],
    round: &[Meeting],
    count: u32,
) -> Result<Vec<Meeting>, AllocError>
    requires { length round.now ≤ 9999 }
    ensures { IfOk result (λ matches. matches.items ≡ spec.matches_in sides.now round.now count) }
{
    let mut matches = Vec::new(alloc);
    for at in 0..count {
        if let Some(led) = led_by(sides, at + 1, round) {
            matches.push(led)?;
        }
    }
    Ok(matches)
}

/// Whether no round has more boards than there may be players.
pub fn are_few(rounds: &[Vec<Meeting>]) -> bool
    ensures { result ≡ spec.are_few rounds.now }
{
    rounds.iter().all(|round| round.len() <= 9_999)
}

/// The matches of each round. It fails where memory is refused.
pub fn all_matches(
    alloc: Global,
    sides: &[u32],
    rounds: &[Vec<Meeting>],
    count: u32,
) -> Result<Vec<Vec<Meeting>>, AllocError>
    requires { spec.are_few rounds.now ≡ true }
    ensures { IfOk result (λ all. map (λ round. round.items) all.items
        ≡ spec.all_matches sides.now count (map (λ round. round.items) rounds.now)) }
{
    let mut all = Vec::new(alloc);
    for at in 0..rounds.len() {
        all.push(matches_in(alloc, sides, rounds[at].as_slice(), count)?)?;
    }
    Ok(all)
}

// A team's board points in all rounds.
fn total_points(sides: &[u32], team: u32, rounds: &[Vec<Meeting>]) -> u64
    requires rounds { length rounds.now ≤ 99 }
    requires boards { spec.are_few rounds.now ≡ true }
    ensures { result ≡ spec.total_points sides.now team (map (λ round. round.items) rounds.now) }
{
    let mut points: u64 = 0;
    for at in 0..rounds.len() {
        points += u64::from(board_points(sides, team, rounds[at].as_slice()));
    }
    points
}

/// The board points of so many teams, in half points. It fails where memory is refused.
pub fn all_board_points(
    alloc: Global,
    sides: &[u32],
    rounds: &[Vec<Meeting>],
    count: u32,
) -> Result<Vec<u64>, AllocError>
    requires rounds { length rounds.now ≤ 99 }
    requires boards { spec.are_few rounds.now ≡ true }
    ensures { IfOk result (λ all. all.items
        ≡ spec.all_points sides.now (map (λ round. round.items) rounds.now) count) }
{
    let mut all = Vec::new(alloc);
    for at in 0..count {
        all.push(total_points(sides, at + 1, rounds))?;
    }
    Ok(all)
}

// Whether a team's first board is against this other one.
fn is_against(sides: &[u32], team: u32, one: u32, other: u32, round: &[Meeting]) -> bool
    ensures { result ≡ spec.is_against sides.now one other (spec.first_of sides.now team round.now) }
{
    match first_of(sides, team, round) {
        None => false,
        Some(first) => is_between(sides, one, other, first),
    }
}

/// Whether a board of a round is of a match: two teams meet there, and neither meets another one before. A bye, which
/// is of none, passes.
pub fn is_matched(sides: &[u32], round: &[Meeting], meeting: Meeting) -> bool
    ensures { result ≡ spec.is_matched sides.now round.now meeting meeting.black }
{
    match meeting.black {
        Opponent::Bye(_) => true,
        Opponent::Player(number) => {
            let (white, black) = (side(sides, meeting.white), side(sides, number));
            is_of(sides, white, meeting)
                && is_against(sides, white, white, black, round)
                && is_against(sides, black, white, black, round)
        }
    }
}
