//! Whether a report has room in its columns.
ghost use Rattle.std.specs.Prelude.{◌≡◌, ◌≤◌, ◌<◌, length, IfNone, IfSome};
ghost use Rattle.std.specs.List.{list_all};
ghost use Rattle.night_report.specs.Room as spec;

use crate::cells::{Meeting, Opponent};
use crate::columns::{Fault, Tournament};
use crate::particulars::Particulars;
use crate::teams::Team;

// Whether bytes are printed ASCII.
fn are_shown(bytes: &[u8]) -> bool
    ensures { result ≡ list_all spec.is_shown bytes.now }
{
    bytes.iter().all(|byte| 32 <= *byte && *byte <= 126)
}

fn has_width(width: usize, text: &str) -> bool
    ensures { result ≡ spec.has_width width text.now }
{
    text.len() <= width && are_shown(text.as_bytes())
}

// Whether a player's title, rating and FIDE number have room.
fn fits(player: &Particulars<'_>) -> bool
    ensures { result ≡ spec.fits player.now }
{
    has_width(3, player.title) && has_width(4, player.rating) && has_width(11, player.fide_number)
}

fn all_fit(players: &[Particulars<'_>]) -> bool
    ensures { result ≡ list_all spec.fits players.now }
{
    players.iter().all(|player| fits(player))
}

// Whether it is the starting number of one of so many players.
fn is_number(count: usize, number: u32) -> bool
    ensures { result ≡ spec.is_number count number }
{
    1 <= number && number as usize <= count
}

fn is_seated(count: usize, meeting: Meeting) -> bool
    ensures { result ≡ spec.is_seated count meeting }
{
    is_number(count, meeting.white)
        && match meeting.black {
            Opponent::Bye(_) => true,
            Opponent::Player(black) => is_number(count, black),
        }
}

fn are_seated_in(count: usize, round: &[Meeting]) -> bool
    ensures { result ≡ list_all (spec.is_seated count) round.now }
{
    round.iter().all(|meeting| is_seated(count, *meeting))
}

fn are_seated(count: usize, rounds: &[Vec<Meeting>]) -> bool
    ensures { result ≡ spec.are_seated count rounds.now }
{
    rounds
        .iter()
        .all(|round| are_seated_in(count, round.as_slice()))
}

fn are_numbers(count: usize, numbers: &[u32]) -> bool
    ensures { result ≡ list_all (spec.is_number count) numbers.now }
{
    numbers.iter().all(|number| is_number(count, *number))
}

fn are_members(count: usize, teams: &[Team<'_>]) -> bool
    ensures { result ≡ spec.are_members count teams.now }
{
    teams
        .iter()
        .all(|team| are_numbers(count, team.numbers.as_slice()))
}

// How many rounds there are to be, where so many are there.
fn all_rounds(tournament: &Tournament<'_>, rounds: usize) -> usize
    ensures { result ≡ spec.all_rounds tournament.now rounds }
{
    match tournament.rounds {
        Some(rounds) => rounds as usize,
        None => rounds,
    }
}

/// Why a report of so many days of rounds has no room; `None` where it has.
pub fn fault_in(
    tournament: &Tournament<'_>,
    days: usize,
    players: &[Particulars<'_>],
    teams: &[Team<'_>],
    rounds: &[Vec<Meeting>],
) -> Option<Fault>
    ensures none { IfNone result (spec.HasRoom tournament.now days players.now teams.now rounds.now) }
    ensures some { IfSome result (spec.IsFault tournament.now days players.now teams.now rounds.now) }
{
    let count = players.len();
    let all = all_rounds(tournament, rounds.len());
    if count > 9_999 {
        return Some(Fault::TooManyPlayers);
    }
    if all > 99 {
        return Some(Fault::TooManyRounds);
    }
    if rounds.len() > all {
        return Some(Fault::TooFewRounds);
    }
    if days > all {
        return Some(Fault::TooFewRounds);
    }
    if !all_fit(players) {
        return Some(Fault::TooWide);
    }
    if !are_seated(count, rounds) {
        return Some(Fault::NoPlayer);
    }
    if !are_members(count, teams) {
        return Some(Fault::NoPlayer);
    }
    None
}
