//! The report of a tournament, with the ranks of its standings.
ghost use Rattle.std.specs.Prelude.{◌≡◌, [], length, map, IfOk, IfErr};
ghost use Rattle.night_report.specs.Report.{report_text};
ghost use Rattle.night_report.specs.Room.{HasRoom, IsFault};
ghost use Rattle.night_standings.specs.Places.{places_of};

use crate::places::{Ranking, standings_of};
use night_report::{Fault, Meeting, Particulars, Team, Tournament, fault_in, report};
use std::alloc::Global;

/// The report of a tournament (`night_report::report`), in which players are ranked by points, and those who are tied
/// by one tie-break after another. It fails where the columns have no room for that, or a number is no player's.
pub fn ranked_report(
    alloc: Global,
    tournament: &Tournament<'_>,
    days: &[&str],
    players: &[Particulars<'_>],
    teams: &[Team<'_>],
    rounds: &[Vec<Meeting>],
    ranking: &Ranking,
) -> Result<Vec<u8>, Fault>
    ensures text { IfOk result (λ text. text.items
        ≡ report_text tournament.now (map (λ day. day.now) days.now) players.now
        (places_of ranking.now.system ranking.now.criteria.items (map (λ round. round.items) rounds.now) []
        (length players.now)) teams.now
        (map (λ round. round.items) rounds.now)) }
    ensures room { IfOk result (λ _. HasRoom tournament.now (length days.now) players.now teams.now rounds.now) }
    ensures fault { IfErr result (IsFault tournament.now (length days.now) players.now teams.now rounds.now) }
{
    if let Some(fault) = fault_in(tournament, days.len(), players, teams, rounds) {
        return Err(fault);
    }
    let standings = standings_of(
        alloc,
        ranking.system,
        rounds,
        &[],
        players.len() as u32,
        ranking.criteria.as_slice(),
    )?;
    report(
        alloc,
        tournament,
        days,
        players,
        standings.places.as_slice(),
        teams,
        rounds,
    )
}
