//! The standings of teams, by their matches.
use crate::asked::{Form, Standing};
use crate::json::{Board, round_json};
use crate::places::{Standings, standings_of};
use crate::texts::{Boards, Table};
use anyhow::{Result, bail, ensure};
use night_report::{
    Meeting, Particulars, Team, all_board_points, all_matches, are_few, is_matched, sides_of,
    teams_of,
};
use std::alloc::{AllocError, Global};

// Fails where a board of a round is of no match.
fn check_round(
    players: &[Particulars<'_>],
    sides: &[u32],
    number: usize,
    round: &[Meeting],
) -> Result<()> {
    for meeting in round {
        if !is_matched(sides, round, *meeting) {
            let white = meeting.white as usize;
            let name = players
                .get(white.saturating_sub(1))
                .map_or("", |player| player.name);
            bail!(
                "round {number}: the board of {name} is of no match: a player there has no team, both are of one, or a \
                team meets two"
            );
        }
    }
    Ok(())
}

// Fails where it does so in a round.
fn check_rounds(players: &[Particulars<'_>], sides: &[u32], rounds: &[Vec<Meeting>]) -> Result<()> {
    let mut number: usize = 0;
    for round in rounds {
        number = number.saturating_add(1);
        check_round(players, sides, number, round.as_slice())?;
    }
    Ok(())
}

// The matches of a round, numbered from 1 on.
fn numbered(alloc: Global, matches: &[Meeting]) -> Result<Vec<Board<'static>>, AllocError> {
    let mut boards = Vec::new(alloc);
    let mut number: u32 = 0;
    for meeting in matches {
        number = number.saturating_add(1);
        boards.push(Board {
            number,
            game: None,
            meeting: *meeting,
            law: None,
        })?;
    }
    Ok(boards)
}

// The text of standings of teams, of which the matches are these, in the form that is asked for.
fn text_of<'a>(
    alloc: Global,
    asked: &'a Standing<'_>,
    names: &[&str],
    sides: &'a [u32],
    rounds: &'a [Vec<Meeting>],
    matches: &[Vec<Meeting>],
    standings: &'a Standings,
) -> Result<Vec<u8>, AllocError> {
    let table = Table {
        names,
        criteria: asked.ranking.criteria.as_slice(),
        standings,
        boards: Some(Boards { sides, rounds }),
    };
    match asked.form {
        Form::Crosstable => table.crosstable_csv(alloc, matches),
        Form::Json => {
            let mut boards = Vec::new(alloc);
            for round in matches {
                boards.push(numbered(alloc, round.as_slice())?)?;
            }
            let event = asked.reporting.tournament.name;
            round_json(alloc, event, boards.as_slice(), names, table)
        }
        Form::Report | Form::Rows => table.standings_csv(alloc),
    }
}

// The same, where matches and standings are still to be found.
fn text_by(
    alloc: Global,
    asked: &Standing<'_>,
    players: &[Particulars<'_>],
    teams: &[Team<'_>],
    sides: &[u32],
    rounds: &[Vec<Meeting>],
) -> Result<Vec<u8>> {
    ensure!(rounds.len() <= 99, "standings are of 99 rounds at most");
    ensure!(teams.len() <= 9_999, "standings are of 9,999 teams at most");
    ensure!(
        are_few(rounds),
        "standings are of 9,999 boards a round at most"
    );
    let count = teams.len() as u32;
    check_rounds(players, sides, rounds)?;
    let matches = all_matches(alloc, sides, rounds, count)?;
    let points = all_board_points(alloc, sides, rounds, count)?;
    let standings = standings_of(
        alloc,
        asked.ranking.system,
        matches.as_slice(),
        points.as_slice(),
        count,
        asked.ranking.criteria.as_slice(),
    )?;
    let names: Vec<&str> = teams.iter().map(|team| team.name).collect(alloc)?;
    Ok(text_of(
        alloc,
        asked,
        names.as_slice(),
        sides,
        rounds,
        matches.as_slice(),
        &standings,
    )?)
}

/// The text of the standings of the players' teams, by match points, and among those who are tied by one tie-break
/// after another. It fails where no player has a team, and where a board is of no match.
pub fn teams_text(
    alloc: Global,
    asked: &Standing<'_>,
    players: &[Particulars<'_>],
    rounds: &[Vec<Meeting>],
) -> Result<Vec<u8>> {
    let teams = teams_of(alloc, players)?;
    ensure!(
        !teams.is_empty(),
        "no player has a team: --particulars has a column for it"
    );
    ensure!(
        players.len() <= 9_999 && teams.len() <= 9_999,
        "standings are of 9,999 players at most"
    );
    let sides = sides_of(alloc, teams.as_slice(), players.len() as u32)?;
    text_by(
        alloc,
        asked,
        players,
        teams.as_slice(),
        sides.as_slice(),
        rounds,
    )
}
