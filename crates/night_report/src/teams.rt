//! The teams of players.
use crate::particulars::Particulars;
use std::alloc::{AllocError, Global};

/// A team, and the starting numbers of its players in the order of their boards.
#[derive(Drop)]
pub struct Team<'a> {
    pub name: &'a str,
    pub numbers: Vec<u32>,
}

// The starting numbers of a team's players, in the order of their boards; who has none is behind the others.
fn numbers_of(
    alloc: Global,
    players: &[Particulars<'_>],
    team: &str,
) -> Result<Vec<u32>, AllocError> {
    let mut members = Vec::new(alloc);
    let mut number: u32 = 0;
    for player in players {
        number = number.saturating_add(1);
        if player.team == team {
            let board = player.board.parse::<u32>().unwrap_or(u32::MAX);
            members.push((board, number))?;
        }
    }
    members.sort()?;
    members.iter().map(|member| member.1).collect(alloc)
}

/// The teams of players, who are numbered from 1 on in their order: in the order in which their first players stand
/// there, and within a team by their boards, and who have the same one, or none, behind the others by their numbers. It
/// fails where memory is refused.
pub fn teams_of<'a>(
    alloc: Global,
    players: &[Particulars<'a>],
) -> Result<Vec<Team<'a>>, AllocError> {
    let mut teams: Vec<Team<'_>> = Vec::new(alloc);
    for player in players {
        let name = player.team;
        if !name.is_empty() && !teams.iter().any(|team| team.name == name) {
            let numbers = numbers_of(alloc, players, name)?;
            teams.push(Team { name, numbers })?;
        }
    }
    Ok(teams)
}
