//! The players of a tournament, in the order of their starting numbers.
use anyhow::{Result, bail};
use lobby_words::{NameForm, Player, name_told};
use night_report::{Particulars, starting_order};
use std::alloc::{AllocError, Global};

// A player of the players' file, with what is known of the player besides.
fn entrant_of<'a>(player: &'a Player, known: &[Particulars<'a>]) -> Particulars<'a> {
    let name = player.name.as_str();
    let full_name = player.full_name.as_str();
    match known.iter().find(|told| told.name == name) {
        Some(told) if told.full_name.is_empty() => Particulars { full_name, ..*told },
        Some(told) => *told,
        None => Particulars {
            name,
            full_name,
            sex: "",
            title: "",
            rating: "",
            federation: "",
            fide_number: "",
            born: "",
            team: "",
            board: "",
        },
    }
}

// Fails where something is known of who is none of these players: the name may be misspelled.
fn check_known(players: &[Particulars<'_>], known: &[Particulars<'_>]) -> Result<()> {
    let mut row: usize = 1;
    for told in known {
        row = row.saturating_add(1);
        if !players.iter().any(|player| player.name == told.name) {
            let name = told.name;
            bail!("row {row} of the particulars: {name} is no player of the players' file");
        }
    }
    Ok(())
}

/// The players who are no arbiters, with what is known of them: in the order of the players' file, and where anything
/// is known of them, as FIDE orders them. It fails where something is known of others.
pub fn entrants_of<'a>(
    alloc: Global,
    all: &'a [Player],
    known: &[Particulars<'a>],
) -> Result<Vec<Particulars<'a>>> {
    let mut players = Vec::new(alloc);
    for player in all {
        if !player.is_arbiter {
            players.push(entrant_of(player, known))?;
        }
    }
    check_known(players.as_slice(), known)?;
    if known.is_empty() {
        return Ok(players);
    }
    Ok(starting_order(alloc, players.as_slice())?)
}

/// The full names of players, as they are told.
pub fn shown_names(
    alloc: Global,
    players: &[Particulars<'_>],
    form: NameForm,
) -> Result<Vec<String>, AllocError> {
    let mut names = Vec::new(alloc);
    for player in players {
        names.push(name_told(alloc, form, player.full_name)?)?;
    }
    Ok(names)
}
