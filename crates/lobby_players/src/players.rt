//! The players of a file.
use crate::file::read_regular;
use anyhow::{Context, Result};
use lobby_words::Player;
use std::rt::Files;

/// The players of a file. It fails where there is no file, or what it has is no players' file.
pub fn players_of<R: Files + AllocGlobal>(rt: &R, file: &str) -> Result<Vec<Player>> {
    let text = read_regular(rt, file).context(format_args!("reading {file}"))?;
    crate::read(rt.alloc(), text.as_slice()).context(format_args!("{file}"))
}

/// The players of a file that is to take the place of one by which a lobby serves. It fails where there is no file, or
/// what it has is no players' file, and also where that has no player, or its last line no end.
pub fn later_players_of<R: Files + AllocGlobal>(rt: &R, file: &str) -> Result<Vec<Player>> {
    let text = read_regular(rt, file).context(format_args!("reading {file}"))?;
    crate::reread(rt.alloc(), text.as_slice()).context(format_args!("{file}"))
}

/// The full name of a player, and the name itself where it is not among the players.
pub fn full_name<'a>(players: &'a [Player], name: &'a str) -> &'a str {
    for player in players {
        if player.name.as_str() == name {
            return player.full_name.as_str();
        }
    }
    name
}
