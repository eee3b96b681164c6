//! Which games are watched, as a lobby's figures tell it.
use anyhow::{Result, bail};
use std::alloc::Global;
use text_parts::parts;

// Browsers whose lobby ended come back to it within so many seconds.
const RETURN: u64 = 20;

// What stands in front of the figures of games that are watched, where a lobby tells of them.
const TOLD: &str = "# TYPE chess_lobby_watchers gauge";

// The seconds since a lobby began, of the line of figures that tells it.
fn seconds_in(line: &str) -> Option<u64> {
    let text = line.strip_prefix("chess_lobby_up_seconds ")?;
    let (whole, _) = text.split_once('.')?;
    whole.parse::<u64>().ok()
}

// The game of a line of figures that tells who watches it.
fn game_in(line: &str) -> Option<u32> {
    let text = line.strip_prefix("chess_lobby_watchers{game=\"")?;
    let (game, _) = text.split_once('"')?;
    game.parse::<u32>().ok()
}

/// The games that browsers watch, by a lobby's figures. It fails where they do not tell this, or where the lobby began
/// so lately that browsers may not be back.
pub fn games_in(alloc: Global, figures: &str) -> Result<Vec<u32>> {
    let mut games = Vec::new(alloc);
    let mut is_told = false;
    let mut seconds = None;
    for line in parts(alloc, figures, '\n')?.as_slice() {
        is_told = is_told || *line == TOLD;
        if let Some(found) = seconds_in(line) {
            seconds = Some(found);
        } else if let Some(game) = game_in(line) {
            games.push(game)?;
        }
    }
    match seconds {
        Some(seconds) if is_told && seconds >= RETURN => Ok(games),
        Some(_) if is_told => bail!(
            "it began less than {RETURN} seconds ago, and browsers may not be back"
        ),
        _ => bail!("it does not tell which games are watched"),
    }
}
