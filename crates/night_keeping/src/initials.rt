//! How the players of a game are told to everybody.
ghost use Rattle.std.specs.Prelude.{◌≡◌, IfOk};
ghost use Rattle.std.specs.String.{string_bytes};
ghost use Rattle.night_keeping.specs.Names.{player_told};

use anyhow::{Context, Result};
use lobby_words::{NameForm, Player, known_name, name_told};
use night_games::Telling;
use std::alloc::{AllocError, Global};
use text_pgn::{value_of, with_players};

// A player as a tag tells of him: a name of the protocol as it is, which everybody is told, and a full name in a form.
fn player_told(
    alloc: Global,
    form: NameForm,
    players: &[Player],
    value: &str,
) -> Result<String, AllocError>
    ensures { IfOk result (λ told. string_bytes told ≡ player_told form players.now value.now) }
{
    match known_name(players, value) {
        Some(_) => String::from_str(alloc, value),
        None => name_told(alloc, form, value),
    }
}

// The same of the value of a tag of a PGN.
fn tag_told(
    alloc: Global,
    form: NameForm,
    players: &[Player],
    pgn: &str,
    tag: &str,
) -> Result<String> {
    let value = value_of(alloc, pgn, tag)?.context("a game has no players")?;
    Ok(player_told(alloc, form, players, value.as_str())?)
}

// Appends a PGN as everybody is told it: with the full names of the players in a form. It fails where it is no text, or
// has no players.
fn push_told(
    text: &mut Vec<u8>,
    alloc: Global,
    form: NameForm,
    players: &[Player],
    pgn: &[u8],
) -> Result<()> {
    if form == NameForm::Full {
        text.extend_from_slice(pgn)?;
        return Ok(());
    }
    let pgn = str::from_utf8(pgn).ok().context("a game is no text")?;
    let white = tag_told(alloc, form, players, pgn, "White")?;
    let black = tag_told(alloc, form, players, pgn, "Black")?;
    let told = with_players(alloc, pgn, white.as_str(), black.as_str())?;
    text.extend_from_slice(told.as_slice())?;
    Ok(())
}

/// Appends a game's PGN as everybody is told it, with what is told besides. It fails as `push_told` does.
pub fn push_with(
    text: &mut Vec<u8>,
    alloc: Global,
    form: NameForm,
    telling: &Telling<'_>,
    game: u32,
    pgn: &[u8],
) -> Result<()> {
    if telling.is_nothing() {
        return push_told(text, alloc, form, telling.players, pgn);
    }
    let pgn = str::from_utf8(pgn).ok().context("a game is no text")?;
    let told = telling.pgn(alloc, game, pgn)?;
    push_told(text, alloc, form, telling.players, told.as_bytes())
}
