//! The games that are kept for one player: a pairing has opened them, and nobody has joined them yet.
ghost use Rattle.std.specs.Prelude.{◌≡◌, ◌==◌, not, filter, OnOk};
ghost use Rattle.lobby_table.specs.declared.pairings.Pairing.{Pairing};
ghost use Rattle.lobby_table.specs.Pairings as spec;

use lobby_words::{Refusal, Seat, Stage, ends_wait, is_stage};
use player_name::Name;
use std::alloc::AllocError;

/// A game that a pairing has opened, and the player for whom it is kept.
#[derive(Clone, Copy)]
pub struct Pairing {
    pub game: u32,
    pub black: Name,
}

// Whether a game waits for a second player.
fn waits(seats: &[Seat], game: u32) -> bool
    ensures { result ≡ spec.waits seats.now game }
{
    seats.iter().any(|one| one.game == game && is_stage(one.stage, Stage::Waits))
}

// Whether it is this game, kept for another than this player.
fn is_other(one: &Pairing, game: u32, name: &str) -> bool
    ensures { result ≡ spec.is_other game name.now one.now }
{
    one.game == game && one.black.as_str() != name
}

// Whether a game is kept for another than this player.
fn is_kept(pairings: &[Pairing], game: u32, name: &str) -> bool
    ensures { result ≡ spec.is_kept pairings.now game name.now }
{
    pairings.iter().any(|one| is_other(one, game, name))
}

// A game is kept no more.
fn take_off(pairings: &mut Vec<Pairing>, game: u32)
    ensures { pairings.new.items ≡ spec.others game pairings.old.items }
{
    pairings.retain(|one| one.game != game);
}

/// Keeps the game that a pairing has opened for Black, if it has opened one.
pub fn keep(pairings: &mut Vec<Pairing>, black: Name, game: Option<u32>) -> Result<(), AllocError>
    ensures { OnOk result (pairings.new.items ≡ spec.pairings_opened black game pairings.old.items) }
{
    if let Some(game) = game {
        take_off(pairings, game);
        pairings.push(Pairing { game, black })?;
    }
    Ok(())
}

/// Notes an act, where it was done in a game.
pub fn note_pairing(pairings: &mut Vec<Pairing>, text: &str, game: Option<u32>)
    ensures { pairings.new.items ≡ spec.pairings_told text.now game pairings.old.items }
{
    if let Some(game) = game
        && ends_wait(text)
    {
        take_off(pairings, game);
    }
}

/// Why a player may not play in one more game: as many of his go on as may, or are over and still on the table.
pub fn game_bar(is_busy: bool, is_spent: bool) -> Option<Refusal>
    ensures { result ≡ spec.game_bar is_busy is_spent }
{
    if is_busy {
        Some(Refusal::TooManyGames)
    } else if is_spent {
        Some(Refusal::TooManyOver)
    } else {
        None
    }
}

/// Why a player may not join the game that a message names, if it names one, where this bars him from one more.
pub fn join_bar(
    seats: &[Seat],
    pairings: &[Pairing],
    bar: Option<Refusal>,
    name: &str,
    game: Option<u32>,
) -> Option<Refusal>
    ensures { result ≡ spec.join_bar seats.now pairings.now bar name.now game }
{
    match game {
        None => Some(Refusal::BadLine),
        Some(game) => {
            if waits(seats, game) && !is_kept(pairings, game, name) {
                bar
            } else {
                Some(Refusal::NotOffered)
            }
        }
    }
}

/// Why a player may not open a game, where as many of his wait as may, where the last places are for others, and where
/// this bars him.
pub fn open_bar(is_crowded: bool, is_full: bool, bar: Option<Refusal>) -> Option<Refusal>
    ensures { result ≡ spec.open_bar is_crowded is_full bar }
{
    if is_crowded {
        Some(Refusal::TooManyOpen)
    } else if is_full {
        bar.or(Some(Refusal::NearlyFull))
    } else {
        bar
    }
}
