//! The acts that the server refused, of each game since it accepted one there.
ghost use Rattle.std.specs.Prelude.{◌≡◌, OnOk};
ghost use Rattle.lobby_table.specs.Refusals as spec;

use crate::adding::number_after;
use lobby_words::{
    cut_word, first_line, game_told, is_entered, is_pair, is_table_act, line_said, number_named,
};
use server_answers::{Refusal, refusal_of};
use std::alloc::AllocError;

/// A game, and how many acts of who plays in it were refused since one was accepted there.
#[derive(Clone, Copy)]
pub struct RefusedActs {
    pub game: u32,
    pub count: u64,
}

// Whether a refusal is of who plays in the game.
fn is_of_seated(refusal: Option<Refusal>) -> bool
    ensures { result ≡ spec.is_of_seated refusal }
{
    !matches!(
        refusal,
        None | Some(Refusal::BadLine | Refusal::NoName | Refusal::NoGame | Refusal::NotSeated)
    )
}

// Whether an answer refuses what one who plays in a game asked there.
fn is_refusal(answer: &str) -> bool
    ensures { result ≡ spec.is_refusal answer.now }
{
    is_of_seated(refusal_of(first_line(answer)))
}

/// The game that the line of an act names; a pairing names two players.
pub fn game_named(text: &str) -> Option<u32>
    ensures { result ≡ spec.game_named text.now }
{
    let (_, rest) = cut_word(line_said(text));
    let (game, _) = cut_word(rest);
    if is_pair(text) {
        None
    } else {
        number_named(game)
    }
}

// The game in which an answer refuses an act of who plays in it.
fn refused_game(text: &str, answer: &str) -> Option<u32>
    ensures { result ≡ spec.refused_game text.now answer.now }
{
    if is_refusal(answer) && !is_table_act(text) {
        game_named(text)
    } else {
        None
    }
}

// How many acts were refused in a game.
fn count_in(refused: &[RefusedActs], game: u32) -> u64
    ensures { result ≡ spec.count_in game refused.now }
{
    refused
        .iter()
        .find(|one| one.game == game)
        .map_or(0, |one| one.count)
}

/// How many acts were refused in a game, if one is named.
pub fn count_of(refused: &[RefusedActs], game: Option<u32>) -> u64
    ensures { result ≡ spec.count_of game refused.now }
{
    game.map_or(0, |game| count_in(refused, game))
}

// None was refused in a game any more.
fn take_off(refused: &mut Vec<RefusedActs>, game: u32)
    ensures { refused.new.items ≡ spec.without game refused.old.items }
{
    refused.retain(|one| one.game != game);
}

// One more was refused in a game, if one is named.
fn add_one(refused: &mut Vec<RefusedActs>, game: Option<u32>) -> Result<(), AllocError>
    ensures { OnOk result (refused.new.items ≡ spec.one_more game refused.old.items) }
{
    if let Some(game) = game {
        let count = number_after(count_in(refused.as_slice(), game))?;
        take_off(refused, game);
        refused.push(RefusedActs { game, count })?;
    }
    Ok(())
}

/// Notes the answer to an act.
pub fn note_refused(
    refused: &mut Vec<RefusedActs>,
    text: &str,
    answer: &str,
) -> Result<(), AllocError>
    ensures { OnOk result (refused.new.items ≡ spec.refused_told text.now answer.now refused.old.items) }
{
    if is_entered(answer) {
        if let Some(game) = game_told(answer) {
            take_off(refused, game);
        }
        Ok(())
    } else {
        add_one(refused, refused_game(text, answer))
    }
}
