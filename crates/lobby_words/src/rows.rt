//! How players are told.
ghost use Rattle.std.specs.Prelude.{◌≡◌, ◌++◌, codes, decimal, IfOk, OnOk, find};
ghost use Rattle.std.specs.HashSet.{contains_text};
ghost use Rattle.std.specs.Option.{option_copied};
ghost use Rattle.std.specs.Str.{bytes_eq};
ghost use Rattle.std.specs.String.{string_bytes};
ghost use Rattle.lobby_words.specs.Answers.{ended};
ghost use Rattle.lobby_words.specs.Players.{role_text, row_of, known_name, full_name_of, login_text, players_text};
ghost use Rattle.lobby_words.specs.Players.{who_front, who_text};
ghost use Rattle.lobby_words.specs.Plans.{taken_text};

use crate::Identity;
use crate::players::Player;
use itoa::Buffer;
use player_name::Name;
use std::alloc::{AllocError, Global};
use std::collections::HashSet;

// The word of a role, as it stands between a name and a full name.
fn role_text(is_arbiter: bool) -> &'static str
    ensures { result.now ≡ role_text is_arbiter }
{
    if is_arbiter { " arbiter " } else { " player " }
}

// A player's name and role, as they stand before the full name.
fn push_front(text: &mut String, name: &str, is_arbiter: bool) -> Result<(), AllocError>
    ensures { OnOk result (string_bytes text.new ≡ string_bytes text.old ++ (name.now ++ role_text is_arbiter)) }
{
    text.push_str(name)?;
    text.push_str(role_text(is_arbiter))
}

// The row of a player.
fn push_player(text: &mut String, player: &Player) -> Result<(), AllocError>
    ensures { OnOk result (string_bytes text.new ≡ string_bytes text.old ++ row_of player.now) }
{
    push_front(text, player.name.as_str(), player.is_arbiter)?;
    text.push_str(player.full_name.as_str())?;
    text.push('\n')
}

/// The first player of a name; `None` where nobody has it.
pub fn player_by_name<'a>(players: &'a [Player], name: &str) -> Option<&'a Player>
    ensures { option_copied result ≡ find (λ player. bytes_eq player.name name.now) players.now }
{
    players.iter().find(|player| player.name.as_str() == name)
}

/// A name, where a player has it.
pub fn known_name(players: &[Player], name: &str) -> Option<Name>
    ensures { result ≡ known_name players.now name.now }
{
    player_by_name(players, name).map(|player| player.name)
}

// The full name of the first player of a name.
fn full_name_of<'a>(players: &'a [Player], name: &str) -> &'a str
    ensures { result.now ≡ full_name_of players.now name.now }
{
    player_by_name(players, name).map_or("", |player| player.full_name.as_str())
}

/// The refusal to add a player, since this one has the name, or one like it.
pub fn taken_line(alloc: Global, name: &Name) -> Result<String, AllocError>
    ensures { IfOk result (λ text. string_bytes text ≡ taken_text name.now) }
{
    let mut text = String::from_str(alloc, "no 50 NameTaken ")?;
    text.push_str(name.as_str())?;
    text.push('\n')?;
    Ok(text)
}

/// The answer to a `login` that is accepted.
pub fn login_line(alloc: Global, who: &Identity, players: &[Player]) -> Result<String, AllocError>
    ensures { IfOk result (λ text. string_bytes text ≡ login_text players.now who.now) }
{
    let mut text = String::from_str(alloc, "ok login ")?;
    let name = who.name.as_str();
    push_front(&mut text, name, who.is_arbiter)?;
    text.push_str(full_name_of(players, name))?;
    text.push('\n')?;
    Ok(text)
}

/// A word that ends with a space, a number, and a line feed.
pub fn headed(alloc: Global, word: &str, number: u64) -> Result<String, AllocError>
    ensures { IfOk result (λ text. string_bytes text ≡ word.now ++ decimal number ++ codes "\n") }
{
    let mut buffer = Buffer::new();
    let mut text = String::from_str(alloc, word)?;
    text.push_str(buffer.format(number))?;
    text.push('\n')?;
    Ok(text)
}

/// The answer to `players`.
pub fn player_rows(alloc: Global, players: &[Player]) -> Result<String, AllocError>
    ensures { IfOk result (λ text. string_bytes text ≡ players_text players.now) }
{
    let mut text = headed(alloc, "ok players ", players.len() as u64)?;
    for player in players {
        push_player(&mut text, player)?;
    }
    Ok(text)
}

/// Whether a player is one of these.
pub fn is_among(names: &HashSet<String>, player: &Player) -> bool
    ensures { result ≡ contains_text names.now player.now.name }
{
    names.contains(player.name.as_str())
}

// A name, and a line feed.
fn push_name(text: &mut String, name: &Name) -> Result<(), AllocError>
    ensures { OnOk result (string_bytes text.new ≡ string_bytes text.old ++ ended name.now) }
{
    text.push_str(name.as_str())?;
    text.push('\n')
}

// How the answer to `who` begins.
fn who_front(is_paused: bool) -> &'static str
    ensures { result.now ≡ who_front is_paused }
{
    if is_paused {
        "ok who paused "
    } else {
        "ok who open "
    }
}

/// The answer to `who` that tells whether entries are paused, and names.
pub fn who_text(alloc: Global, is_paused: bool, names: &[Name]) -> Result<String, AllocError>
    ensures { IfOk result (λ text. string_bytes text ≡ who_text is_paused names.now) }
{
    let mut text = headed(alloc, who_front(is_paused), names.len() as u64)?;
    for name in names {
        push_name(&mut text, name)?;
    }
    Ok(text)
}
