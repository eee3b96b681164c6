//! The word that puts a player into a players' file.
use crate::adding::{Addition, WithPlayer, added};
use crate::file::{Hold, put_file, read_file};
use crate::reading::read;
use crate::token::{forget, link_text, new_token};
use anyhow::{Context, Result};
use caseless::compatibility_caseless_match_str;
use lobby_words::Player;
use rand::rngs::SysRng;
use std::alloc::{AllocError, Global};
use std::fs::File;
use std::random::RandomSource;
use std::rt::Files;

/// Who is put into a players' file, and the address of the page for the link.
#[derive(Clone, Copy)]
pub struct Adding<'a> {
    pub name: &'a str,
    pub full_name: &'a str,
    pub is_arbiter: bool,
    pub players: &'a str,
    pub page: &'a str,
}

// A text without its spaces.
fn unspaced(alloc: Global, text: &str) -> Result<String, AllocError> {
    let mut letters = String::new(alloc);
    for letter in text.chars() {
        if letter != ' ' {
            letters.push(letter)?;
        }
    }
    Ok(letters)
}

// Whether two full names are one but for spaces, small and capital letters, and forms of one letter.
fn is_alike(alloc: Global, one: &str, other: &str) -> Result<bool, AllocError> {
    let (one, other) = (unspaced(alloc, one)?, unspaced(alloc, other)?);
    compatibility_caseless_match_str(alloc, one.as_str(), other.as_str())
}

// Tells on standard error of the other players whose full name is like this one's.
fn tell_alike<R>(rt: &R, adding: &Adding<'_>, players: &[Player]) -> Result<()>
where
    R: AllocGlobal + Eprint,
{
    for player in players {
        let (name, full_name) = (player.name.as_str(), player.full_name.as_str());
        if name != adding.name && is_alike(rt.alloc(), full_name, adding.full_name)? {
            let _ = eprintln!(rt;
                "{name} is {full_name} too: by their full names alone nobody tells them apart"
            );
        }
    }
    Ok(())
}

// The text of the players' file with a player who has this token.
fn with_player<R>(rt: &R, adding: &Adding<'_>, token: &[u8; 16]) -> Result<WithPlayer>
where
    R: Files + AllocGlobal + Eprint,
{
    let file = adding.players;
    let text = read_file(rt, file).context(format_args!("reading {file}"))?;
    let who = Addition {
        name: adding.name,
        full_name: adding.full_name,
        is_arbiter: adding.is_arbiter,
    };
    let new = added(rt.alloc(), text.as_slice(), &who, token)?;
    let players = read(rt.alloc(), text.as_slice())?;
    tell_alike(rt, adding, players.as_slice())?;
    Ok(new)
}

// Puts a player into a players' file that is held, and tells on standard error whether the file had nobody of the
// name; the personal link.
fn put_player<R>(rt: &R, adding: &Adding<'_>) -> Result<String>
where
    R: Files<File = File> + AllocGlobal + Eprint + RandomSource,
{
    let (file, name) = (adding.players, adding.name);
    let mut token = new_token(&mut SysRng::new(rt))?;
    let new = with_player(rt, adding, &token)?;
    let link = link_text(rt.alloc(), adding.page, &token)?;
    token.fill(0);
    put_file(rt, rt.alloc(), file, new.text.as_str()).context(format_args!("writing {file}"))?;
    let how = if new.is_new {
        "is new"
    } else {
        "is renewed: the link before holds no more"
    };
    let _ = eprintln!(rt; "{name} {how}");
    Ok(link)
}

/// Puts a player into a players' file, and prints the personal link.
pub fn add_player<R>(rt: &R, adding: &Adding<'_>) -> Result<()>
where
    R: Files<File = File> + AllocGlobal + Print + Eprint + RandomSource,
{
    let file = adding.players;
    let _hold = Hold::wait(rt, file).context(format_args!("locking the folder of {file}"))?;
    let link = put_player(rt, adding)?;
    println!(rt; "{link}")?;
    forget(link);
    Ok(())
}
