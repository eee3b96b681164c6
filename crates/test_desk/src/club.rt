//! The players of the desk that is played.
use anyhow::{Context, Result};
use lobby_words::Player;
use sha2::{Digest, Sha256};
use std::alloc::{AllocError, Global};

/// A player, and the token that shows him.
#[derive(Drop)]
pub struct Member {
    pub name: String,
    pub token: String,
    pub is_arbiter: bool,
    pub full_name: String,
}

// A player, as `NAME TOKEN ROLE FULL NAME`.
fn member_of(alloc: Global, row: &str) -> Result<Member> {
    let (name, rest) = row.split_once(' ').context("a player has no token")?;
    let (token, rest) = rest.split_once(' ').context("a player has no role")?;
    let (role, full_name) = rest.split_once(' ').context("a player has no full name")?;
    Ok(Member {
        name: String::from_str(alloc, name)?,
        token: String::from_str(alloc, token)?,
        is_arbiter: role == "arbiter",
        full_name: String::from_str(alloc, full_name)?,
    })
}

/// The players of rows, with `|` between each two.
pub fn members_of(alloc: Global, rows: &str) -> Result<Vec<Member>> {
    let mut members = Vec::new(alloc);
    for row in rows.split('|') {
        members.push(member_of(alloc, row)?)?;
    }
    Ok(members)
}

/// From now on the player of a name has this token.
pub fn give_token(
    members: &mut Vec<Member>,
    alloc: Global,
    name: &str,
    token: &str,
) -> Result<(), AllocError> {
    for member in members.iter_mut() {
        if member.name.as_str() == name {
            member.token = String::from_str(alloc, token)?;
        }
    }
    Ok(())
}

/// From now on there is a player more, with this token.
pub fn add_member(
    members: &mut Vec<Member>,
    alloc: Global,
    name: &str,
    token: &str,
    full_name: &str,
) -> Result<(), AllocError> {
    members.push(Member {
        name: String::from_str(alloc, name)?,
        token: String::from_str(alloc, token)?,
        is_arbiter: false,
        full_name: String::from_str(alloc, full_name)?,
    })?;
    Ok(())
}

/// The players' file of these.
pub fn file_of(alloc: Global, members: &[Member]) -> Result<String> {
    let mut file = String::new(alloc);
    for member in members {
        let role = if member.is_arbiter {
            "arbiter"
        } else {
            "player"
        };
        let sum = hex::encode(alloc, Sha256::digest(member.token.as_str()).as_slice())?;
        let (name, full_name) = (&member.name, &member.full_name);
        let line = format!(in alloc; "{name} {role} {sum} {full_name}\n")?;
        file.push_str(line.as_str())?;
    }
    Ok(file)
}

/// The desk's players of these.
pub fn players_of(alloc: Global, members: &[Member]) -> Result<Vec<Player>> {
    let file = file_of(alloc, members)?;
    Ok(lobby_players::read(alloc, file.as_bytes())?)
}
