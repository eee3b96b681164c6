//! Who of a game's players is there, how many watch it, and since when a player is away.
ghost use Rattle.std.specs.Prelude.{ℕ, ◌≡◌, ◌==◌, ◌-◌, ◌/◌, ◌++◌, ◌∷◌, [], codes, decimal, map, IfOk, OnOk};
ghost use Rattle.std.specs.Prelude.{if◌then◌else◌};
ghost use Rattle.std.specs.Option.{option_copied};
ghost use Rattle.std.specs.String.{string_bytes};
ghost use Rattle.lobby_words.specs.Players.{is_present};
ghost use Rattle.lobby_table.specs.Visitors.{who_in, open_in_map};
ghost use Rattle.lobby_table.specs.Rooms as spec;

use crate::visitors::{Visitor, is_named, open_ones, who_acts};
use crate::watching::Watch;
use itoa::Buffer;
use lobby_words::{Identity, Seat};
use player_name::Name;
use std::alloc::{AllocError, Global};
use std::collections::BTreeMap;

/// What is known of the last connection that acted for a player and acts for him no more.
#[derive(Clone, Copy)]
pub enum Left {
    /// There was none.
    Never,
    /// There was one, and nobody has said anything since.
    Lately,
    /// There was one, and the first message since then came at this moment, in milliseconds.
    At(u64),
}

/// A player for whom a connection has acted.
#[derive(Clone, Copy)]
pub struct Attendance {
    pub name: Name,
    pub left: Left,
}

// What is known of a player.
fn attendance_of<'a>(all: &'a [Attendance], name: &str) -> Option<&'a Attendance>
    ensures { option_copied result ≡ spec.attendance_of name.now all.now }
{
    all.iter().find(|one| one.name.as_str() == name)
}

// Whether a player is known.
fn is_met(all: &[Attendance], name: &str) -> bool
    ensures { result ≡ spec.is_met name.now all.now }
{
    all.iter().any(|one| one.name.as_str() == name)
}

// A player is known from now on.
fn meet(all: &mut Vec<Attendance>, who: &Option<Identity>) -> Result<(), AllocError>
    ensures { OnOk result (all.new.items ≡ spec.met who.now all.old.items) }
{
    if let Some(who) = who
        && !is_met(all.as_slice(), who.name.as_str())
    {
        all.push(Attendance {
            name: who.name,
            left: Left::Never,
        })?;
    }
    Ok(())
}

// What is known of a player when a connection that acted so acts so from now on.
fn left_if(one: &Attendance, before: &Option<Identity>, after: &Option<Identity>) -> Attendance
    ensures { result ≡ spec.left_if before.now after.now one.now }
{
    let name = one.name.as_str();
    if is_named(before, name) && !is_named(after, name) {
        Attendance {
            name: one.name,
            left: Left::Lately,
        }
    } else {
        *one
    }
}

/// Notes that a connection that acted so acts so from now on.
pub fn note_left(all: &mut [Attendance], before: &Option<Identity>, after: &Option<Identity>)
    ensures { all.new ≡ spec.left_by before.now after.now all.old }
{
    for one in all.iter_mut() {
        *one = left_if(one, before, after);
    }
}

// What is known of a player at the moment of a message: who was left before it counts as left.
fn dated_of(one: &Attendance, at: u64) -> Attendance
    ensures { result ≡ spec.dated_of at one.now }
{
    let left = match one.left {
        Left::Lately => Left::At(at),
        Left::Never | Left::At(_) => one.left,
    };
    Attendance {
        name: one.name,
        left,
    }
}

// All players, as they are known at the moment of a message.
fn date_all(all: &mut [Attendance], at: u64)
    ensures { all.new ≡ map (spec.dated_of at) all.old }
{
    for one in all.iter_mut() {
        *one = dated_of(one, at);
    }
}

/// Notes that a connection says something at a moment, which acted so before, and acts so from then on: whom it left,
/// and who was left before, counts as left.
pub fn attend(
    all: &mut Vec<Attendance>,
    before: &Option<Identity>,
    after: &Option<Identity>,
    at: u64,
) -> Result<(), AllocError>
    ensures { OnOk result (all.new.items ≡ spec.attended before.now after.now at all.old.items) }
{
    note_left(all.as_mut_slice(), before, after);
    meet(all, after)?;
    date_all(all.as_mut_slice(), at);
    Ok(())
}

// What is known of the last connection by which a player was left.
fn left_of(all: &[Attendance], name: &str) -> Left
    ensures { result ≡ spec.left_of name.now all.now }
{
    attendance_of(all, name).map_or(Left::Never, |one| one.left)
}

// Puts the digits of a number behind a text.
fn push_number(text: &mut String, number: u64) -> Result<(), AllocError>
    ensures { OnOk result (string_bytes text.new ≡ string_bytes text.old ++ decimal number) }
{
    let mut buffer = Buffer::new();
    text.push_str(buffer.format(number))
}

// Puts behind a name that its player is not there, and for how long.
fn push_away(text: &mut String, left: Left, at: u64) -> Result<(), AllocError>
    ensures { OnOk result (string_bytes text.new ≡ string_bytes text.old ++ spec.away_text left at) }
{
    match left {
        Left::Never => text.push_str(" away -\n"),
        Left::Lately => text.push_str(" away 0\n"),
        Left::At(since) => {
            text.push_str(" away ")?;
            push_number(text, at.saturating_sub(since) / 1000)?;
            text.push('\n')
        }
    }
}

// Whether one of these connections acts for the player of this name.
fn is_present(visitors: &BTreeMap<u64, Visitor>, connections: &[u64], name: &str) -> bool
    ensures { result ≡ is_present (who_in visitors.now) connections.now name.now }
{
    connections.iter().any(|connection| is_named(&who_acts(visitors, *connection), name))
}

// Puts the row of a seat behind a text, if it is one in this game.
fn push_row(
    text: &mut String,
    game: u32,
    at: u64,
    seat: &Seat,
    attendances: &[Attendance],
    visitors: &BTreeMap<u64, Visitor>,
    connections: &[u64],
) -> Result<(), AllocError>
    ensures { OnOk result (string_bytes text.new ≡ string_bytes text.old
        ++ spec.seat_row (who_in visitors.now) connections.now attendances.now game at seat.now) }
{
    if seat.game != game {
        return Ok(());
    }
    let name = seat.by.as_str();
    text.push_str(name)?;
    if is_present(visitors, connections, name) {
        text.push_str(" here\n")
    } else {
        push_away(text, left_of(attendances, name), at)
    }
}

// How many connections watch a game.
fn watching(watches: &[Watch], game: u32) -> usize
    ensures { result ≡ spec.watching game watches.now }
{
    watches.iter().filter(|watch| watch.game == game).count()
}

// How the answer to `room G` begins.
fn room_head(alloc: Global, game: u32, count: usize) -> Result<String, AllocError>
    ensures { IfOk result (λ text. string_bytes text ≡ spec.room_head game count) }
{
    let mut text = String::from_str(alloc, "ok room ")?;
    push_number(&mut text, u64::from(game))?;
    text.push(' ')?;
    push_number(&mut text, count as u64)?;
    text.push('\n')?;
    Ok(text)
}

/// The answer to `room G` at a moment: how many connections watch game G, and of each player who has a seat there
/// whether a connection acts for him that is open.
pub fn room_text(
    alloc: Global,
    game: u32,
    at: u64,
    seats: &[Seat],
    watches: &[Watch],
    attendances: &[Attendance],
    visitors: &BTreeMap<u64, Visitor>,
) -> Result<String, AllocError>
    ensures { IfOk result (λ text. spec.IsRoom (record {
      seats = seats.now;
      watches = watches.now;
      attendances = attendances.now;
      is_open = open_in_map visitors.now;
      acts_for = who_in visitors.now;
    }) game at (string_bytes text)) }
{
    let all = open_ones(alloc, visitors)?;
    let mut text = room_head(alloc, game, watching(watches, game))?;
    for seat in seats {
        push_row(
            &mut text,
            game,
            at,
            seat,
            attendances,
            visitors,
            all.as_slice(),
        )?;
    }
    Ok(text)
}
