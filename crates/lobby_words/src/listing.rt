//! The games on the server's table, as its answers tell: each waits for a second player, goes on, or is over.
ghost use Rattle.std.specs.Prelude.{◌≡◌, ◌++◌, IfOk, OnOk};
ghost use Rattle.lobby_words.specs.Waiting as spec;

use crate::answers::first_line;
use crate::words::{cut_word, line_said};
use player_name::Name;
use server_answers::{Row, list_head_of, row_of};
use std::alloc::{AllocError, Global};
use text_parts::parts;

/// How a game on the table stands.
#[derive(Clone, Copy)]
pub enum Stage {
    /// It waits for its second player.
    Waits,
    /// It goes on.
    Plays,
    /// It is over, and still there.
    Over,
}

/// A seat of a player in a game on the table.
#[derive(Clone, Copy)]
pub struct Seat {
    pub game: u32,
    pub by: Name,
    pub stage: Stage,
}

/// Whether a game stands so.
pub fn is_stage(stage: Stage, wanted: Stage) -> bool
    ensures { result ≡ spec.is_stage stage wanted }
{
    matches!(
        (stage, wanted),
        (Stage::Waits, Stage::Waits) | (Stage::Plays, Stage::Plays) | (Stage::Over, Stage::Over)
    )
}

/// Whether a message opens a game.
pub fn opens_game(text: &str) -> bool
    ensures { result ≡ spec.opens_game text.now }
{
    let (word, _) = cut_word(line_said(text));
    word == "open"
}

/// Whether a message joins a game.
pub fn joins_game(text: &str) -> bool
    ensures { result ≡ spec.joins_game text.now }
{
    let (word, _) = cut_word(line_said(text));
    word == "join"
}

/// Whether a message is one by which a game waits no more; of a pairing that is its second act.
pub fn ends_wait(text: &str) -> bool
    ensures { result ≡ spec.ends_wait text.now }
{
    let (word, _) = cut_word(line_said(text));
    matches!(word, "join" | "drop" | "pair")
}

/// A seat of this player in the game of a number, which stands so; none where no player can have the name.
#[tactic(auto, using(crate::proofs::Names::name_is, crate::proofs::Names::name_is_not))]
pub fn seat_of(game: Option<u32>, seated: &str, stage: Stage) -> Option<Seat>
    ensures { result ≡ spec.seat_of game seated.now stage }
{
    let game = game?;
    let by = Name::try_new(seated)?;
    Some(Seat { game, by, stage })
}

// How the game of a row stands.
fn stage_of(row: &Row) -> Stage
    ensures { result ≡ spec.stage_of row.now }
{
    if row.seats.white.is_none() || row.seats.black.is_none() {
        Stage::Waits
    } else if row.result.is_none() {
        Stage::Plays
    } else {
        Stage::Over
    }
}

// Puts the seat of a player behind others, if there is one.
fn push_seat(
    seats: &mut Vec<Seat>,
    game: u32,
    by: Option<Name>,
    stage: Stage,
) -> Result<(), AllocError>
    ensures { OnOk result (seats.new.items ≡ seats.old.items ++ spec.listed game stage by) }
{
    if let Some(by) = by {
        seats.push(Seat { game, by, stage })?;
    }
    Ok(())
}

// Puts the seats in the game of a row behind others.
fn push_seats(seats: &mut Vec<Seat>, row: &Row) -> Result<(), AllocError>
    ensures { OnOk result (seats.new.items ≡ seats.old.items ++ spec.seats_of row.now) }
{
    let stage = stage_of(row);
    push_seat(seats, row.game, row.seats.white, stage)?;
    push_seat(seats, row.game, row.seats.black, stage)
}

// Adds the seats in the game that a line tells of, if it is a row.
fn add_row(seats: &mut Vec<Seat>, line: &str) -> Result<(), AllocError>
    ensures { OnOk result (seats.new.items ≡ seats.old.items ++ spec.seats_row line.now) }
{
    match row_of(line) {
        None => Ok(()),
        Some(row) => push_seats(seats, &row),
    }
}

/// Whether an answer is one to `list` that is accepted.
pub fn is_list(answer: &str) -> bool
    ensures { result ≡ spec.is_list answer.now }
{
    list_head_of(first_line(answer)).is_some()
}

/// The seats in the games by the rows of the answer to `list`.
pub fn seats_in(alloc: Global, list: &str) -> Result<Vec<Seat>, AllocError>
    ensures { IfOk result (λ seats. seats.items ≡ spec.seats_in list.now) }
{
    let rows = parts(alloc, list, '\n')?;
    let mut seats = Vec::new(alloc);
    for row in rows.as_slice() {
        add_row(&mut seats, row)?;
    }
    Ok(seats)
}
