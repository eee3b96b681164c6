//! What is to be done about a board.
ghost use Rattle.std.specs.Prelude.{◌≡◌, ◌++◌, ℕ, option_map, IfOk, OnOk};
ghost use Rattle.night_rounds.specs.Newer as newer;
ghost use Rattle.night_rounds.specs.Notes.{reached};
ghost use Rattle.night_rounds.specs.Steps as spec;

use crate::notes::Stage;
use player_name::Name;
use std::alloc::{AllocError, Global};

/// A game of the table, and who sits in it.
#[derive(Clone, Copy)]
pub struct Row {
    pub game: u32,
    pub white: Option<Name>,
    pub black: Option<Name>,
}

/// Who sits in a game.
#[derive(Clone, Copy)]
pub struct Seats {
    pub white: Option<Name>,
    pub black: Option<Name>,
}

/// What is to be done about a board.
#[derive(Clone, Copy)]
pub enum Step {
    /// It is to be noted that its game is about to be opened, and which is the newest of the older ones, and then it is
    /// to be paired.
    Begin,
    /// It is to be paired: the lobby opens its game under White's name and joins it under Black's.
    Pair,
    /// This is its game, which is to be noted.
    Take(u32),
    /// Black is to join its game, in which the lobby left White alone, since it or its server ended in between.
    Join(u32),
    /// Black has joined its game, which is to be noted.
    Note(u32),
    /// This is its game, and nothing more is to be done.
    Has(u32),
    /// The arbiter is to say which game is its, or that it is to be opened.
    Ask,
}

fn is_free_for(name: &Name, seat: Option<Name>) -> bool
    ensures { result ≡ spec.is_free_for name.now seat }
{
    match seat {
        None => true,
        Some(other) => other.as_str() == name.as_str(),
    }
}

fn sits(name: &Name, seat: Option<Name>) -> bool
    ensures { result ≡ spec.sits name.now seat }
{
    match seat {
        None => false,
        Some(other) => other.as_str() == name.as_str(),
    }
}

/// Whether a game is newer than this one, where there is one.
pub fn is_newer(older: Option<u32>, number: u32) -> bool
    ensures { result ≡ newer.is_newer older number }
{
    match older {
        None => true,
        Some(one) => one < number,
    }
}

/// The table's newest game: whatever is newer than it is newer than all of the table.
pub fn newest(rows: &[Row]) -> Option<u32>
    ensures { (n : ℕ) → newer.is_newer result n ≡ newer.is_newest (spec.numbers_of rows.now) n }
{
    let mut newest = None;
    for row in rows {
        if is_newer(newest, row.game) {
            newest = Some(row.game);
        }
    }
    newest
}

fn may_be(older: Option<u32>, white: &Name, row: &Row) -> bool
    ensures { result ≡ spec.may_be older white.now row.now }
{
    is_newer(older, row.game) && sits(white, row.white)
}

fn push_where(
    games: &mut Vec<u32>,
    older: Option<u32>,
    white: &Name,
    row: &Row,
) -> Result<(), AllocError>
    ensures { OnOk result (games.new.items ≡ games.old.items ++ spec.game_where older white.now row.now) }
{
    if may_be(older, white, row) {
        games.push(row.game)?;
    }
    Ok(())
}

/// The games of the table that may be a board's, of which it was noted that it is newer than this one. One that
/// somebody else has joined is among them: another is not to be opened in its place.
pub fn candidates(
    alloc: Global,
    older: Option<u32>,
    white: &Name,
    rows: &[Row],
) -> Result<Vec<u32>, AllocError>
    ensures { IfOk result (λ games. games.items ≡ spec.candidates_in older white.now rows.now) }
{
    let mut games = Vec::new(alloc);
    for row in rows {
        push_where(&mut games, older, white, row)?;
    }
    Ok(games)
}

// What is to be done about a board of which it was noted that its game is about to be opened, by the games that may be
// its and have its times.
fn step_of_games(games: &[u32]) -> Step
    ensures { result ≡ spec.step_of_games games.now }
{
    match games {
        [] => Step::Pair,
        [game] => Step::Take(*game),
        _ => Step::Ask,
    }
}

// What is to be done about a board whose game was noted, by who sits in it; `None` where it is not on the table.
fn step_of_seats(game: u32, white: &Name, black: &Name, seats: Option<Seats>) -> Step
    ensures { result ≡ spec.step_of_seats game white.now black.now seats }
{
    let Some(seats) = seats else {
        return Step::Ask;
    };
    if !sits(white, seats.white) {
        Step::Ask
    } else if sits(black, seats.black) {
        Step::Note(game)
    } else if is_free_for(black, seats.black) {
        Step::Join(game)
    } else {
        Step::Ask
    }
}

/// What is to be done about a board, by its last note. `games` are those that may be its and have its times, where it
/// was noted that it is about to be opened; `seats` those of its game, where that was opened and is on the table.
pub fn step_of(
    white: &Name,
    black: &Name,
    stage: Option<&Stage>,
    games: &[u32],
    seats: Option<Seats>,
) -> Step
    ensures { result ≡ spec.step_of white.now black.now (option_map (λ s. reached s.now) stage.entry) games.now seats }
{
    match stage {
        None => Step::Begin,
        Some(Stage::Opening(_)) => step_of_games(games),
        Some(Stage::Opened(game)) => step_of_seats(*game, white, black, seats),
        Some(Stage::Joined(game)) => Step::Has(*game),
    }
}
