//! A row of the pairings.
ghost use Rattle.std.specs.Prelude.{◌≡◌, IfOk};
ghost use Rattle.std.specs.Str.{bytes_eq};
ghost use Rattle.csv.specs.Records.{fields_of};
ghost use Rattle.jiff.specs.Words as moments;
ghost use Rattle.lobby_words.specs.Words as words;
ghost use Rattle.night_rounds.specs.Rows as spec;

use crate::faults::RowFault;
use crate::times::{Times, times_of};
use csv::StringRecord;
use jiff::Timestamp;
use lobby_words::number_named;
use night_report::{Bye, cell};
use player_name::Name;
use std::alloc::{AllocError, Global};

/// A game that is to be played.
#[derive(Clone, Copy)]
pub struct Game {
    pub black: Name,
    /// None of one that is not played on the server.
    pub times: Option<Times>,
    /// When it starts, in milliseconds from 1970 on; at once without.
    pub start: Option<i64>,
}

/// What White has in a round: a game, or no opponent.
#[derive(Clone, Copy)]
pub enum Against {
    Game(Game),
    Bye(Bye),
}

/// Who plays at a board.
#[derive(Clone, Copy)]
pub struct Pairing {
    pub board: u32,
    pub white: Name,
    pub against: Against,
}

/// The name of a text.
pub fn name_of(text: &str) -> Option<Name>
    ensures { result ≡ spec.name_in text.now }
{
    Name::try_new(text)
}

// The board of a text.
fn board_of(text: &str) -> Option<u32>
    ensures { result ≡ spec.board_of (words.u32_in text.now) }
{
    match number_named(text) {
        Some(board) if board > 0 => Some(board),
        _ => None,
    }
}

// The moment of a text, in milliseconds.
fn moment_of(text: &str) -> Option<i64>
    ensures { result ≡ spec.milliseconds (moments.parse_timestamp text.now) }
{
    match text.parse::<Timestamp>() {
        Ok(moment) => Some(moment.as_millisecond()),
        Err(_) => None,
    }
}

// The start of a text.
fn start_of(text: &str) -> Option<Option<i64>>
    ensures { result ≡ spec.start_in text.now }
{
    if text.is_empty() {
        return Some(None);
    }
    match moment_of(text) {
        Some(moment) => Some(Some(moment)),
        None => None,
    }
}

// The times of a text; none where it is empty.
fn times_in(alloc: Global, text: &str) -> Result<Option<Option<Times>>, AllocError>
    ensures { IfOk result (λ times. times ≡ spec.times_if text.now) }
{
    if text.is_empty() {
        return Ok(Some(None));
    }
    match times_of(alloc, text)? {
        Some(times) => Ok(Some(Some(times))),
        None => Ok(None),
    }
}

// The fields that tell of a game.
#[derive(Clone, Copy)]
struct Fields<'a> {
    black: &'a str,
    times: &'a str,
    start: &'a str,
}

// The bye of a text that stands in the place of the times.
fn bye_in(text: &str) -> Option<Bye>
    ensures { result ≡ spec.bye_in text.now }
{
    match text {
        "" | "U" => Some(Bye::Pairing),
        "F" => Some(Bye::Full),
        "H" => Some(Bye::Half),
        "Z" => Some(Bye::Zero),
        _ => None,
    }
}

// The bye of fields, where White has no opponent.
fn bye_of(fields: Fields<'_>) -> Option<Bye>
    ensures { result ≡ spec.bye_of fields.entry.black.now fields.entry.times.now fields.entry.start.now }
{
    if fields.black.is_empty() && fields.start.is_empty() {
        bye_in(fields.times)
    } else {
        None
    }
}

// The game of White and fields.
fn game_of(
    alloc: Global,
    white: Name,
    fields: Fields<'_>,
) -> Result<Result<Game, RowFault>, AllocError>
    ensures { IfOk result (λ game. game ≡ spec.game_by_fields white fields.entry.black.now fields.entry.times.now
        fields.entry.start.now) }
{
    let Some(black) = name_of(fields.black) else {
        return Ok(Err(RowFault::BadBlack));
    };
    if white.as_str() == black.as_str() {
        return Ok(Err(RowFault::SamePlayer));
    }
    let Some(times) = times_in(alloc, fields.times)? else {
        return Ok(Err(RowFault::BadTimes));
    };
    match start_of(fields.start) {
        Some(start) => Ok(Ok(Game {
            black,
            times,
            start,
        })),
        None => Ok(Err(RowFault::BadStart)),
    }
}

/// The pairing of a row, or its first fault.
#[tactic(auto, unfolding(crate::specs::Rows::row_in))]
pub fn pairing_of(
    alloc: Global,
    row: &StringRecord,
) -> Result<Result<Pairing, RowFault>, AllocError>
    ensures { IfOk result (λ pairing. pairing ≡ spec.row_in (fields_of row.now)) }
{
    if row.len() != 5 {
        return Ok(Err(RowFault::BadShape));
    }
    let Some(board) = board_of(cell(row, 0)) else {
        return Ok(Err(RowFault::BadBoard));
    };
    let Some(white) = name_of(cell(row, 1)) else {
        return Ok(Err(RowFault::BadWhite));
    };
    let fields = Fields {
        black: cell(row, 2),
        times: cell(row, 3),
        start: cell(row, 4),
    };
    if let Some(bye) = bye_of(fields) {
        return Ok(Ok(Pairing {
            board,
            white,
            against: Against::Bye(bye),
        }));
    }
    match game_of(alloc, white, fields)? {
        Ok(game) => Ok(Ok(Pairing {
            board,
            white,
            against: Against::Game(game),
        })),
        Err(fault) => Ok(Err(fault)),
    }
}

// Whether a field is this word.
fn is_cell(row: &StringRecord, at: usize, word: &str) -> bool
    ensures { result ≡ bytes_eq (spec.cell (fields_of row.now) at) word.now }
{
    cell(row, at) == word
}

/// Whether a row is the header.
#[tactic(auto, unfolding(crate::specs::Rows::is_header))]
pub fn is_header(row: &StringRecord) -> bool
    ensures { result ≡ spec.is_header (fields_of row.now) }
{
    row.len() == 5
        && is_cell(row, 0, "board")
        && is_cell(row, 1, "white")
        && is_cell(row, 2, "black")
        && is_cell(row, 3, "times")
        && is_cell(row, 4, "start")
}
