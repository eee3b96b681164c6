ghost use Rattle.std.specs.Prelude.{IfOk, IsTrue};
ghost use Rattle.chess_mates.specs.Answers.{IsTrueAnswer};

use crate::closing::{has_like, is_closed};
use crate::lines::is_mating_line;
use crate::material::{is_alone, is_dead};
use crate::seeking::{Found, Search};
use chess_bits::Colour;
use chess_board::{Board, Move};
use chess_san::rewound;
use std::alloc::{AllocError, Global};

/// Why a side cannot checkmate.
#[derive(Clone, Copy)]
pub enum Reason {
    /// It has its king alone.
    KingAlone,
    /// Of the men that are left neither side can mate: the kings alone, with one knight, or with bishops on squares of
    /// one colour.
    DeadMaterial,
    /// Every position that legal moves lead to was looked at.
    Searched,
}

/// Whether a side can checkmate.
#[derive(Drop)]
pub enum Answer {
    /// It can: legal moves of both sides, at whose end it has given checkmate.
    Mates(Vec<Move>),
    /// It cannot.
    Cannot(Reason),
    /// It was not found out: more positions can be reached than are looked at.
    Unknown,
}

// The answer where a search has found mate at a place.
fn mate_at(
    alloc: Global,
    board: &Board,
    side: Colour,
    search: &Search,
    place: usize,
) -> Result<Answer, AllocError>
    ensures { IfOk result (IsTrueAnswer side board.now) }
{
    let line = search.line_to(alloc, place)?;
    if is_mating_line(&rewound(board), side, line.as_slice()) {
        Ok(Answer::Mates(line))
    } else {
        Ok(Answer::Unknown)
    }
}

// The answer where a search has found no mate.
fn none_in(board: &Board, side: Colour, search: &Search) -> Answer
    ensures { IsTrueAnswer side board.now result }
{
    let boards = search.boards();
    let places = search.places();
    if !has_like(boards, places, board) {
        return Answer::Unknown;
    }
    if !is_closed(boards, places, side) {
        return Answer::Unknown;
    }
    Answer::Cannot(Reason::Searched)
}

// The answer of a search.
fn searched(alloc: Global, board: &Board, side: Colour) -> Result<Answer, AllocError>
    ensures { IfOk result (IsTrueAnswer side board.now) }
{
    let mut search = Search::new(alloc, &rewound(board), side)?;
    match search.run()? {
        Found::Mate(place) => mate_at(alloc, board, side, &search, place),
        Found::All => Ok(none_in(board, side, &search)),
        Found::More => Ok(Answer::Unknown),
    }
}

/// Whether a side can checkmate by any series of legal moves, whoever is to move (FIDE articles 5.2.2 and 6.9). What it
/// answers is so; `Unknown` where too many positions can be reached. It fails where memory is refused.
pub fn decide(alloc: Global, board: &Board, side: Colour) -> Result<Answer, AllocError>
    ensures { IfOk result (IsTrueAnswer side board.now) }
{
    if is_alone(board, side) {
        Ok(Answer::Cannot(Reason::KingAlone))
    } else if is_dead(board) {
        Ok(Answer::Cannot(Reason::DeadMaterial))
    } else {
        searched(alloc, board, side)
    }
}
