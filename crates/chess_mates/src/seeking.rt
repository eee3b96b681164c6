ghost use Rattle.std.specs.Prelude.{◌≤◌};

use crate::lines::is_mated_by;
use crate::nearness::distance;
use crate::places::Places;
use chess_bits::Colour;
use chess_board::{Board, Move};
use chess_moves::legal_moves;
use std::alloc::{AllocError, Global};
use std::collections::BinaryHeap;

// How many positions are looked at.
const LIMIT: usize = 100000;

// From where a position was reached, by which move, and how many moves after the start.
#[derive(Clone, Copy)]
struct Origin {
    before: usize,
    mv: Move,
    depth: u64,
}

/// How a search ends.
#[derive(Clone, Copy)]
pub enum Found {
    /// At the place of the list it is mate.
    Mate(usize),
    /// Every position was looked at.
    All,
    /// There are more positions than are looked at.
    More,
}

/// A search for a position in which a side has given checkmate, nearest first.
#[derive(Drop)]
pub struct Search {
    side: Colour,
    boards: Vec<Board>,
    origins: Vec<Origin>,
    places: Places,
    waiting: BinaryHeap<u64>,
}

// The value, or the most that is allowed.
fn at_most(value: u64, most: u64) -> u64
    ensures { result ≤ most }
{
    if value < most { value } else { most }
}

// What is taken out first is greatest: of a smaller distance, and of those with the same the place that came first.
fn key_of(distance: u64, place: usize) -> u64 {
    let near = 65535 - at_most(distance, 65535);
    let early = 4294967295 - at_most(place as u64, 4294967295);
    near * 4294967296 + early
}

// The place of a key.
fn place_of(key: u64) -> usize {
    (4294967295 - key % 4294967296) as usize
}

impl Search {
    /// A search from a board. It fails where memory is refused.
    pub fn new(alloc: Global, start: &Board, side: Colour) -> Result<Search, AllocError> {
        let mut search = Search {
            side,
            boards: Vec::new(alloc),
            origins: Vec::new(alloc),
            places: Places::new(alloc)?,
            waiting: BinaryHeap::new(alloc),
        };
        let origin = Origin {
            before: 0,
            mv: Move::default(),
            depth: 0,
        };
        search.add(start, origin)?;
        Ok(search)
    }

    /// The positions so far.
    pub fn boards(&self) -> &[Board] {
        self.boards.as_slice()
    }

    /// Where they stand.
    pub fn places(&self) -> &Places {
        &self.places
    }

    // Puts a position into the list, where it is not there.
    fn add(&mut self, board: &Board, origin: Origin) -> Result<(), AllocError> {
        let slot = self.places.slot_of(self.boards.as_slice(), board);
        if self.places.place(slot) > 0 {
            return Ok(());
        }
        let place = self.boards.len();
        let far = distance(board, self.side).saturating_add(origin.depth);
        self.waiting.push(key_of(far, place))?;
        self.origins.push(origin)?;
        self.boards.push(*board)?;
        self.places.note(slot, self.boards.len());
        Ok(())
    }

    // How many moves after the start a position was reached.
    fn depth_of(&self, place: usize) -> u64 {
        match self.origins.get(place) {
            Some(origin) => origin.depth,
            None => 0,
        }
    }

    // Adds what the legal moves lead to, and tells whether there is one. A counter at 65,535 ends a series.
    fn follow(&mut self, place: usize, board: &Board) -> Result<bool, AllocError> {
        if board.halfmove() >= u16::MAX {
            return Ok(true);
        }
        if board.fullmove() >= u16::MAX {
            return Ok(true);
        }
        let depth = self.depth_of(place);
        let moves = legal_moves(board);
        for mv in moves.as_slice() {
            let origin = Origin {
                before: place,
                mv: *mv,
                depth: depth.saturating_add(1),
            };
            self.add(&board.apply(*mv), origin)?;
        }
        Ok(!moves.is_empty())
    }

    /// Searches. It fails where memory is refused.
    pub fn run(&mut self) -> Result<Found, AllocError> {
        for _ in 0..LIMIT {
            let Some(key) = self.waiting.pop() else {
                return Ok(Found::All);
            };
            let place = place_of(key);
            if self.boards.len() > LIMIT {
                return Ok(Found::More);
            }
            if place >= self.boards.len() {
                return Ok(Found::More);
            }
            let board = self.boards[place];
            if !self.follow(place, &board)? && is_mated_by(&board, self.side) {
                return Ok(Found::Mate(place));
            }
        }
        Ok(Found::More)
    }

    /// The moves from the start to the position at a place. It fails where memory is refused.
    pub fn line_to(&self, alloc: Global, place: usize) -> Result<Vec<Move>, AllocError> {
        let mut line = Vec::new(alloc);
        let mut at = place;
        for _ in 0..LIMIT {
            let Some(origin) = self.origins.get(at).copied() else {
                break;
            };
            if origin.depth == 0 {
                break;
            }
            line.push(origin.mv)?;
            at = origin.before;
        }
        line.as_mut_slice().reverse();
        Ok(line)
    }
}
