ghost use Rattle.std.specs.Prelude.{◌<◌};

use crate::likeness::is_like;
use chess_bits::{Colour, Kind};
use chess_board::Board;
use std::alloc::{AllocError, Global};

// How many slots there are.
const SLOTS: usize = 262144;

/// Where boards stand in a list. It is a guess, which nothing that is proved depends on: who asks looks there.
#[derive(Drop)]
pub struct Places {
    // of each slot one more than the place in the list, or 0
    slots: Vec<usize>,
}

// A number for what stands on a square.
fn code_of(man: Option<(Colour, Kind)>) -> u64
    ensures { result < 16 }
{
    let Some((colour, kind)) = man else {
        return 0;
    };
    let code = match kind {
        Kind::Pawn => 1,
        Kind::Knight => 2,
        Kind::Bishop => 3,
        Kind::Rook => 4,
        Kind::Queen => 5,
        Kind::King => 6,
    };
    match colour {
        Colour::White => code,
        Colour::Black => code + 8,
    }
}

// The slot where the search for a board begins.
fn first_slot(board: &Board) -> usize
    ensures { result < 262144 }
{
    let mut sum: u64 = match board.side() {
        Colour::White => 1,
        Colour::Black => 2,
    };
    for square in board.men().occupied().iter() {
        let here = u64::from(square.number()) + 64 * code_of(board.piece_at(square));
        sum = (sum ^ here).wrapping_mul(0x9E37_79B9_7F4A_7C15);
        sum ^= sum >> 29;
    }
    (sum % 262144) as usize
}

// Whether what is noted at a slot is the place of a board, or nothing that is of use.
fn is_place_of(boards: &[Board], place: usize, board: &Board) -> bool {
    if place == 0 {
        return true;
    }
    if place > boards.len() {
        return true;
    }
    is_like(&boards[place - 1], board)
}

impl Places {
    /// A table without boards. It fails where memory is refused.
    pub fn new(alloc: Global) -> Result<Places, AllocError> {
        Ok(Places {
            slots: vec![in alloc; 0; SLOTS]?,
        })
    }

    /// The slot of a board: where it is noted, or else the first that is free.
    pub fn slot_of(&self, boards: &[Board], board: &Board) -> usize {
        let first = first_slot(board);
        for step in 0..SLOTS {
            let slot = (first + step) % SLOTS;
            let place = self.place(slot);
            if is_place_of(boards, place, board) {
                return slot;
            }
        }
        SLOTS
    }

    /// What is noted at a slot: one more than a place in the list, or 0 where it is free.
    pub fn place(&self, slot: usize) -> usize {
        self.slots.get(slot).copied().unwrap_or(0)
    }

    /// Notes a place at a slot.
    pub fn note(&mut self, slot: usize, place: usize) {
        if slot < self.slots.len() {
            self.slots[slot] = place;
        }
    }
}
