ghost use Rattle.std.specs.Prelude.{IsTrue};
ghost use Rattle.chess_mates.specs.Closed.{HasLike, LeadsInto, IsQuiet, IsClosed};

use crate::likeness::is_like;
use crate::lines::is_mated_by;
use crate::places::Places;
use chess_bits::Colour;
use chess_board::Board;
use chess_moves::legal_moves;

/// Whether a list has a board, but for its counters.
pub fn has_like(boards: &[Board], places: &Places, board: &Board) -> bool
    ensures { IsTrue result → HasLike boards.now board.now }
{
    let place = places.place(places.slot_of(boards, board));
    if place == 0 {
        return false;
    }
    if place > boards.len() {
        return false;
    }
    let at = place - 1;
    is_like(&boards[at], board)
}

// Whether each legal move leads into a list. It is false too where a counter of the board is at 65,535.
fn leads_into(boards: &[Board], places: &Places, board: &Board) -> bool
    ensures { IsTrue result → LeadsInto boards.now board.now }
{
    if board.halfmove() >= u16::MAX {
        return false;
    }
    if board.fullmove() >= u16::MAX {
        return false;
    }
    let moves = legal_moves(board);
    for mv in moves.as_slice() {
        if !has_like(boards, places, &board.apply(*mv)) {
            return false;
        }
    }
    true
}

// Whether each legal move of a board leads into a list, and the side has not given checkmate there.
fn is_quiet(boards: &[Board], places: &Places, side: Colour, board: &Board) -> bool
    ensures { IsTrue result → IsQuiet side boards.now board.now }
{
    if is_mated_by(board, side) {
        return false;
    }
    leads_into(boards, places, board)
}

/// Whether no legal move leads out of a list, and in none of its positions the side has given checkmate.
pub fn is_closed(boards: &[Board], places: &Places, side: Colour) -> bool
    ensures { IsTrue result → IsClosed side boards.now }
{
    for board in boards {
        if !is_quiet(boards, places, side, board) {
            return false;
        }
    }
    true
}
