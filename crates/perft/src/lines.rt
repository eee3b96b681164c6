//! The number of legal lines.
ghost use Rattle.std.specs.Prelude.{◌+◌, ◌≤◌};
ghost use Rattle.perft.specs.Lines.{IsCount};

use arrayvec::ArrayVec;
use chess_board::Board;
use chess_moves::{Moves, count_moves, legal_moves, relist_legal_moves};

// The lines of two moves. The list is that of the calls before, since a new one costs the filling of its places.
fn count_two(board: &Board, moves: &mut Moves) -> u64
    requires halfmove { board.now.halfmove + 2 ≤ 65536 }
    requires fullmove { board.now.fullmove + 2 ≤ 65536 }
    ensures { IsCount board.now 2 result }
{
    let mut count = 0u64;
    relist_legal_moves(board, moves);
    for mv in moves.as_slice() {
        count = count.saturating_add(u64::from(count_moves(&board.apply(*mv))));
    }
    count
}

// The lines of two moves or more. The list is for the moves of the last level but one, which has most of the positions.
fn count_longer(board: &Board, depth: u8, lowest: &mut Moves) -> u64
    requires longer { 2 ≤ depth }
    requires halfmove { board.now.halfmove + depth ≤ 65536 }
    requires fullmove { board.now.fullmove + depth ≤ 65536 }
    ensures { IsCount board.now depth result }
{
    if depth == 2 {
        return count_two(board, lowest);
    }
    let mut count = 0u64;
    let moves = legal_moves(board);
    for mv in moves.as_slice() {
        count = count.saturating_add(count_longer(&board.apply(*mv), depth - 1, lowest));
    }
    count
}

/// How many legal lines of `depth` moves begin at the board's position (FIDE articles 3.1 to 3.10); 2^64 - 1 where
/// there are more. The last move of a line is counted and not made; for each of the others both counters of the board
/// have room below 65,536.
pub fn count_lines(board: &Board, depth: u8) -> u64
    requires halfmove { board.now.halfmove + depth ≤ 65536 }
    requires fullmove { board.now.fullmove + depth ≤ 65536 }
    ensures { IsCount board.now depth result }
{
    if depth == 0 {
        return 1;
    }
    if depth == 1 {
        return u64::from(count_moves(board));
    }
    count_longer(board, depth, &mut ArrayVec::new())
}
