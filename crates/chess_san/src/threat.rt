ghost use Rattle.std.specs.Prelude.{◌≡◌};
ghost use Rattle.chess_board.specs.Next.{next};
ghost use Rattle.chess_board.specs.Legal.{IsLegal};
ghost use Rattle.chess_notation.specs.San.{Threatens};
ghost use Rattle.chess_san.specs.Boards.{DiffersInCounters, StandsUnder, rewound};

use chess_bits::Square;
use chess_board::{Board, Move, Parts};
use chess_moves::has_legal;
use chess_notation::Threat;

/// The board with its counters at their start, 0 and 1. It has the same legal moves: no rule asks for the counters.
pub fn rewound(board: &Board) -> Board
    ensures { result ≡ rewound board.now }
{
    let mut men = [None; 64];
    for number in 0..64 {
        men[usize::from(number)] = board.piece_at(Square::new(number));
    }
    let parts = Parts {
        men,
        side: board.side(),
        rights: board.rights(),
        target: board.target(),
        halfmove: 0,
        fullmove: 1,
    };
    match Board::try_new(parts) {
        Ok(same) => same,
        Err(_) => unreachable!(),
    }
}

// The board after a legal move, with other counters where the move's would pass their range.
fn after(board: &Board, mv: Move) -> Board
    requires { IsLegal board.now mv }
    ensures { DiffersInCounters (next board.now mv) result }
{
    if board.halfmove() < u16::MAX && board.fullmove() < u16::MAX {
        board.apply(mv)
    } else {
        rewound(board).apply(mv)
    }
}

/// What the side to move stands under: check, mate, or neither.
pub fn threat_on(board: &Board) -> Threat
    ensures { StandsUnder board.now result }
{
    if !board.in_check() {
        Threat::Nothing
    } else if has_legal(board) {
        Threat::Check
    } else {
        Threat::Mate
    }
}

/// What a legal move threatens.
pub fn threat_of(board: &Board, mv: Move) -> Threat
    requires { IsLegal board.now mv }
    ensures { Threatens board.now mv result }
{
    threat_on(&after(board, mv))
}
