ghost use Rattle.std.specs.Prelude.{◌≡◌, ◌<◌, ◌↔◌, IsTrue, IfSome, IfNone};
ghost use Rattle.chess_bits.specs.Square.{IsOnBoard};
ghost use Rattle.chess_board.specs.Position.{IsValid};
ghost use Rattle.chess_board.specs.Next.{next};
ghost use Rattle.chess_board.specs.Legal.{IsMoveOf, IsCandidate, IsLegal};

use crate::promotions::becomes;
use crate::targets::targets;
use chess_bits::Kind;
use chess_board::{Board, Move};

// Whether a man of the kind may move so.
fn is_move_of(board: &Board, mv: &Move, kind: Kind) -> bool
    ensures rule { IsTrue result ↔ IsMoveOf board.now mv.now kind }
    ensures on_board { IsOnBoard mv.now.to }
{
    let to = mv.to;
    let is_reached = targets(board, mv.from, kind).contains(to);
    is_reached && becomes(board.side(), kind, to, mv.promotion)
}

// Whether a man of the side to move may move so, before the safety of its king is asked.
fn is_candidate(board: &Board, mv: &Move) -> bool
    ensures { IsTrue result ↔ IsCandidate board.now mv.now }
{
    match board.piece_at(mv.from) {
        None => false,
        Some((colour, kind)) => colour == board.side() && is_move_of(board, mv, kind),
    }
}

/// Whether a move is legal (FIDE articles 3.1 to 3.10): a man of the side to move may move so, and its king is not
/// attacked after it. Each move of each board has an answer; castling is the king's move by two squares.
pub fn legal(board: &Board, mv: Move) -> bool
    ensures { IsTrue result ↔ IsLegal board.now mv }
{
    is_candidate(board, &mv) && !board.exposes_king(mv)
}

/// The board after a move, where the move is legal (FIDE articles 3.1 to 3.10), and `None` where it is not. It is what
/// `legal` and `Board::apply` say together, and the men are placed once.
pub fn after_legal(board: &Board, mv: Move) -> Option<Board>
    requires halfmove { board.now.halfmove < 65535 }
    requires fullmove { board.now.fullmove < 65535 }
    ensures legal { IfSome result (λ _. IsLegal board.now mv) }
    ensures next { IfSome result (λ after. after ≡ next board.now mv) }
    ensures valid { IfSome result IsValid }
    ensures none { IfNone result (¬ IsLegal board.now mv) }
{
    if is_candidate(board, &mv) {
        board.apply_candidate(mv)
    } else {
        None
    }
}
