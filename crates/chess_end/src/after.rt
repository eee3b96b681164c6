ghost use Rattle.std.specs.Prelude.{◌≡◌, ◌≤◌, ◌↔◌, IsTrue, IfSome, IfNone};
ghost use Rattle.chess_end.specs.declared.ending.GameResult.TheVariants as results;
ghost use Rattle.chess_end.specs.Ending.{IsRunning, IsEnding};

use crate::ending::{Article, Ending, GameResult};
use crate::flag::won_by;
use crate::material::is_listed_dead;
use chess_board::Board;
use chess_moves::has_legal;

// A draw by an article.
fn drawn_by(article: Article) -> Ending
    ensures result { result.result ≡ results.Draw }
    ensures article { result.article ≡ article }
{
    Ending {
        result: GameResult::Draw,
        article,
    }
}

/// The ending of a game after a move, or `None` where it goes on: the first that applies of checkmate (FIDE article
/// 5.1.1), stalemate (5.2.1), listed dead material (5.2.2), the fifth occurrence of the position (9.6.1) and 150 moves
/// without a capture or a pawn move (9.6.2). `times` is how often the position has come in the game, this time
/// included, and `quiet` how many moves of either side have gone without a capture or a pawn move.
pub fn after_move(board: &Board, times: u32, quiet: u32) -> Option<Ending>
    ensures some { IfSome result (IsEnding board.now times quiet) }
    ensures none { IfNone result (IsRunning board.now times quiet) }
{
    if !has_legal(board) {
        Some(if board.in_check() {
            Ending {
                result: won_by(board.side().other()),
                article: Article::A511,
            }
        } else {
            drawn_by(Article::A521)
        })
    } else if is_listed_dead(board) {
        Some(drawn_by(Article::A522))
    } else if times >= 5 {
        Some(drawn_by(Article::A961))
    } else if quiet >= 150 {
        Some(drawn_by(Article::A962))
    } else {
        None
    }
}

/// Whether a claim of a draw is correct since the position has come `times` times (FIDE article 9.2): at least three
/// times.
pub fn claim_three(times: u32) -> bool
    ensures { IsTrue result ↔ (3 ≤ times) }
{
    times >= 3
}

/// Whether a claim of a draw is correct since `quiet` moves of either side have gone without a capture or a pawn move
/// (FIDE article 9.3): at least 100, fifty of each side.
pub fn claim_fifty(quiet: u32) -> bool
    ensures { IsTrue result ↔ (100 ≤ quiet) }
{
    quiet >= 100
}
