ghost use Rattle.std.specs.Prelude.{◌≡◌, ◌↔◌, IsTrue};
ghost use Rattle.chess_end.specs.declared.ending.Article.TheVariants as articles;
ghost use Rattle.chess_end.specs.Material.{HasKingAlone};
ghost use Rattle.chess_end.specs.Ending.{won_by as result_won_by, IsFlagResult};

use crate::ending::{Article, Ending, GameResult};
use chess_bits::{Colour, Kind};
use chess_board::{Board, Men};

// The result where a side wins.
pub fn won_by(side: Colour) -> GameResult
    ensures { result ≡ result_won_by side }
{
    match side {
        Colour::White => GameResult::White,
        Colour::Black => GameResult::Black,
    }
}

// Whether a side has its king alone.
fn has_king_alone(men: &Men, side: Colour) -> bool
    ensures { IsTrue result ↔ HasKingAlone men.now side }
{
    men.of(side).without(men.of_kind(Kind::King)).is_empty()
}

/// The ending where a side's flag has fallen (FIDE article 6.9): a draw just where the opponent has the king alone,
/// else the opponent wins. It is this project's reduction of the article (`docs/design/LAWS.md`).
pub fn flag_result(board: &Board, fallen: Colour) -> Ending
    ensures result { IsFlagResult board.now.placement fallen result.result }
    ensures article { result.article ≡ articles.A69 }
{
    let opponent = fallen.other();
    let result = if has_king_alone(board.men(), opponent) {
        GameResult::Draw
    } else {
        won_by(opponent)
    };
    Ending {
        result,
        article: Article::A69,
    }
}
