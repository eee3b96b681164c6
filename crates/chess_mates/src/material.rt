ghost use Rattle.std.specs.Prelude.{◌≡◌, ◌↔◌, IsTrue};
ghost use Rattle.chess_end.specs.declared.ending.GameResult.TheVariants as results;
ghost use Rattle.chess_end.specs.Material.{HasKingAlone, IsListedDead};
ghost use Rattle.chess_mates.specs.Mates.{CanMate};

use chess_bits::Colour;
use chess_board::Board;
use chess_end::{GameResult, flag_result, is_listed_dead};

// Whether a game is drawn.
fn is_draw(outcome: GameResult) -> bool
    ensures { IsTrue result ↔ (outcome ≡ results.Draw) }
{
    match outcome {
        GameResult::Draw => true,
        GameResult::White => false,
        GameResult::Black => false,
    }
}

/// Whether a side has its king alone, which never mates.
pub fn is_alone(board: &Board, side: Colour) -> bool
    ensures alone { IsTrue result ↔ HasKingAlone board.now.placement side }
    ensures cannot { IsTrue result → ¬ CanMate side board.now }
{
    let _valid = board.rights();
    is_draw(flag_result(board, side.other()).result)
}

/// Whether the men that are left are listed as dead material, with which neither side ever mates.
pub fn is_dead(board: &Board) -> bool
    ensures dead { IsTrue result ↔ IsListedDead board.now.placement }
    ensures cannot { IsTrue result → (side : Colour) → ¬ CanMate side board.now }
{
    let _valid = board.rights();
    is_listed_dead(board)
}
