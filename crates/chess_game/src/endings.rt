ghost use Rattle.std.specs.Prelude.{◌≡◌};
ghost use Rattle.chess_entry.specs.Outcome.{claimed_draw, agreed, resigned};

use chess_bits::Colour;
use chess_end::{Article, Ending, GameResult};

/// The draw by agreement (FIDE article 5.2.3).
pub fn agreed() -> Ending
    ensures { result ≡ agreed }
{
    Ending {
        result: GameResult::Draw,
        article: Article::A523,
    }
}

/// What a game gives in which a side has resigned, which always loses (FIDE article 5.1.2).
pub fn resigned(by: Colour) -> Ending
    ensures { result ≡ resigned by }
{
    Ending {
        result: match by {
            Colour::White => GameResult::Black,
            Colour::Black => GameResult::White,
        },
        article: Article::A512,
    }
}

/// The draw by a correct claim: by the fifty-move rule (FIDE article 9.3), or else by a third occurrence (9.2).
pub fn drawn_by_claim(fifty: bool) -> Ending
    ensures { result ≡ claimed_draw fifty }
{
    Ending {
        result: GameResult::Draw,
        article: if fifty { Article::A93 } else { Article::A92 },
    }
}
