ghost use Rattle.std.specs.Prelude.{◌≡◌};
ghost use Rattle.chess_entry.specs.Snapshot.{ending_stored, ending_told};
ghost use Rattle.chess_game.specs.Stored.{stored_by, seat_stored};

use crate::sides::Seat;
use chess_end::{Article, Ending, GameResult};
use rec_codec::{Seat as StoredSeat, StoredEnding};

/// The ending as a snapshot keeps it. An article that gives no draw is kept as a win of Black where White has not won,
/// and one that gives draws alone as a draw.
pub fn stored_ending(ending: Ending) -> StoredEnding
    ensures { result ≡ stored_by ending.article ending.result }
{
    match (ending.article, ending.result) {
        (Article::A511, GameResult::White) => StoredEnding::WhiteMates,
        (Article::A511, _) => StoredEnding::BlackMates,
        (Article::A512, GameResult::White) => StoredEnding::WhiteWinsByResignation,
        (Article::A512, _) => StoredEnding::BlackWinsByResignation,
        (Article::A521, _) => StoredEnding::Stalemate,
        (Article::A522, _) => StoredEnding::DeadPosition,
        (Article::A523, _) => StoredEnding::Agreement,
        (Article::A69, GameResult::White) => StoredEnding::WhiteWinsOnTime,
        (Article::A69, GameResult::Black) => StoredEnding::BlackWinsOnTime,
        (Article::A69, GameResult::Draw) => StoredEnding::DrawnOnTime,
        (Article::A92, _) => StoredEnding::ThirdOccurrence,
        (Article::A93, _) => StoredEnding::FiftyMoves,
        (Article::A961, _) => StoredEnding::FifthOccurrence,
        (Article::A962, _) => StoredEnding::SeventyFiveMoves,
    }
}

// What an ending of a snapshot says.
fn ending_of(stored: StoredEnding) -> Ending
    ensures { result ≡ ending_stored stored }
{
    let (result, article) = match stored {
        StoredEnding::WhiteMates => (GameResult::White, Article::A511),
        StoredEnding::BlackMates => (GameResult::Black, Article::A511),
        StoredEnding::WhiteWinsByResignation => (GameResult::White, Article::A512),
        StoredEnding::BlackWinsByResignation => (GameResult::Black, Article::A512),
        StoredEnding::Stalemate => (GameResult::Draw, Article::A521),
        StoredEnding::DeadPosition => (GameResult::Draw, Article::A522),
        StoredEnding::Agreement => (GameResult::Draw, Article::A523),
        StoredEnding::WhiteWinsOnTime => (GameResult::White, Article::A69),
        StoredEnding::BlackWinsOnTime => (GameResult::Black, Article::A69),
        StoredEnding::DrawnOnTime => (GameResult::Draw, Article::A69),
        StoredEnding::ThirdOccurrence => (GameResult::Draw, Article::A92),
        StoredEnding::FiftyMoves => (GameResult::Draw, Article::A93),
        StoredEnding::FifthOccurrence => (GameResult::Draw, Article::A961),
        StoredEnding::SeventyFiveMoves => (GameResult::Draw, Article::A962),
    };
    Ending { result, article }
}

/// What the ending of a game in a snapshot says, if the game is over.
pub fn told_ending(stored: Option<StoredEnding>) -> Option<Ending>
    ensures { result ≡ ending_told stored }
{
    match stored {
        None => None,
        Some(stored) => Some(ending_of(stored)),
    }
}

/// A seat as a snapshot keeps it, of a side that holds so many milliseconds.
pub fn stored_seat(seat: Seat, held: u32) -> StoredSeat
    ensures { result ≡ seat_stored seat held }
{
    StoredSeat {
        taken: seat.name.is_some(),
        name: seat.name,
        offers: seat.offers,
        held,
    }
}
