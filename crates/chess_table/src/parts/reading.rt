ghost use Rattle.std.specs.Prelude.{ℕ, IfOk, IfSome, IfNone};
ghost use Rattle.chess_entry.specs.State.{GameState};
ghost use Rattle.chess_entry.specs.Bounds.{IsGame};
ghost use Rattle.chess_table.specs.Part.{HasGameAfter, StartsWithGame, StartsWithNone};

use crate::parts::runs::gather;
use chess_board::Move;
use chess_game::Game;
use rec_codec::{Head, Record};
use std::alloc::{AllocError, Global};

/// A game that was read, and how many records its part has.
#[derive(Drop)]
pub struct ReadGame {
    pub game: Game,
    pub records: usize,
}

// The game of a head record whose moves, at most 20,000, stand in the records after it.
fn read_with_head(
    alloc: Global,
    moves: &mut Vec<Move>,
    head: &Head,
    rest: &[Record],
) -> Result<Option<ReadGame>, AllocError>
    ensures some { IfOk result (λ told. IfSome told (λ read. HasGameAfter head.now rest.now read.game read.records)) }
    ensures none { IfOk result (λ told. IfNone told
        ((game : GameState) (many : ℕ) → ¬ HasGameAfter head.now rest.now game many)) }
{
    if head.moves > 20_000 {
        return Ok(None);
    }
    let many = head.moves as usize;
    let count = many.div_ceil(60);
    if rest.len() < count {
        return Ok(None);
    }
    moves.clear();
    moves.reserve(many)?;
    if !gather(moves, head.game, many, &rest[..count]) {
        return Ok(None);
    }
    match Game::restore(alloc, head, moves.as_slice())? {
        None => Ok(None),
        Some(game) => Ok(Some(ReadGame {
            game,
            records: count + 1,
        })),
    }
}

/// The game whose part stands at the front of records, with the number of the part's records; `None` where no game of
/// at most 20,000 moves has its part there: its moves are played again. What stood in the buffer of moves is lost. It
/// fails where memory is refused.
pub fn read_game(
    alloc: Global,
    moves: &mut Vec<Move>,
    records: &[Record],
) -> Result<Option<ReadGame>, AllocError>
    ensures some { IfOk result (λ told. IfSome told (λ read. StartsWithGame records.now read.game read.records)) }
    ensures sound { IfOk result (λ told. IfSome told (λ read. IsGame 20000 read.game)) }
    ensures none { IfOk result (λ told. IfNone told (StartsWithNone records.now)) }
{
    let Some((first, rest)) = records.split_first() else {
        return Ok(None);
    };
    match first {
        Record::Head(head) => read_with_head(alloc, moves, head, rest),
        _ => Ok(None),
    }
}
