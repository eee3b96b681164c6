ghost use Rattle.std.specs.Prelude.{List, IfOk, IfSome, IfNone};
ghost use Rattle.chess_entry.specs.State.{GameState};
ghost use Rattle.chess_table.specs.Part.{HoldsGames};

use crate::parts::reading::{ReadGame, read_game};
use chess_game::Game;
use rec_codec::Record;
use std::alloc::{AllocError, Global};

/// The games whose parts the records are, one after the other; `None` where the records are not the parts of games of
/// at most 20,000 moves: their moves are played again. It fails where memory is refused.
pub fn read_games(alloc: Global, records: &[Record]) -> Result<Option<Vec<Game>>, AllocError>
    ensures some { IfOk result (λ told. IfSome told (λ games. HoldsGames records.now games.items)) }
    ensures none { IfOk result (λ told. IfNone told ((all : List GameState) → ¬ HoldsGames records.now all)) }
{
    let mut moves = Vec::new(alloc);
    let mut games = Vec::new(alloc);
    let mut rest = records;
    while rest.len() > 0 {
        let Some(read) = read_game(alloc, &mut moves, rest)? else {
            return Ok(None);
        };
        let ReadGame {
            game,
            records: many,
        } = read;
        games.push(game)?;
        rest = &rest[many..];
    }
    Ok(Some(games))
}
