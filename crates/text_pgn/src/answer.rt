//! The answer to `line G`, at once.
ghost use Rattle.std.specs.Prelude.{List, IfOk, IfSome, IsSomeAnd};
ghost use Rattle.std.specs.String.{string_bytes};
ghost use Rattle.chess_board.specs.declared.moves.Move.{Move};
ghost use Rattle.chess_board.specs.Position.{Position};
ghost use Rattle.text_pgn.specs.Game.{TellsGame};
ghost use Rattle.text_pgn.specs.Answer.{IsLineAnswer};

use crate::replay::{Part, Replay};
use std::alloc::{AllocError, Global};

/// The answer to `line G` from the lines of the game's PGN, each with its line feed, without the server's line
/// `ok pgn G K` in front: `ok line G K`, and K + 1 lines `N SAN MOVE FEN`, each with its line feed. `None` just where
/// the text tells no game: its start is no valid position, or a word of it names no legal move. It fails where memory
/// is refused.
pub fn line_answer(alloc: Global, game: u32, pgn: &str) -> Result<Option<String>, AllocError>
    ensures told { (start : Position) (moves : List Move) → TellsGame pgn.now start moves →
        IfOk result (λ answer. IsSomeAnd answer (λ text. IsLineAnswer game start moves (string_bytes text))) }
    ensures game { IfOk result (λ answer. IfSome answer (λ _.
        (start : Position) × (moves : List Move) × TellsGame pgn.now start moves)) }
{
    let Some(replay) = Replay::begin(alloc, game, pgn)? else {
        return Ok(None);
    };
    let all = replay.left();
    match replay.play(all)? {
        Part::Whole(text) => Ok(Some(text)),
        Part::More(_) | Part::NoGame => Ok(None),
    }
}
