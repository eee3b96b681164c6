//! A replay by which `line G` is answered, from turn to turn.
ghost use Rattle.std.specs.Prelude.{IfOk};
ghost use Rattle.std.specs.String.{string_bytes};
ghost use Rattle.lobby_talk.specs.Replays.{IsReplayOf};

use crate::kept_answer::KeptAnswer;
use std::alloc::{AllocError, Global};
use text_parts::behind;
use text_pgn::{Part, Replay};

/// So many plies of a replay are played in a turn at most: a millisecond's work.
const PLIES_MOST: usize = 16;

/// A replay under way, the number of its game, and the server's answer to `pgn G` of which it is.
#[derive(Drop)]
pub struct UnderWay {
    game: u32,
    pgn: String,
    replay: Replay,
    pub ghost under_way: { ∥ IsReplayOf (string_bytes pgn) game replay ∥₁ },
}

/// What a turn brings of it.
#[derive(Drop)]
pub enum Going {
    /// More is to be played.
    More(UnderWay),
    /// The answer.
    Whole(KeptAnswer),
}

impl UnderWay {
    ghost use Rattle.lobby_talk.specs.Replays.{IsNumberIn};
    ghost use Rattle.lobby_talk.specs.Replaying.{GoesOn, BeginsOf};

    /// Begins a replay of the PGN in the server's answer to `pgn G`, and plays nothing. Where that has no valid start
    /// the answer is `lost`. It fails where memory is refused.
    pub fn begin(alloc: Global, game: u32, text: &str) -> Result<Going, AllocError>
        requires { IsNumberIn text.now game }
        ensures { IfOk result (BeginsOf text.now) }
    {
        let pgn = String::from_str(alloc, text)?;
        match Replay::begin(alloc, game, behind(text, '\n'))? {
            None => Ok(Going::Whole(KeptAnswer::lost(alloc, game, pgn)?)),
            Some(replay) => Ok(Going::More(UnderWay { game, pgn, replay })),
        }
    }

    /// Plays at most 16 plies more. Where its text tells no game the answer is `lost`. It fails where memory is
    /// refused.
    pub fn go_on(self, alloc: Global) -> Result<Going, AllocError>
        ensures { IfOk result (λ going. ∥ GoesOn self going ∥₁) }
    {
        let UnderWay { game, pgn, replay } = self;
        match replay.play(PLIES_MOST)? {
            Part::More(replay) => Ok(Going::More(UnderWay { game, pgn, replay })),
            Part::Whole(text) => Ok(Going::Whole(KeptAnswer::new(game, pgn, text))),
            Part::NoGame => Ok(Going::Whole(KeptAnswer::lost(alloc, game, pgn)?)),
        }
    }
}
