//! One answer to `line G` that was made.
ghost use Rattle.std.specs.String.{string_bytes};
ghost use Rattle.lobby_talk.specs.Making.{IsOfLine};
ghost use Rattle.lobby_talk.specs.Replays.{IsNumberIn};

use std::alloc::{AllocError, Global};

/// An answer, and the server's answer to `pgn G` of which it was made.
#[derive(Drop)]
pub struct KeptAnswer {
    /// The number of its game, as its PGN has it.
    pub(crate) game: u32,
    pgn: String,
    answer: String,
    pub ghost made: { ∥ IsOfLine (string_bytes pgn) (string_bytes answer) ∥₁ },
    pub ghost named: { ∥ IsNumberIn (string_bytes pgn) game ∥₁ },
}

impl KeptAnswer {
    ghost use Rattle.std.specs.Prelude.{◌≡◌, IfOk};
    ghost use Rattle.std.specs.Str.{bytes_eq};
    ghost use Rattle.text_pgn.specs.Game.{TellsNone};
    ghost use Rattle.lobby_talk.specs.Making.{lines_behind};
    ghost use Rattle.lobby_talk.specs.Keeping.{size_of, shown};

    /// The answer that was made of this PGN of a game.
    pub fn new(game: u32, pgn: String, answer: String) -> KeptAnswer
        requires made { ∥ IsOfLine (string_bytes pgn) (string_bytes answer) ∥₁ }
        requires named { ∥ IsNumberIn (string_bytes pgn) game ∥₁ }
        ensures pgn { result.pgn ≡ pgn }
        ensures answer { result.answer ≡ answer }
    {
        KeptAnswer { game, pgn, answer }
    }

    /// The answer `lost`, of a PGN that tells no game. It fails where memory is refused.
    pub fn lost(alloc: Global, game: u32, pgn: String) -> Result<KeptAnswer, AllocError>
        requires none { TellsNone (lines_behind (string_bytes pgn)) }
        requires named { ∥ IsNumberIn (string_bytes pgn) game ∥₁ }
        ensures { IfOk result (λ answer. answer.pgn ≡ pgn) }
    {
        let answer = String::from_str(alloc, "lost\n")?;
        Ok(KeptAnswer::new(game, pgn, answer))
    }

    /// The server's answer to `pgn G` of which it was made.
    pub fn pgn(&self) -> &str
        ensures { result.now ≡ string_bytes self.now.pgn }
    {
        self.pgn.as_str()
    }

    /// The answer to `line G`.
    pub fn answer(&self) -> &str
        ensures { result.now ≡ string_bytes self.now.answer }
    {
        self.answer.as_str()
    }

    /// How many bytes it takes.
    pub fn size(&self) -> usize
        ensures { result ≡ shown (size_of self.now) }
    {
        self.pgn.len().saturating_add(self.answer.len())
    }

    /// Whether it was made of this PGN.
    pub fn is_of(&self, pgn: &str) -> bool
        ensures { result ≡ bytes_eq (string_bytes self.now.pgn) pgn.now }
    {
        self.pgn.as_str() == pgn
    }
}
