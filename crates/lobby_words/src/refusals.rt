//! What the lobby itself refuses.
ghost use Rattle.std.specs.Prelude.{◌≡◌};
ghost use Rattle.lobby_words.specs.Plans.{refusal_text};

/// Why the lobby does not do what a message asks.
#[derive(Clone, Copy)]
pub enum Refusal {
    /// The message has no form.
    BadLine,
    /// No token was shown.
    NoToken,
    /// No player has the token.
    BadToken,
    /// Who asks is no arbiter, nor the player who waits in the game that is to be dropped.
    NotArbiter,
    /// As many games of the player wait for a second player as may be.
    TooManyOpen,
    /// The server is not there.
    NoServer,
    /// As many games are watched as may be.
    TooManyWatched,
    /// No player has the name.
    NoPlayer,
    /// No games are opened at the moment, but by an arbiter.
    EntriesPaused,
    /// The players' file is as it was: the player's link could not be changed there.
    NotWritten,
    /// The game does not wait for a second player, so that it is not dropped from here.
    NotWaiting,
    /// The game that is to be joined was not told as one that waits, or it is kept for another player.
    NotOffered,
    /// As many games of the player go on as may be.
    TooManyGames,
    /// The last places on the table are for arbiters and pairings.
    NearlyFull,
    /// As many games of the player are over and still on the table as may be.
    TooManyOver,
    /// All clocks are stopped, and nobody but an arbiter acts.
    ClocksStopped,
    /// This lobby can stop no clocks.
    NoClocks,
    /// The decision was not put to those of its round.
    NotDecided,
    /// Who is to be added has a name that is none.
    BadName,
    /// Who is to be added has a full name that is none.
    BadFullName,
}

impl Refusal {
    /// The line that says so.
    pub fn line(self) -> &'static str
        ensures { result.now ≡ refusal_text self }
    {
        match self {
            Refusal::BadLine => "no 1 BadLine\n",
            Refusal::NoToken => "no 31 NoToken\n",
            Refusal::BadToken => "no 32 BadToken\n",
            Refusal::NotArbiter => "no 33 NotArbiter\n",
            Refusal::TooManyOpen => "no 35 TooManyOpen\n",
            Refusal::NoServer => "no 36 NoServer\n",
            Refusal::TooManyWatched => "no 37 TooManyWatched\n",
            Refusal::NoPlayer => "no 38 NoPlayer\n",
            Refusal::EntriesPaused => "no 39 EntriesPaused\n",
            Refusal::NotWritten => "no 40 NotWritten\n",
            Refusal::NotWaiting => "no 41 NotWaiting\n",
            Refusal::NotOffered => "no 42 NotOffered\n",
            Refusal::TooManyGames => "no 43 TooManyGames\n",
            Refusal::NearlyFull => "no 44 NearlyFull\n",
            Refusal::TooManyOver => "no 45 TooManyOver\n",
            Refusal::ClocksStopped => "no 46 ClocksStopped\n",
            Refusal::NoClocks => "no 47 NoClocks\n",
            Refusal::NotDecided => "no 48 NotDecided\n",
            Refusal::BadName => "no 49 BadName\n",
            Refusal::BadFullName => "no 51 BadFullName\n",
        }
    }
}
