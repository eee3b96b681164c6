ghost use Rattle.std.specs.Prelude.{◌≡◌, IfSome};
ghost use Rattle.player_name.specs.Name.{IsName};
ghost use Rattle.chess_entry.specs.Verdict.{is_read};

use arrayvec::ArrayString;
use chess_bits::Colour;
use rec_codec::Name;

/// A text that a player gives: at most 255 bytes, as a line of the protocol has.
pub type Text = ArrayString<255>;

/// What a player asks for. Games are named by their number; a number that no game of the table has, as 0, is refused.
#[derive(Clone, Copy)]
pub enum Act {
    /// A new game, in which who asks has the colour. Times are in seconds; a second period is the moves before it and
    /// its seconds. Without a FEN the game starts from the initial position.
    NewGame {
        colour: Colour,
        initial: u32,
        increment: u32,
        fen: Option<Text>,
        period: Option<(u32, u32)>,
    },
    /// The other seat of a game.
    Join {
        game: u32,
    },
    /// A move, named by a text, in a game of so many moves.
    Play {
        game: u32,
        ply: u32,
        text: Text,
    },
    /// An offer of a draw (FIDE article 9.1).
    Offer {
        game: u32,
    },
    /// The opponent's offer is accepted.
    Accept {
        game: u32,
    },
    /// The opponent's offer is declined.
    Decline {
        game: u32,
    },
    /// A resignation (FIDE article 5.1.2).
    Resign {
        game: u32,
    },
    /// A claim of a draw: `fifty` for FIDE article 9.3, else for 9.2; for the position that stands after so many moves,
    /// or for the one that the move named by a text would bring.
    Claim {
        game: u32,
        ply: u32,
        fifty: bool,
        text: Option<Text>,
    },
    /// The flag of the side to move is said to have fallen (FIDE article 6.9).
    Flag {
        game: u32,
    },
    /// A game that is over, or not joined, is taken off the table.
    Remove {
        game: u32,
    },
    /// How a game stands.
    Show {
        game: u32,
    },
    /// The FEN of a game's position.
    Fen {
        game: u32,
    },
    /// The PGN of a game.
    Pgn {
        game: u32,
    },
    /// All games.
    List,
}

impl Act {
    /// Whether it is a read, which is anybody's and becomes no entry.
    pub fn is_read(&self) -> bool
        ensures { result ≡ is_read self.now }
    {
        matches!(
            self,
            Act::Show { .. } | Act::Fen { .. } | Act::Pgn { .. } | Act::List
        )
    }
}

/// The greatest moment that a command may have, in milliseconds: 2^62 - 1.
pub const GREATEST_MOMENT: u64 = 4_611_686_018_427_387_903;

/// An act, the moment at which it came in milliseconds, and who asks, if that is known.
#[derive(Clone, Copy)]
pub struct Command {
    pub at: u64,
    pub who: Option<Name>,
    pub act: Act,
}

/// Whoever asks has a name of the right form. A proof knows it behind this call; nothing else comes of it.
pub fn know_name(who: &Option<Name>)
    ensures { IfSome who.now IsName }
{
    if let Some(name) = who {
        let _named = name.as_str();
    }
}
