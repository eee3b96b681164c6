//! What spectators are told of a game, besides its moves.
ghost use Rattle.std.specs.Prelude.{◌≡◌};
ghost use Rattle.text_pgn.specs.Spectators.{running_side};

use server_answers::{Clocks, Ending, Offers, Side};

/// How a game stands.
#[derive(Clone, Copy)]
pub struct Stand<'a> {
    /// When it stood so, in milliseconds since 1970.
    pub at: u64,
    /// The side whose clock runs.
    pub running: Option<Side>,
    /// None where they are not known.
    pub clocks: Option<Clocks>,
    pub offers: Offers,
    /// As the server spells it: `*` while the game goes on.
    pub result: &'a str,
    /// As the server spells it: `-` while the game goes on.
    pub article: &'a str,
}

/// What an arbiter has everybody told; a text is empty where it is nothing.
#[derive(Clone, Copy)]
pub struct Notices<'a> {
    /// Why all clocks are stopped.
    pub stopped: &'a str,
    pub announced: &'a str,
}

/// A game, and how it stands.
#[derive(Clone, Copy)]
pub struct Spectated<'a> {
    pub game: u32,
    pub notices: Notices<'a>,
    /// The players' names in the protocol; `-` for one that is not known.
    pub white: &'a str,
    pub black: &'a str,
    /// Their full names, as spectators are told them.
    pub white_name: &'a str,
    pub black_name: &'a str,
    /// A text whose tags, those of a PGN, are told: also titles and ratings.
    pub tags: &'a str,
    /// The value of the tag TimeControl.
    pub times: &'a str,
    pub stand: Stand<'a>,
}

/// What is kept of a replay of a game: the answer to `line G`, and whether the side to move is in check.
#[derive(Drop)]
pub struct PlayedGame {
    pub answer: String,
    pub is_check: bool,
}

/// A game with its replay.
#[derive(Clone, Copy)]
pub struct GameTold<'a> {
    pub game: Spectated<'a>,
    pub played: &'a PlayedGame,
}

/// The side whose clock runs, where a game ended so, all clocks are stopped or not, and this side is to move.
pub fn running_side(ending: Option<Ending>, is_stopped: bool, side: Side) -> Option<Side>
    ensures { result ≡ running_side ending is_stopped side }
{
    match ending {
        None if !is_stopped => Some(side),
        _ => None,
    }
}
