//! What may be wrong with a file of pairings.
ghost use Rattle.std.specs.Prelude.{◌≡◌};
ghost use Rattle.night_rounds.specs.declared.faults.Fault.TheVariants as faults;

use std::alloc::AllocError;
use std::fmt;
use thiserror::Error;

/// What is wrong with a row.
#[derive(Clone, Copy, Debug)]
pub enum RowFault {
    BadShape,
    BadBoard,
    BadWhite,
    BadBlack,
    SamePlayer,
    BadTimes,
    BadStart,
    BoardTwice,
    WhiteTwice,
    BlackTwice,
}

// What is told of a fault. (thiserror's Display, which writes the same texts, took more time to prove.)
fn text_of(fault: RowFault) -> &'static str {
    match fault {
        RowFault::BadShape => "it has not five fields",
        RowFault::BadBoard => "the board is no number from 1 on",
        RowFault::BadWhite => "White's name is none",
        RowFault::BadBlack => "Black's name is none",
        RowFault::SamePlayer => "White and Black are one player",
        RowFault::BadTimes =>
            "the times are none that the server takes, as 300+2 or 40/5400+30:1800+30",
        RowFault::BadStart => "the start is no moment with its offset, as 2026-11-26T19:30Z",
        RowFault::BoardTwice => "the board stands in a row above",
        RowFault::WhiteTwice => "White plays in a row above",
        RowFault::BlackTwice => "Black plays in a row above",
    }
}

impl fmt::Display for RowFault {
    fn fmt<W: fmt::Write>(&self, f: &mut fmt::Formatter<W>) -> fmt::Result {
        f.write_str(text_of(*self))
    }
}

impl std::error::Error for RowFault {}

/// Why a text is no file of pairings.
#[derive(Clone, Copy, Debug, Error)]
pub enum Fault {
    #[error("the first row is not board,white,black,times,start with commas between")]
    NoHeader,
    /// The row of this number, the header being row 1, has this fault.
    #[error("row {0}: {1}")]
    Row(usize, RowFault),
    #[error("it is not in UTF-8")]
    NotText,
    #[error("memory was refused")]
    NoMemory,
}

impl From<AllocError> for Fault {
    ghost from_gives = { λ _ fault. fault ≡ faults.NoMemory };

    fn from(_error: AllocError) -> Fault {
        Fault::NoMemory
    }
}
