//! What may be wrong with a file of particulars.
ghost use Rattle.std.specs.Prelude.{◌≡◌};
ghost use Rattle.night_games.specs.declared.roster_faults.RosterFault.TheVariants as faults;

use std::alloc::AllocError;
use thiserror::Error;

/// What is wrong with a row.
#[derive(Clone, Copy, Debug, Error)]
pub enum RowFault {
    #[error("it has not as many fields as the first row")]
    BadShape,
    #[error("it has no name")]
    NoName,
    #[error("the full name has a control character, as a tab or a line break")]
    BadFullName,
    #[error("the sex is neither m nor w")]
    BadSex,
    #[error("the title is none of GM, IM, WGM, FM, WIM, CM, WFM, WCM")]
    BadTitle,
    #[error("the rating is no number of at most four digits")]
    BadRating,
    #[error("the federation is no three capital letters")]
    BadFederation,
    #[error("FIDE's number is none of at most eleven digits")]
    BadNumber,
    #[error("the date of birth is not as 2001/02/03")]
    BadBirth,
    #[error("the team has a control character, as a tab or a line break")]
    BadTeam,
    #[error("the board is no number of at most four digits")]
    BadBoard,
    #[error("the name stands in a row below too")]
    NameTwice,
}

/// Why a text is no file of particulars.
#[derive(Clone, Copy, Debug, Error)]
pub enum RosterFault {
    #[error("the first row has no column name")]
    NoNames,
    #[error("column {0} of row 1 is none of name, full_name, sex, title, rating, federation, fide_number, born, \
        team, board, or stands behind it once more")]
    Column(usize),
    /// The row of this number, the header being row 1, has this fault.
    #[error("row {0}: {1}")]
    Row(usize, RowFault),
    #[error("it is not in UTF-8")]
    NotText,
    #[error("memory was refused")]
    NoMemory,
}

impl From<AllocError> for RosterFault {
    ghost from_gives = { λ _ fault. fault ≡ faults.NoMemory };

    fn from(_error: AllocError) -> RosterFault {
        RosterFault::NoMemory
    }
}
