//! Words that several players read.
ghost use Rattle.std.specs.Prelude.{IfOk};
ghost use Rattle.rec_codec.specs.declared.limits.Version.TheVariants.{Two};
ghost use Rattle.rec_codec.specs.Limits.{IsInRange};

use crate::fault::Fault;
use chess_entry::{Command, Name};
use chess_line::{Line, parse};
use rec_codec::{Limits, Version};
use sector_dev::Fate;
use std::alloc::Global;

/// A device of so many sectors, and the limits of the store on it.
#[derive(Clone, Copy)]
pub struct Size {
    pub sectors: u32,
    pub limits: Limits,
}

/// 256 games of 1,024 moves, whose journal takes 2 MB: 1,965 sectors of 4 records in each half.
pub const LIMITS: Limits = Limits {
    games: 256,
    plies: 1_024,
};

/// Four games of 60 moves, on as few sectors as they need.
pub const SMALL: Size = Size {
    sectors: 212,
    limits: Limits {
        games: 4,
        plies: 60,
    },
};

/// A line of a session, with its moment and the name of who sends it, if it has one.
#[derive(Clone, Copy)]
pub struct Sent<'a> {
    pub at: u64,
    pub who: Option<Name>,
    pub line: &'a str,
}

/// A word, and what comes behind it, which may be nothing.
pub fn split(text: &str) -> (&str, &str) {
    match text.split_once(' ') {
        Some(parts) => parts,
        None => (text, ""),
    }
}

/// `GAMES PLIES`, both in the range of version 2.
pub fn read_limits(text: &str) -> Result<Limits, Fault>
    ensures { IfOk result (IsInRange Two) }
{
    let (games, plies) = split(text);
    let limits = Limits {
        games: games.parse::<u32>()?,
        plies: plies.parse::<u32>()?,
    };
    if limits.is_in_range(Version::Two) {
        Ok(limits)
    } else {
        Err(Fault::Input)
    }
}

/// `SECTORS GAMES PLIES`, the limits in range.
pub fn read_size(text: &str) -> Result<Size, Fault>
    ensures { IfOk result (λ size. IsInRange Two size.limits) }
{
    let (sectors, limits) = split(text);
    Ok(Size {
        sectors: sectors.parse::<u32>()?,
        limits: read_limits(limits)?,
    })
}

/// `CALLS`, so many that a device serves, or `-` for any number.
pub fn read_calls(text: &str) -> Result<Option<u64>, Fault> {
    match text {
        "-" => Ok(None),
        _ => Ok(Some(text.parse::<u64>()?)),
    }
}

/// `MOMENT NAME LINE`, NAME `-` for a session without a name; `None` where a text has not that form.
pub fn read_sent(text: &str) -> Option<Sent<'_>> {
    let (at, rest) = text.split_once(' ')?;
    let (name, line) = rest.split_once(' ')?;
    let who = match name {
        "-" => None,
        _ => Some(Name::try_new(name)?),
    };
    Some(Sent {
        at: at.parse::<u64>().ok()?,
        who,
        line,
    })
}

/// The same where LINE is a command's.
pub fn read_command(text: &str) -> Result<Command, Fault> {
    let Some(sent) = read_sent(text) else {
        return Err(Fault::Input);
    };
    match parse(sent.line.as_bytes()) {
        Some(Line::Act(act)) => Ok(Command {
            at: sent.at,
            who: sent.who,
            act,
        }),
        _ => Err(Fault::Input),
    }
}

// What becomes of a pending write, by its letter.
fn fate_of(letter: u8) -> Option<Fate> {
    match letter {
        b'L' | b'l' => Some(Fate::Lost),
        b'K' | b'k' => Some(Fate::Kept),
        b'U' | b'u' => Some(Fate::Unreadable),
        _ => None,
    }
}

/// What becomes of pending writes, a letter each: `l` lost, `k` kept, `u` unreadable, or the same as capitals.
pub fn fates_of(alloc: Global, letters: &str) -> Result<Vec<Fate>, Fault> {
    let mut fates = Vec::new(alloc);
    for letter in letters.as_bytes() {
        match fate_of(*letter) {
            Some(fate) => fates.extend_from_slice(&[fate])?,
            None => return Err(Fault::Input),
        }
    }
    Ok(fates)
}
