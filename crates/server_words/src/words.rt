//! The words of the command line.
ghost use Rattle.rec_codec.specs.declared.limits.Version.TheVariants.{Two};
ghost use Rattle.rec_codec.specs.Limits.{IsInRange};

use crate::command_line::command;
use clap::error::ErrorKind;
use clap::{ArgMatches, Command, Error};
use command_lines::read_by;
use rec_codec::{Limits, Version};
use std::alloc::Global;
use std::fmt;

/// What the program is to do.
#[derive(Clone, Copy)]
pub enum Word<'a> {
    /// To answer the lines of standard input on standard output, over one board in memory.
    Board,
    /// To make a file a journal of the empty table.
    Format(Formatting<'a>),
    /// To answer the lines of standard input on standard output, over the games of a journal's file.
    Run(&'a str),
    /// To serve players.
    Serve(Serving<'a>),
    /// To play the crashes of one batch in memory.
    Drill,
    /// To raise the limits of a journal's table.
    Widen(JournalLimits<'a>),
    /// To copy a journal.
    Copy(Copying<'a>),
    /// To write the games of a journal's file.
    Show(&'a str),
}

/// A journal's file, and the limits that its table is to have.
#[derive(Clone, Copy)]
pub struct JournalLimits<'a> {
    pub journal: &'a str,
    pub limits: Limits,
    ghost in_range: { IsInRange Two limits },
}

/// The file that is to be a journal, with its limits, and whether one that holds something else may be made one.
#[derive(Clone, Copy)]
pub struct Formatting<'a> {
    pub wanted: JournalLimits<'a>,
    pub is_forced: bool,
}

/// A journal's file, and that of its copy.
#[derive(Clone, Copy)]
pub struct Copying<'a> {
    pub journal: &'a str,
    pub copy: &'a str,
}

/// Where a server listens.
#[derive(Clone, Copy)]
pub enum Place<'a> {
    /// On a port of 127.0.0.1; of 0 the system chooses one.
    Port(u16),
    /// By a Unix socket with this path.
    Socket(&'a str),
}

impl fmt::Display for Place<'_> {
    fn fmt<W: fmt::Write>(&self, f: &mut fmt::Formatter<W>) -> fmt::Result {
        match self {
            Place::Port(port) => write!(f, "port {port}"),
            Place::Socket(path) => write!(f, "socket {path}"),
        }
    }
}

/// By which clock the moments of a server go on.
#[derive(Clone, Copy)]
pub enum Pacing {
    /// By the system's: the games' clocks run on while nothing is served.
    System,
    /// By one that stands still while nothing is served.
    Serving,
}

/// A journal's file, where its games are played, and how.
#[derive(Clone, Copy)]
pub struct Serving<'a> {
    pub journal: &'a str,
    pub place: Place<'a>,
    pub pacing: Pacing,
    /// After how many turns the serving ends, if it is to end.
    pub turns: Option<u32>,
    /// For how many milliseconds a client may be silent.
    pub silence: Option<u64>,
    /// Whether the operator is told nothing but a fault's name.
    pub is_quiet: bool,
}

/// Reads the words, the program's own name first. An `Err` is a usage fault, or a request for help.
pub fn read_words<'a>(alloc: Global, words: &'a [String]) -> Result<Word<'a>, Error> {
    read_by(alloc, command(alloc)?, words, word_given)
}

fn word_given<'a>(
    _alloc: Global,
    command: &mut Command<'a>,
    matches: &ArgMatches<'a>,
) -> Result<Word<'a>, Error> {
    match matches.subcommand().and_then(word_of) {
        Some(word) => Ok(word),
        None => {
            let (kind, text) = fault_of(matches);
            Err(command.error(kind, text)?)
        }
    }
}

// What a word with its values asks for. A value that is wanted is there.
fn word_of<'a>((word, values): (&'a str, &ArgMatches<'a>)) -> Option<Word<'a>> {
    match word {
        "board" => Some(Word::Board),
        "format" => Some(Word::Format(formatting_of(values)?)),
        "run" => Some(Word::Run(values.get_str("journal")?)),
        "serve" => Some(Word::Serve(serving_of(values)?)),
        "drill" => Some(Word::Drill),
        "widen" => Some(Word::Widen(journal_limits_of(values)?)),
        "copy" => Some(Word::Copy(copying_of(values)?)),
        "show" => Some(Word::Show(values.get_str("journal")?)),
        _ => None,
    }
}

fn journal_limits_of<'a>(values: &ArgMatches<'a>) -> Option<JournalLimits<'a>> {
    let journal = values.get_str("journal")?;
    let limits = Limits {
        games: values.get_one("games")?,
        plies: values.get_one("plies")?,
    };
    if limits.is_in_range(Version::Two) {
        Some(JournalLimits { journal, limits })
    } else {
        None
    }
}

fn formatting_of<'a>(values: &ArgMatches<'a>) -> Option<Formatting<'a>> {
    Some(Formatting {
        wanted: journal_limits_of(values)?,
        is_forced: values.get_flag("force"),
    })
}

fn copying_of<'a>(values: &ArgMatches<'a>) -> Option<Copying<'a>> {
    Some(Copying {
        journal: values.get_str("journal")?,
        copy: values.get_str("to")?,
    })
}

fn serving_of<'a>(values: &ArgMatches<'a>) -> Option<Serving<'a>> {
    Some(Serving {
        journal: values.get_str("journal")?,
        place: place_of(values)?,
        pacing: pacing_of(values)?,
        turns: values.get_one("turns"),
        silence: silence_of(values),
        is_quiet: values.get_flag("quiet"),
    })
}

// The one of the port and the socket that is given; `None` where neither is, or both are.
fn place_of<'a>(values: &ArgMatches<'a>) -> Option<Place<'a>> {
    match (values.get_one("port"), values.get_str("socket")) {
        (Some(port), None) => Some(Place::Port(port)),
        (None, Some(path)) => Some(Place::Socket(path)),
        _ => None,
    }
}

// The clock that is asked for; `None` of a name that none has.
fn pacing_of(values: &ArgMatches<'_>) -> Option<Pacing> {
    match values.get_str("clock") {
        None | Some("system") => Some(Pacing::System),
        Some("serving") => Some(Pacing::Serving),
        Some(_) => None,
    }
}

// What is wrong where a word asks for nothing.
fn fault_of(matches: &ArgMatches<'_>) -> (ErrorKind, &'static str) {
    match matches.subcommand() {
        Some(("serve", values)) if pacing_of(values).is_none() => (
            ErrorKind::InvalidValue,
            "--clock is system or serving",
        ),
        Some(("serve", values)) if values.get_str("socket").is_some() => (
            ErrorKind::ArgumentConflict,
            "--port and --socket cannot be used with one another",
        ),
        Some(("serve", _)) => (
            ErrorKind::MissingRequiredArgument,
            "serve needs --port or --socket",
        ),
        _ => (ErrorKind::MissingSubcommand, "a word is missing"),
    }
}

fn silence_of(values: &ArgMatches<'_>) -> Option<u64> {
    let seconds: u32 = values.get_one("idle")?;
    Some(u64::from(seconds) * 1_000)
}
