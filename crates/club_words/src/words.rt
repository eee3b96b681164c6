//! The words of the club's program, and what they ask for.
use crate::archive::{
    EVIDENCE, EXPORT, KEEP, LIVE, VERIFY_LOG, evidence_of, exporting_of, keeping_of, living_of,
    no_date_told, no_dates_told,
};
use crate::lobby::{LOBBY, PLAYER, adding_of, serving_of};
use crate::rounds::{
    DECIDE, RESULTS, STANDINGS, START, TRF, asking_of, deciding_of, no_day_told, no_decision_told,
    report_of, standing_of, starting_of,
};
use clap::{ArgMatches, Command, Error};
use command_lines::{CLUB, WordText, command_line, read_by, read_or_told};
use lobby_players::Adding;
use lobby_serving::Serving;
use night_boards::Starting;
use night_keeping::{AskedEvidence, Exporting, Keeping, Living};
use night_outcomes::{Asking, Deciding};
use night_standings::Standing;
use std::alloc::{AllocError, Global};

/// What the program is to do.
#[derive(Drop)]
pub enum Word<'a> {
    /// To serve browsers.
    Lobby(Serving<'a>),
    /// To put a player into a players' file.
    Player(Adding<'a>),
    /// To tell what the log has of a game.
    Evidence(AskedEvidence<'a>),
    /// To look whether a log, of this name, stands as it was put.
    VerifyLog(&'a str),
    /// To keep games that are over.
    Keep(Keeping<'a>),
    /// To write the games of an archive.
    Export(Exporting<'a>),
    /// To write the games that are played.
    Live(Living<'a>),
    /// To open the games of a round.
    Start(Starting<'a>),
    /// To write the results of a round.
    Results(Asking<'a>),
    /// To decide the result of a board.
    Decide(Deciding<'a>),
    /// To write the report or the standings of a tournament.
    Standings(Standing<'a>),
}

// The words, in the order in which help lists them. (They have a function of their own, since each step of a function
// that has texts tells of all their bytes.)
fn words() -> [WordText; 12] {
    [
        LOBBY, PLAYER, EVIDENCE, VERIFY_LOG, KEEP, EXPORT, LIVE, START, RESULTS, DECIDE, TRF,
        STANDINGS,
    ]
}

const ABOUT: &str = "\
A chess club's lobby, archive and rounds, over a game server. Each word has its own --help.
The script ./chess-club has the word evening besides, which runs server, lobby and archive.";

/// The program's command line.
pub fn command<'a>(alloc: Global) -> Result<Command<'a>, AllocError> {
    command_line(alloc, CLUB, ABOUT, &words())
}

/// Reads the words, the program's own name first. An `Err` is a usage fault, or a request for help.
pub fn read_words<'a>(alloc: Global, words: &'a [String]) -> Result<Word<'a>, Error> {
    read_by(alloc, command(alloc)?, words, word_given)
}

fn word_given<'a>(
    alloc: Global,
    command: &mut Command<'a>,
    matches: &ArgMatches<'a>,
) -> Result<Word<'a>, Error> {
    let told = what_is_none(alloc, matches)?;
    let read = word_of(alloc, matches)?;
    read_or_told(command, told, read, fault_of(matches))
}

// What is said where a date, a day, a board or a result is given, and is none.
fn what_is_none(alloc: Global, matches: &ArgMatches<'_>) -> Result<Option<String>, AllocError> {
    match matches.subcommand() {
        Some(("keep", values)) => no_date_told(alloc, values),
        Some(("live", values)) => no_dates_told(alloc, values),
        Some(("trf", values)) => no_day_told(alloc, values),
        Some(("decide", values)) => no_decision_told(alloc, values),
        _ => Ok(None),
    }
}

// What a word with its values asks for; none where a value is none that the word takes.
fn word_of<'a>(alloc: Global, matches: &ArgMatches<'a>) -> Result<Option<Word<'a>>, AllocError> {
    let Some((word, values)) = matches.subcommand() else {
        return Ok(None);
    };
    Ok(match word {
        "lobby" => serving_of(alloc, values)?.map(Word::Lobby),
        "player" => adding_of(values).map(Word::Player),
        "evidence" => evidence_of(alloc, values)?.map(Word::Evidence),
        "verify-log" => values.get_str("log").map(Word::VerifyLog),
        "keep" => keeping_of(values).map(Word::Keep),
        "export" => exporting_of(alloc, values)?.map(Word::Export),
        "live" => living_of(alloc, values)?.map(Word::Live),
        "start" => starting_of(alloc, values)?.map(Word::Start),
        "results" => asking_of(values).map(Word::Results),
        "decide" => deciding_of(values).map(Word::Decide),
        "trf" => report_of(alloc, values)?.map(Word::Standings),
        "standings" => standing_of(alloc, values)?.map(Word::Standings),
        _ => None,
    })
}

// What is wrong where a word asks for nothing.
fn fault_of(matches: &ArgMatches<'_>) -> &'static str {
    match matches.subcommand() {
        Some(("lobby", _)) => {
            "an address is none, or a host: a host is a name or an address, with a port or without"
        }
        Some(("player", _)) => {
            "an address is none: that of a page begins with http:// or https://, and has no # and no space"
        }
        Some(("evidence", _)) => {
            "a round's files are none, or --players, --particulars or --rounds stands without --html"
        }
        Some(("keep", _)) => {
            "an address is none, a tag's value has a control character, or --lobby stands without --drop"
        }
        Some(("export", _)) => {
            "--pgn and --csv cannot be used with one another, or a round's files are none"
        }
        Some(("live", _)) => {
            "an address or a round's files are none, a tag's value has a control character, --kept stands without \
            --archive, or --games beside --delay"
        }
        Some(("start", _)) => "an address, a board or a game is none",
        Some(("results", _)) => { "an address is none, or neither --archive nor --server is given" }
        Some(("decide", _)) => "a board or a result is none",
        Some(("trf", _)) => {
            "an address, a number, a round's files or a tie-break are none, or neither --archive nor --server is given"
        }
        Some(("standings", _)) => {
            "an address, a round's files, a tie-break or the form are none, neither --archive nor --server is given, \
            or --log stands without --form json"
        }
        _ => "a word is missing",
    }
}
