//! The words of the archive and of the log, with the texts of their help: games are kept, exported and written live,
//! the log tells of a game.
use crate::addresses::server_named;
use crate::options::{ARCHIVE, INITIALS, PARTICULARS, PLAYERS, SERVER};
use crate::rounds::rounds_of;
use clap::ArgMatches;
use command_lines::{OptionText, OptionValue, WordText};
use lobby_words::name_form;
use night_games::Evidence;
use night_keeping::{AskedEvidence, Besides, Exporting, Form, Keeping, Living, Source};
use std::alloc::{AllocError, Global};
use std::net::SocketAddr;
use text_pgn::{Heading, is_date};

const HELP_OF_KEEP: &str = "\
It asks the game server at --server for its games, and keeps each one that is over in the
archive, which it makes where there is none: a line a game, each game once, on the disk
before the next is asked for. With --drop it then drops the game from the server's table.
With --lobby it drops no game that somebody watches there, and none where that lobby cannot
be asked, or began less than 20 seconds ago. With --log each move has its player's clock
behind it where the lobby's log knows it.

It ends once all games of the table were looked at; with --every it goes on until it is
killed, and comes back to a server that was away. It may be killed at any moment and given
again, as often as is wished.

An archive is of one journal: games have other numbers in another.

Exit status: 0; 1 with what is wrong on standard error; 2 for words that the program does
not know.

Example:
  chess-club keep --server 127.0.0.1:5001 --archive night.jsonl --players club.players
prints
  kept 12, dropped 0, in the archive 40";

const HELP_OF_EXPORT: &str = "\
It writes the PGN of each game of an archive, in the order in which they were kept; with
--csv a row for each, as CSV: its number, how many moves were made, the values of its tags,
and its PGN. With --rounds games stand by their rounds and boards, which the tags Round and
Board tell, and what an arbiter decided is a comment; with --particulars ratings, titles, FIDE's
numbers and teams are tags of a game too, and players have their full names of that file. The
archive is only read, also while another keeps games in it.

Exit status: 0; 1 with what is wrong on standard error; 2 for words that the program does
not know.

Examples:
  chess-club export --archive night.jsonl >night.pgn
  chess-club export --archive night.jsonl --csv >games.csv";

const HELP_OF_LIVE: &str = "\
It writes the games that are played at the game server at --server to a file, each with all
its moves until now, and those that are over; with --archive also those that were kept and
have left the table. The file is put in its place at once, and only where it has changed, so
it may be fetched at any moment: pages that show games live take its address. With --log
each move has its player's clock behind it where the lobby's log knows it. With --initials
the players are told by their initials, as where a club has minors.

With --kept it writes all games of the archive to another file, the one that was kept last
first, each with its number as the tag GameId: the lobby's page looks games up there. With
--particulars and --rounds tags are as of export.

With --games it writes a folder of files by which spectators watch: games.json tells of all
games how they stand, and G.json of game G all moves with their positions and clocks. The
lobby serves them by its --games-files, and a web server as they lie. Other files there that
have a number for a name, and .json, go. It is not for --delay: it has all at once.

With --every it goes on until it is killed, and comes back to a server that was away; with
--games it looks twice a second then, and asks of the server the list and what has changed.

Exit status: 0; 1 with what is wrong on standard error; 2 for words that the program does
not know.

Example:
  chess-club live --server 127.0.0.1:5001 --file live.pgn --log club.log --every 5";

const HELP_OF_EVIDENCE: &str = "\
It prints what the log has of a game, a line for each act: when it was answered (UTC), who
said what, the answer, and what both clocks showed behind it, - where that is not known. An
answer to show that stands behind no act has a line of its own, and so have moves that the
log has not got, and that it has no end. The log is only read, also while a lobby writes it.

With --html it prints the same as a page, to be printed on A4 and signed: with how far the log
goes and the sum of its last line, and what arbiters decided about the board. Full names,
round and board are told there by --players, --particulars and --rounds.

Exit status: 0; 1 with what is wrong on standard error, as where the log has no such game; 2
for words that the program does not know.

Examples:
  chess-club evidence --game 7 --log club.log
  chess-club evidence --game 7 --log club.log --html --players club.players \\
      --rounds round1.csv,round1.games,round1.decisions >game7.html";

const HELP_OF_VERIFY_LOG: &str = "\
It looks whether each line of the log tells the sum of the line before it, as the lobby puts
it: where a line was changed, taken out or put in, the first that does not fit is told. Else
it prints how many lines there are, and the sum of the last, which an arbiter may write down:
it stands as prev in the line behind, once there is one. The log is only read, also while a
lobby writes it.

Exit status: 0; 1 with what is wrong on standard error; 2 for words that the program does
not know.

Example:
  chess-club verify-log --log club.log";

const PLAYERS_NAMED: OptionText = OptionText {
    help: "The players' file, for full names",
    is_required: false,
    ..PLAYERS
};

const LOG: OptionText = OptionText {
    name: "log",
    value: OptionValue::Text("FILE"),
    help: "The lobby's log, for clocks",
    is_required: false,
};

const EVENT: OptionText = OptionText {
    name: "event",
    value: OptionValue::Text("TEXT"),
    help: "The tag Event, ? without it",
    is_required: false,
};

const SITE: OptionText = OptionText {
    name: "site",
    help: "The tag Site, ? without it",
    ..EVENT
};

const DATE: OptionText = OptionText {
    name: "date",
    value: OptionValue::Text("DATE"),
    help: "The tag Date as YYYY.MM.DD, with ?? for what is not known; ????.??.?? without it",
    is_required: false,
};

const ROUND: OptionText = OptionText {
    name: "round",
    help: "The tag Round, ? without it",
    ..EVENT
};

const DROP: OptionText = OptionText {
    name: "drop",
    value: OptionValue::Nothing,
    help: "Drops each game that is in the archive from the table",
    is_required: false,
};

const LOBBY: OptionText = OptionText {
    name: "lobby",
    value: OptionValue::Text("A:P"),
    help: "Where the lobby listens: with --drop, no game is dropped that is watched there",
    is_required: false,
};

const ROUNDS: OptionText = OptionText {
    name: "rounds",
    value: OptionValue::Texts("CSV,GAMES"),
    help: "A round's files as of trf, for boards, rounds and decisions; once for each round, in their order",
    is_required: false,
};

const DELAY: OptionText = OptionText {
    name: "delay",
    value: OptionValue::Number("MINUTES", 1, 60),
    help: "How many minutes later --file has what is played, 1 to 60; at once without it",
    is_required: false,
};

const KEEP_EVERY: OptionText = OptionText {
    name: "every",
    value: OptionValue::Number("SECONDS", 1, 3_600),
    help: "After how many seconds it is done again, 1 to 3600; once without it",
    is_required: false,
};

const PGN: OptionText = OptionText {
    name: "pgn",
    value: OptionValue::Nothing,
    help: "Writes the PGN of each game, as without it",
    is_required: false,
};

const CSV: OptionText = OptionText {
    name: "csv",
    help: "Writes a row a game as CSV, with its PGN last",
    ..PGN
};

const FILE: OptionText = OptionText {
    name: "file",
    value: OptionValue::Text("FILE"),
    help: "The file that is written",
    is_required: true,
};

const LIVE_ARCHIVE: OptionText = OptionText {
    help: "An archive whose games are written too, those from --since on",
    is_required: false,
    ..ARCHIVE
};

const SINCE: OptionText = OptionText {
    name: "since",
    help: "With --archive, the first date of games that are written; --date without it, and all without either",
    ..DATE
};

const KEPT: OptionText = OptionText {
    name: "kept",
    help: "A file to which all games of the archive are written besides",
    is_required: false,
    ..FILE
};

const GAMES: OptionText = OptionText {
    name: "games",
    value: OptionValue::Text("FOLDER"),
    help: "A folder of files by which spectators watch: games.json, and G.json of each game",
    is_required: false,
};

const LIVE_EVERY: OptionText = OptionText {
    help: "After how many seconds it is written again, 1 to 3600; once without it",
    ..KEEP_EVERY
};

const GAME: OptionText = OptionText {
    name: "game",
    value: OptionValue::Number("G", 0, 4_294_967_295),
    help: "The game's number",
    is_required: true,
};

const ITS_LOG: OptionText = OptionText {
    name: "log",
    value: OptionValue::Text("FILE"),
    help: "The log",
    is_required: true,
};

const HTML: OptionText = OptionText {
    name: "html",
    value: OptionValue::Nothing,
    help: "Prints it as a page of HTML, which asks nothing of any host",
    is_required: false,
};

pub const KEEP: WordText = WordText {
    name: "keep",
    about: "Keeps the games that are over",
    help: HELP_OF_KEEP,
    options: &[
        SERVER,
        ARCHIVE,
        PLAYERS_NAMED,
        LOG,
        EVENT,
        SITE,
        DATE,
        ROUND,
        DROP,
        LOBBY,
        KEEP_EVERY,
    ],
};

pub const EXPORT: WordText = WordText {
    name: "export",
    about: "Writes the games of an archive as PGN or CSV",
    help: HELP_OF_EXPORT,
    options: &[ARCHIVE, PGN, CSV, PLAYERS_NAMED, PARTICULARS, ROUNDS],
};

pub const LIVE: WordText = WordText {
    name: "live",
    about: "Writes the games that are played to a file that others fetch",
    help: HELP_OF_LIVE,
    options: &[
        SERVER,
        FILE,
        LIVE_ARCHIVE,
        SINCE,
        KEPT,
        PLAYERS_NAMED,
        LOG,
        EVENT,
        SITE,
        DATE,
        ROUND,
        PARTICULARS,
        ROUNDS,
        INITIALS,
        GAMES,
        DELAY,
        LIVE_EVERY,
    ],
};

pub const EVIDENCE: WordText = WordText {
    name: "evidence",
    about: "Tells what the log has of a game",
    help: HELP_OF_EVIDENCE,
    options: &[GAME, ITS_LOG, HTML, PLAYERS_NAMED, PARTICULARS, ROUNDS],
};

pub const VERIFY_LOG: WordText = WordText {
    name: "verify-log",
    about: "Looks whether the log stands as it was put",
    help: HELP_OF_VERIFY_LOG,
    options: &[ITS_LOG],
};

// What is said where an option gives a date that is none.
fn no_date_in(
    alloc: Global,
    values: &ArgMatches<'_>,
    name: &str,
) -> Result<Option<String>, AllocError> {
    match values.get_str(name) {
        Some(date) if !is_date(date) => Ok(Some(format!(in alloc;
            "--{name} {date:?} is no date: it is YYYY.MM.DD, as 2026.11.27, with ?? for what is not known"
        )?)),
        _ => Ok(None),
    }
}

/// What is said where a date is given to `keep`, and is none.
pub fn no_date_told(alloc: Global, values: &ArgMatches<'_>) -> Result<Option<String>, AllocError> {
    no_date_in(alloc, values, "date")
}

/// What is said where one of the two dates is given to `live`, and is none.
pub fn no_dates_told(alloc: Global, values: &ArgMatches<'_>) -> Result<Option<String>, AllocError> {
    match no_date_in(alloc, values, "since")? {
        None => no_date_in(alloc, values, "date"),
        told => Ok(told),
    }
}

// What the tags are to say; none where a value cannot stand in a tag.
fn heading_of<'a>(values: &ArgMatches<'a>) -> Option<Heading<'a>> {
    Some(Heading {
        event: value_of(values, "event", "?")?,
        site: value_of(values, "site", "?")?,
        date: value_of(values, "date", "????.??.??")?,
        round: value_of(values, "round", "?")?,
        white: "",
        black: "",
    })
}

// The lobby that is asked; none where its address is none, or no game is dropped.
fn lobby_of(values: &ArgMatches<'_>, drops: bool) -> Option<Option<SocketAddr>> {
    match values.get_str("lobby") {
        None => Some(None),
        Some(address) if drops => Some(Some(address.parse().ok()?)),
        Some(_) => None,
    }
}

// What `keep` and `live` both ask for; none where the address is none, or a value cannot stand in a tag.
fn source_of<'a>(values: &ArgMatches<'a>) -> Option<Source<'a>> {
    Some(Source {
        server: server_named(values)?,
        players: values.get_str("players"),
        log: values.get_str("log"),
        heading: heading_of(values)?,
        every: values.get_one("every"),
    })
}

/// What `keep` asks for; none where an address is none, a value cannot stand in a tag, or a lobby is asked for nothing.
pub fn keeping_of<'a>(values: &ArgMatches<'a>) -> Option<Keeping<'a>> {
    let drops = values.get_flag("drop");
    Some(Keeping {
        source: source_of(values)?,
        archive: values.get_str("archive")?,
        drops,
        lobby: lobby_of(values, drops)?,
    })
}

// The form that is asked for; none where both are.
fn form_of(values: &ArgMatches<'_>) -> Option<Form> {
    match (values.get_flag("pgn"), values.get_flag("csv")) {
        (_, false) => Some(Form::Pgn),
        (false, true) => Some(Form::Csv),
        (true, true) => None,
    }
}

// What is told of games besides; none where a round's files are none.
fn besides_of<'a>(
    alloc: Global,
    values: &ArgMatches<'a>,
) -> Result<Option<Besides<'a>>, AllocError> {
    let Some(rounds) = rounds_of(alloc, values)? else {
        return Ok(None);
    };
    Ok(Some(Besides {
        particulars: values.get_str("particulars"),
        rounds,
    }))
}

/// What `export` asks for; none where it asks for both forms, or a round's files are none.
pub fn exporting_of<'a>(
    alloc: Global,
    values: &ArgMatches<'a>,
) -> Result<Option<Exporting<'a>>, AllocError> {
    let (Some(archive), Some(form), Some(besides)) = (
        values.get_str("archive"),
        form_of(values),
        besides_of(alloc, values)?,
    ) else {
        return Ok(None);
    };
    Ok(Some(Exporting {
        archive,
        form,
        players: values.get_str("players"),
        besides,
    }))
}

/// What `evidence` asks for; none where a round's files are none, or what only a page tells is named without one.
pub fn evidence_of<'a>(
    alloc: Global,
    values: &ArgMatches<'a>,
) -> Result<Option<AskedEvidence<'a>>, AllocError> {
    let (Some(game), Some(log), Some(besides)) = (
        values.get_one("game"),
        values.get_str("log"),
        besides_of(alloc, values)?,
    ) else {
        return Ok(None);
    };
    let (as_page, players) = (values.get_flag("html"), values.get_str("players"));
    let is_plain = players.is_none() && besides.particulars.is_none() && besides.rounds.is_empty();
    if !as_page && !is_plain {
        return Ok(None);
    }
    Ok(Some(AskedEvidence {
        evidence: Evidence { game, log },
        as_page,
        players,
        besides,
    }))
}

// The folder of spectators, if one is named; none where a delay is asked for, since it has what is played at once.
fn games_of<'a>(values: &ArgMatches<'a>) -> Option<Option<&'a str>> {
    let delay: Option<u32> = values.get_one("delay");
    match values.get_str("games") {
        Some(_) if delay.is_some() => None,
        games => Some(games),
    }
}

// The file of all games of the archive, if one is named; none where there is no archive.
fn kept_of<'a>(values: &ArgMatches<'a>) -> Option<Option<&'a str>> {
    match values.get_str("kept") {
        Some(_) if values.get_str("archive").is_none() => None,
        kept => Some(kept),
    }
}

/// What `live` asks for; none where the address or a round's files are none, a value cannot stand in a tag, the games
/// of no archive are to be written, or a delay is asked for beside the folder of spectators.
pub fn living_of<'a>(
    alloc: Global,
    values: &ArgMatches<'a>,
) -> Result<Option<Living<'a>>, AllocError> {
    let (Some(source), Some(file), Some(kept), Some(games), Some(besides)) = (
        source_of(values),
        values.get_str("file"),
        kept_of(values),
        games_of(values),
        besides_of(alloc, values)?,
    ) else {
        return Ok(None);
    };
    Ok(Some(Living {
        source,
        file,
        archive: values.get_str("archive"),
        since: values.get_str("since").or(values.get_str("date")),
        kept,
        games,
        names: name_form(values.get_flag("initials")),
        besides,
        delay: values.get_one("delay").unwrap_or(0),
    }))
}

// The value of a tag; none where it has a control character.
fn value_of<'a>(values: &ArgMatches<'a>, name: &str, unknown: &'a str) -> Option<&'a str> {
    let value = values.get_str(name).unwrap_or(unknown);
    let is_shown = value
        .as_bytes()
        .iter()
        .all(|byte| *byte >= 32 && *byte != 127);
    if is_shown { Some(value) } else { None }
}
