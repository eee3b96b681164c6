//! Rounds and standings as an object of JSON, which the lobby serves and the page shows.
use crate::places::value_at;
use crate::texts::{Table, criterion_word, name_at};
use chess_bits::Colour;
use chess_mates::Reason;
use night_outcomes::{FoundOut, Law};
use night_report::{Bye, Meeting, Opponent, Play, Score};
use std::alloc::{AllocError, Global};
use text_parts::push_escaped;

/// A board of a round, by its number, its game where one was noted, who met, and what the Laws ask of its game; or a
/// match.
#[derive(Clone, Copy)]
pub struct Board<'a> {
    pub number: u32,
    pub game: Option<u32>,
    pub meeting: Meeting,
    pub law: Option<&'a Law>,
}

// Appends a text, as it is.
fn put(out: &mut Vec<u8>, text: &str) -> Result<(), AllocError> {
    out.extend_from_slice(text.as_bytes())
}

// Appends what stands between others, but before the first of them.
fn put_comma(out: &mut Vec<u8>, at: usize) -> Result<(), AllocError> {
    if at > 0 { put(out, ",") } else { Ok(()) }
}

// Appends a member whose value is a string.
fn put_string(out: &mut Vec<u8>, member: &str, text: &str) -> Result<(), AllocError> {
    put(out, "\"")?;
    put(out, member)?;
    put(out, "\":\"")?;
    push_escaped(out, text.as_bytes())?;
    put(out, "\"")
}

// What came of a game, as `results` tells it.
fn result_of(score: Score, play: Play) -> &'static str {
    match (score, play) {
        (Score::White, Play::Forfeit) => "+/-",
        (Score::Black, Play::Forfeit) => "-/+",
        (Score::Neither, Play::Forfeit) => "-/-",
        (Score::White, _) => "1-0",
        (Score::Black, _) => "0-1",
        (Score::Neither, _) => "0-0",
        (Score::Draw, _) => "1/2-1/2",
        (Score::HalfWhite, _) => "1/2-0",
        (Score::HalfBlack, _) => "0-1/2",
        (Score::Open, _) => "*",
    }
}

// The sign of a bye, and what it is worth to a player.
fn bye_texts(bye: Bye) -> (&'static str, &'static str) {
    match bye {
        Bye::Pairing => ("U", "1"),
        Bye::Full => ("F", "1"),
        Bye::Half => ("H", "1/2"),
        Bye::Zero => ("Z", "0"),
    }
}

// Appends what came of a game; of a match that is over its board points, as `2.5-1.5`.
fn put_result(
    out: &mut Vec<u8>,
    alloc: Global,
    table: Table<'_, '_>,
    round: usize,
    meeting: Meeting,
    black: u32,
) -> Result<(), AllocError> {
    let result = result_of(meeting.score, meeting.play);
    match table.boards {
        Some(boards) if !matches!(meeting.score, Score::Open) => {
            let ours = boards.points_text(alloc, round, meeting.white)?;
            let theirs = boards.points_text(alloc, round, black)?;
            let points = format!(in alloc; "{ours}-{theirs}")?;
            put_string(out, "result", points.as_str())
        }
        _ => put_string(out, "result", result),
    }
}

// Appends whom White has at a board of the round before which so many are, and what came of it.
fn put_meeting(
    out: &mut Vec<u8>,
    alloc: Global,
    table: Table<'_, '_>,
    round: usize,
    meeting: Meeting,
) -> Result<(), AllocError> {
    let white = meeting.white;
    let head = format!(in alloc; ",\"white\":{white},")?;
    put(out, head.as_str())?;
    match meeting.black {
        Opponent::Bye(bye) => {
            let (sign, worth) = bye_texts(bye);
            put_string(out, "bye", sign)?;
            put(out, ",")?;
            match table.boards {
                None => put_string(out, "result", worth),
                Some(boards) => {
                    let points = boards.points_text(alloc, round, white)?;
                    put_string(out, "result", points.as_str())
                }
            }
        }
        Opponent::Player(black) => {
            let second = format!(in alloc; "\"black\":{black},")?;
            put(out, second.as_str())?;
            put_result(out, alloc, table, round, meeting, black)
        }
    }
}

// Appends what the Laws ask of a board's game, and what was found out.
fn put_law(out: &mut Vec<u8>, law: &Law) -> Result<(), AllocError> {
    let side = match law.side {
        Some(Colour::White) => "white",
        Some(Colour::Black) => "black",
        None => "",
    };
    let (found, why, line) = match &law.found {
        FoundOut::Mates(line) => ("mates", "", line.as_str()),
        FoundOut::Cannot(Reason::KingAlone) => ("cannot", "king", ""),
        FoundOut::Cannot(Reason::DeadMaterial) => ("cannot", "men", ""),
        FoundOut::Cannot(Reason::Searched) => ("cannot", "positions", ""),
        FoundOut::Unknown => ("unknown", "", ""),
    };
    let members = [
        ("article", law.article),
        ("side", side),
        ("found", found),
        ("why", why),
        ("line", line),
    ];
    put(out, ",\"law\":{")?;
    for (at, member) in members.iter().enumerate() {
        put_comma(out, at)?;
        put_string(out, member.0, member.1)?;
    }
    put(out, "}")
}

// Appends a board.
fn put_board(
    out: &mut Vec<u8>,
    alloc: Global,
    table: Table<'_, '_>,
    round: usize,
    board: &Board<'_>,
) -> Result<(), AllocError> {
    let number = board.number;
    let head = format!(in alloc; "{{\"board\":{number}")?;
    put(out, head.as_str())?;
    put_meeting(out, alloc, table, round, board.meeting)?;
    if let Some(game) = board.game {
        let member = format!(in alloc; ",\"game\":{game}")?;
        put(out, member.as_str())?;
    }
    if let Some(law) = board.law {
        put_law(out, law)?;
    }
    put(out, "}")
}

fn put_rounds(
    out: &mut Vec<u8>,
    alloc: Global,
    table: Table<'_, '_>,
    rounds: &[Vec<Board<'_>>],
) -> Result<(), AllocError> {
    put(out, ",\"rounds\":[")?;
    for (round, boards) in rounds.iter().enumerate() {
        put_comma(out, round)?;
        put(out, "[")?;
        for (at, board) in boards.iter().enumerate() {
            put_comma(out, at)?;
            put_board(out, alloc, table, round, board)?;
        }
        put(out, "]")?;
    }
    put(out, "]")
}

// Appends the words of the tie-breaks.
fn put_criteria(out: &mut Vec<u8>, table: Table<'_, '_>) -> Result<(), AllocError> {
    put(out, ",\"breaks\":[")?;
    for (at, criterion) in table.criteria.iter().enumerate() {
        put_comma(out, at)?;
        put(out, "\"")?;
        put(out, criterion_word(*criterion))?;
        put(out, "\"")?;
    }
    put(out, "]")
}

// Appends what a player has by each tie-break.
fn put_values(
    out: &mut Vec<u8>,
    alloc: Global,
    table: Table<'_, '_>,
    at: usize,
) -> Result<(), AllocError> {
    put(out, ",\"values\":[")?;
    let mut place: usize = 0;
    for (criterion, column) in table
        .criteria
        .iter()
        .zip(table.standings.columns.as_slice())
    {
        put_comma(out, place)?;
        let value = table.value(alloc, *criterion, value_at(column.as_slice(), at))?;
        put(out, "\"")?;
        put(out, value.as_str())?;
        put(out, "\"")?;
        place = place.saturating_add(1);
    }
    put(out, "]")
}

// Appends a player, by the name in the protocol and the one that is shown.
fn put_player(
    out: &mut Vec<u8>,
    alloc: Global,
    table: Table<'_, '_>,
    name: &str,
    at: usize,
) -> Result<(), AllocError> {
    put(out, "{")?;
    put_string(out, "name", name)?;
    put(out, ",")?;
    put_string(out, "full", name_at(table.names, at))?;
    let place = table.place(at);
    let member = format!(in alloc; ",\"place\":{place},")?;
    put(out, member.as_str())?;
    put_string(out, "points", table.points(alloc, at)?.as_str())?;
    put_values(out, alloc, table, at)?;
    put(out, "}")
}

fn put_players(
    out: &mut Vec<u8>,
    alloc: Global,
    table: Table<'_, '_>,
    names: &[&str],
) -> Result<(), AllocError> {
    put(out, ",\"players\":[")?;
    for (at, name) in names.iter().enumerate() {
        put_comma(out, at)?;
        put_player(out, alloc, table, name, at)?;
    }
    put(out, "]")
}

/// Rounds and standings as an object of JSON (docs/client/LOBBY.md, "A tournament's file") up to its end; `names` are
/// those of the protocol.
pub fn round_json(
    alloc: Global,
    event: &str,
    rounds: &[Vec<Board<'_>>],
    names: &[&str],
    table: Table<'_, '_>,
) -> Result<Vec<u8>, AllocError> {
    let mut out = Vec::new(alloc);
    put(&mut out, "{")?;
    put_string(&mut out, "event", event)?;
    put_rounds(&mut out, alloc, table, rounds)?;
    put_criteria(&mut out, table)?;
    put_players(&mut out, alloc, table, names)?;
    Ok(out)
}
