//! What is told of a lobby to who looks after it, as Prometheus reads it.
use crate::lines::{put_head, put_labelled, put_number, seconds};
use crate::listing::Games;
use crate::table::Table;
use bytes::Bytes;
use lobby_loop::{ACTS, BOUNDS, Counts, Lobby};
use lobby_web::{File, Kind};
use std::alloc::{AllocError, Global};
use std::collections::BTreeMap;

/// The path at which it is served.
const PATH: &[u8] = b"/health";

/// So many milliseconds lie at least between two texts.
const REST: u64 = 1_000;

// Whether the server is up, and who is there.
fn put_connections(
    text: &mut String,
    alloc: Global,
    lobby: &Lobby,
    table: &Table,
) -> Result<(), AllocError> {
    put_number(
        text,
        alloc,
        "server_up",
        "gauge",
        "Whether the game server is connected and answers: 1, else 0.",
        u64::from(table.is_up()),
    )?;
    put_number(
        text,
        alloc,
        "connections",
        "gauge",
        "Browsers that were connected when these figures were made.",
        lobby.hall().len() as u64,
    )?;
    put_number(
        text,
        alloc,
        "turned_away_total",
        "counter",
        "Connections that were turned away since the lobby began.",
        lobby.hall().turned_away(),
    )?;
    put_number(
        text,
        alloc,
        "logins_refused_total",
        "counter",
        "Logins that were refused since the lobby began.",
        lobby.hall().counts().logins_refused,
    )
}

// How many games the server has.
fn put_games(text: &mut String, alloc: Global, games: Games) -> Result<(), AllocError> {
    put_number(
        text,
        alloc,
        "games",
        "gauge",
        "Games on the server's table: those that wait, that go on, and that are over and not taken off.",
        games.all,
    )?;
    put_number(
        text,
        alloc,
        "games_waiting",
        "gauge",
        "Those among them that wait for a second player.",
        games.waiting,
    )
}

// What was said, and what was answered.
fn put_answers(text: &mut String, alloc: Global, counts: &Counts) -> Result<(), AllocError> {
    put_number(
        text,
        alloc,
        "messages_total",
        "counter",
        "Messages that were taken of browsers.",
        counts.messages,
    )?;
    put_head(
        text,
        alloc,
        "answers_total",
        "counter",
        "Answers to them, by their first word.",
    )?;
    let words = [
        ("ok", counts.ok),
        ("no", counts.no),
        ("fallen", counts.fallen),
        ("lost", counts.lost),
    ];
    for (word, number) in words.iter() {
        put_labelled(text, alloc, "answers_total", "word", word, *number)?;
    }
    Ok(())
}

// Which acts were accepted.
fn put_acts(text: &mut String, alloc: Global, counts: &Counts) -> Result<(), AllocError> {
    put_head(
        text,
        alloc,
        "acts_total",
        "counter",
        "Acts that were accepted, by the word behind ok.",
    )?;
    for (act, number) in ACTS.iter().zip(counts.acts.iter()) {
        put_labelled(text, alloc, "acts_total", "act", act, *number)?;
    }
    Ok(())
}

// Counts how often each game is there.
fn count(counts: &mut BTreeMap<u32, u64>, games: &[u32]) -> Result<(), AllocError> {
    for game in games {
        let before = counts.get(game).copied().unwrap_or(0);
        counts.insert(*game, before.saturating_add(1))?;
    }
    Ok(())
}

// Which games are watched, by how many connections each.
fn put_watchers(text: &mut String, alloc: Global, games: &[u32]) -> Result<(), AllocError> {
    put_head(
        text,
        alloc,
        "watchers",
        "gauge",
        "Connections that watch a game, for each game that is watched.",
    )?;
    let mut counts = BTreeMap::new(alloc);
    count(&mut counts, games)?;
    for (game, count) in counts.iter() {
        let game = format!(in alloc; "{game}")?;
        put_labelled(text, alloc, "watchers", "game", game.as_str(), *count)?;
    }
    Ok(())
}

// How long answers took: how many no longer than each bound, how long they took together, and how many there were.
fn put_times(text: &mut String, alloc: Global, counts: &Counts) -> Result<(), AllocError> {
    put_head(
        text,
        alloc,
        "answer_seconds",
        "histogram",
        "Time from the turn that takes a message to the turn that sends its answer, in whole milliseconds.",
    )?;
    let bucket = "answer_seconds_bucket";
    for (bound, number) in BOUNDS.iter().zip(counts.within.iter()) {
        let bound = seconds(alloc, *bound)?;
        put_labelled(text, alloc, bucket, "le", bound.as_str(), *number)?;
    }
    let count = counts.timed;
    put_labelled(text, alloc, bucket, "le", "+Inf", count)?;
    let sum = seconds(alloc, counts.time)?;
    let lines = format!(in alloc;
        "chess_lobby_answer_seconds_sum {sum}\nchess_lobby_answer_seconds_count {count}\n"
    )?;
    text.push_str(lines.as_str())
}

// How long the lobby is there.
fn put_up(text: &mut String, alloc: Global, at: u64) -> Result<(), AllocError> {
    put_head(
        text,
        alloc,
        "up_seconds",
        "gauge",
        "Seconds since the lobby began.",
    )?;
    let up = seconds(alloc, at)?;
    let line = format!(in alloc; "chess_lobby_up_seconds {up}\n")?;
    text.push_str(line.as_str())
}

/// The text that is served, and from when on another is made.
#[derive(Drop)]
pub struct Health {
    alloc: Global,
    next_at: u64,
}

impl Health {
    /// None was made.
    pub fn new(alloc: Global) -> Health {
        Health { alloc, next_at: 0 }
    }

    // The text, at a moment: what the lobby counts, and how many games the server told.
    fn text(&self, lobby: &Lobby, table: &Table, at: u64) -> Result<String, AllocError> {
        let alloc = self.alloc;
        let mut text = String::new(alloc);
        put_up(&mut text, alloc, at)?;
        put_connections(&mut text, alloc, lobby, table)?;
        let games = lobby.hall().watched_games()?;
        put_watchers(&mut text, alloc, games.as_slice())?;
        let counts = lobby.hall().counts();
        put_answers(&mut text, alloc, counts)?;
        put_acts(&mut text, alloc, counts)?;
        put_times(&mut text, alloc, counts)?;
        if let Some(games) = table.games(at) {
            put_games(&mut text, alloc, games)?;
        }
        Ok(text)
    }

    /// The text is made anew, where the one that is served is older than a second.
    pub fn look(&mut self, lobby: &mut Lobby, table: &Table, at: u64) -> Result<(), AllocError> {
        if at < self.next_at {
            return Ok(());
        }
        self.next_at = at.saturating_add(REST);
        let text = self.text(lobby, table, at)?;
        let bytes = Bytes::from_vec(text.into_bytes())?;
        let path = PATH.to_vec(self.alloc)?;
        lobby.put_file(File::new(self.alloc, path, Kind::Figures, bytes)?)
    }
}
