//! What is told of games besides their PGNs: who the players are, which board they are, what an arbiter decided.
use crate::called::{row_of, told_as};
use anyhow::{Context, Result};
use lobby_words::Player;
use night_archive::Kept;
use night_report::Particulars;
use player_name::Name;
use std::alloc::{AllocError, Global};
use text_parts::{before, parts};
use text_pgn::{is_behind, value_of, with_players};

/// A game's place in a tournament: of which round and board it is, from 1 on; who plays there, by name; and what an
/// arbiter decided, where one did.
#[derive(Drop)]
pub struct BoardGame {
    pub game: u32,
    pub round: u32,
    pub board: u32,
    pub white: Name,
    pub black: Name,
    pub decision: String,
}

/// What is known of players and of boards.
#[derive(Clone, Copy)]
pub struct Telling<'a> {
    pub players: &'a [Player],
    pub known: &'a [Particulars<'a>],
    pub games: &'a [BoardGame],
}

// Puts a tag's line behind others, where it has a value: with a backslash before each quote and each backslash.
fn push_tag(text: &mut String, colour: &str, name: &str, value: &str) -> Result<(), AllocError> {
    if value.is_empty() {
        return Ok(());
    }
    text.push('[')?;
    text.push_str(colour)?;
    text.push_str(name)?;
    text.push_str(" \"")?;
    for character in value.chars() {
        if character == '"' || character == '\\' {
            text.push('\\')?;
        }
        text.push(character)?;
    }
    text.push_str("\"]\n")
}

// The tags of a player.
fn push_player(
    text: &mut String,
    colour: &str,
    told: Option<&Particulars<'_>>,
) -> Result<(), AllocError> {
    let Some(told) = told else {
        return Ok(());
    };
    push_tag(text, colour, "Elo", told.rating)?;
    push_tag(text, colour, "FideId", told.fide_number)?;
    push_tag(text, colour, "Team", told.team)?;
    push_tag(text, colour, "Title", told.title)
}

// Puts those tags behind a text that have their place before a line, but for those that were put already; and tells how
// many were put in all.
fn push_before(
    text: &mut String,
    tags: &[(&str, String)],
    put: usize,
    line: &str,
) -> Result<usize, AllocError> {
    for at in put..tags.len() {
        if !is_behind(line, tags[at].0) {
            return Ok(at);
        }
        text.push_str(tags[at].1.as_str())?;
    }
    Ok(tags.len())
}

// A PGN with texts of tags, each where its front has its place, and with another round where one is known.
fn with_tags(
    alloc: Global,
    pgn: &str,
    tags: &[(&str, String)],
    round: Option<u32>,
) -> Result<String, AllocError> {
    let mut text = String::new(alloc);
    let mut put = 0;
    for line in parts(alloc, pgn, '\n')?.as_slice() {
        put = push_before(&mut text, tags, put, line)?;
        match round {
            Some(round) if before(line, ' ') == "[Round" => {
                text.push_str(format!(in alloc; "[Round \"{round}\"]")?.as_str())?;
            }
            _ => text.push_str(line)?,
        }
        text.push('\n')?;
    }
    Ok(text)
}

// A PGN with a comment in a line of its own before the result, the last word.
fn with_comment(alloc: Global, pgn: String, comment: &str) -> Result<String, AllocError> {
    if comment.is_empty() {
        return Ok(pgn);
    }
    let game = pgn.as_str().trim_end();
    let last = match game.rsplit_once('\n') {
        Some((_, last)) => last,
        None => game,
    };
    let result = match last.rsplit_once(' ') {
        Some((_, result)) => result,
        None => last,
    };
    let front = game.strip_suffix(result).unwrap_or(game).trim_end();
    let comment = comment.replace(alloc, "}", ")")?;
    let gap = if last == result { "\n\n" } else { "\n" };
    format!(in alloc; "{front}{gap}{{{comment}}}\n{result}\n\n")
}

// The full name of a player, and what a tag has where none is known.
fn name_told<'a>(told: Option<&Particulars<'a>>, value: &'a str) -> &'a str {
    match told {
        Some(told) if !told.full_name.is_empty() => told.full_name,
        _ => value,
    }
}

impl Telling<'_> {
    /// Whether nothing is known: then PGNs are told as they are.
    pub fn is_nothing(&self) -> bool {
        self.known.is_empty() && self.games.is_empty()
    }

    /// The full name of a player of this name, and the name itself where none is known.
    pub(crate) fn full_name<'b>(&'b self, name: &'b str) -> &'b str {
        let player = self.players.iter().find(|one| one.name.as_str() == name);
        let full = match player {
            Some(player) => player.full_name.as_str(),
            None => name,
        };
        name_told(row_of(self.known, name), full)
    }

    /// The board of a game.
    pub(crate) fn board_of(&self, game: u32) -> Option<&BoardGame> {
        self.games.iter().find(|board| board.game == game)
    }

    // The texts of the tags of a game, in the order of their names.
    fn tags(
        &self,
        alloc: Global,
        white: Option<&Particulars<'_>>,
        black: Option<&Particulars<'_>>,
        board: Option<&BoardGame>,
    ) -> Result<[(&'static str, String); 3], AllocError> {
        let mut tags = [
            ("[BlackElo", String::new(alloc)),
            ("[Board", String::new(alloc)),
            ("[WhiteElo", String::new(alloc)),
        ];
        push_player(&mut tags[0].1, "Black", black)?;
        if let Some(board) = board {
            let number = format!(in alloc; "{}", board.board)?;
            push_tag(&mut tags[1].1, "Board", "", number.as_str())?;
        }
        push_player(&mut tags[2].1, "White", white)?;
        Ok(tags)
    }

    /// A game's PGN with what is known: the tags BlackElo, BlackFideId, BlackTeam, BlackTitle, Board and White's, where
    /// they have a value; White and Black by their full names; the board's Round; and an arbiter's decision as a
    /// comment before the result. Of a board's players it is what is known by their names; else what is known alike of
    /// all who are called as the tags White and Black say (`told_as`). It fails where the PGN has no players.
    pub fn pgn(&self, alloc: Global, game: u32, pgn: &str) -> Result<String> {
        let white = value_of(alloc, pgn, "White")?.context("a game has no White")?;
        let black = value_of(alloc, pgn, "Black")?.context("a game has no Black")?;
        let board = self.board_of(game);
        let (first, second) = (
            told_as(
                self.players,
                self.known,
                board.map(|board| board.white),
                white.as_str(),
            ),
            told_as(
                self.players,
                self.known,
                board.map(|board| board.black),
                black.as_str(),
            ),
        );
        let tags = self.tags(alloc, first.as_ref(), second.as_ref(), board)?;
        let tagged = with_tags(alloc, pgn, &tags, board.map(|board| board.round))?;
        let named = with_players(
            alloc,
            tagged.as_str(),
            name_told(first.as_ref(), white.as_str()),
            name_told(second.as_ref(), black.as_str()),
        )?;
        let comment = board.map_or("", |board| board.decision.as_str());
        Ok(with_comment(alloc, String::from_utf8(named)?, comment)?)
    }

    // The places of games, each with which game it is, in order: by round and board, and those of which no board is
    // known behind the others.
    fn places(&self, alloc: Global, games: &[Kept]) -> Result<Vec<(u32, u32, usize)>, AllocError> {
        let mut places = Vec::new(alloc);
        for at in 0..games.len() {
            let (round, board) = match self.board_of(games[at].game) {
                Some(board) => (board.round, board.board),
                None => (u32::MAX, 0),
            };
            places.push((round, board, at))?;
        }
        places.sort()?;
        Ok(places)
    }

    /// Games as they are told, by their rounds and boards; those of which no board is known behind the others, in their
    /// order.
    pub fn games(&self, alloc: Global, games: Vec<Kept>) -> Result<Vec<Kept>> {
        if self.is_nothing() {
            return Ok(games);
        }
        let mut told = Vec::new(alloc);
        for place in self.places(alloc, games.as_slice())?.as_slice() {
            if let Some(kept) = games.as_slice().get(place.2) {
                let pgn = self.pgn(alloc, kept.game, kept.pgn.as_str())?;
                told.push(Kept {
                    game: kept.game,
                    pgn,
                })?;
            }
        }
        Ok(told)
    }
}
