//! What the tags of a PGN tell.
use crate::outcomes::Ended;
use std::alloc::{AllocError, Global};
use text_parts::parts;
use text_pgn::{is_move, is_tag, value_in};

// How many moves stand in a line that is no tag's.
fn moves_in(alloc: Global, line: &str) -> Result<u32, AllocError> {
    if is_tag(line) {
        return Ok(0);
    }
    let words = parts(alloc, line, ' ')?;
    let mut moves: u32 = 0;
    for word in words.as_slice() {
        if is_move(word) {
            moves = moves.saturating_add(1);
        }
    }
    Ok(moves)
}

/// What the tags of a PGN tell, who played, from which position, what came of it and which game it continues, and how
/// many moves it has.
#[derive(Clone, Copy)]
pub struct PgnTags<'a> {
    pub white: &'a str,
    pub black: &'a str,
    pub fen: &'a str,
    pub result: &'a str,
    pub article: &'a str,
    pub continues: &'a str,
    pub plies: u32,
}

// What a line has as the value of this tag, and else what was told before it.
fn told_in<'a>(line: &'a str, tag: &str, before: &'a str) -> &'a str {
    value_in(line, tag).unwrap_or(before)
}

impl<'a> PgnTags<'a> {
    // The same with what a line tells, in which so many moves stand.
    fn with_line(self, line: &'a str, moves: u32) -> PgnTags<'a> {
        PgnTags {
            white: told_in(line, "White", self.white),
            black: told_in(line, "Black", self.black),
            fen: told_in(line, "FEN", self.fen),
            result: told_in(line, "Result", self.result),
            article: told_in(line, "Article", self.article),
            continues: told_in(line, "Continues", self.continues),
            plies: self.plies.saturating_add(moves),
        }
    }

    /// Whether both sides made a move in the game, or it was played on from a position.
    pub fn is_played(self) -> bool {
        self.plies >= 2 || !self.fen.is_empty()
    }

    /// What came of the game.
    pub fn ended(self, alloc: Global) -> Result<Ended, AllocError> {
        Ok(Ended {
            result: String::from_str(alloc, self.result)?,
            article: String::from_str(alloc, self.article)?,
            is_played: self.is_played(),
        })
    }
}

// What the lines of a PGN tell; `*` where they do not tell the result.
fn tags_among<'a>(alloc: Global, lines: &[&'a str]) -> Result<PgnTags<'a>, AllocError> {
    let mut tags = PgnTags {
        white: "",
        black: "",
        fen: "",
        result: "*",
        article: "",
        continues: "",
        plies: 0,
    };
    for line in lines {
        tags = tags.with_line(line, moves_in(alloc, line)?);
    }
    Ok(tags)
}

/// What a PGN tells.
pub fn tags_in(alloc: Global, pgn: &str) -> Result<PgnTags<'_>, AllocError> {
    let lines = parts(alloc, pgn, '\n')?;
    tags_among(alloc, lines.as_slice())
}
