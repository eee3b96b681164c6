//! The games of an archive, of which a line that is none is left out.
use crate::tags::tags_in;
use anyhow::{Context, Result};
use night_archive::{game_of, pgn_of};
use night_files::{cut_lines, tell_left_out};
use night_links::{FileState, NO_FILE, state_of};
use std::alloc::{AllocError, Global};
use std::fs;
use std::rt::Files;
use text_parts::parts;

// A game of the archive, with its line, and the adjourned game that it continues.
#[derive(Drop)]
struct ArchivedGame {
    game: u32,
    line: String,
    continues: Option<u32>,
}

/// The games of an archive.
#[derive(Drop)]
pub struct ArchivedGames {
    alloc: Global,
    // The file, where one is named, and how it stood before it was read.
    file: Option<String>,
    state: FileState,
    games: Vec<ArchivedGame>,
    /// What is to be told of lines that were left out.
    pub faults: Vec<String>,
}

// The adjourned game that the game of an archive's line continues.
fn continued_in(alloc: Global, line: &str) -> Result<Option<u32>, AllocError> {
    let pgn = pgn_of(alloc, line)?;
    let Ok(pgn) = String::from_utf8(pgn) else {
        return Ok(None);
    };
    let tags = tags_in(alloc, pgn.as_str())?;
    Ok(tags.continues.parse::<u32>().ok())
}

impl ArchivedGames {
    /// Those of a file, where one is named. What stands behind its lines is left out, and told on standard error.
    pub fn read<R: Files + AllocGlobal + Eprint>(
        rt: &R,
        file: Option<&str>,
    ) -> Result<ArchivedGames> {
        let mut archived = ArchivedGames {
            alloc: rt.alloc(),
            file: None,
            state: NO_FILE,
            games: Vec::new(rt.alloc()),
            faults: Vec::new(rt.alloc()),
        };
        if let Some(file) = file {
            archived.file = Some(String::from_str(rt.alloc(), file)?);
            archived.state = state_of(rt, file).context(format_args!("reading {file}"))?;
            let bytes = fs::read(rt, file).context(format_args!("reading {file}"))?;
            archived
                .put_bytes(file, bytes.as_slice())
                .context(format_args!("reading {file}"))?;
            tell_left_out(rt, file, bytes.as_slice());
        }
        Ok(archived)
    }

    /// Those of the file as it is now, where it is another than when it was read.
    pub fn read_again<R: Files + AllocGlobal + Eprint>(
        &self,
        rt: &R,
    ) -> Result<Option<ArchivedGames>> {
        let Some(file) = &self.file else {
            return Ok(None);
        };
        let file = file.as_str();
        if state_of(rt, file).context(format_args!("reading {file}"))? == self.state {
            return Ok(None);
        }
        Ok(Some(ArchivedGames::read(rt, Some(file))?))
    }

    // Puts the games of a file's lines; the last one may lack its line feed.
    fn put_bytes(&mut self, file: &str, bytes: &[u8]) -> Result<()> {
        let (whole, behind) = cut_lines(bytes);
        let text = str::from_utf8(whole).ok().context("it is not in UTF-8")?;
        let lines = parts(self.alloc, text, '\n')?;
        self.put_lines(file, lines.as_slice())?;
        if let Ok(line) = str::from_utf8(behind)
            && let Some(game) = game_of(self.alloc, line)?
        {
            self.put_game(game, line)?;
        }
        Ok(())
    }

    fn put_lines(&mut self, file: &str, lines: &[&str]) -> Result<(), AllocError> {
        let mut number: usize = 0;
        for line in lines {
            number = number.saturating_add(1);
            self.put_line(file, number, line)?;
        }
        Ok(())
    }

    // Puts the game of a line; where that is none's, it is to be told.
    fn put_line(&mut self, file: &str, number: usize, line: &str) -> Result<(), AllocError> {
        let Some(game) = game_of(self.alloc, line)? else {
            return self.put_fault(format!(in self.alloc;
                "{file}: line {number} is no game's and is left out: a board whose game it was has no result by it"
            )?);
        };
        if self.has(game) {
            return self.put_fault(format!(in self.alloc;
                "{file}: line {number} has game {game} once more and is left out: the first one counts"
            )?);
        }
        self.put_game(game, line)
    }

    fn put_fault(&mut self, fault: String) -> Result<(), AllocError> {
        self.faults.push(fault)?;
        Ok(())
    }

    fn put_game(&mut self, game: u32, line: &str) -> Result<(), AllocError> {
        let continues = continued_in(self.alloc, line)?;
        let line = String::from_str(self.alloc, line)?;
        self.games.push(ArchivedGame {
            game,
            line,
            continues,
        })?;
        Ok(())
    }

    fn has(&self, game: u32) -> bool {
        self.games
            .as_slice()
            .iter()
            .any(|archived| archived.game == game)
    }

    /// The PGN of a game.
    pub fn pgn(&self, game: u32) -> Result<Option<String>> {
        for archived in self.games.as_slice() {
            if archived.game == game {
                let pgn = pgn_of(self.alloc, archived.line.as_str())?;
                return Ok(Some(String::from_utf8(pgn).context(format_args!("game {game}"))?));
            }
        }
        Ok(None)
    }

    /// The last game that continues this one.
    pub fn continued_by(&self, game: u32) -> Option<u32> {
        let mut later = None;
        for archived in self.games.as_slice() {
            if archived.continues == Some(game) {
                later = Some(archived.game);
            }
        }
        later
    }
}
