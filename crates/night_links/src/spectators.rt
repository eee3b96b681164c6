//! What spectators fetch of games, kept in a folder: one file for each, and one of all.
use crate::folder::GamesFolder;
use crate::spectated_game::{GameNow, Said, SpectatedGame, spectated_now};
use anyhow::{Context, Result};
use std::alloc::Global;
use std::fs::File;
use std::rt::Files;
use text_pgn::{GameTold, Notices, games_json};

// A game as it was told last, and how long its file is.
#[derive(Drop)]
struct Watched {
    game: SpectatedGame,
    length: usize,
}

/// The folder, and the games as its files tell them.
#[derive(Drop)]
pub struct Spectators<'a> {
    files: GamesFolder<'a>,
    games: Vec<Watched>,
    // What the file of all games tells that an arbiter has everybody told.
    said: Said,
    // Whether the file of all games is to be written.
    is_changed: bool,
    // Whether the folder was not looked through yet.
    is_new: bool,
}

impl<'a> Spectators<'a> {
    /// Nothing was told.
    pub fn new(alloc: Global, files: GamesFolder<'a>) -> Self {
        Spectators {
            files,
            games: Vec::new(alloc),
            said: Said::nothing(alloc),
            is_changed: true,
            is_new: true,
        }
    }

    // A game as it was told last.
    fn find(&self, game: u32) -> Option<&Watched> {
        self.games.iter().find(|watched| watched.game.game == game)
    }

    // A game as it is to be told; none where its moves and how it stands do not belong together.
    fn renewed(&self, alloc: Global, now: &GameNow<'_>) -> Result<Option<SpectatedGame>> {
        match self.find(now.game) {
            Some(watched) => spectated_now(alloc, now, Some(&watched.game)),
            None => spectated_now(alloc, now, None),
        }
    }

    // Writes the file of a game, and knows it by this from now on.
    fn put<R: Files + AllocGlobal>(&mut self, rt: &R, game: SpectatedGame) -> Result<()> {
        let text = game.text(rt.alloc())?;
        let number = game.game;
        let before = match self.find(number) {
            Some(watched) => watched.length,
            None => 0,
        };
        self.is_changed = true;
        let length = self.files.put(rt, number, text, before)?;
        self.games.retain(|watched| watched.game.game != number);
        self.games.push(Watched { game, length })?;
        Ok(())
    }

    /// Tells a game: its file is written where it is to be told otherwise than before. It answers whether the game is
    /// told; not where its moves and how it stands do not belong together, since a move was made between the two
    /// answers: then the server is to be asked again. It fails where a PGN tells no game, or the file is not written.
    pub fn tell<R: Files + AllocGlobal>(&mut self, rt: &R, now: &GameNow<'_>) -> Result<bool> {
        match self.find(now.game) {
            Some(watched) if watched.game.is_told(now) => return Ok(true),
            _ => {}
        }
        let number = now.game;
        match self
            .renewed(rt.alloc(), now)
            .context(format_args!("game {number}"))?
        {
            Some(game) => {
                self.put(rt, game)?;
                Ok(true)
            }
            None => Ok(false),
        }
    }

    // Forgets all games but these, with their files.
    fn keep_only<R>(&mut self, rt: &R, games: &[u32]) -> Result<()>
    where
        R: Files + AllocGlobal + Clone + Drop,
    {
        let count = self.games.len();
        self.games
            .retain(|watched| games.contains(&watched.game.game));
        if self.is_new || self.games.len() < count {
            self.files.keep_only(rt, games)?;
            self.is_new = false;
            self.is_changed = true;
        }
        Ok(())
    }

    // Notes what everybody is told.
    fn note(&mut self, alloc: Global, notices: &Notices<'_>) -> Result<()> {
        if !self.said.is_told(notices) {
            self.said = Said::of(alloc, notices)?;
            self.is_changed = true;
        }
        Ok(())
    }

    /// Ends a look in which these games and notices were told, at a moment in milliseconds since 1970: the files of
    /// other games go, and the file of all games is written anew where it is to tell something else.
    pub fn end<R>(&mut self, rt: &R, games: &[u32], notices: &Notices<'_>, at: u64) -> Result<()>
    where
        R: Files<File = File> + AllocGlobal + Clone + Drop,
    {
        self.keep_only(rt, games)?;
        self.note(rt.alloc(), notices)?;
        if !self.is_changed {
            return Ok(());
        }
        self.games.sort_by_key(|watched| watched.game.game)?;
        let mut told = Vec::new(rt.alloc());
        for watched in self.games.iter() {
            told.push(GameTold {
                game: watched.game.spectated(),
                played: &watched.game.played,
            })?;
        }
        let text = games_json(rt.alloc(), at, notices, told.as_slice())?;
        self.files.put_all(rt, text)?;
        self.is_changed = false;
        Ok(())
    }
}
