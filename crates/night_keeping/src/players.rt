//! The players as they stand in their file.
use anyhow::{Result, bail};
use lobby_players::players_of;
use lobby_words::Player;
use night_links::{Telling, found};
use std::rt::Files;

/// The players of a file, where one is named.
#[derive(Drop)]
pub struct Players<'a, R> {
    rt: &'a R,
    file: Option<&'a str>,
    known: Vec<Player>,
    telling: Telling<'a, R>,
}

// The players of a file that is read again. It fails also for what is no regular file, since to read of a pipe may last
// for ever, and where there are none, as while somebody writes it.
fn read_again<R: Files + AllocGlobal>(rt: &R, file: &str) -> Result<Vec<Player>> {
    if !found(rt, file)?.is_file() {
        bail!("{file} is no regular file");
    }
    let players = players_of(rt, file)?;
    if players.is_empty() {
        bail!("{file} has no players");
    }
    Ok(players)
}

impl<R> Players<'_, R> {
    /// Those that were read last.
    pub fn known(&self) -> &[Player] {
        self.known.as_slice()
    }
}

impl<'a, R: Files + AllocGlobal + Eprint> Players<'a, R> {
    /// Reads the file.
    pub fn open(rt: &'a R, file: Option<&'a str>) -> Result<Self> {
        let known = match file {
            Some(file) => players_of(rt, file)?,
            None => Vec::new(rt.alloc()),
        };
        let telling = Telling::new(rt, "the players' file is read again");
        Ok(Players {
            rt,
            file,
            known,
            telling,
        })
    }

    /// Reads the file again. Where it cannot be read, or is no players' file, that is told, and the players are as they
    /// were.
    pub fn renew(&mut self) -> Result<()> {
        let Some(file) = self.file else {
            return Ok(());
        };
        match read_again(self.rt, file) {
            Ok(players) => {
                self.known = players;
                self.telling.tell(Ok(()))
            }
            Err(error) => self
                .telling
                .tell(Err(error.context("the players are as they were"))),
        }
    }
}
