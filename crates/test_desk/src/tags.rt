//! What is told of the games of an archive.
use anyhow::{Context, Result, bail};
use std::alloc::{AllocError, Global};
use text_parts::parts;
use text_pgn::{Heading, archived};

/// What the tags are to say, and what the clocks showed after the moves of the next game.
#[derive(Drop)]
pub struct Tags {
    alloc: Global,
    event: String,
    site: String,
    date: String,
    round: String,
    white: String,
    black: String,
    clocks: Vec<Option<u64>>,
}

impl Tags {
    /// Of which nothing is told yet.
    pub fn new(alloc: Global) -> Tags {
        Tags {
            alloc,
            event: String::new(alloc),
            site: String::new(alloc),
            date: String::new(alloc),
            round: String::new(alloc),
            white: String::new(alloc),
            black: String::new(alloc),
            clocks: Vec::new(alloc),
        }
    }

    /// From now on a tag says this, as `NAME VALUE`. It fails where there is no such tag, and where memory is refused.
    pub fn set(&mut self, given: &str) -> Result<()> {
        let (name, value) = given.split_once(' ').unwrap_or((given, ""));
        let value = String::from_str(self.alloc, value)?;
        match name {
            "event" => self.event = value,
            "site" => self.site = value,
            "date" => self.date = value,
            "round" => self.round = value,
            "white" => self.white = value,
            "black" => self.black = value,
            _ => bail!("no such tag: {given}"),
        }
        Ok(())
    }

    /// What the clocks showed after the moves of the next game; a word that is no number is of one that is not known.
    pub fn set_clocks(&mut self, given: &str) -> Result<(), AllocError> {
        self.clocks.clear();
        let words = parts(self.alloc, given, ' ')?;
        for word in words.as_slice() {
            self.clocks.push(word.parse::<u64>().ok())?;
        }
        Ok(())
    }

    // What the tags are to say.
    fn heading(&self) -> Heading<'_> {
        Heading {
            event: self.event.as_str(),
            site: self.site.as_str(),
            date: self.date.as_str(),
            round: self.round.as_str(),
            white: self.white.as_str(),
            black: self.black.as_str(),
        }
    }

    /// The archive's PGN of a game, by the server's. No clock is known any more then.
    pub fn archived(&mut self, pgn: &str) -> Result<String> {
        let text = archived(self.alloc, &self.heading(), pgn, self.clocks.as_slice())?;
        self.clocks.clear();
        String::from_utf8(text).context("the archive has no text")
    }
}
