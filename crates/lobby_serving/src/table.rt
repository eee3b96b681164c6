//! Whether the server answers, and how many games it has: it is asked by a connection of its own, once the lobby's is
//! made and while somebody asks for figures.
use crate::listing::Games;
use crate::question::{Question, Seen, begin};
use lobby_loop::Lobby;
use sockets::{Call, ServerAddress};
use std::alloc::{AllocError, Global};
use std::net::Net;

/// So many milliseconds lie between two questions.
const EVERY: u64 = 10_000;

/// So many milliseconds after figures were last asked for no question is begun.
const WANTED: u64 = 300_000;

/// So many milliseconds a question may take, and an answer is told.
const PATIENCE: u64 = 5_000;

const FRESH: u64 = 30_000;

/// So many milliseconds lie between two looks at a question that is not answered: its socket wakes nobody.
const LOOK_EVERY: u64 = 20;

/// The server's table, as it told last.
#[derive(Drop)]
pub struct Table {
    alloc: Global,
    server: ServerAddress,
    // Whether the lobby had its connection at the last look, and whether the last question that is over was not too
    // slow.
    is_here: bool,
    is_answering: bool,
    question: Option<Question<Call>>,
    next_at: u64,
    // How often figures had been asked for at the last look, and until when they are wanted since.
    asked: u64,
    wanted_until: u64,
    games: Option<Games>,
    fresh_until: u64,
}

impl Table {
    /// Nothing was asked.
    pub fn new(alloc: Global, server: ServerAddress) -> Table {
        Table {
            alloc,
            server,
            is_here: false,
            is_answering: false,
            question: None,
            next_at: 0,
            asked: 0,
            wanted_until: 0,
            games: None,
            fresh_until: 0,
        }
    }

    // Whether a question is to be begun.
    fn is_due(&self, at: u64) -> bool {
        self.question.is_none() && at >= self.next_at && at < self.wanted_until
    }

    // Goes on with a question, where one is on its way.
    fn go_on(&mut self, at: u64) -> Result<Seen, AllocError> {
        let Some(question) = &mut self.question else {
            return Ok(Seen::Nothing);
        };
        if at >= question.until {
            return Ok(Seen::Silent);
        }
        match question.say() {
            Seen::Nothing => question.hear(),
            seen => Ok(seen),
        }
    }

    // Takes what was seen of a question.
    fn take(&mut self, seen: Seen, at: u64) {
        if matches!(seen, Seen::Nothing) {
            return;
        }
        self.question = None;
        self.is_answering = !matches!(seen, Seen::Silent);
        if let Seen::Games(games) = seen {
            self.games = Some(games);
            self.fresh_until = at.saturating_add(FRESH);
        }
    }

    /// Asks the server, where its connection is new, or it is time and somebody wants it, or goes on with that. It
    /// waits for nothing.
    pub fn look(&mut self, net: &impl Net, lobby: &Lobby, at: u64) -> Result<(), AllocError> {
        let asked = lobby.hall().counts().figures;
        if asked != self.asked {
            self.asked = asked;
            self.wanted_until = at.saturating_add(WANTED);
        }
        let was_here = self.is_here;
        self.is_here = lobby.hall().has_server();
        if !self.is_here {
            // (what was told is told no more)
            self.question = None;
            self.is_answering = false;
            self.games = None;
            self.next_at = 0;
            return Ok(());
        }
        if !was_here || self.is_due(at) {
            self.next_at = at.saturating_add(EVERY);
            let until = at.saturating_add(PATIENCE);
            self.question = begin(net, self.alloc, &self.server, until);
        }
        let seen = self.go_on(at)?;
        self.take(seen, at);
        Ok(())
    }

    /// Whether the server is up: the lobby has its connection, and the last question that is over was answered in time,
    /// or its connection closed. A server that hangs does neither.
    pub fn is_up(&self) -> bool {
        self.is_here && self.is_answering
    }

    /// The games that the server told last; none where that is long ago, or it is not there.
    pub fn games(&self, at: u64) -> Option<Games> {
        if at < self.fresh_until {
            self.games
        } else {
            None
        }
    }

    /// After so many milliseconds it is to be looked at again, though no socket is ready; none where that is no matter.
    pub fn rest(&self, at: u64) -> Option<u64> {
        if self.question.is_some() {
            Some(LOOK_EVERY)
        } else if self.is_here && self.next_at < self.wanted_until {
            Some(self.next_at.saturating_sub(at))
        } else {
            None
        }
    }
}
