//! One line after another, and what comes of it.
use crate::club::{Member, add_member, file_of, give_token, members_of, players_of};
use crate::tags::Tags;
use anyhow::{Context, Result, bail};
use hex::FromHex;
use lobby_desk::{Desk, Finding, Halts, Kind, Limits, Message};
use lobby_players::carried_out;
use lobby_words::{Change, full_said};
use std::alloc::Global;
use std::mem;

// The players of the desk at first: two, and an arbiter.
const CLUB: &str = "\
ann aaaaaaaaaaaaaaaaaaaaaaaaaaaaaaa1 player Ann Lee|\
bob bbbbbbbbbbbbbbbbbbbbbbbbbbbbbbb1 player Bob|\
eve eeeeeeeeeeeeeeeeeeeeeeeeeeeeeee1 arbiter Eve Moss";

// How many games there may be: few places, so that a short run comes to their last eighth.
const LIMITS: Limits = Limits {
    waiting: 4,
    playing: 8,
    over: 6,
    places: Some(16),
};

/// A desk, the time that has passed, and what is told of the archive's next game.
#[derive(Drop)]
pub struct Play {
    alloc: Global,
    members: Vec<Member>,
    desk: Desk,
    now: u64,
    tags: Tags,
}

// The number that a text begins with, up to the first space, and what stands behind that.
fn leading_number(text: &str) -> Result<(u64, &str)> {
    let (number, rest) = text.split_once(' ').unwrap_or((text, ""));
    Ok((number.parse().ok().context("a number is none")?, rest))
}

// Each line of a text behind a mark.
fn push_marked(to: &mut String, mark: &str, text: &str) -> Result<()> {
    for line in text.lines() {
        to.push_str(mark)?;
        to.push_str(line)?;
        to.push('\n')?;
    }
    Ok(())
}

// A message, behind the numbers of those who are told it, or behind `log`.
fn push_told(alloc: Global, to: &mut String, one: &Message) -> Result<()> {
    let mut mark = String::new(alloc);
    if matches!(one.kind, Kind::Log) {
        mark.push_str("log ")?;
    }
    for browser in one.to.as_slice() {
        let number = format!(in alloc; "{browser} ")?;
        mark.push_str(number.as_str())?;
    }
    mark.push_str("< ")?;
    push_marked(to, mark.as_str(), one.text.as_str())
}

// A text with line feeds where it has `|`.
fn with_feeds(alloc: Global, text: &str) -> Result<String> {
    let mut whole = String::new(alloc);
    for (number, part) in text.split('|').enumerate() {
        if number > 0 {
            whole.push('\n')?;
        }
        whole.push_str(part)?;
    }
    Ok(whole)
}

// Nothing is halted, and clocks can be stopped.
fn running(alloc: Global) -> Halts {
    Halts {
        is_paused: false,
        can_stop: true,
        reason: String::new(alloc),
        announced: String::new(alloc),
        is_full: false,
    }
}

impl Play {
    /// A desk to which nobody has come yet, and an archive of which nothing is told.
    pub fn new(alloc: Global) -> Result<Play> {
        let members = members_of(alloc, CLUB)?;
        let players = players_of(alloc, members.as_slice())?;
        Ok(Play {
            alloc,
            members,
            desk: Desk::new(alloc, players, running(alloc), LIMITS),
            now: 0,
            tags: Tags::new(alloc),
        })
    }

    // A desk begins with these players.
    fn begin_anew(&mut self) -> Result<()> {
        let players = players_of(self.alloc, self.members.as_slice())?;
        let desk = Desk::new(self.alloc, players, running(self.alloc), LIMITS);
        drop(mem::replace(&mut self.desk, desk));
        Ok(())
    }

    // The players are others.
    fn renew(&mut self, given: &str) -> Result<()> {
        self.members = members_of(self.alloc, given)?;
        let players = players_of(self.alloc, self.members.as_slice())?;
        self.desk.renew(players);
        Ok(())
    }

    // A browser says a text that asks for a link, or for a player more, which is made with this token.
    fn link(&mut self, given: &str, told: &mut Vec<Message>) -> Result<()> {
        let (from, rest) = leading_number(given)?;
        let (token, text) = rest.split_once(' ').context("nothing is said")?;
        if !self.desk.is_ready(from) {
            bail!("browser {from} waits for an answer, or is not there");
        }
        let Some(order) = self.desk.order(from, text, self.now) else {
            bail!("browser {from} may not ask for a link by: {text}");
        };
        let bytes = <[u8; 16]>::from_hex(token).ok().context("a token is none")?;
        let file = file_of(self.alloc, self.members.as_slice())?;
        let players = self.desk.players();
        let full_name = full_said(text);
        let new = carried_out(
            self.alloc,
            players,
            file.as_bytes(),
            &order,
            full_name,
            &bytes,
        )?;
        let name = order.name.as_str();
        match order.change {
            Change::NewPlayer => add_member(&mut self.members, self.alloc, name, token, full_name)?,
            _ => give_token(&mut self.members, self.alloc, name, token)?,
        }
        self.desk
            .linked(from, text, self.now, &order, new.linked, told)?;
        Ok(())
    }

    // A browser says an arbiter's decision, which has been put.
    fn decide(&mut self, given: &str, wire: &mut Vec<u8>, told: &mut Vec<Message>) -> Result<()> {
        let (from, text) = leading_number(given)?;
        if !self.desk.is_ready(from) {
            bail!("browser {from} waits for an answer, or is not there");
        }
        if !self.desk.decides(from, text, self.now) {
            bail!("browser {from} may not decide by: {text}");
        }
        self.desk.decided(from, text, self.now, wire, told)?;
        Ok(())
    }

    // A browser says a text, where nothing of it is waited for.
    fn say(&mut self, given: &str, wire: &mut Vec<u8>, told: &mut Vec<Message>) -> Result<()> {
        let (from, text) = leading_number(given)?;
        let text = with_feeds(self.alloc, text)?;
        if !self.desk.is_ready(from) {
            bail!("browser {from} waits for an answer, or is not there");
        }
        self.desk.said(from, text.as_str(), self.now, wire, told)?;
        Ok(())
    }

    // Does what a line says.
    fn take(&mut self, line: &str, wire: &mut Vec<u8>, told: &mut Vec<Message>) -> Result<()> {
        let (word, given) = line.split_once(' ').unwrap_or((line, ""));
        match word {
            "browser" => {
                self.desk.opened(told)?;
            }
            "leave" => self.desk.closed(leading_number(given)?.0),
            "say" => self.say(given, wire, told)?,
            "link" => self.link(given, told)?,
            "decide" => self.decide(given, wire, told)?,
            "renew" => self.renew(given)?,
            "anew" => self.begin_anew()?,
            "wait" => self.now = self.now.saturating_add(leading_number(given)?.0),
            "here" => self.desk.here(told)?,
            "gone" => self.desk.gone(told)?,
            "log" => self.desk.found(&Finding::LogFull(given == "full"), told)?,
            "hand" => {
                let reason = String::from_str(self.alloc, given)?;
                self.desk.found(&Finding::Clocks(reason), told)?;
            }
            "server" => self.desk.heard(given, wire, told)?,
            "tag" => self.tags.set(given)?,
            "clocks" => self.tags.set_clocks(given)?,
            _ => bail!("no such line: {line}"),
        }
        Ok(())
    }

    // Puts what comes of a line to the desk behind a text.
    fn push_played(&mut self, to: &mut String, line: &str) -> Result<()> {
        let mut wire = Vec::new(self.alloc);
        let mut told = Vec::new(self.alloc);
        self.take(line, &mut wire, &mut told)?;
        let sent = String::from_utf8(wire).context("the server is sent no text")?;
        push_marked(to, "> ", sent.as_str())?;
        for one in told.as_slice() {
            push_told(self.alloc, to, one)?;
        }
        Ok(())
    }

    // Puts the archive's PGN of a game behind a text.
    fn push_archived(&mut self, to: &mut String, given: &str) -> Result<()> {
        let pgn = with_feeds(self.alloc, given)?;
        let text = self.tags.archived(pgn.as_str())?;
        to.push_str(text.as_str())?;
        Ok(())
    }

    /// What is written of a line. It fails where the line is none, or memory is refused.
    pub fn told_of(&mut self, line: &str) -> Result<String> {
        let mut text = format!(in self.alloc; "% {line}\n")?;
        match line.strip_prefix("pgn ") {
            Some(pgn) => self.push_archived(&mut text, pgn)?,
            None => self.push_played(&mut text, line)?,
        }
        Ok(text)
    }
}
