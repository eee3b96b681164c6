//! What PGNs are made with: the players' file, the tags of the command line, and the lobby's log.
use crate::asked::Source;
use crate::asking::Knowledge;
use crate::log_reader::LogReader;
use crate::players::Players;
use anyhow::{Result, bail};
use night_links::Link;
use server_answers::Row;
use sockets::ServerAddress;
use std::net::{Net, TcpStream};
use std::rt::Files;

/// A connection to the server. It fails where the server does not answer within ten seconds.
pub fn link_to<R: Net<Stream = TcpStream> + AllocGlobal>(
    rt: &R,
    source: &Source<'_>,
) -> Result<Link> {
    match ServerAddress::named(source.server) {
        Some(server) => Link::open(rt, server),
        None => bail!("{} is no address", source.server),
    }
}

/// Where it comes from, and what was read of it last.
#[derive(Drop)]
pub struct Sources<'a, R> {
    source: &'a Source<'a>,
    pub players: Players<'a, R>,
    pub log: LogReader<'a>,
}

impl<'a, R: Files + AllocGlobal + Eprint> Sources<'a, R> {
    /// The players' file is read, and nothing of the log yet.
    pub fn open(rt: &'a R, source: &'a Source<'a>) -> Result<Self> {
        Ok(Sources {
            source,
            players: Players::open(rt, source.players)?,
            log: LogReader::new(rt.alloc(), source.log),
        })
    }

    /// The players and the log are read as they are now, where the table has these rows.
    pub fn renew(&mut self, rt: &R, rows: &[Row]) -> Result<()> {
        self.players.renew()?;
        self.log.read_on(rt, rows)
    }
}

impl<R> Sources<'_, R> {
    /// What is known.
    pub fn known(&self) -> Knowledge<'_> {
        Knowledge {
            players: self.players.known(),
            heading: self.source.heading,
            entries: self.log.entries(),
            is_logged: self.source.log.is_some(),
        }
    }
}
