//! A connection to the server.
use anyhow::{Context, Error, Result, anyhow};
use either::{Left, Right};
use server_answers::{lines_behind, list_head_of};
use sockets::{Connection, ServerAddress};
use std::alloc::Global;
use std::io::{self, BufRead, BufReader, ErrorKind, Write};
use std::net::{Net, TcpStream};
use std::os::unix::net::UnixStream;
use std::time::Duration;

/// So many seconds the server may take to answer, or a connection to be made.
const PATIENCE: u64 = 10;

/// A connection, by which one line is asked at a time.
#[derive(Drop)]
pub struct Link {
    alloc: Global,
    stream: BufReader<Connection>,
}

/// An answer: its first line, and the lines behind it.
#[derive(Drop)]
pub struct Answer {
    pub first: String,
    pub behind: String,
}

// What is told of a call of the system that failed.
fn told(error: io::Error) -> anyhow::Error {
    match error.kind() {
        ErrorKind::WouldBlock | ErrorKind::TimedOut => {
            anyhow!("the server does not answer: nothing came of it for {PATIENCE} seconds")
        }
        ErrorKind::BrokenPipe | ErrorKind::ConnectionReset => anyhow!("the server is gone"),
        _ => anyhow::Error::from(error),
    }
}

/// What is wrong where the server gives this answer to a line, and no such answer was asked for.
pub fn refused(line: &str, first: &str) -> Error {
    if first.starts_with("HTTP/") {
        anyhow!("no game server listens there, but a web server: it answers {first:?}")
    } else {
        anyhow!("the server answers {first:?} to {line:?}")
    }
}

// A connection to the server, of which no read or write takes longer than the server may.
fn connected<R: Net<Stream = TcpStream>>(rt: &R, server: &ServerAddress) -> io::Result<Connection> {
    let patience = Duration::from_secs(PATIENCE);
    match server {
        ServerAddress::Port(address) => {
            let stream = TcpStream::connect_timeout(rt, address, patience)?;
            stream.set_read_timeout(Some(patience))?;
            stream.set_write_timeout(Some(patience))?;
            Ok(Left(stream))
        }
        ServerAddress::Socket(path) => {
            let stream = UnixStream::connect(rt, path.as_str())?;
            stream.set_read_timeout(Some(patience))?;
            stream.set_write_timeout(Some(patience))?;
            Ok(Right(stream))
        }
    }
}

impl Link {
    /// Connects to the server. It fails where the server does not answer within ten seconds, as each call below does;
    /// the error of this one names the server.
    pub fn open<R: Net<Stream = TcpStream> + AllocGlobal>(
        rt: &R,
        server: ServerAddress,
    ) -> Result<Link> {
        Link::connect(rt, server).context(format_args!("the server at {server}"))
    }

    // Connects to the server, whichever it is.
    fn connect<R: Net<Stream = TcpStream> + AllocGlobal>(
        rt: &R,
        server: ServerAddress,
    ) -> Result<Link> {
        let connection = connected(rt, &server).map_err(told)?;
        Ok(Link {
            alloc: rt.alloc(),
            stream: BufReader::new(rt.alloc(), connection)?,
        })
    }

    // Puts a line of the server behind a text, and tells where it was whole.
    fn read_line(&mut self, into: &mut String) -> Result<()> {
        self.stream.read_line(into).map_err(told)?;
        if !into.ends_with('\n') {
            anyhow::bail!("the server is gone");
        }
        Ok(())
    }

    /// Says a line, or several with a line feed between two.
    pub fn say(&mut self, lines: &str) -> Result<()> {
        // (in one write: a second one would wait for the system's word on the first)
        let text = format!(in self.alloc; "{lines}\n")?;
        self.stream
            .get_mut()
            .write_all(text.as_bytes())
            .map_err(told)
    }

    /// The answer to the first line that was said and is not answered yet.
    pub fn hear(&mut self) -> Result<Answer> {
        let mut first = String::new(self.alloc);
        self.read_line(&mut first)?;
        first.pop();
        let mut behind = String::new(self.alloc);
        for _ in 0..lines_behind(first.as_str()) {
            self.read_line(&mut behind)?;
        }
        Ok(Answer { first, behind })
    }

    /// Asks a line.
    pub fn ask(&mut self, line: &str) -> Result<Answer> {
        self.say(line)?;
        self.hear()
    }

    /// The rows of the server's list, a line each. It fails where the server does not tell them.
    pub fn list(&mut self) -> Result<String> {
        self.say("list")?;
        self.hear_list()
    }

    /// The same of a list that was asked for by `say`.
    pub fn hear_list(&mut self) -> Result<String> {
        let answer = self.hear()?;
        if list_head_of(answer.first.as_str()).is_none() {
            return Err(refused("list", answer.first.as_str()));
        }
        Ok(answer.behind)
    }

    /// Asks a line, of which the answer is one line; whether it begins with `ok`.
    pub fn is_done(&mut self, line: &str) -> Result<bool> {
        let answer = self.ask(line)?;
        Ok(answer.first.starts_with("ok"))
    }
}
