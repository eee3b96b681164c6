//! A connection to the lobby, by which an arbiter has boards paired.
use crate::table::Table;
use anyhow::{Context, Error, Result, anyhow, bail};
use http::Request;
use http::header::{HeaderValue, ORIGIN};
use night_links::Answer;
use std::alloc::Global;
use std::io::ErrorKind;
use std::net::{Net, SocketAddr, TcpStream};
use std::random::RandomSource;
use std::rt::Clock;
use std::thread;
use std::time::Duration;
use tungstenite::{Error as SocketError, HandshakeError, Message, RandomKeys, WebSocket, client};

/// So many seconds the lobby may take to answer, or a connection to be made.
const PATIENCE: u64 = 10;

// A message that came too fast is said again after so many milliseconds, and so often at most.
const PAUSE: u64 = 50;

const TRIES: u32 = 200;

/// A connection, by which one message is asked at a time.
#[derive(Drop)]
pub struct LobbyLink<'a, R> {
    rt: &'a R,
    socket: WebSocket<TcpStream, RandomKeys<R>>,
}

// What is told of a fault of the connection.
fn told(error: SocketError) -> Error {
    match error {
        SocketError::Io(error) => match error.kind() {
            ErrorKind::WouldBlock | ErrorKind::TimedOut => {
                anyhow!("the lobby does not answer: nothing came of it for {PATIENCE} seconds")
            }
            ErrorKind::BrokenPipe | ErrorKind::ConnectionReset => anyhow!("the lobby is gone"),
            _ => Error::from(error),
        },
        SocketError::ConnectionClosed | SocketError::AlreadyClosed => anyhow!("the lobby is gone"),
        error => anyhow!("no lobby listens there: {error}"),
    }
}

// The request for the lobby's socket.
fn request_of(alloc: Global, address: SocketAddr) -> Result<Request<()>> {
    let place = format!(in alloc; "ws://{address}/ws")?;
    let origin = format!(in alloc; "http://{address}")?;
    let Ok(mut request) = tungstenite::handshake::client::request_of(alloc, place.as_str()) else {
        bail!("the address is none");
    };
    let origin = HeaderValue::from_str(alloc, origin.as_str())?;
    request.headers_mut().insert(ORIGIN, origin)?;
    Ok(request)
}

// Connects to an address.
fn stream_to<R: Net<Stream = TcpStream>>(rt: &R, address: SocketAddr) -> Result<TcpStream> {
    let patience = Duration::from_secs(PATIENCE);
    let told = |error| told(SocketError::Io(error));
    let stream = TcpStream::connect_timeout(rt, &address, patience).map_err(told)?;
    stream.set_read_timeout(Some(patience))?;
    stream.set_write_timeout(Some(patience))?;
    stream.set_nodelay(true)?;
    Ok(stream)
}

// Whether a message is the answer to one that was said, and no notice.
fn is_answer(text: &str) -> bool {
    ["ok ", "no ", "lost\n", "fallen "]
        .iter()
        .any(|front| text.starts_with(*front))
}

// The answer that a message has: its first line, and the lines behind it.
fn answer_in(alloc: Global, text: &str) -> Result<Answer> {
    let (first, behind) = text.split_once('\n').unwrap_or((text, ""));
    Ok(Answer {
        first: String::from_str(alloc, first)?,
        behind: String::from_str(alloc, behind)?,
    })
}

impl<'a, R> LobbyLink<'a, R>
where
    R: Net<Stream = TcpStream> + RandomSource + AllocGlobal + Clock + Clone + Drop,
{
    // Connects to the lobby, whichever it is.
    fn connect(rt: &'a R, address: SocketAddr) -> Result<LobbyLink<'a, R>> {
        let request = request_of(rt.alloc(), address)?;
        let stream = stream_to(rt, address)?;
        match client(rt.alloc(), rt.clone()?, request, stream) {
            Ok((socket, _)) => Ok(LobbyLink { rt, socket }),
            Err(HandshakeError::Failure(error)) => Err(told(error)),
            Err(HandshakeError::Interrupted(_)) => Err(anyhow!("the lobby does not answer")),
        }
    }

    /// Connects to the lobby. It fails where the lobby does not answer within ten seconds, as each call below does; the
    /// error of this one names the lobby.
    pub fn open(rt: &'a R, address: SocketAddr) -> Result<LobbyLink<'a, R>> {
        LobbyLink::connect(rt, address).context(format_args!("the lobby at {address}"))
    }

    // What a message says: the answer to what was said, or nothing. That the lobby's server is gone is a fault: what
    // was sent to it may be taken later, behind what is said once it is back.
    fn take(&self, message: &Message) -> Result<Option<Answer>> {
        let Message::Text(text) = message else {
            return Ok(None);
        };
        let text = text.as_str();
        if text.starts_with("server gone") {
            bail!("the lobby's server is gone");
        }
        if is_answer(text) {
            return Ok(Some(answer_in(self.rt.alloc(), text)?));
        }
        Ok(None)
    }

    // The next answer.
    fn hear(&mut self) -> Result<Answer> {
        for _ in 0..u64::MAX {
            let message = self.socket.read().map_err(told)?;
            if let Some(answer) = self.take(&message)? {
                return Ok(answer);
            }
        }
        bail!("the lobby does not answer")
    }

    fn say_and_hear(&mut self, line: &str) -> Result<Answer> {
        let message = Message::text(self.rt.alloc(), line)?;
        self.socket.send(message).map_err(told)?;
        self.hear()
    }

    /// Whether a token is an arbiter's: what is asked from now on is asked by that arbiter.
    pub fn log_in(&mut self, token: &str) -> Result<bool> {
        let line = format!(in self.rt.alloc(); "login {token}")?;
        let answer = self.ask(line.as_str())?;
        let first = answer.first.as_str();
        if first.starts_with("no 32 ") {
            return Ok(false);
        }
        let Some(rest) = first.strip_prefix("ok login ") else {
            bail!("the lobby answers {first:?} to a login");
        };
        Ok(match rest.split_once(' ') {
            Some((_, role)) => role.starts_with("arbiter"),
            None => false,
        })
    }
}

impl<R> Table for LobbyLink<'_, R>
where
    R: Net<Stream = TcpStream> + RandomSource + AllocGlobal + Clock + Clone + Drop,
{
    // (a message has all lines of an answer; one that came too fast is said again)
    fn ask(&mut self, line: &str) -> Result<Answer> {
        for _ in 0..TRIES {
            let answer = self.say_and_hear(line)?;
            if !answer.first.starts_with("no 34 ") {
                return Ok(answer);
            }
            thread::sleep(self.rt, Duration::from_millis(PAUSE));
        }
        bail!("the lobby takes no more messages")
    }
}
