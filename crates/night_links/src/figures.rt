//! The figures of a lobby, asked over HTTP.
use crate::watched::games_in;
use anyhow::{Context, Result, anyhow, bail};
use http1::{BodySize, Client, Event, Header, Limits};
use httparse::spans::{EMPTY_HEADER_SPAN, HeaderSpan};
use std::alloc::Global;
use std::io::{self, ErrorKind, Read, Write};
use std::net::{Net, SocketAddr, TcpStream};
use std::rt::Clock;
use std::time::{Duration, Instant};

// So many seconds a lobby may take to be reached and to answer.
const PATIENCE: u64 = 5;

// The most bytes of figures that are taken: more than 1,000 browsers that watch 16 games each make.
const MOST: usize = 1_048_576;

// How many bytes are read at once, and how many fields of a head there are at most.
const PIECE: usize = 4_096;

const FIELDS: usize = 32;

/// An answer of a lobby that is coming.
#[derive(Drop)]
struct Coming {
    client: Client,
    // What came and was not taken yet.
    input: Vec<u8>,
    status: u16,
    body: Vec<u8>,
}

/// What is to be done about an answer that is coming.
#[derive(Clone, Copy)]
enum Next {
    /// More is to be read.
    More,
    /// What came is to be looked at again.
    Again,
    /// It is whole.
    Done,
}

// What is told of a call of the system that failed.
fn told(error: io::Error) -> anyhow::Error {
    match error.kind() {
        ErrorKind::WouldBlock | ErrorKind::TimedOut => {
            anyhow!("it does not answer within {PATIENCE} seconds")
        }
        _ => anyhow::Error::from(error),
    }
}

// The request for the figures.
fn request_of(alloc: Global, client: &mut Client, lobby: SocketAddr) -> Result<Vec<u8>> {
    let host = format!(in alloc; "{lobby}")?;
    let fields = [
        Header {
            name: b"host",
            value: host.as_bytes(),
        },
        Header {
            name: b"connection",
            value: b"close",
        },
    ];
    let mut request = Vec::new(alloc);
    client.write_request(&mut request, b"GET", b"/health", &fields, BodySize::Empty)?;
    client.write_end(&mut request, &[])?;
    Ok(request)
}

impl Coming {
    // Nothing came.
    fn new(alloc: Global) -> Coming {
        Coming {
            client: Client::new(Limits::default()),
            input: Vec::new(alloc),
            status: 0,
            body: Vec::new(alloc),
        }
    }

    // Takes the next part of what came.
    fn take(&mut self, spans: &mut [HeaderSpan]) -> Result<Next> {
        let progress = self.client.read(self.input.as_slice(), spans)?;
        let next = match progress.event {
            Event::NeedMore => Next::More,
            Event::Informational(_) => Next::Again,
            Event::Head(head) => {
                self.status = head.code;
                Next::Again
            }
            Event::Data(span) => {
                if let Some(piece) = self.input.get(span.start..span.end) {
                    self.body.extend_from_slice(piece)?;
                }
                Next::Again
            }
            Event::End(_) => Next::Done,
            Event::Paused | Event::Upgraded | Event::Closed => bail!(
                "it answers otherwise than asked"
            ),
        };
        if self.body.len() > MOST {
            bail!("it has more than {MOST} bytes of figures");
        }
        let taken = progress.consumed.min(self.input.len());
        self.input.drain(..taken);
        Ok(next)
    }

    // Takes what came, as far as it goes. It tells whether the answer is whole.
    fn take_all(&mut self) -> Result<bool> {
        let mut spans = [EMPTY_HEADER_SPAN; FIELDS];
        for _ in 0..MOST {
            match self.take(&mut spans)? {
                Next::More => return Ok(false),
                Next::Again => {}
                Next::Done => return Ok(true),
            }
        }
        bail!("it answers in too many parts")
    }
}

// Reads the answer of a lobby, until a moment.
fn read_answer<R: Clock>(rt: &R, stream: &mut TcpStream, coming: &mut Coming) -> Result<()> {
    let begun = Instant::now(rt)?;
    let mut piece = [0u8; PIECE];
    for _ in 0..u64::MAX {
        let left = Duration::from_secs(PATIENCE).saturating_sub(begun.elapsed(rt)?);
        if left < Duration::from_millis(1) {
            bail!("it does not answer within {PATIENCE} seconds");
        }
        stream.set_read_timeout(Some(left))?;
        let count = stream.read(&mut piece).map_err(told)?;
        if count == 0 {
            coming.client.read_eof()?;
            return Ok(());
        }
        if let Some(read) = piece.get(..count) {
            coming.input.extend_from_slice(read)?;
        }
        if coming.take_all()? {
            return Ok(());
        }
    }
    Ok(())
}

// Asks a lobby for its figures, and reads its answer.
fn ask<R>(rt: &R, lobby: SocketAddr, coming: &mut Coming) -> Result<()>
where
    R: Net<Stream = TcpStream> + AllocGlobal + Clock,
{
    let patience = Duration::from_secs(PATIENCE);
    let mut stream = TcpStream::connect_timeout(rt, &lobby, patience).map_err(told)?;
    stream.set_write_timeout(Some(patience))?;
    let request = request_of(rt.alloc(), &mut coming.client, lobby)?;
    stream.write_all(request.as_slice()).map_err(told)?;
    read_answer(rt, &mut stream, coming)?;
    let status = coming.status;
    if status != 200 {
        bail!("it answers with status {status}");
    }
    Ok(())
}

// The figures of a lobby.
fn figures_of<R>(rt: &R, lobby: SocketAddr) -> Result<String>
where
    R: Net<Stream = TcpStream> + AllocGlobal + Clock,
{
    let mut coming = Coming::new(rt.alloc());
    ask(rt, lobby, &mut coming)?;
    Ok(String::from_utf8(coming.body)?)
}

/// The games that browsers of a lobby watch. It fails where the lobby cannot be asked, does not tell this, or began so
/// lately that browsers may not be back.
pub(crate) fn watched_games<R>(rt: &R, lobby: SocketAddr) -> Result<Vec<u32>>
where
    R: Net<Stream = TcpStream> + AllocGlobal + Clock,
{
    let text = figures_of(rt, lobby).context(format_args!("the lobby at {lobby}"))?;
    games_in(rt.alloc(), text.as_str()).context(format_args!("the lobby at {lobby}"))
}
