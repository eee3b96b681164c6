//! Clients on loopback.
use std::alloc::Global;
use std::io;
use std::io::{ErrorKind, Read, Write};
use std::net::{Ipv4Addr, Net, Shutdown, TcpStream};

/// A client, and the letter that it goes by.
#[derive(Drop)]
struct Client {
    letter: u8,
    stream: TcpStream,
    /// What came and was not told yet.
    heard: Vec<u8>,
    /// Whether the server has closed the connection.
    has_ended: bool,
}

/// The clients of a server on this port, in the order in which they connected.
#[derive(Drop)]
pub struct Clients {
    alloc: Global,
    port: u16,
    all: Vec<Client>,
}

/// The most bytes that a client reads at a time.
const ROOM: usize = 4096;

impl Clients {
    /// No client yet.
    pub fn new(alloc: Global, port: u16) -> Clients {
        Clients {
            alloc,
            port,
            all: Vec::new(alloc),
        }
    }

    // The client of a letter connects, unless it has.
    fn join<R: Net<Stream = TcpStream>>(&mut self, net: &R, letter: u8) -> io::Result<()> {
        if self.all.iter().any(|client| client.letter == letter) {
            return Ok(());
        }
        let stream = TcpStream::connect(net, (Ipv4Addr::LOCALHOST, self.port))?;
        stream.set_nonblocking(true)?;
        stream.set_nodelay(true)?;
        self.all.push(Client {
            letter,
            stream,
            heard: Vec::new(self.alloc),
            has_ended: false,
        })?;
        Ok(())
    }

    /// Whether the server's port is reached by another address of this machine than the clients'.
    pub fn reach_elsewhere<R: Net<Stream = TcpStream>>(&self, net: &R) -> bool {
        TcpStream::connect(net, (Ipv4Addr::new(127, 0, 0, 2), self.port)).is_ok()
    }

    /// Has each of these letters' clients do what a text says; at its first it connects. It sends the text with a line
    /// feed; where the text ends with `\`, what is before that, without. At `-` it sends no more, and at `!` it drops
    /// the connection.
    pub fn act<R: Net<Stream = TcpStream>>(
        &mut self,
        net: &R,
        letters: &str,
        text: &str,
    ) -> io::Result<()> {
        for letter in letters.bytes() {
            self.join(net, letter)?;
            if text == "!" {
                self.all.retain(|client| client.letter != letter);
            }
            for client in self.all.iter_mut() {
                if client.letter == letter {
                    client.send(text)?;
                }
            }
        }
        Ok(())
    }

    /// Takes in what came to each client, and tells whether each of these letters' clients has a line or its end to
    /// tell.
    pub fn have_heard(&mut self, letters: &str) -> io::Result<bool> {
        let mut have_all = true;
        for client in self.all.iter_mut() {
            client.hear()?;
            if letters.bytes().any(|letter| letter == client.letter) {
                have_all &= client.heard.ends_with(b"\n");
            }
        }
        Ok(have_all)
    }

    /// What came to each client, its letter before each line, and `end` where the server has closed the connection.
    pub fn told(&mut self) -> io::Result<String> {
        let mut text = String::new(self.alloc);
        for client in self.all.iter_mut() {
            client.hear()?;
            client.tell(self.alloc, &mut text)?;
        }
        Ok(text)
    }
}

impl Client {
    fn send(&mut self, text: &str) -> io::Result<()> {
        if text == "-" {
            return self.stream.shutdown(Shutdown::Write);
        }
        match text.strip_suffix("\\") {
            Some(part) => self.stream.write_all(part.as_bytes()),
            None => {
                self.stream.write_all(text.as_bytes())?;
                self.stream.write_all(b"\n")
            }
        }
    }

    // Takes in what came, and behind it `end` where the server has closed the connection.
    fn hear(&mut self) -> io::Result<()> {
        let mut piece = [0u8; ROOM];
        for _ in 0..u32::MAX {
            if self.has_ended {
                break;
            }
            match self.stream.read(&mut piece) {
                Ok(0) => {
                    self.has_ended = true;
                    self.heard.extend_from_slice(b"end\n")?;
                }
                Ok(count) => self.heard.extend_from_slice(&piece[..count])?,
                Err(error) if error.kind() == ErrorKind::WouldBlock => break,
                Err(error) => return Err(error),
            }
        }
        Ok(())
    }

    // Appends what was taken in.
    fn tell(&mut self, alloc: Global, text: &mut String) -> io::Result<()> {
        let letter = char::from(self.letter);
        for line in str::from_utf8(&self.heard).unwrap_or("?").lines() {
            text.push_str(format!(in alloc; "{letter} {line}\n")?.as_str())?;
        }
        self.heard.clear();
        Ok(())
    }
}
