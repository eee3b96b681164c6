//! A file of games or of rounds that is served as it stands.
use crate::mark::{Mark, mark_in, mark_of};
use bytes::Bytes;
use lobby_loop::Lobby;
use lobby_web::{File, Kind};
use std::alloc::AllocError;
use std::fs::{self, File as DiskFile, OpenFile, OpenOptions};
use std::io;
use std::io::{ErrorKind, Read};
use std::rt::Files;

/// So many milliseconds lie at least between two looks at the file: half as many where spectators watch by it.
const REST: u64 = 1_000;

/// A file of more bytes is not served.
const BYTES_MOST: u64 = 67_108_864;

// Opens the file for writing too, though nothing is written: a pipe that was put there since it was looked at would
// else hold its opening up until somebody writes into it. A lobby that may only read the file goes by the look.
fn opened<R: Files>(rt: &R, file: &str) -> io::Result<R::File> {
    let mut options = OpenOptions::new();
    options.read(true).write(true);
    match options.open(rt, file) {
        Err(error) if error.kind() == ErrorKind::PermissionDenied => fs::open(rt, file),
        found => found,
    }
}

/// So many bytes a read takes, and so many reads a turn: a long file is read in several.
const PIECE: usize = 65_536;

const READS: u32 = 8;

// A file that is being read, and how it stood when that began.
#[derive(Drop)]
struct Reading {
    file: DiskFile,
    mark: Mark,
    bytes: Vec<u8>,
}

// Begins to read a regular file that is not too long. (Its room is taken at once: to let it grow would move what is
// there again and again.)
fn begun<R: Files<File = DiskFile> + AllocGlobal>(rt: &R, file: &str) -> io::Result<Reading> {
    let file = opened(rt, file)?;
    let found = file.metadata()?;
    if found.len() > BYTES_MOST {
        return Err(io::Error::from(ErrorKind::FileTooLarge));
    }
    let Some(mark) = mark_in(&found) else {
        return Err(io::Error::from(ErrorKind::InvalidInput));
    };
    Ok(Reading {
        file,
        mark,
        bytes: Vec::with_capacity(rt.alloc(), found.len() as usize)?,
    })
}

impl Reading {
    // Reads one piece. It tells whether that was the file's end. (It may have grown since it was looked at.)
    fn read(&mut self, piece: &mut [u8; PIECE]) -> io::Result<bool> {
        let count = match self.file.read(piece) {
            Ok(count) => count,
            Err(error) if error.kind() == ErrorKind::Interrupted => return Ok(false),
            Err(error) => return Err(error),
        };
        self.bytes.extend_from_slice(&piece[..count])?;
        if self.bytes.len() as u64 > BYTES_MOST {
            return Err(io::Error::from(ErrorKind::FileTooLarge));
        }
        Ok(count == 0)
    }

    // Reads on, as much as a turn may. It tells whether the file's end was reached.
    fn go_on(&mut self) -> io::Result<bool> {
        let mut piece = [0u8; PIECE];
        for _ in 0..READS {
            if self.read(&mut piece)? {
                return Ok(true);
            }
        }
        Ok(false)
    }
}

/// A file that is served, and what was seen of it last.
#[derive(Drop)]
pub struct GamesFile {
    /// The path at which it is served.
    pub path: String,
    kind: Kind,
    file: String,
    /// How it stood when it was looked at last; none where it was not there.
    pub seen: Option<Mark>,
    /// From when on it is looked at again.
    pub next_at: u64,
    // What was read of it where that is not done.
    reading: Option<Reading>,
    // Whether it was told that the file is too long.
    is_told: bool,
}

impl GamesFile {
    /// It was not looked at.
    pub fn new(path: String, kind: Kind, file: String) -> Self {
        GamesFile {
            path,
            kind,
            file,
            seen: None,
            next_at: 0,
            reading: None,
            is_told: false,
        }
    }

    // That the file is too long, once until it is not.
    fn tell<R: Eprint>(&mut self, rt: &R, is_long: bool) {
        if is_long && !self.is_told {
            let file = self.file.as_str();
            let _ = eprintln!(rt; "{file} has more than 64 MiB: it is not served");
        }
        self.is_told = is_long;
    }

    // Nothing is served: the file cannot be read, or is too long.
    fn fail<R: Eprint>(&mut self, rt: &R, lobby: &mut Lobby, error: &io::Error) {
        let is_long = error.kind() == ErrorKind::FileTooLarge;
        self.tell(rt, is_long);
        // (one that is too long is looked at again where it has changed)
        if !is_long {
            self.seen = None;
        }
        lobby.take_off_file(self.path.as_bytes());
    }

    // What was read is served from now on; where it was written meanwhile it is read again at the next look. (Its tag
    // is made of its mark: of the bytes it would take a pass over all of them, in one turn.)
    fn end<R: AllocGlobal + Eprint>(
        &mut self,
        rt: &R,
        lobby: &mut Lobby,
        reading: Reading,
    ) -> Result<(), AllocError> {
        // (that another has its name by now is no matter)
        let metadata = reading.file.metadata();
        if !metadata.is_ok_and(|found| mark_in(&found) == Some(reading.mark)) {
            self.seen = None;
            return Ok(());
        }
        self.tell(rt, false);
        let mark = reading.mark.to_bytes(rt.alloc())?;
        let path = self.path.as_bytes().to_vec(rt.alloc())?;
        let bytes = Bytes::from_vec(reading.bytes)?;
        let file = File::marked(rt.alloc(), path, self.kind, bytes, mark.as_slice())?;
        lobby.put_file(file)
    }

    // Reads on.
    fn go_on<R: AllocGlobal + Eprint>(
        &mut self,
        rt: &R,
        lobby: &mut Lobby,
        mut reading: Reading,
    ) -> Result<(), AllocError> {
        match reading.go_on() {
            Ok(true) => self.end(rt, lobby, reading),
            Ok(false) => {
                self.reading = Some(reading);
                Ok(())
            }
            Err(error) => {
                self.fail(rt, lobby, &error);
                Ok(())
            }
        }
    }

    /// Looks at the file where that is due, and reads it where it has changed: in each turn a part, and what was read
    /// is served once all of it is there.
    pub fn look<R>(&mut self, rt: &R, lobby: &mut Lobby, at: u64) -> Result<(), AllocError>
    where
        R: Files<File = DiskFile> + AllocGlobal + Eprint,
    {
        if let Some(reading) = self.reading.take() {
            return self.go_on(rt, lobby, reading);
        }
        if at < self.next_at {
            return Ok(());
        }
        let is_watched = matches!(self.kind, Kind::Games);
        self.next_at = at.saturating_add(if is_watched { REST / 2 } else { REST });
        let found = mark_of(rt, self.file.as_str());
        if found == self.seen {
            return Ok(());
        }
        self.seen = found;
        if found.is_none() {
            lobby.take_off_file(self.path.as_bytes());
            return Ok(());
        }
        match begun(rt, self.file.as_str()) {
            Ok(reading) => self.reading = Some(reading),
            Err(error) => self.fail(rt, lobby, &error),
        }
        Ok(())
    }

    /// Whether it is being read: it is to be looked at again in the next turn.
    pub fn is_reading(&self) -> bool {
        self.reading.is_some()
    }
}
