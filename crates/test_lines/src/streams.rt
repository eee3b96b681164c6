//! A reader and a writer that work bit by bit, are interrupted, or fail in mid-stream.
use crate::fault::Fault;
use std::alloc::Global;
use std::io;
use std::io::{Error, ErrorKind, Read, Write};

/// A stream that gives or takes so many bytes at a time, and fails after so many.
#[derive(Clone, Copy)]
pub struct Manner {
    pub step: usize,
    pub fails_after: Option<usize>,
    pub is_interrupted: bool,
}

/// `BYTES` or `BYTES!COUNT`, and `~` before it.
pub fn read_manner(text: &str) -> Result<Manner, Fault> {
    let (is_interrupted, text) = match text.strip_prefix("~") {
        Some(rest) => (true, rest),
        None => (false, text),
    };
    let (step, fails_after) = match text.split_once('!') {
        Some((step, count)) => (step, Some(count.parse::<usize>()?)),
        None => (text, None),
    };
    Ok(Manner {
        step: step.parse::<usize>()?,
        fails_after,
        is_interrupted,
    })
}

/// How far a stream is.
#[derive(Clone, Copy)]
struct Progress {
    manner: Manner,
    done: usize,
    was_interrupted: bool,
}

impl Progress {
    fn new(manner: Manner) -> Progress {
        Progress {
            manner,
            done: 0,
            was_interrupted: false,
        }
    }

    // How many of so many bytes pass now.
    fn pass(&mut self, many: usize) -> io::Result<usize> {
        if self.manner.is_interrupted && !self.was_interrupted {
            self.was_interrupted = true;
            return Err(Error::from(ErrorKind::Interrupted));
        }
        self.was_interrupted = false;
        let mut count = if many < self.manner.step {
            many
        } else {
            self.manner.step
        };
        if let Some(most) = self.manner.fails_after {
            if self.done >= most {
                return Err(Error::from(ErrorKind::BrokenPipe));
            }
            if most - self.done < count {
                count = most - self.done;
            }
        }
        self.done = self.done.saturating_add(count);
        Ok(count)
    }
}

/// Gives bytes.
#[derive(Drop)]
pub struct Source<'a> {
    left: &'a [u8],
    progress: Progress,
}

impl<'a> Source<'a> {
    pub fn new(bytes: &'a [u8], manner: Manner) -> Source<'a> {
        Source {
            left: bytes,
            progress: Progress::new(manner),
        }
    }
}

impl Read for Source<'_> {
    fn read(&mut self, buf: &mut [u8]) -> io::Result<usize> {
        let many = if buf.len() < self.left.len() {
            buf.len()
        } else {
            self.left.len()
        };
        let passed = self.progress.pass(many)?;
        let count = if passed < many { passed } else { many };
        let (now, later) = self.left.split_at(count);
        for (place, byte) in now.iter().enumerate() {
            buf[place] = *byte;
        }
        self.left = later;
        Ok(count)
    }
}

/// Keeps what is written.
#[derive(Drop)]
pub struct Sink {
    pub written: Vec<u8>,
    progress: Progress,
}

impl Sink {
    pub fn new(alloc: Global, manner: Manner) -> Sink {
        Sink {
            written: Vec::new(alloc),
            progress: Progress::new(manner),
        }
    }
}

impl Write for Sink {
    fn write(&mut self, buf: &[u8]) -> io::Result<usize> {
        let passed = self.progress.pass(buf.len())?;
        let count = if passed < buf.len() {
            passed
        } else {
            buf.len()
        };
        self.written.extend_from_slice(&buf[..count])?;
        Ok(count)
    }

    fn flush(&mut self) -> io::Result<()> {
        Ok(())
    }
}
