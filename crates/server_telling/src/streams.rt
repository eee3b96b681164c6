//! Standard input and output that tell an operator why a call of them failed.
ghost use Rattle.std.specs.Prelude.{◌≡◌};

use crate::telling::Teller;
use std::io;
use std::io::{Read, Write};

/// The name under which standard input is told of.
pub const INPUT: &str = "standard input";

/// The name under which standard output is told of.
pub const OUTPUT: &str = "standard output";

/// A reader, of whose failures an operator is told as of standard input. One that is only interrupted is read again,
/// and nothing is told.
#[derive(Drop)]
pub struct TellingReader<'a, R, I> {
    reader: I,
    teller: &'a Teller<'a, R>,
}

impl<'a, R, I> TellingReader<'a, R, I> {
    /// The reader, of which is told.
    pub fn new(reader: I, teller: &'a Teller<'a, R>) -> Self
        ensures { result.reader ≡ reader }
    {
        TellingReader { reader, teller }
    }
}

impl<R: Eprint, I: Read> Read for TellingReader<'_, R, I> {
    ghost remaining = { λ telling. I.remaining telling.reader };

    fn read(&mut self, buf: &mut [u8]) -> io::Result<usize> {
        let read = self.reader.read(buf);
        self.teller.told_of_stream(INPUT, "a read failed", read)
    }
}

/// A writer, of whose failures an operator is told as of standard output. One that is only interrupted is written
/// again, and nothing is told.
#[derive(Drop)]
pub struct TellingWriter<'a, R, O> {
    writer: O,
    teller: &'a Teller<'a, R>,
}

impl<'a, R, O> TellingWriter<'a, R, O> {
    /// The writer, of which is told.
    pub fn new(writer: O, teller: &'a Teller<'a, R>) -> Self
        ensures { result.writer ≡ writer }
    {
        TellingWriter { writer, teller }
    }
}

impl<R: Eprint, O: Write> Write for TellingWriter<'_, R, O> {
    ghost contents = { λ telling. O.contents telling.writer };

    fn write(&mut self, buf: &[u8]) -> io::Result<usize> {
        let written = self.writer.write(buf);
        self.teller
            .told_of_stream(OUTPUT, "a write failed", written)
    }

    fn flush(&mut self) -> io::Result<()> {
        let flushed = self.writer.flush();
        self.teller
            .told_of_stream(OUTPUT, "a write failed", flushed)
    }
}
