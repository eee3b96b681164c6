//! A connection, and whether it has failed.
ghost use Rattle.std.specs.Prelude.{◌≡◌, ◌≤◌, ◌<◌, ◌↔◌, ◌⊎◌, true, false, length, take};
ghost use Rattle.std.specs.Io.KnownBytes.{Appends};
ghost use Rattle.text_lines.specs.Pieces.{HasCome};

use crate::outgoing::{Sent, Written, send};
use std::io::{Read, Write};
use text_lines::{Came, read_piece};

/// A stream, and whether a read of it has failed, or a write. Only `receive` and `transmit` tell.
#[derive(Drop)]
pub struct Wire<S> {
    stream: S,
    has_failed: bool,
}

impl<S> Wire<S> {
    /// A stream that has not failed.
    pub fn new(stream: S) -> Wire<S>
        ensures stream { result.stream ≡ stream }
        ensures sound { result.has_failed ≡ false }
    {
        Wire {
            stream,
            has_failed: false,
        }
    }

    /// The stream.
    pub fn stream(&self) -> &S
        ensures { result.now ≡ self.now.stream }
    {
        &self.stream
    }
}

impl<S: Read> Wire<S> {
    /// Reads a piece, without waiting where the stream doesn't wait.
    pub fn receive(&mut self, piece: &mut [u8]) -> Came
        requires { 0 < length piece.old }
        ensures came { HasCome (S.remaining self.old.stream) (S.remaining self.new.stream) piece.new result }
        ensures failed { result ≡ Came.Fault → self.new.has_failed ≡ true }
        ensures sound { self.new.has_failed ≡ true → (self.old.has_failed ≡ true) ⊎ (result ≡ Came.Fault) }
    {
        let came = read_piece(&mut self.stream, piece);
        match came {
            Came::Fault => self.has_failed = true,
            Came::Nothing | Came::Interrupted | Came::Bytes(_) | Came::End => {}
        }
        came
    }
}

impl<S: Write> Wire<S> {
    /// Writes a text until the stream takes no more.
    pub fn transmit(&mut self, text: &[u8]) -> Written
        ensures within { result.count ≤ length text.now }
        ensures front { Appends (S.contents self.old.stream) (S.contents self.new.stream) (take result.count text.now) }
        ensures all { result.sent ≡ Sent.All ↔ (result.count ≡ length text.now) }
        ensures failed { result.sent ≡ Sent.Fault → self.new.has_failed ≡ true }
        ensures sound { self.new.has_failed ≡ true → (self.old.has_failed ≡ true) ⊎ (result.sent ≡ Sent.Fault) }
    {
        let written = send(&mut self.stream, text);
        match written.sent {
            Sent::Fault => self.has_failed = true,
            Sent::All | Sent::Part => {}
        }
        written
    }
}
