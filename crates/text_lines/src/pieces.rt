//! Bytes piece by piece: those that come of a stream, and those that are done with.
ghost use Rattle.std.specs.Prelude.{◌≡◌, ◌<◌, ◌≤◌, drop, length, vec_capacity};
ghost use Rattle.text_lines.specs.Pieces.{HasCome};

use std::io::{ErrorKind, Read};

/// What a read brought.
#[derive(Clone, Copy)]
pub enum Came {
    /// Nothing for now.
    Nothing,
    /// A signal came first, and whether there is something is open.
    Interrupted,
    /// So many bytes.
    Bytes(usize),
    /// The peer sends no more.
    End,
    /// The connection has failed.
    Fault,
}

/// Reads a piece, without waiting where the reader doesn't wait.
pub fn read_piece<R: Read>(reader: &mut R, piece: &mut [u8]) -> Came
    requires { 0 < length piece.old }
    ensures { HasCome (R.remaining reader.old) (R.remaining reader.new) piece.new result }
{
    match reader.read(piece) {
        Ok(0) => Came::End,
        Ok(count) => Came::Bytes(count),
        Err(error) => match error.kind() {
            ErrorKind::WouldBlock => Came::Nothing,
            ErrorKind::Interrupted => Came::Interrupted,
            _ => Came::Fault,
        },
    }
}

/// Gives up the first `count` bytes, of which there are so many; the others move to the front.
pub fn give_up(bytes: &mut Vec<u8>, count: usize)
    requires { count ≤ length bytes.old.items }
    ensures items { bytes.new.items ≡ drop count bytes.old.items }
    ensures capacity { vec_capacity bytes.new ≡ vec_capacity bytes.old }
{
    let left = bytes.len() - count;
    bytes.copy_within(count.., 0);
    bytes.truncate(left);
}
