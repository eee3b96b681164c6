//! The sizes of pieces, and bytes that go, without waiting where the stream doesn't wait.
ghost use Rattle.lobby_talk.specs.Pieces.{HasGone};

use std::io::{ErrorKind, Write};

/// The most bytes that one read or write takes.
pub const PIECE_ROOM: usize = 16_384;

/// What a write took.
#[derive(Clone, Copy)]
pub enum Gone {
    /// Nothing for now.
    Nothing,
    /// A signal came first, and whether the stream takes something is open.
    Interrupted,
    /// So many bytes.
    Bytes(usize),
    /// The connection has failed.
    Fault,
}

/// Writes what the writer takes of these bytes at once, at most `PIECE_ROOM`.
pub fn write_piece<W: Write>(writer: &mut W, bytes: &[u8]) -> Gone
    ensures { HasGone (W.contents writer.old) (W.contents writer.new) bytes.now result }
{
    let piece = &bytes[..bytes.len().min(PIECE_ROOM)];
    match writer.write(piece) {
        Ok(0) => Gone::Fault,
        Ok(count) => Gone::Bytes(count),
        Err(error) => match error.kind() {
            ErrorKind::WouldBlock => Gone::Nothing,
            ErrorKind::Interrupted => Gone::Interrupted,
            _ => Gone::Fault,
        },
    }
}
