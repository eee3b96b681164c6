//! Bytes as text.
use crate::digits::byte_of_digits;
use crate::fault::Fault;
use std::alloc::{AllocError, Global};

/// How far a text is in naming a byte.
#[derive(Clone, Copy, PartialEq, Eq)]
enum Escape {
    Not,
    Backslash,
    /// The first digit of two is to come.
    Hex,
    /// It was this one.
    Digit(u8),
}

// How far a text is after a byte more, and the byte that it names by then; `None` where it names none.
fn step(escape: Escape, byte: u8) -> Option<(Escape, Option<u8>)> {
    match escape {
        Escape::Not if byte == b'\\' => Some((Escape::Backslash, None)),
        Escape::Not => Some((Escape::Not, Some(byte))),
        Escape::Backslash => match byte {
            b'n' => Some((Escape::Not, Some(b'\n'))),
            b'r' => Some((Escape::Not, Some(b'\r'))),
            b'\\' => Some((Escape::Not, Some(b'\\'))),
            b'x' => Some((Escape::Hex, None)),
            _ => None,
        },
        Escape::Hex => Some((Escape::Digit(byte), None)),
        Escape::Digit(high) => Some((Escape::Not, Some(byte_of_digits(high, byte)?))),
    }
}

/// The bytes that a text names.
pub fn bytes_of(alloc: Global, text: &str) -> Result<Vec<u8>, Fault> {
    let mut bytes = Vec::new(alloc);
    let mut escape = Escape::Not;
    for byte in text.as_bytes() {
        let Some((next, named)) = step(escape, *byte) else {
            return Err(Fault::Input);
        };
        escape = next;
        if let Some(named) = named {
            bytes.push(named).map_err(AllocError::from)?;
        }
    }
    if escape != Escape::Not {
        return Err(Fault::Input);
    }
    Ok(bytes)
}
