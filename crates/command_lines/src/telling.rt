//! What the club's program tells on standard error.
use std::fmt::Display;
use std::io;

/// The name of the club's program, which stands before what it tells.
pub const CLUB: &str = "chess-club";

/// Tells on standard error what is wrong, or waited for. It fails where that takes no more.
pub fn tell<R: Eprint, T: Display + Drop>(rt: &R, said: T) -> io::Result<()> {
    eprintln!(rt; "{CLUB}: {said}")
}
