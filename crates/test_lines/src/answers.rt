//! Answers as text.
use crate::fault::Fault;
use chess_answer::Reply;
use std::alloc::{AllocError, Global};
use std::fmt;

/// Appends a reply: its line with a line feed, and the lines behind it.
pub fn push_reply(text: &mut String, reply: &Reply) -> Result<(), AllocError> {
    text.push_str(reply.line.as_str())?;
    text.push_str("\n")?;
    text.push_str(reply.body.as_str())
}

/// A word as a line.
pub fn text_line(alloc: Global, word: &str) -> Result<String, AllocError> {
    format!(in alloc; "{word}\n")
}

/// What a fault says.
pub fn fault_text<E: fmt::Debug>(alloc: Global, fault: &E) -> Result<String, Fault> {
    Ok(format!(in alloc; "fault {fault:?}\n")?)
}
