//! The days of a tournament.
use std::alloc::{AllocError, Global};
use text_pgn::is_date;

// Whether a byte may stand in a day: what the tag Date has besides is no part of it.
fn is_day_byte(byte: u8) -> bool {
    byte.is_ascii_digit() || byte == b'/'
}

/// Whether a text is a day of the calendar as a report has it, `YYYY/MM/DD`.
pub fn is_day(alloc: Global, text: &str) -> Result<bool, AllocError> {
    if !text.as_bytes().iter().all(|byte| is_day_byte(*byte)) {
        return Ok(false);
    }
    let date = text.replace(alloc, "/", ".")?;
    Ok(is_date(date.as_str()))
}
