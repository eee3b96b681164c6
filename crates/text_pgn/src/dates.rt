//! The dates of the tag Date.
use jiff::civil::Date;

// What stands in for a part that is not known: a leap year, and a month of 31 days, so that no day of the others is
// refused.
const ANY_YEAR: i16 = 2000;

const ANY_MONTH: i16 = 1;

const ANY_DAY: i16 = 1;

// The number of a part of so many digits, or this one where question marks stand in their place; `None` for any other
// text.
fn part_of(text: &str, digits: usize, unknown: i16) -> Option<i16> {
    let bytes = text.as_bytes();
    if bytes.len() != digits {
        None
    } else if bytes.iter().all(|byte| *byte == b'?') {
        Some(unknown)
    } else if bytes.iter().all(|byte| byte.is_ascii_digit()) {
        text.parse::<i16>().ok()
    } else {
        None
    }
}

// A day that is as a text says.
fn day_of(text: &str) -> Option<Date> {
    let (year, rest) = text.split_once('.')?;
    let (month, day) = rest.split_once('.')?;
    let month = i8::try_from(part_of(month, 2, ANY_MONTH)?).ok()?;
    let day = i8::try_from(part_of(day, 2, ANY_DAY)?).ok()?;
    Date::new(part_of(year, 4, ANY_YEAR)?, month, day).ok()
}

/// Whether a text is a date as the tag Date has it (PGN Standard, section 8.1.1.3): year, month and day as
/// `YYYY.MM.DD`, with question marks in the place of all digits of what is not known, where there is such a day in the
/// calendar.
pub fn is_date(text: &str) -> bool {
    day_of(text).is_some()
}
