//! The particulars of a player, in a row of a file of CSV.
ghost use Rattle.std.specs.Prelude.{◌≡◌, map};
ghost use Rattle.csv.specs.Records.{fields_of};
ghost use Rattle.night_games.specs.Particulars as spec;

use crate::roster_faults::RowFault;
use csv::StringRecord;
use night_report::{Particulars, cell, title_place};

// Where the column of this name is: behind the last one where there is none.
fn place_of(columns: &[&str], word: &str) -> usize
    ensures { result ≡ spec.place_of word.now (map (λ column. column.now) columns.now) }
{
    for at in 0..columns.len() {
        if columns[at] == word {
            return at;
        }
    }
    columns.len()
}

/// What a row tells in the column of this name, empty where there is none.
pub fn told<'a>(columns: &[&str], row: &'a StringRecord, word: &str) -> &'a str
    ensures { result.now ≡ spec.told (map (λ column. column.now) columns.now) (fields_of row.entry.now) word.now }
{
    cell(row, place_of(columns, word))
}

// What a row tells in the column of this name, of a number: nothing where that is `0`.
fn number_told<'a>(columns: &[&str], row: &'a StringRecord, word: &str) -> &'a str
    ensures { result.now
        ≡ spec.number_told (map (λ column. column.now) columns.now) (fields_of row.entry.now) word.now }
{
    let number = told(columns, row, word);
    if number == "0" { "" } else { number }
}

/// What a row tells, below these names of columns.
#[tactic(auto, unfolding(crate::specs::Particulars::texts_of, crate::specs::Particulars::texts_in))]
pub fn particulars_of<'a>(columns: &[&str], row: &'a StringRecord) -> Particulars<'a>
    ensures { spec.texts_of result
        ≡ spec.texts_in (map (λ column. column.now) columns.now) (fields_of row.entry.now) }
{
    Particulars {
        name: told(columns, row, "name"),
        full_name: told(columns, row, "full_name"),
        sex: told(columns, row, "sex"),
        title: told(columns, row, "title"),
        rating: number_told(columns, row, "rating"),
        federation: told(columns, row, "federation"),
        fide_number: number_told(columns, row, "fide_number"),
        born: told(columns, row, "born"),
        team: told(columns, row, "team"),
        board: told(columns, row, "board"),
    }
}

fn is_title(text: &str) -> bool
    ensures { result ≡ spec.is_title text.now }
{
    text.is_empty() || title_place(text) < 8
}

fn is_sex(text: &str) -> bool
    ensures { result ≡ spec.is_sex text.now }
{
    text.is_empty() || text == "m" || text == "w"
}

// Whether a byte is as a sign of a form has it: `0` stands for a digit, `A` for a capital letter.
fn is_as(byte: u8, sign: u8) -> bool
    ensures { result ≡ spec.is_as byte sign }
{
    match sign {
        b'0' => 48 <= byte && byte <= 57,
        b'A' => 65 <= byte && byte <= 90,
        _ => byte == sign,
    }
}

// Whether a text has a form.
fn has_form(text: &[u8], form: &[u8]) -> bool
    ensures { result ≡ spec.has_form text.now form.now }
{
    if text.len() != form.len() {
        return false;
    }
    for at in 0..text.len() {
        if !is_as(text[at], form[at]) {
            return false;
        }
    }
    true
}

fn are_digits(text: &[u8]) -> bool
    ensures { result ≡ spec.are_digits text.now }
{
    for byte in text {
        if !is_as(*byte, b'0') {
            return false;
        }
    }
    true
}

// Whether a text is a number of at most so many digits, without a zero before them, or empty.
fn is_number(text: &[u8], most: usize) -> bool
    ensures { result ≡ spec.is_number most text.now }
{
    match text {
        [] => true,
        [first, ..] => *first != b'0' && text.len() <= most && are_digits(text),
    }
}

// Whether a text is empty, or has a form.
fn may_be(text: &str, form: &str) -> bool
    ensures { result ≡ spec.may_be text.now form.now }
{
    text.is_empty() || has_form(text.as_bytes(), form.as_bytes())
}

// Whether no byte of a text is a control character of ASCII.
fn is_shown(text: &str) -> bool
    ensures { result ≡ spec.is_shown text.now }
{
    text.as_bytes()
        .iter()
        .all(|byte| 32 <= *byte && *byte != 127)
}

/// The first thing that is wrong with what a row tells below these names of columns.
#[tactic(auto, unfolding(crate::specs::Particulars::fault_in))]
pub fn fault_in(columns: &[&str], row: &StringRecord) -> Option<RowFault>
    ensures { result ≡ spec.fault_in (map (λ column. column.now) columns.now) (fields_of row.now) }
{
    if told(columns, row, "name").is_empty() {
        Some(RowFault::NoName)
    } else if !is_shown(told(columns, row, "full_name")) {
        Some(RowFault::BadFullName)
    } else if !is_sex(told(columns, row, "sex")) {
        Some(RowFault::BadSex)
    } else if !is_title(told(columns, row, "title")) {
        Some(RowFault::BadTitle)
    } else if !is_number(number_told(columns, row, "rating").as_bytes(), 4) {
        Some(RowFault::BadRating)
    } else if !may_be(told(columns, row, "federation"), "AAA") {
        Some(RowFault::BadFederation)
    } else if !is_number(number_told(columns, row, "fide_number").as_bytes(), 11) {
        Some(RowFault::BadNumber)
    } else if !may_be(told(columns, row, "born"), "0000/00/00") {
        Some(RowFault::BadBirth)
    } else if !is_shown(told(columns, row, "team")) {
        Some(RowFault::BadTeam)
    } else if !is_number(told(columns, row, "board").as_bytes(), 4) {
        Some(RowFault::BadBoard)
    } else {
        None
    }
}
