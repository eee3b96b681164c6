//! A file of the particulars of players.
ghost use Rattle.std.specs.Prelude.{◌≡◌, ◌++◌, [], None, IfOk, IfErr, OnOk, map};
ghost use Rattle.csv.specs.Records.{fields_of};
ghost use Rattle.night_games.specs.Particulars.{texts_of, texts_in};
ghost use Rattle.night_games.specs.Roster as spec;

use crate::particulars::{fault_in, particulars_of, told};
use crate::roster_faults::{RosterFault, RowFault};
use csv::{Error, ErrorKind, StringRecord};
use night_report::{Particulars, cell, records_of};
use std::alloc::{AllocError, Global};

/// The rows of a file of particulars, the names of its columns first.
#[derive(Drop)]
pub struct Roster {
    rows: Vec<StringRecord>,
}

// Whether a column has one of the names that there are.
fn is_column(word: &str) -> bool
    ensures { result ≡ spec.is_column word.now }
{
    matches!(
        word,
        "name"
            | "full_name"
            | "sex"
            | "title"
            | "rating"
            | "federation"
            | "fide_number"
            | "born"
            | "team"
            | "board"
    )
}

// Whether a text is one of these.
fn stands_among(texts: &[&str], word: &str) -> bool
    ensures { result ≡ spec.stands_among word.now (map (λ text. text.now) texts.now) }
{
    for text in texts {
        if *text == word {
            return true;
        }
    }
    false
}

// The first column that has none of the names that there are, or one that stands behind it too, by its number from 1
// on.
fn bad_column(columns: &[&str]) -> Option<usize>
    ensures { result ≡ spec.bad_column 1 (map (λ column. column.now) columns.now) }
{
    for at in 0..columns.len() {
        if !is_column(columns[at]) || stands_among(&columns[at + 1..], columns[at]) {
            return Some(at + 1);
        }
    }
    None
}

// Whether one of these rows has the name of this row.
fn is_named_in(columns: &[&str], rows: &[StringRecord], row: &StringRecord) -> bool
    ensures { result ≡ spec.is_named_in (map (λ column. column.now) columns.now) (fields_of row.now)
        (map fields_of rows.now) }
{
    let name = told(columns, row, "name");
    for other in rows {
        if told(columns, other, "name") == name {
            return true;
        }
    }
    false
}

// What is wrong with a row, behind which these stand.
#[tactic(auto, unfolding(crate::specs::Roster::row_fault))]
fn row_fault(columns: &[&str], row: &StringRecord, behind: &[StringRecord]) -> Option<RowFault>
    ensures { result ≡ spec.row_fault (map (λ column. column.now) columns.now) (fields_of row.now)
        (map fields_of behind.now) }
{
    if row.len() != columns.len() {
        Some(RowFault::BadShape)
    } else if let Some(fault) = fault_in(columns, row) {
        Some(fault)
    } else if is_named_in(columns, behind, row) {
        Some(RowFault::NameTwice)
    } else {
        None
    }
}

// The first fault of the rows below the header, which is row 1.
fn fault_below(columns: &[&str], rows: &[StringRecord]) -> Option<RosterFault>
    ensures { result ≡ spec.fault_below (map (λ column. column.now) columns.now) 2 (map fields_of rows.now) }
{
    for at in 0..rows.len() {
        if let Some(fault) = row_fault(columns, &rows[at], &rows[at + 1..]) {
            return Some(RosterFault::Row(at + 2, fault));
        }
    }
    None
}

// The first fault of a file's rows, below these names of columns.
#[tactic(auto, unfolding(crate::specs::Roster::fault_under))]
fn fault_under(columns: &[&str], rows: &[StringRecord]) -> Option<RosterFault>
    ensures { result ≡ spec.fault_under (map (λ column. column.now) columns.now) (map fields_of rows.now) }
{
    if let Some(number) = bad_column(columns) {
        Some(RosterFault::Column(number))
    } else if !stands_among(columns, "name") {
        Some(RosterFault::NoNames)
    } else {
        fault_below(columns, rows)
    }
}

// The texts of a row.
fn texts_of_row<'a>(alloc: Global, row: &'a StringRecord) -> Result<Vec<&'a str>, AllocError>
    ensures { IfOk result (λ texts. map (λ text. text.now) texts.items ≡ fields_of row.entry.now) }
{
    let mut texts = Vec::new(alloc);
    for at in 0..row.len() {
        texts.push(cell(row, at))?;
    }
    Ok(texts)
}

// The first fault of a file's rows.
fn fault_of_rows(alloc: Global, rows: &[StringRecord]) -> Result<Option<RosterFault>, AllocError>
    ensures { IfOk result (λ fault. fault ≡ spec.fault_of (map fields_of rows.now)) }
{
    match rows {
        [] => Ok(Some(RosterFault::NoNames)),
        [header, below @ ..] => {
            let columns = texts_of_row(alloc, header)?;
            Ok(fault_under(columns.as_slice(), below))
        }
    }
}

// What an error of the rows says.
fn unread(error: &Error) -> RosterFault
    ensures { spec.IsUnread result }
{
    match error.kind() {
        ErrorKind::Utf8 { .. } => RosterFault::NotText,
        _ => RosterFault::NoMemory,
    }
}

// A file's rows, where nothing is wrong with them.
fn checked(alloc: Global, rows: Vec<StringRecord>) -> Result<Roster, RosterFault>
    ensures roster { IfOk result (λ roster. (roster.rows ≡ rows)
        × (spec.fault_of (map fields_of rows.items) ≡ None)) }
    ensures fault { IfErr result (λ fault. spec.IsRowsFault (map fields_of rows.items) fault) }
{
    match fault_of_rows(alloc, rows.as_slice())? {
        Some(fault) => Err(fault),
        None => Ok(Roster { rows }),
    }
}

/// The particulars of a text of CSV (RFC 4180): a row with the names of the columns, in any order, of which `name` has
/// to be there, and a row for each player. Else the first fault.
pub fn roster_of(alloc: Global, text: &[u8]) -> Result<Roster, RosterFault>
    ensures roster { IfOk result (λ roster. spec.IsRosterOf text.now (map fields_of roster.rows.items)) }
    ensures fault { IfErr result (spec.IsFault text.now) }
{
    match records_of(alloc, text) {
        Ok(rows) => checked(alloc, rows),
        Err(error) => Err(unread(&error)),
    }
}

// Puts what rows tell behind others.
fn push_told<'a>(
    all: &mut Vec<Particulars<'a>>,
    columns: &[&str],
    rows: &'a [StringRecord],
) -> Result<(), AllocError>
    ensures { OnOk result (map texts_of all.new.items ≡ map texts_of all.old.items
        ++ map (texts_in (map (λ column. column.now) columns.now)) (map fields_of rows.entry.now)) }
{
    for row in rows {
        all.push(particulars_of(columns, row))?;
    }
    Ok(())
}

impl Roster {
    /// No rows.
    pub fn nothing(alloc: Global) -> Roster
        ensures { result.rows.items ≡ [] }
    {
        Roster {
            rows: Vec::new(alloc),
        }
    }

    /// What is told of each player, in the order of the rows. It fails where memory is refused.
    pub fn particulars(&self, alloc: Global) -> Result<Vec<Particulars<'_>>, AllocError>
        ensures { IfOk result (λ all. map texts_of all.items ≡ spec.told (map fields_of self.entry.now.rows.items)) }
    {
        let mut all = Vec::new(alloc);
        if let [header, below @ ..] = self.rows.as_slice() {
            let columns = texts_of_row(alloc, header)?;
            push_told(&mut all, columns.as_slice(), below)?;
        }
        Ok(all)
    }
}
