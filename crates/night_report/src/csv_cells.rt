//! The texts of a spreadsheet's cells.
ghost use Rattle.std.specs.Prelude.{◌≡◌, decimal, [], IfOk};
ghost use Rattle.night_report.specs.CsvCells as spec;
ghost use Rattle.night_report.specs.CsvRows.{bytes_of};

use std::alloc::{AllocError, Global};
use text_parts::push_number;

/// What stands in a cell. No program of spreadsheets takes it for a formula.
#[derive(Drop)]
pub struct Cell {
    pub(crate) text: String,
}

// Whether a text begins with a sign of full width.
fn begins_wide(text: &[u8]) -> bool
    ensures { result ≡ spec.begins_wide text.now }
{
    text.starts_with(b"\xef\xbc\x9d")
        || text.starts_with(b"\xef\xbc\x8b")
        || text.starts_with(b"\xef\xbc\x8d")
        || text.starts_with(b"\xef\xbc\xa0")
}

// Whether a program of spreadsheets may take a text for a formula.
fn is_formula(text: &[u8]) -> bool
    ensures { result ≡ spec.is_formula text.now }
{
    match text {
        [] | [_] => false,
        [first, ..] => matches!(*first, b'=' | b'+' | b'-' | b'@' | b'\t') || begins_wide(text),
    }
}

impl Cell {
    /// An empty one.
    pub fn empty(alloc: Global) -> Cell
        ensures { bytes_of result ≡ [] }
    {
        Cell {
            text: String::new(alloc),
        }
    }

    /// A text as it stands in a cell: with an apostrophe before it, where it might be taken for a formula (OWASP, "CSV
    /// Injection").
    pub fn of_text(alloc: Global, text: &str) -> Result<Cell, AllocError>
        ensures { IfOk result (λ cell. bytes_of cell ≡ spec.cell_text text.now) }
    {
        let mut cell = String::new(alloc);
        if is_formula(text.as_bytes()) {
            cell.push('\'')?;
        }
        cell.push_str(text)?;
        Ok(Cell { text: cell })
    }

    /// A number, in decimal digits.
    pub fn of_number(alloc: Global, number: u64) -> Result<Cell, AllocError>
        ensures { IfOk result (λ cell. bytes_of cell ≡ decimal number) }
    {
        let mut text = String::new(alloc);
        push_number(&mut text, number)?;
        Ok(Cell { text })
    }
}
