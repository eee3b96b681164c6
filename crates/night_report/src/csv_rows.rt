//! Rows of CSV.
ghost use Rattle.std.specs.Prelude.{◌≡◌, ◌++◌, map, IfOk, OnOk};
ghost use Rattle.night_report.specs.CsvRows as spec;

use crate::csv_cells::Cell;
use csv::{Error, Terminator, WriterBuilder};
use std::alloc::{AllocError, Global};

// The text of a row.
fn row_of(alloc: Global, fields: &[&[u8]]) -> Result<Vec<u8>, Error>
    ensures { IfOk result (λ text. text.items ≡ spec.row_text (map (λ field. field.now) fields.now)) }
{
    let mut row = WriterBuilder::new()
        .terminator(Terminator::CRLF)
        .from_writer(Vec::new(alloc));
    row.write_fields(fields)?;
    match row.into_inner() {
        Ok(text) => Ok(text),
        Err(error) => Err(error.into_error()),
    }
}

// Puts a row behind others. (The kit's writer fails where memory is refused, and nowhere else.)
fn push_fields(rows: &mut Vec<u8>, alloc: Global, fields: &[&[u8]]) -> Result<(), AllocError>
    ensures { OnOk result (rows.new.items
        ≡ rows.old.items ++ spec.row_text (map (λ field. field.now) fields.now)) }
{
    let Ok(row) = row_of(alloc, fields) else {
        return Err(AllocError);
    };
    rows.extend_from_slice(row.as_slice())?;
    Ok(())
}

// What stands in cells.
fn bytes_in<'a>(alloc: Global, cells: &'a [Cell]) -> Result<Vec<&'a [u8]>, AllocError>
    ensures { IfOk result (λ fields. map (λ field. field.now) fields.items ≡ map spec.bytes_of cells.now) }
{
    let mut fields = Vec::new(alloc);
    for cell in cells {
        fields.push(cell.text.as_bytes())?;
    }
    Ok(fields)
}

// The bytes of names.
fn bytes_of_names<'a>(alloc: Global, names: &[&'a str]) -> Result<Vec<&'a [u8]>, AllocError>
    ensures { IfOk result (λ fields. map (λ field. field.now) fields.items ≡ map (λ name. name.now) names.now) }
{
    let mut fields = Vec::new(alloc);
    for name in names {
        fields.push(name.as_bytes())?;
    }
    Ok(fields)
}

/// Puts a row of these cells behind others. It fails where memory is refused.
pub fn push_row(rows: &mut Vec<u8>, alloc: Global, cells: &[Cell]) -> Result<(), AllocError>
    ensures { OnOk result (rows.new.items ≡ rows.old.items ++ spec.row_text (map spec.bytes_of cells.now)) }
{
    let fields = bytes_in(alloc, cells)?;
    push_fields(rows, alloc, fields.as_slice())
}

/// Puts the row with the names of the columns. It fails where memory is refused.
pub fn push_header(rows: &mut Vec<u8>, alloc: Global, names: &[&str]) -> Result<(), AllocError>
    ensures { OnOk result (rows.new.items ≡ rows.old.items ++ spec.row_text (map (λ name. name.now) names.now)) }
{
    let fields = bytes_of_names(alloc, names)?;
    push_fields(rows, alloc, fields.as_slice())
}
