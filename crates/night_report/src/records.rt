//! The rows of a text of CSV.
ghost use Rattle.std.specs.Prelude.{◌≡◌, ◌++◌, ◌∷◌, [], Ok, map, IfOk, OnOk};
ghost use Rattle.csv.specs.Reading.{AreRecords, default_config, strip_bom};
ghost use Rattle.csv.specs.Records.{fields_of};
ghost use Rattle.csv.specs.declared.parser.State.TheVariants as st;
ghost use Rattle.night_report.specs.Particulars.{cell};

use csv::{Error, ReaderBuilder, StringRecord};
use std::alloc::Global;

// Puts a row that was read behind the others.
fn put(rows: &mut Vec<StringRecord>, row: Result<StringRecord, Error>) -> Result<(), Error>
    ensures { OnOk result ((kept : StringRecord) × (row ≡ Ok kept) × (rows.new.items ≡ rows.old.items ++ (kept ∷ []))) }
{
    if rows.push(row?).is_err() {
        return Err(Error::out_of_memory());
    }
    Ok(())
}

/// The rows of a text (RFC 4180), of any lengths.
pub fn records_of(alloc: Global, text: &[u8]) -> Result<Vec<StringRecord>, Error>
    ensures { IfOk result (λ rows. AreRecords default_config st.StartRecord (strip_bom text.now)
        (map fields_of rows.items)) }
{
    let reader = ReaderBuilder::new()
        .has_headers(false)
        .flexible(true)
        .from_reader(alloc, text);
    let mut rows = Vec::new(alloc);
    for row in reader.into_records() {
        put(&mut rows, row)?;
    }
    Ok(rows)
}

/// A field of a row, empty where it has none.
pub fn cell(row: &StringRecord, at: usize) -> &str
    ensures { result.now ≡ cell (fields_of row.entry.now) at }
{
    match row.get(at) {
        Some(text) => text,
        None => "",
    }
}
