//! A table as records.
use chess_entry::Entry;
use chess_table::{Table, TableFault, entry_record};
use rec_codec::{Limits, Record, Version, read_record, write_record};
use std::alloc::Global;
use test_lines::Fault;

/// A byte of a record of the snapshot, both counted from 0, and its other value.
#[derive(Clone, Copy)]
pub struct Change {
    pub record: usize,
    pub byte: usize,
    pub value: u8,
}

/// The records of a table's snapshot, and those of the entries since.
#[derive(Drop)]
pub struct Stored {
    base: Vec<Record>,
    tail: Vec<Record>,
}

// A record with one of its bytes changed; `None` where the bytes are then no record's, or it has no such byte.
fn changed(record: &Record, change: &Change) -> Option<Record> {
    let mut bytes = write_record(record);
    if change.byte >= bytes.len() {
        return None;
    }
    bytes[change.byte] = change.value;
    read_record(&bytes)
}

impl Stored {
    /// The records of a snapshot of a table.
    pub fn of(alloc: Global, table: &Table) -> Result<Stored, Fault> {
        Ok(Stored {
            base: table.to_records()?,
            tail: Vec::new(alloc),
        })
    }

    /// The records of the snapshot.
    pub fn base(&self) -> &[Record] {
        self.base.as_slice()
    }

    /// Adds the record of an entry that has come since.
    pub fn push(&mut self, entry: &Entry) -> Result<(), Fault> {
        Ok(self.tail.extend_from_slice(&[entry_record(entry)])?)
    }

    /// The table that the records mean, if they mean one. `Input`: the limits are not in the range of version 2.
    pub fn read(&self, alloc: Global, limits: Limits) -> Result<Option<Table>, Fault> {
        if !limits.is_in_range(Version::Two) {
            return Err(Fault::Input);
        }
        match Table::from_records(alloc, limits, self.base.as_slice(), self.tail.as_slice()) {
            Ok(table) => Ok(Some(table)),
            Err(TableFault::Damaged) => Ok(None),
            Err(TableFault::NoMemory) => Err(Fault::NoMemory),
        }
    }

    // Whether the records mean a table.
    fn is_table(&self, alloc: Global, limits: Limits) -> Result<bool, Fault> {
        match self.read(alloc, limits) {
            Ok(table) => Ok(table.is_some()),
            Err(fault) => Err(fault),
        }
    }

    /// What is read where a byte of a record of the snapshot is another.
    pub fn read_changed(
        &mut self,
        alloc: Global,
        limits: Limits,
        change: &Change,
    ) -> Result<&'static str, Fault> {
        let Some(old) = self.base.get(change.record).copied() else {
            return Ok("no record");
        };
        let Some(new) = changed(&old, change) else {
            return Ok("no record");
        };
        self.base[change.record] = new;
        let is_table = self.is_table(alloc, limits);
        self.base[change.record] = old;
        Ok(if is_table? { "a table" } else { "damaged" })
    }
}
