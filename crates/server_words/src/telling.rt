//! What an operator is told of a word's end, and what of a store.
ghost use Rattle.std.specs.Prelude.{◌≡◌, ◌↔◌, true, IsNone, IfErr, IfSome, length};

use crate::causes::reason;
use crate::ends::Fault;
use chess_entry::Limits;
use chess_store::Store;
use chess_table::Table;
use sector_dev::Device;
use server_telling::{Found, OUTPUT, Teller};
use std::io;

/// What the table of a store has, whose opening took so long; `None` exactly after a call that the device failed.
pub fn found_in<D: Device>(store: &Store<D>, took: u64) -> Option<Found>
    ensures none { IsNone result ↔ (store.now.failed ≡ true) }
    ensures found { IfSome result (λ found. (found.games ≡ length store.now.table.games)
        × (found.most ≡ store.now.table.limits.games) × (found.entries ≡ store.now.table.entries)
        × (found.moment ≡ store.now.table.moment) × (found.took ≡ took)) }
{
    match store.table() {
        Ok(table) => Some(found_of(table, took)),
        Err(_) => None,
    }
}

// What a table has.
fn found_of(table: &Table, took: u64) -> Found
    ensures games { result.games ≡ length table.now.games }
    ensures most { result.most ≡ table.now.limits.games }
    ensures entries { result.entries ≡ table.now.entries }
    ensures moment { result.moment ≡ table.now.moment }
    ensures took { result.took ≡ took }
{
    Found {
        games: table.games(),
        most: table.limits().games,
        entries: table.entries(),
        moment: table.moment(),
        took,
    }
}

/// What a print on standard output came to.
pub fn printed<R: Eprint>(teller: &Teller<'_, R>, print: io::Result<()>) -> Result<(), Fault>
    ensures { IfErr result (λ fault. fault ≡ Fault.Write) }
{
    match print {
        Ok(()) => Ok(()),
        Err(error) => {
            teller.file_failed(OUTPUT, "a write failed", &error);
            Err(Fault::Write)
        }
    }
}

/// What a word's work on a file or a stream came to. Why it broke off is told, where the system has not said it.
pub fn told<R: Eprint>(
    teller: &Teller<'_, R>,
    path: &str,
    ended: Result<(), Fault>,
) -> Result<(), Fault>
    ensures { result ≡ ended }
{
    if let Err(fault) = ended
        && let Some(reason) = reason(fault)
    {
        teller.explain(path, reason);
    }
    ended
}
