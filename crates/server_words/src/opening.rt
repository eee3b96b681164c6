//! A journal's file that is opened.
ghost use Rattle.std.specs.Prelude.{◌≡◌, Ok, IfOk, IfErr, OnErr, IsErrOf};
ghost use Rattle.server_words.specs.Faults.{IsOpenFault};

use crate::ends::Fault;
use chess_store::Store;
use sector_dev::{Device, FileDevice};
use server_telling::Teller;
use std::alloc::Global;
use std::fs::File;
use std::io;
use std::rt::Files;

/// What the opening, or the making, of a journal's file gave. Of a failure an operator is told.
pub fn opened<T, R: Eprint>(
    teller: &Teller<'_, R>,
    path: &str,
    what: &str,
    gave: io::Result<T>,
) -> Result<T, Fault>
    ensures opened { IfOk gave (λ file. result ≡ Ok file) }
    ensures failed { OnErr gave (IsErrOf result Fault.File) }
    ensures fault { IfErr result (λ fault. fault ≡ Fault.File) }
{
    match gave {
        Ok(file) => Ok(file),
        Err(error) => {
            teller.not_opened(path, what, &error);
            Err(Fault::File)
        }
    }
}

/// The device in a journal's file that is there.
pub fn open_file<R: Files<File = File> + Eprint>(
    rt: &R,
    teller: &Teller<'_, R>,
    journal: &str,
) -> Result<FileDevice, Fault>
    ensures { IfErr result (λ fault. fault ≡ Fault.File) }
{
    let gave = FileDevice::open(rt, journal);
    opened(teller, journal, "it cannot be opened", gave)
}

/// The store that a device holds.
pub fn open_on<D: Device + Drop>(alloc: Global, device: D) -> Result<Store<D>, Fault>
    ensures { IfErr result IsOpenFault }
{
    match Store::open(alloc, device) {
        Ok(store) => Ok(store),
        Err(refused) => Err(Fault::Store(refused.fault)),
    }
}
