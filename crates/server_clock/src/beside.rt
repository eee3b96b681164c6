//! The two files beside a journal.
ghost use Rattle.std.specs.Prelude.{◌≡◌, IfErr};

use crate::beats::{Beats, ClockFault};
use sector_dev::{Device, FileDevice};
use server_telling::Teller;
use std::alloc::{AllocError, Global};
use std::fs::File;
use std::io::Read;
use std::rt::Files;
use std::{fs, io};

/// The names of the two files beside a journal: the last moment stands in one, and while the other is there all clocks
/// stand still.
#[derive(Drop)]
pub struct Beside {
    pub clock: String,
    pub stopped: String,
}

impl Beside {
    /// Those of a journal. `AllocError` where memory is refused for their names.
    pub fn of(alloc: Global, journal: &str) -> Result<Beside, AllocError> {
        Ok(Beside {
            clock: format!(in alloc; "{journal}.clock")?,
            stopped: format!(in alloc; "{journal}.stopped")?,
        })
    }
}

// A clock's file of two sectors, which is made where none is there or an empty one.
fn clock_device<R: Files<File = File>>(rt: &R, path: &str) -> io::Result<FileDevice> {
    match fs::metadata(rt, path) {
        Ok(found) if found.len() > 0 => FileDevice::open(rt, path),
        _ => FileDevice::create(rt, path, 2),
    }
}

// Whether something else than a regular file has a name.
fn is_other<R: Files>(rt: &R, path: &str) -> bool {
    fs::metadata(rt, path).is_ok_and(|found| !found.is_file())
}

/// What an operator is told where no moment is kept.
pub(crate) const NOT_KEPT: &str =
    "no moment is kept in it: after a stop the games' clocks go on from the last entry";

// What an operator is told of what is no clock's file.
const FOREIGN: &str = "it is no server's clock: put it away";

/// A clock's file of two sectors, which is made where it isn't there; `None` where it cannot be opened or made, which
/// is told. `Foreign` where the name has something else than a regular file, which is told too.
pub fn open_clock<R: Files<File = File> + Eprint>(
    rt: &R,
    teller: &Teller<'_, R>,
    path: &str,
) -> Result<Option<FileDevice>, ClockFault>
    ensures { IfErr result (λ fault. fault ≡ ClockFault.Foreign) }
{
    if is_other(rt, path) {
        teller.explain(path, FOREIGN);
        return Err(ClockFault::Foreign);
    }
    match clock_device(rt, path) {
        Ok(device) => Ok(Some(device)),
        Err(error) => {
            teller.not_opened(path, "it cannot be opened or made", &error);
            teller.explain(path, NOT_KEPT);
            Ok(None)
        }
    }
}

/// The beats on the device of a clock's file; `None` where it cannot be read, which is told. `Foreign` where something
/// else stands in it, which is told too: then nothing of it has changed.
pub fn read_beats<R: Eprint, D: Device + Drop>(
    teller: &Teller<'_, R>,
    path: &str,
    device: D,
) -> Result<Option<Beats<D>>, ClockFault>
    ensures { IfErr result (λ fault. fault ≡ ClockFault.Foreign) }
{
    match Beats::open(device) {
        Ok(beats) => Ok(Some(beats)),
        Err(ClockFault::Device) => {
            teller.explain(path, NOT_KEPT);
            Ok(None)
        }
        Err(ClockFault::Foreign) => {
            teller.explain(path, FOREIGN);
            Err(ClockFault::Foreign)
        }
    }
}

/// The first 200 bytes of a file that stops all clocks, as a text; none of what is no regular file.
pub(crate) fn reason_in<R: Files>(rt: &R, alloc: Global, path: &str) -> io::Result<String> {
    // (what is no regular file may be waited for)
    if !fs::metadata(rt, path)?.is_file() {
        return Ok(String::new(alloc));
    }
    let file = fs::OpenOptions::new().read(true).open(rt, path)?;
    let mut front = Vec::new(alloc);
    file.take(200).read_to_end(&mut front)?;
    Ok(String::from_utf8_lossy(alloc, &front)?)
}
