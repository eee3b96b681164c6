//! The word that plays the lines of one input.
ghost use Rattle.std.specs.Prelude.{◌≡◌, IfErr};
ghost use Rattle.server_words.specs.PlayFaults.{IsRunFault, of_run};

use crate::{Fault, open_file, open_on, told};
use chess_hub::{Moments, Reads, RunFault, run_reads};
use sector_dev::Device;
use server_clock::SteadyClock;
use server_telling::{INPUT, Teller, TellingDevice, TellingReader, TellingWriter};
use std::alloc::Global;
use std::fs::File;
use std::io::{Read, Write};
use std::rt::{Clock, Files};

/// What a fault of `run` is to the program.
pub(crate) fn fault_of_run(fault: RunFault) -> Fault
    ensures { result ≡ of_run fault }
{
    match fault {
        RunFault::Read => Fault::Read,
        RunFault::Write => Fault::Write,
        RunFault::LineTooLong => Fault::LineTooLong,
        RunFault::Hub(fault) => Fault::Hub(fault),
    }
}

// The moments of a run.
#[derive(Drop)]
struct RunMoments<'a, R> {
    clock: SteadyClock<'a, R>,
}

impl<R: Clock> Moments for RunMoments<'_, R> {
    ghost use Rattle.std.specs.Prelude.{◌≡◌, ◌≤◌};

    ghost gives = { λ old at new. (old.clock.pace.moment ≤ at) × (at ≡ new.clock.pace.moment) };

    fn next(&mut self) -> u64 {
        self.clock.go_on()
    }
}

// Answers the lines of a reader on a writer, over the games of the journal on a device.
fn play_on<D: Device + Drop, I: Read, W: Write, M: Moments + Drop>(
    alloc: Global,
    device: D,
    reader: &mut I,
    writer: &mut W,
    moments: M,
) -> Result<(), Fault>
    ensures { IfErr result IsRunFault }
{
    let store = open_on(alloc, device)?;
    match run_reads(alloc, reader, &mut Reads::new(), writer, store, moments) {
        Ok(()) => Ok(()),
        Err(fault) => Err(fault_of_run(fault)),
    }
}

// The same of the journal in a file.
fn play_journal<R, I: Read, W: Write>(
    rt: &R,
    alloc: Global,
    teller: &Teller<'_, R>,
    journal: &str,
    reader: &mut I,
    writer: &mut W,
) -> Result<(), Fault>
where
    R: Files<File = File> + Clock + Eprint,
    ensures { IfErr result IsRunFault }
{
    let file = open_file(rt, teller, journal)?;
    let device = TellingDevice::new(file, teller, journal);
    let clock = SteadyClock::new(rt);
    play_on(alloc, device, reader, writer, RunMoments { clock })
}

// What is at fault where a run breaks off.
fn at_fault<'a>(journal: &'a str, played: Result<(), Fault>) -> &'a str {
    match played {
        Err(Fault::LineTooLong) => INPUT,
        _ => journal,
    }
}

/// Answers the lines of a reader on a writer, over the games of a journal's file, at the moments of the system's clock
/// as it was at the start, which goes on evenly.
pub fn run_journal<R, I: Read, O: Write>(
    rt: &R,
    alloc: Global,
    journal: &str,
    input: &mut I,
    output: &mut O,
) -> Result<(), Fault>
where
    R: Files<File = File> + Clock + Eprint,
    ensures { IfErr result IsRunFault }
{
    let teller = Teller::new(rt, false);
    let mut reader = TellingReader::new(input, &teller);
    let mut writer = TellingWriter::new(output, &teller);
    let played = play_journal(rt, alloc, &teller, journal, &mut reader, &mut writer);
    told(&teller, at_fault(journal, played), played)
}
