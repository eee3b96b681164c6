//! The words that read a journal in which somebody may play: they take no lock and write nothing to it.
ghost use Rattle.std.specs.Prelude.{◌≡◌, length, IfErr, OnOk};
ghost use Rattle.server_words.specs.JournalFaults.{IsCopyFault, IsReadingFault, IsShowFault, of_copy};
ghost use Rattle.server_words.specs.Games.{WritesGame, WritesGames};

use crate::journals::{make_file, may_overwrite, stays_blank};
use crate::{Copying, Fault, open_on, opened, printed, told};
use chess_answer::pgn_reply;
use chess_game::Game;
use chess_store::StoreFault;
use chess_table::Table;
use rec_codec::Header;
use sector_copy::{Copied, CopyFault, FileSource, copy, header_in_force};
use sector_dev::{CrashDevice, Device, MemoryDevice};
use server_telling::{Teller, TellingDevice, TellingWriter};
use std::alloc::Global;
use std::fs::File;
use std::io::Write;
use std::rt::Files;

/// How often a copy is begun.
const TRIES: u32 = 100;

// What a fault of reading a journal without its lock is to the program.
fn fault_of_copy(fault: CopyFault) -> Fault
    ensures { result ≡ of_copy fault }
{
    Fault::Store(match fault {
        CopyFault::NotOurs => StoreFault::NotOurs,
        CopyFault::Damaged => StoreFault::Damaged,
        CopyFault::TooSmall => StoreFault::TooSmall,
        CopyFault::Device => StoreFault::Device { pending: 0 },
    })
}

// The file of a journal that is read.
fn open_source<R: Files<File = File> + Eprint>(
    rt: &R,
    teller: &Teller<'_, R>,
    journal: &str,
) -> Result<FileSource, Fault>
    ensures { IfErr result (λ fault. fault ≡ Fault.File) }
{
    let gave = FileSource::open(rt, journal);
    opened(teller, journal, "it cannot be opened", gave)
}

// The header that is in force in a file.
fn header_of(source: &mut FileSource) -> Result<Header, Fault>
    ensures { IfErr result IsReadingFault }
{
    match header_in_force(source) {
        Ok(header) => Ok(header),
        Err(fault) => Err(fault_of_copy(fault)),
    }
}

// Copies what a file holds onto a device that holds no journal.
fn copy_onto<D: Device>(source: &mut FileSource, target: &mut D) -> Result<(), Fault>
    ensures { IfErr result IsReadingFault }
{
    match copy(source, target, TRIES) {
        Ok(Copied::Whole) => Ok(()),
        Ok(Copied::Changed) => Err(Fault::Changing),
        Err(fault) => Err(fault_of_copy(fault)),
    }
}

// Makes a device that is to be blank a copy of a journal that is open, and opens it.
fn fill<D: Device + Drop>(
    alloc: Global,
    source: &mut FileSource,
    mut target: D,
) -> Result<(), Fault>
    ensures { IfErr result IsCopyFault }
{
    stays_blank(&mut target)?;
    copy_onto(source, &mut target)?;
    open_on(alloc, target)?;
    Ok(())
}

// Makes a file a copy of a journal that is open, whose header says so many sectors.
fn copy_into<R: Files<File = File> + Eprint>(
    rt: &R,
    alloc: Global,
    teller: &Teller<'_, R>,
    path: &str,
    source: &mut FileSource,
) -> Result<u32, Fault>
    ensures { IfErr result IsCopyFault }
{
    let sectors = header_of(source)?.sectors;
    may_overwrite(rt, alloc, teller, path)?;
    let file = make_file(rt, teller, path, sectors)?;
    fill(alloc, source, TellingDevice::new(file, teller, path))?;
    Ok(sectors)
}

// Copies a journal, and prints so.
fn make_copy<R: Files<File = File> + Print + Eprint>(
    rt: &R,
    alloc: Global,
    teller: &Teller<'_, R>,
    copying: &Copying<'_>,
) -> Result<(), Fault>
    ensures { IfErr result IsCopyFault }
{
    let mut source = open_source(rt, teller, copying.journal)?;
    let copied = copy_into(rt, alloc, teller, copying.copy, &mut source);
    teller.failed(copying.journal, "a read failed", source.last_error());
    let sectors = copied?;
    printed(teller, println!(rt; "ok copy {sectors}"))
}

// The file that is at fault where no copy was made.
fn at_fault<'a>(copying: &Copying<'a>, copied: Result<(), Fault>) -> &'a str {
    match copied {
        Err(Fault::Store(StoreFault::Exists)) => copying.copy,
        _ => copying.journal,
    }
}

/// Makes a file a copy of a journal, also of one in which somebody plays, and prints `ok copy S`, S being its sectors.
/// It has been opened then, and means a table. `Exists` where the file may not be made a journal: nothing of it has
/// changed. Of two that make one file at once, one at most answers so.
pub fn copy_journal<R: Files<File = File> + Print + Eprint>(
    rt: &R,
    alloc: Global,
    copying: &Copying<'_>,
) -> Result<(), Fault>
    ensures { IfErr result IsCopyFault }
{
    let teller = Teller::new(rt, false);
    let copied = make_copy(rt, alloc, &teller, copying);
    told(&teller, at_fault(copying, copied), copied)
}

// A copy of a journal in memory.
fn copy_in_memory(alloc: Global, source: &mut FileSource) -> Result<MemoryDevice, Fault>
    ensures { IfErr result IsShowFault }
{
    let sectors = header_of(source)?.sectors;
    let Ok(mut memory) = MemoryDevice::new(alloc, sectors) else {
        return Err(Fault::NoMemory);
    };
    match copy_onto(source, &mut memory) {
        Ok(()) => Ok(memory),
        // The device in memory fails only for want of it.
        Err(_) if memory.failure_count() > 0 => Err(Fault::NoMemory),
        Err(fault) => Err(fault),
    }
}

// Writes the PGN of a game, which ends with an empty line.
fn write_game<W: Write>(alloc: Global, game: &Game, output: &mut W) -> Result<(), Fault>
    ensures written { OnOk result (WritesGame (W.contents output.old) (W.contents output.new) game.now) }
    ensures fault { IfErr result IsShowFault }
{
    let Ok(reply) = pgn_reply(alloc, game) else {
        return Err(Fault::NoMemory);
    };
    match output.write_all(reply.body.as_bytes()) {
        Ok(()) => Ok(()),
        Err(_) => Err(Fault::Write),
    }
}

/// Writes the games of a table as PGN, in the table's order, an empty line behind each. `NoMemory` where memory is
/// refused, and `Write` where the output fails.
pub fn write_games<W: Write>(alloc: Global, table: &Table, output: &mut W) -> Result<(), Fault>
    ensures written { OnOk result (WritesGames (W.contents output.old) (W.contents output.new) table.now.games
        (length table.now.games)) }
    ensures fault { IfErr result IsShowFault }
{
    for place in 0..table.games() {
        match table.game_at(place) {
            Some(game) => write_game(alloc, game, output)?,
            None => unreachable!(),
        }
    }
    Ok(())
}

// A copy in memory of the journal in a file.
fn copy_of<R: Files<File = File> + Eprint>(
    rt: &R,
    alloc: Global,
    teller: &Teller<'_, R>,
    journal: &str,
) -> Result<MemoryDevice, Fault>
    ensures { IfErr result IsShowFault }
{
    let mut source = open_source(rt, teller, journal)?;
    let copied = copy_in_memory(alloc, &mut source);
    teller.failed(journal, "a read failed", source.last_error());
    copied
}

// Writes the games of the journal on a device in memory.
fn write_stored<W: Write>(alloc: Global, memory: MemoryDevice, output: &mut W) -> Result<(), Fault>
    ensures { IfErr result IsShowFault }
{
    let parts = open_on(alloc, memory)?.into_parts();
    write_games(alloc, &parts.table, output)
}

// Writes the games of a journal's file.
fn write_journal<R: Files<File = File> + Eprint, W: Write>(
    rt: &R,
    alloc: Global,
    teller: &Teller<'_, R>,
    journal: &str,
    output: &mut W,
) -> Result<(), Fault>
    ensures { IfErr result IsShowFault }
{
    let memory = copy_of(rt, alloc, teller, journal)?;
    write_stored(alloc, memory, output)
}

/// Writes the PGN of each game of a journal, by rising number, also of a journal in which somebody plays.
pub fn show_games<R: Files<File = File> + Eprint, W: Write>(
    rt: &R,
    alloc: Global,
    journal: &str,
    output: &mut W,
) -> Result<(), Fault>
    ensures { IfErr result IsShowFault }
{
    let teller = Teller::new(rt, false);
    let mut output = TellingWriter::new(output, &teller);
    let shown = write_journal(rt, alloc, &teller, journal, &mut output);
    told(&teller, journal, shown)
}
