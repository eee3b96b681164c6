//! The words that make a journal and widen it.
ghost use Rattle.std.specs.Prelude.{◌≡◌, ◌≤◌, ◌↔◌, All, take, IsTrue, IfSome, IfOk, IfErr, OnOk, IsErrOf};
ghost use Rattle.rec_codec.specs.declared.limits.Version.TheVariants.{Two};
ghost use Rattle.rec_codec.specs.Limits.{IsInRange};
ghost use Rattle.sector_dev.specs.Device.{IsUnchanged};
ghost use Rattle.server_words.specs.Blank.{IsBlankAt};
ghost use Rattle.server_words.specs.Faults.{IsOpenFault};
ghost use Rattle.server_words.specs.JournalFaults.{IsBlankFault, IsFormatFault, IsWidenFault, MayWiden};

use crate::{Fault, Formatting, JournalLimits, open_file, open_on, opened, printed, told};
use chess_store::{Store, StoreFault};
use rec_codec::{Limits, need};
use sector_dev::{Device, FileDevice, Got};
use server_telling::{Teller, TellingDevice};
use std::alloc::Global;
use std::fs::{File, FileType};
use std::io::{ErrorKind, Read};
use std::os::unix::fs::FileTypeExt;
use std::rt::Files;
use std::{fs, io};

/// The device in a file that is made, or lengthened to so many sectors.
pub(crate) fn make_file<R: Files<File = File> + Eprint>(
    rt: &R,
    teller: &Teller<'_, R>,
    path: &str,
    sectors: u32,
) -> Result<FileDevice, Fault>
    ensures { IfErr result (λ fault. fault ≡ Fault.File) }
{
    let gave = FileDevice::create(rt, path, sectors);
    opened(teller, path, "it cannot be made or lengthened", gave)
}

// Makes a device a journal of the empty table within the limits.
fn create_on<D: Device + Drop>(alloc: Global, device: D, limits: Limits) -> Result<(), Fault>
    requires { IsInRange Two limits }
    ensures { IfErr result IsFormatFault }
{
    match Store::create(alloc, device, limits) {
        Ok(_) => Ok(()),
        Err(refused) => Err(Fault::Store(refused.fault)),
    }
}

// As `may_lengthen`, of the device in the file.
fn may_outgrow<D: Device + Drop>(alloc: Global, device: D, limits: Limits) -> Result<(), Fault>
    requires { IsInRange Two limits }
    ensures { IfErr result IsFormatFault }
{
    if device.sectors() >= need(limits) {
        return Ok(());
    }
    match create_on(alloc, device, limits) {
        Err(Fault::Store(StoreFault::TooSmall)) => Ok(()),
        made => made,
    }
}

// Whether a file that is there and shorter than the limits need may be made longer: no journal may stand in it. Nothing
// of it changes.
fn may_lengthen<R: Files<File = File> + Eprint>(
    rt: &R,
    alloc: Global,
    teller: &Teller<'_, R>,
    wanted: &JournalLimits<'_>,
) -> Result<(), Fault>
    ensures { IfErr result IsFormatFault }
{
    match FileDevice::open(rt, wanted.journal) {
        Ok(device) => {
            let device = TellingDevice::new(device, teller, wanted.journal);
            may_outgrow(alloc, device, wanted.limits)
        }
        // A file that can't be opened so is the system's to tell of, at the next call.
        Err(_) => Ok(()),
    }
}

// So many bytes has the front of a file that is not to be made a journal unasked: those of the two header slots.
const FRONT: u64 = 1_024;

// Whether all of these are zeros.
fn are_zeros(bytes: &[u8]) -> bool
    ensures { IsTrue result ↔ All (λ b. b ≡ 0) bytes.now }
{
    bytes.iter().all(|byte| *byte == 0)
}

/// Whether the first 1,024 bytes that a reader gives, or all where there are fewer, are zeros. It fails where a read
/// fails, or memory is refused.
pub fn is_blank<R: Read + Drop>(alloc: Global, reader: R) -> io::Result<bool>
    ensures { IfOk result (λ blank. IfSome (R.remaining reader) (λ bytes.
        IsTrue blank ↔ All (λ b. b ≡ 0) (take 1024 bytes))) }
{
    let mut front = Vec::new(alloc);
    reader.take(FRONT).read_to_end(&mut front)?;
    Ok(are_zeros(&front))
}

// Whether a file may hold bytes at all, so that a read of it comes to an end.
fn holds_bytes(file_type: FileType) -> bool {
    file_type.is_file() || file_type.is_block_device()
}

// A file from its front on, as the disk has it: the opening of the device drops what the system's memory holds of it.
fn open_front<R: Files<File = File>>(rt: &R, path: &str) -> io::Result<File> {
    let device = FileDevice::open_to_read(rt, path)?;
    let file = File::open(rt, path);
    drop(device);
    file
}

/// Whether a file may be made a journal unasked: not where it has a byte that is not zero at its front. Nothing of it
/// changes.
pub(crate) fn may_overwrite<R: Files<File = File> + Eprint>(
    rt: &R,
    alloc: Global,
    teller: &Teller<'_, R>,
    path: &str,
) -> Result<(), Fault>
    ensures { IfErr result IsFormatFault }
{
    // What is not there, or cannot be looked at, is the system's to tell of, at the next call.
    match fs::metadata(rt, path) {
        Ok(found) if holds_bytes(found.file_type()) => {}
        _ => return Ok(()),
    }
    let Ok(file) = open_front(rt, path) else {
        return Ok(());
    };
    match is_blank(alloc, file) {
        Ok(true) => Ok(()),
        Ok(false) => Err(Fault::Store(StoreFault::Exists)),
        Err(error) if error.kind() == ErrorKind::OutOfMemory => Err(Fault::NoMemory),
        Err(error) => {
            teller.file_failed(path, "it cannot be read", &error);
            Err(Fault::File)
        }
    }
}

// `Exists` where a device has this sector and it is not blank.
fn stays_blank_at<D: Device>(device: &mut D, at: u32) -> Result<(), Fault>
    ensures blank { (D.state device.old).keeps_model
        → OnOk result (IsBlankAt (D.state device.old).reads (D.sector_count device.old) at) }
    ensures unchanged { (D.state device.old).keeps_model → IsUnchanged (D.state device.old) (D.state device.new) }
    ensures model { (D.state device.new).keeps_model ↔ (D.state device.old).keeps_model }
    ensures sectors { D.sector_count device.new ≡ D.sector_count device.old }
    ensures fault { IfErr result IsBlankFault }
{
    if device.sectors() <= at {
        return Ok(());
    }
    let mut bytes = [0; 512];
    match device.read(at, &mut bytes) {
        Ok(Got::Whole) if are_zeros(&bytes) => Ok(()),
        Ok(_) => Err(Fault::Store(StoreFault::Exists)),
        Err(_) => Err(Fault::Store(StoreFault::Device { pending: 0 })),
    }
}

/// `Exists` where one of a device's first two sectors holds something or is unreadable, and `Device` where a read of it
/// fails; a sector that the device does not have is blank. Of a file this is asked once it is locked: another program
/// may have made it a journal meanwhile.
pub fn stays_blank<D: Device>(device: &mut D) -> Result<(), Fault>
    ensures blank { (D.state device.old).keeps_model
        → OnOk result (IsBlankAt (D.state device.old).reads (D.sector_count device.old) 0
        × IsBlankAt (D.state device.old).reads (D.sector_count device.old) 1) }
    ensures fault { IfErr result IsBlankFault }
{
    stays_blank_at(device, 0)?;
    stays_blank_at(device, 1)
}

// Makes a device a journal of the empty table within the limits, unless it is to be blank and is not.
fn format_on<D: Device + Drop>(
    alloc: Global,
    mut device: D,
    limits: Limits,
    is_forced: bool,
) -> Result<(), Fault>
    requires { IsInRange Two limits }
    ensures { IfErr result IsFormatFault }
{
    if !is_forced {
        stays_blank(&mut device)?;
    }
    create_on(alloc, device, limits)
}

// Makes a file a journal of the empty table, and prints so.
fn make_journal<R: Files<File = File> + Print + Eprint>(
    rt: &R,
    alloc: Global,
    teller: &Teller<'_, R>,
    formatting: &Formatting<'_>,
) -> Result<(), Fault>
    ensures { IfErr result IsFormatFault }
{
    let wanted = &formatting.wanted;
    let sectors = need(wanted.limits);
    if !formatting.is_forced {
        may_overwrite(rt, alloc, teller, wanted.journal)?;
    }
    may_lengthen(rt, alloc, teller, wanted)?;
    let file = make_file(rt, teller, wanted.journal, sectors)?;
    let device = TellingDevice::new(file, teller, wanted.journal);
    format_on(alloc, device, wanted.limits, formatting.is_forced)?;
    printed(teller, println!(rt; "ok format {sectors}"))
}

/// Makes a file a journal of the empty table within the limits, and prints `ok format S`, S being their need. `Exists`
/// where a journal may stand in it, or, unless that is to be overwritten, anything else but zeros: nothing of it has
/// changed. Of two that make one file at once, one at most answers so.
pub fn format<R: Files<File = File> + Print + Eprint>(
    rt: &R,
    alloc: Global,
    formatting: &Formatting<'_>,
) -> Result<(), Fault>
    ensures { IfErr result IsFormatFault }
{
    let teller = Teller::new(rt, false);
    let made = make_journal(rt, alloc, &teller, formatting);
    told(&teller, formatting.wanted.journal, made)
}

// Whether no limit is below the present one.
fn may_widen(present: Limits, wanted: Limits) -> bool
    ensures { IsTrue result ↔ MayWiden present wanted }
{
    present.games <= wanted.games && present.plies <= wanted.plies
}

// Widens a store's table, unless a limit is below the present one: then nothing has changed.
fn widen_store<D: Device>(store: &mut Store<D>, limits: Limits) -> Result<(), Fault>
    requires { IsInRange Two limits }
    ensures below { IsErrOf result Fault.Limits ↔ (MayWiden store.old.table.limits limits → ⊥) }
    ensures untouched { IsErrOf result Fault.Limits → store.new ≡ store.old }
    ensures fault { IfErr result IsWidenFault }
{
    if !may_widen(store.limits(), limits) {
        return Err(Fault::Limits);
    }
    match store.widen(limits) {
        Ok(()) => Ok(()),
        Err(fault) => Err(Fault::Store(fault)),
    }
}

// The present limits of the journal on a device.
fn limits_on<D: Device + Drop>(alloc: Global, device: D) -> Result<Limits, Fault>
    ensures { IfErr result IsOpenFault }
{
    Ok(open_on(alloc, device)?.limits())
}

// The present limits of the journal in a file.
fn limits_of<R: Files<File = File> + Eprint>(
    rt: &R,
    alloc: Global,
    teller: &Teller<'_, R>,
    journal: &str,
) -> Result<Limits, Fault>
    ensures { IfErr result IsOpenFault }
{
    let file = open_file(rt, teller, journal)?;
    limits_on(alloc, TellingDevice::new(file, teller, journal))
}

// Widens the table of the journal on a device.
fn widen_on<D: Device + Drop>(alloc: Global, device: D, limits: Limits) -> Result<(), Fault>
    requires { IsInRange Two limits }
    ensures { IfErr result IsWidenFault }
{
    let mut store = open_on(alloc, device)?;
    widen_store(&mut store, limits)
}

// Lengthens a journal's file, raises its table's limits, and prints so.
fn widen_journal<R: Files<File = File> + Print + Eprint>(
    rt: &R,
    alloc: Global,
    teller: &Teller<'_, R>,
    wanted: &JournalLimits<'_>,
) -> Result<(), Fault>
    ensures { IfErr result IsWidenFault }
{
    if !may_widen(limits_of(rt, alloc, teller, wanted.journal)?, wanted.limits) {
        return Err(Fault::Limits);
    }
    let sectors = need(wanted.limits);
    let file = make_file(rt, teller, wanted.journal, sectors)?;
    let device = TellingDevice::new(file, teller, wanted.journal);
    widen_on(alloc, device, wanted.limits)?;
    printed(teller, println!(rt; "ok widen {sectors}"))
}

/// Lengthens a journal's file to the need of the limits, raises its table's limits to them, and prints `ok widen S`, S
/// being their need. Where a limit is below the present one the file is untouched.
pub fn widen<R: Files<File = File> + Print + Eprint>(
    rt: &R,
    alloc: Global,
    wanted: &JournalLimits<'_>,
) -> Result<(), Fault>
    ensures { IfErr result IsWidenFault }
{
    let teller = Teller::new(rt, false);
    let widened = widen_journal(rt, alloc, &teller, wanted);
    told(&teller, wanted.journal, widened)
}
