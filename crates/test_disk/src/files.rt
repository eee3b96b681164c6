//! The system's files as devices of sectors, under their names.
use crate::sectors::{byte_at, fill, sector};
use sector_dev::{Device, FileDevice, Got, PositionedFile};
use std::fs::{File, Metadata, OpenOptions};
use std::io::{self, ErrorKind};
use std::os::fd::AsRawFd;
use std::os::unix::fs::{FileExt, MetadataExt, symlink};
use std::path::PathBuf;
use std::process::Abort;
use std::rt::Files;
use std::{env, fs};

/// A call of a device, and what is to come of it.
pub enum Call {
    /// A sector is filled with a byte.
    Fill(u32, u8),
    /// A sector is filled so.
    Filled(u32, u8),
    /// A sector gets bytes of which the first and the last are unlike the others.
    Mark(u32),
    /// A sector has these.
    Marked(u32),
    /// A sector cannot be read.
    Lost(u32),
    /// A sync, and the kind of its error where it fails.
    Sync(Option<ErrorKind>),
    /// A barrier, and the kind of the last error where it fails.
    Barrier(Option<ErrorKind>),
}

// A sector whose first and last bytes are unlike the others.
fn marked() -> [u8; 512] {
    let mut value = [7; 512];
    value[0] = 1;
    value[511] = 2;
    value
}

/// The kind of a device's last error.
pub fn last_kind<F: PositionedFile>(device: &FileDevice<F>) -> Option<ErrorKind> {
    Some(device.last_error()?.kind())
}

/// Makes a call. Whether it comes to what is told.
pub fn make<F: PositionedFile>(rt: &impl Abort, device: &mut FileDevice<F>, call: &Call) -> bool {
    match call {
        Call::Fill(at, byte) => fill(rt, device, *at, *byte).is_ok(),
        Call::Filled(at, byte) => byte_at(rt, device, *at) == Ok(*byte),
        Call::Mark(at) => {
            assert!(rt; *at < device.sectors());
            device.write(*at, &marked()).is_ok()
        }
        Call::Marked(at) => sector(rt, device, *at) == Ok((Got::Whole, marked())),
        Call::Lost(at) => {
            last_kind(device) == None
                && sector(rt, device, *at).is_err()
                && last_kind(device).is_some()
        }
        Call::Sync(kind) => device.sync().is_ok() == kind.is_none() && last_kind(device) == *kind,
        Call::Barrier(kind) => {
            device.barrier().is_ok() == kind.is_none() && last_kind(device) == *kind
        }
    }
}

/// What is done with a file.
enum Act {
    /// It is made with these bytes.
    Write(&'static [u8]),
    /// It is made of three pages: a hole, bytes that are not zero, and a hole with a part of a page behind it.
    Holes,
    Shorten(u64),
    /// It gets another name too.
    Link(&'static str),
    /// Its name becomes a link to another file.
    LinkTo(&'static str),
    /// A copy of it gets its name.
    Replace(&'static str),
    /// It gets another name.
    Rename(&'static str),
    /// Another file gets its name.
    TakeName(&'static str),
    Remove,
}

/// What is seen of a file.
enum Seen {
    /// It has these bytes from a place on.
    Part(usize, &'static [u8]),
    /// It has these bytes from a place on, and zeros before and behind them.
    Alone(usize, &'static [u8]),
    /// It has so many bytes.
    Length(u64),
    /// It has blocks for so many sectors.
    Blocks(u64),
    /// It cannot be opened, or lengthened.
    Refused(ErrorKind),
    /// It is not there, and opening makes nothing.
    Missing,
    /// Opening it fails with this number of the system's.
    Fails(i32),
    /// It is read beside its device.
    Read,
}

fn are_zeros(bytes: &[u8]) -> bool {
    for byte in bytes {
        if *byte != 0 {
            return false;
        }
    }
    true
}

// Whether these bytes have others from a place on, and zeros before and behind them if these are alone.
fn have_part(bytes: &[u8], from: usize, part: &[u8], is_alone: bool) -> bool {
    let (front, rest) = bytes.split_at(from.min(bytes.len()));
    match rest.strip_prefix(part) {
        Some(behind) => !is_alone || are_zeros(front) && are_zeros(behind),
        None => false,
    }
}

fn found<R: Files<File = File> + Abort>(rt: &R, path: &str) -> Metadata {
    fs::metadata(rt, path).expect(rt, "a file")
}

fn writable<R: Files<File = File> + Abort>(rt: &R, path: &str) -> File {
    let file = OpenOptions::new().write(true).open(rt, path);
    file.expect(rt, "a file")
}

// How opening failed.
fn refusal(opened: io::Result<FileDevice>) -> Option<ErrorKind> {
    Some(opened.err()?.kind())
}

fn is_refused<R: Files<File = File> + Abort>(rt: &R, path: &str, kind: ErrorKind) -> bool {
    refusal(FileDevice::open(rt, path)) == Some(kind)
        && refusal(FileDevice::create(rt, path, 9)) == Some(kind)
}

fn act_on<R: Files<File = File> + AllocGlobal + Abort>(
    rt: &R,
    path: &str,
    act: &Act,
) -> io::Result<()> {
    match act {
        Act::Write(bytes) => fs::write(rt, path, *bytes),
        Act::Holes => make_holes(rt, path),
        Act::Shorten(length) => writable(rt, path).set_len(*length),
        Act::Link(name) => fs::hard_link(rt, path, name),
        Act::LinkTo(file) => symlink(rt, file, path),
        Act::Replace(copy) => {
            fs::copy(rt, path, copy).expect(rt, "a copy");
            fs::rename(rt, copy, path)
        }
        Act::Rename(name) => fs::rename(rt, path, name),
        Act::TakeName(file) => fs::rename(rt, file, path),
        Act::Remove => fs::remove_file(rt, path),
    }
}

fn is_seen<R: Files<File = File> + AllocGlobal + Abort>(rt: &R, path: &str, seen: &Seen) -> bool {
    match seen {
        Seen::Part(from, part) | Seen::Alone(from, part) => {
            let bytes = fs::read(rt, path).expect(rt, "a file to read");
            have_part(
                bytes.as_slice(),
                *from,
                part,
                matches!(seen, Seen::Alone(..)),
            )
        }
        Seen::Length(length) => found(rt, path).len() == *length,
        Seen::Blocks(sectors) => found(rt, path).blocks() >= *sectors,
        Seen::Refused(kind) => is_refused(rt, path, *kind),
        Seen::Missing => {
            refusal(FileDevice::open(rt, path)) == Some(ErrorKind::NotFound)
                && !fs::exists(rt, path).expect(rt, "an answer")
        }
        Seen::Fails(number) => {
            let error = FileDevice::open(rt, path).err();
            number_of(error.as_ref()) == Some(*number)
        }
        Seen::Read => is_read_beside(rt, path),
    }
}

/// What is done with a file and with its device, and what is to come of it.
enum Step {
    /// A file of so many sectors is made, and is the device.
    New(u32),
    /// It is lengthened to so many sectors, and the device has so many.
    Lengthen(u32, u32),
    /// It is opened, and the device has so many sectors.
    Open(u32),
    Close,
    Device(Call),
    File(Act),
    See(Seen),
}

// A device that a step opens, which has so many sectors.
fn opened<R: Files<File = File> + Abort>(rt: &R, path: &str, step: &Step) -> Option<FileDevice> {
    let (device, sectors) = match step {
        Step::New(sectors) => {
            let _ = fs::remove_file(rt, path);
            (FileDevice::create(rt, path, *sectors), *sectors)
        }
        Step::Lengthen(least, sectors) => (FileDevice::create(rt, path, *least), *sectors),
        Step::Open(sectors) => (FileDevice::open(rt, path), *sectors),
        _ => return None,
    };
    let device = device.expect(rt, "a file");
    assert!(rt; device.sectors() == sectors);
    Some(device)
}

fn take<R: Files<File = File> + AllocGlobal + Abort>(
    rt: &R,
    path: &str,
    device: &mut Option<FileDevice>,
    step: &Step,
) {
    match step {
        Step::Device(call) => {
            assert!(rt; make(rt, device.as_mut().expect(rt, "a device"), call));
        }
        Step::File(act) => act_on(rt, path, act).expect(rt, "what the system does"),
        Step::See(seen) => assert!(rt; is_seen(rt, path, seen)),
        _ => *device = opened(rt, path, step),
    }
}

// Makes steps.
fn play<R: Files<File = File> + AllocGlobal + Abort>(rt: &R, path: &str, steps: &[Step]) {
    let mut device = None;
    for step in steps {
        take(rt, path, &mut device, step);
    }
    drop(device);
}

const REMOVE: Step = Step::File(Act::Remove);

const SYNCED: Step = Step::Device(Call::Sync(None));

const CUT: Step = Step::Device(Call::Sync(Some(ErrorKind::UnexpectedEof)));

const GONE: Step = Step::Device(Call::Sync(Some(ErrorKind::NotFound)));

const BARRED: Step = Step::Device(Call::Barrier(None));

// A new file holds zeros.
const NEW: [Step; 6] = [
    Step::New(3),
    Step::Device(Call::Filled(0, 0)),
    Step::Device(Call::Filled(1, 0)),
    Step::Device(Call::Filled(2, 0)),
    Step::See(Seen::Length(1536)),
    REMOVE,
];

// A later opening reads what was written, sector after sector from the first byte on.
const WRITTEN: [Step; 14] = [
    Step::New(4),
    Step::Device(Call::Fill(3, 9)),
    Step::Device(Call::Mark(2)),
    SYNCED,
    Step::Close,
    Step::Open(4),
    Step::Device(Call::Filled(1, 0)),
    Step::Device(Call::Filled(3, 9)),
    Step::Device(Call::Marked(2)),
    Step::See(Seen::Length(2048)),
    Step::See(Seen::Part(0, &[0; 1024])),
    Step::See(Seen::Part(1024, &[1, 7])),
    Step::See(Seen::Part(1534, &[7, 2, 9])),
    REMOVE,
];

const OLD: Step = Step::See(Seen::Alone(0, &[5; 1000]));

// What is there stays.
const LENGTHENED: [Step; 13] = [
    Step::File(Act::Write(&[5; 1000])),
    Step::Open(1),
    Step::Close,
    OLD,
    Step::See(Seen::Length(1000)),
    // With zeros up to the end of the second sector.
    Step::Lengthen(2, 2),
    OLD,
    Step::See(Seen::Length(1024)),
    Step::Close,
    Step::Lengthen(1, 2),
    OLD,
    Step::See(Seen::Length(1024)),
    REMOVE,
];

// 50,000 sectors take many writes of zeros; no hole is left in the file.
const LONG: [Step; 11] = [
    Step::File(Act::Write(&[7; 700])),
    Step::Lengthen(50_000, 50_000),
    Step::Device(Call::Filled(0, 7)),
    Step::Device(Call::Filled(2, 0)),
    Step::Device(Call::Filled(31, 0)),
    Step::Device(Call::Filled(32, 0)),
    Step::Device(Call::Filled(33, 0)),
    Step::Device(Call::Filled(49_999, 0)),
    Step::See(Seen::Alone(0, &[7; 700])),
    Step::See(Seen::Length(25_600_000)),
    REMOVE,
];

const IN_USE: Step = Step::See(Seen::Refused(ErrorKind::WouldBlock));

// A file has one device at a time.
const LOCKED: [Step; 10] = [
    Step::New(1),
    IN_USE,
    Step::See(Seen::Length(512)),
    Step::Close,
    Step::Open(1),
    IN_USE,
    Step::Close,
    Step::Lengthen(2, 2),
    Step::See(Seen::Length(1024)),
    REMOVE,
];

// A short read fails, and not what is read besides.
const SHORT: [Step; 7] = [
    Step::New(2),
    Step::Device(Call::Fill(0, 3)),
    Step::File(Act::Shorten(1023)),
    Step::Device(Call::Filled(0, 3)),
    Step::Device(Call::Lost(1)),
    Step::Device(Call::Filled(0, 3)),
    REMOVE,
];

// A cut file fails to sync.
const SHORTENED: [Step; 6] = [
    Step::New(2),
    Step::File(Act::Shorten(1024)),
    SYNCED,
    Step::File(Act::Shorten(1023)),
    CUT,
    REMOVE,
];

// So does one that is gone: a barrier leaves that to the sync, and after it fails too.
const REMOVED: [Step; 6] = [
    Step::New(2),
    SYNCED,
    REMOVE,
    BARRED,
    GONE,
    Step::Device(Call::Barrier(Some(ErrorKind::NotFound))),
];

// A file of the same bytes at the same name is another one.
const REPLACED: [Step; 5] = [
    Step::New(2),
    SYNCED,
    Step::File(Act::Replace("test_disk-copy")),
    GONE,
    REMOVE,
];

const LINK: &str = "test_disk-link";

const AWAY: &str = "test_disk-away";

// Another link does not change it, and it may be away while nobody syncs.
const RENAMED: [Step; 8] = [
    Step::New(2),
    Step::File(Act::Link(LINK)),
    SYNCED,
    Step::File(Act::Rename(AWAY)),
    Step::File(Act::TakeName(AWAY)),
    SYNCED,
    Step::File(Act::Rename(AWAY)),
    GONE,
];

const ONE: &str = "test_disk-one";

const TWO: &str = "test_disk-two";

// A name may be a link: then it leads where the link does at that time.
const LINKED: [Step; 7] = [
    Step::File(Act::LinkTo(ONE)),
    Step::Open(2),
    SYNCED,
    REMOVE,
    Step::File(Act::LinkTo(TWO)),
    GONE,
    REMOVE,
];

// A file that is long enough may have no room on the disk. The bytes that are not zero stay, and there are zeros up to
// the end of 32 sectors.
const HOLES: [Step; 6] = [
    Step::File(Act::Holes),
    Step::Lengthen(32, 32),
    Step::See(Seen::Length(16_384)),
    Step::See(Seen::Blocks(32)),
    Step::See(Seen::Alone(6_000, &[7; 100])),
    REMOVE,
];

// A file is read beside its device.
const READ: [Step; 5] = [
    Step::New(2),
    Step::Device(Call::Fill(1, 8)),
    Step::See(Seen::Read),
    Step::Device(Call::Filled(1, 8)),
    REMOVE,
];

const GONE_FILE: &str = "test_disk-gone";

const MISSING: &str = "test_disk-missing";

const NO_DEVICE: &str = "/dev/test_disk-no-such-device";

const NOT_FOUND: Step = Step::See(Seen::Refused(ErrorKind::NotFound));

const NO_FILE: Step = Step::See(Seen::Refused(ErrorKind::InvalidInput));

// Files, and what is done with them.
static SCRIPTS: [(&str, &[Step]); 25] = [
    ("test_disk-new", &NEW),
    ("test_disk-written", &WRITTEN),
    ("test_disk-longer", &LENGTHENED),
    ("test_disk-long", &LONG),
    ("test_disk-locked", &LOCKED),
    ("test_disk-short", &SHORT),
    ("test_disk-cut", &SHORTENED),
    (ONE, &[Step::New(2)]),
    (TWO, &[Step::New(2)]),
    ("test_disk-to-one", &LINKED),
    (ONE, &[REMOVE]),
    (TWO, &[REMOVE]),
    ("test_disk-holes", &HOLES),
    ("test_disk-read", &READ),
    // What is gone fails to sync.
    (GONE_FILE, &REMOVED),
    (GONE_FILE, &REPLACED),
    (GONE_FILE, &RENAMED),
    (AWAY, &[REMOVE]),
    (LINK, &[REMOVE]),
    // What is missing, what is a folder, and what can be opened and is no file. No file is made among the devices.
    ("test_disk-missing/file", &[NOT_FOUND]),
    (MISSING, &[Step::See(Seen::Missing)]),
    (NO_DEVICE, &[NOT_FOUND, Step::See(Seen::Missing)]),
    (".", &[Step::See(Seen::Refused(ErrorKind::IsADirectory))]),
    ("/dev/null", &[NO_FILE]),
    // A file of the system's own cannot be synced: EINVAL.
    ("/proc/self/comm", &[Step::See(Seen::Fails(22))]),
];

#[test]
fn files_are_devices_and_what_is_gone_or_none_fails(rt: HostRuntime) {
    for (path, steps) in &SCRIPTS {
        play(&rt, path, steps);
    }
}

// What is done under an absolute name, and with what is left then.
static ABSOLUTE: [&[Step]; 3] = [&REMOVED, &REPLACED, &RENAMED];

static LEFT: [Step; 1] = [REMOVE];

static IS_NO_FILE: [Step; 1] = [NO_FILE];

// The absolute name of a file in this folder.
fn absolute(rt: &HostRuntime, name: &str) -> io::Result<PathBuf> {
    Ok(env::current_dir(rt)?.join(rt.alloc(), name)?)
}

#[test]
fn names_may_be_absolute_and_a_pipe_is_refused(rt: HostRuntime) {
    let path = absolute(&rt, "test_disk-absolute").expect(&rt, "a path");
    for steps in &ABSOLUTE {
        play(&rt, path.as_str(), steps);
    }
    for left in [AWAY, LINK] {
        play(&rt, left, &LEFT);
    }
    drop(path);
    let (pipe, _writer) = io::pipe(&rt).expect(&rt, "a pipe");
    let path = format!(in rt.alloc(); "/proc/self/fd/{}", pipe.as_raw_fd());
    play(&rt, path.expect(&rt, "memory").as_str(), &IS_NO_FILE);
}

// The system's number of an error.
fn number_of(error: Option<&io::Error>) -> Option<i32> {
    error?.raw_os_error()
}

fn make_holes<R: Files<File = File> + Abort>(rt: &R, path: &str) -> io::Result<()> {
    assert!(rt; fs::write(rt, path, [0u8; 0].as_slice()).is_ok());
    let file = writable(rt, path);
    assert!(rt; file.set_len(12_388).is_ok());
    file.write_all_at(&[7; 100], 6_000)
}

static READABLE: [Call; 3] = [Call::Sync(None), Call::Filled(0, 0), Call::Filled(1, 8)];

// Whether a file of two sectors, the second of eights, is read beside its device and not written: EBADF.
fn is_read_beside<R: Files<File = File> + Abort>(rt: &R, path: &str) -> bool {
    let mut reader = FileDevice::open_to_read(rt, path).expect(rt, "a file");
    let mut is_so = reader.sectors() == 2;
    for call in &READABLE {
        is_so = is_so && make(rt, &mut reader, call);
    }
    is_so && fill(rt, &mut reader, 1, 3).is_err() && number_of(reader.last_error()) == Some(9)
}
