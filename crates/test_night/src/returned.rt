//! An archive and a log behind whose lines a volume has brought back what it had refused. (What an archive's opening does
//! then stands in `bench/night/rows/archive.txt`.)
use crate::acts::{bytes_of, texts};
use night_archive::{Archive, open_archive};
use night_files::{AppendedFile, DiskFile, MemoryFile, MemoryTorn};
use night_log::{Fault, Log};
use std::alloc::Global;
use std::fs::{self, File, OpenOptions};
use std::io::Write;
use std::process::Abort;
use std::rt::Files;

const FILE: &str = "returned_test.jsonl";

// A line, the end of a longer one that was to stand in its place, and that line and the next one.
const LINE: &str = "{\"game\":7,\"pgn\":\"*\"}\n";

const END: &str = "1. e4 e5 2. Nf3 1/2-1/2\\n\\n\"}\n";

const BOTH: &str = "{\"game\":7,\"pgn\":\"*\"}\n{\"game\":8,\"pgn\":\"*\"}\n";

// Puts a text behind what the file has.
fn put_behind<R: Files<File = File> + Abort>(rt: &R, text: &str) {
    let mut options = OpenOptions::new();
    options.append(true);
    let mut file = options.open(rt, FILE).expect(rt, "a file");
    assert!(rt; file.write_all(text.as_bytes()).is_ok());
}

// The archive of the file, where it is one.
fn opened<R>(rt: &R) -> Option<Archive<DiskFile>>
where
    R: Files<File = File> + AllocGlobal + Eprint + Abort,
{
    let file = DiskFile::open(rt, FILE).expect(rt, "a file");
    match open_archive(rt, FILE, file) {
        Ok(opened) => Some(opened.archive),
        Err(_) => None,
    }
}

#[test]
fn what_comes_back_is_not_left_between_lines(rt: HostRuntime) {
    assert!(rt; fs::write(&rt, FILE, LINE).is_ok());
    let mut archive = opened(&rt).expect(&rt, "an archive");
    put_behind(&rt, END);
    assert!(rt; archive.keep(rt.alloc(), 8, b"*").is_ok());
    let text = fs::read_to_string(&rt, FILE).expect(&rt, "a file");
    assert!(rt; text.as_str() == BOTH && fs::remove_file(&rt, FILE).is_ok());
}

// The bytes of a log that was told of ann, and then this text so often.
fn log_of(rt: &impl Abort, alloc: Global, at: u64, text: &str, count: usize) -> Vec<u8> {
    let file = MemoryFile::new(alloc, None);
    let mut log = Log::open(alloc, file, &mut MemoryTorn::new(alloc, false)).expect(rt, "a log");
    assert!(rt;
        log.put(alloc, 1, &texts(rt, alloc, "came ann\n", 1))
            .is_ok()
    );
    assert!(rt; log.put(alloc, at, &texts(rt, alloc, text, count)).is_ok());
    bytes_of(rt, alloc, log.into_file())
}

// A log that was told this text, behind which the end of the lines has come back that were refused in its place: what
// an opening leaves of it, and what it cuts off, as lengths; how long its own lines are, and what has come back.
fn opened_log(
    rt: &impl Abort,
    alloc: Global,
    at: u64,
    text: &str,
) -> (Result<Log<MemoryFile>, Fault>, usize, usize, usize) {
    let mut bytes = log_of(rt, alloc, at, text, 1);
    let own = bytes.len();
    let refused = log_of(rt, alloc, 5, "came bob\n", 3);
    let back = refused.get(own..).expect(rt, "what comes back");
    bytes.extend_from_slice(back).expect(rt, "memory");
    let mut file = MemoryFile::new(alloc, None);
    file.append(&bytes).expect(rt, "a file");
    let mut torn = MemoryTorn::new(alloc, false);
    let log = Log::open(alloc, file, &mut torn);
    (log, torn.bytes().len(), own, back.len())
}

#[test]
fn a_log_is_cut_before_what_comes_back(rt: HostRuntime) {
    let alloc = rt.alloc();
    // (the end of a line and a line, and two whole lines)
    for text in ["lobby began\n", "came eve\n"] {
        let (log, torn, own, back) = opened_log(&rt, alloc, 6, text);
        let bytes = bytes_of(&rt, alloc, log.expect(&rt, "a log").into_file());
        assert!(rt; bytes.as_slice() == log_of(&rt, alloc, 6, text, 1).as_slice());
        assert!(rt; bytes.len() == own && torn == back);
    }
    // (lines that are no older than the one before them stay, and the end of one is a fault then)
    let (log, torn, own, back) = opened_log(&rt, alloc, 5, "came eve\n");
    let bytes = bytes_of(&rt, alloc, log.expect(&rt, "a log").into_file());
    assert!(rt; torn == 0 && bytes.len() == own.saturating_add(back));
    let (log, torn, ..) = opened_log(&rt, alloc, 5, "lobby began\n");
    assert!(rt; torn == 0 && matches!(log, Err(Fault::NotALine(3))));
}
