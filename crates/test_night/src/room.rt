//! A log for whose file there is no room for a while.
use night_files::{AppendedFile, MemoryTorn};
use night_log::{HoldingLog, Log, LogEntry, entries_of, verify_lines};
use std::alloc::Global;
use std::io::{self, ErrorKind};
use std::process::Abort;

// A file that has room for so many bytes, and from each cut on for as many as stand here next.
#[derive(Drop)]
struct SmallFile {
    bytes: Vec<u8>,
    room: usize,
    later: &'static [usize],
}

impl AppendedFile for SmallFile {
    ghost use Rattle.std.specs.Prelude.{[]};

    ghost keeps_model = { λ _. ⊥ };

    ghost safe_bytes = { λ _. [] };

    ghost pending_bytes = { λ _. [] };

    fn read_all(&mut self, into: &mut Vec<u8>) -> io::Result<()> {
        into.extend_from_slice(&self.bytes)?;
        Ok(())
    }

    fn read_last(&mut self, most: usize, into: &mut Vec<u8>) -> io::Result<usize> {
        let before = self.bytes.len().saturating_sub(most);
        into.extend_from_slice(&self.bytes[before..])?;
        Ok(before)
    }

    fn append(&mut self, bytes: &[u8]) -> io::Result<()> {
        let left = self.room.saturating_sub(self.bytes.len());
        if left < bytes.len() {
            self.bytes.extend_from_slice(&bytes[..left])?;
            return Err(io::Error::from(ErrorKind::StorageFull));
        }
        self.bytes.extend_from_slice(bytes)?;
        Ok(())
    }

    fn sync(&mut self) -> io::Result<()> {
        Ok(())
    }

    fn cut(&mut self, kept: usize) -> io::Result<()> {
        self.bytes.truncate(kept);
        if let [room, later @ ..] = self.later {
            self.room = *room;
            self.later = later;
        }
        Ok(())
    }
}

// What a log has then. There is room for the first alone; the others have some when they are put, and none is lost.
const WANTED: [(u64, &str); 6] = [
    (1, "came ann"),
    (2, "lobby has no room for its log"),
    (2, "came bob"),
    (3, "went ann"),
    (8, "lobby has room for its log"),
    (4, "went bob"),
];

// Tells a log a text at a moment.
fn tell(rt: &impl Abort, alloc: Global, log: &mut HoldingLog<SmallFile>, at: u64, text: &str) {
    let mut texts = Vec::new(alloc);
    let text = String::from_str(alloc, text).expect(rt, "memory");
    texts.push(text).expect(rt, "memory");
    log.put(alloc, at, &texts).expect(rt, "a log that goes on");
}

// Asks whether a log has room at a moment.
fn has_room(rt: &impl Abort, alloc: Global, log: &mut HoldingLog<SmallFile>, at: u64) -> bool {
    if log.is_full() {
        log.make_room(alloc, at).expect(rt, "a log that goes on");
    }
    !log.is_full()
}

// Whether an entry is no act, of this moment and text.
fn is_beside(entry: &LogEntry, at: u64, text: &str) -> bool {
    match entry {
        LogEntry::Stands { at: moment, shows } => *moment == at && shows.as_str() == text,
        LogEntry::Act { .. } => false,
    }
}

#[test]
fn goes_on_without_room(rt: HostRuntime) {
    let alloc = rt.alloc();
    // (cut by the opening, where the room ends, and at two looks)
    let file = SmallFile {
        bytes: Vec::new(alloc),
        room: 0,
        later: &[200, 150, 260, 4_000],
    };
    let log = Log::open(alloc, file, &mut MemoryTorn::new(alloc, false)).expect(&rt, "a log");
    let mut log = HoldingLog::over(alloc, log).expect(&rt, "a log");
    tell(&rt, alloc, &mut log, 1, "came ann");
    assert!(rt; has_room(&rt, alloc, &mut log, 5));
    tell(&rt, alloc, &mut log, 2, "came bob");
    assert!(rt; !has_room(&rt, alloc, &mut log, 7));
    tell(&rt, alloc, &mut log, 3, "went ann");
    assert!(rt; has_room(&rt, alloc, &mut log, 8));
    tell(&rt, alloc, &mut log, 4, "went bob");
    let bytes = log.into_file().bytes;
    let found = verify_lines(alloc, &bytes).expect(&rt, "a log");
    let entries = entries_of(alloc, &bytes).expect(&rt, "a log");
    assert!(rt; found.broken.is_none() && entries.len() == WANTED.len());
    for (entry, (at, text)) in entries.iter().zip(&WANTED) {
        assert!(rt; is_beside(entry, *at, text));
    }
}
