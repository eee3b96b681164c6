//! The archive's file: nights in memory, with every kill.
use crate::cuts::CUTS;
use night_archive::{Archive, Fault};
use night_files::{Fate, MemoryFile, MemoryTorn};
use std::alloc::Global;
use std::process::Abort;

// The games of a night, by number.
static GAMES: [(u32, &str); 3] = [
    (7, "[White \"a \\\"b\\\"\"]\n\n1. e4 *\n\n"),
    (1, ""),
    (4_294_967_295, "{\\n}\n"),
];

static NUMBERS: [u32; 3] = [7, 1, 4_294_967_295];

// Opens an archive, of which what is cut off has a place.
fn open(alloc: Global, file: MemoryFile) -> Result<Archive<MemoryFile>, Fault> {
    Archive::open(alloc, file, &mut MemoryTorn::new(alloc, false))
}

// Keeps all games until a call fails. It tells how many calls were answered.
fn keep_all(alloc: Global, archive: &mut Archive<MemoryFile>) -> usize {
    let mut answered: usize = 0;
    for (game, pgn) in &GAMES {
        if archive.keep(alloc, *game, pgn.as_bytes()).is_err() {
            return answered;
        }
        answered = answered.saturating_add(1);
    }
    answered
}

// It has the night's first games, at least so many, and then keeps all once.
fn check_games(rt: &impl Abort, alloc: Global, archive: &mut Archive<MemoryFile>, least: usize) {
    assert!(rt; archive.games().len() >= least && NUMBERS.starts_with(archive.games()));
    assert!(rt; keep_all(alloc, archive) == 3 && archive.games() == NUMBERS.as_slice());
}

// An archive that is killed after so many calls, and of which a crash leaves this, has what was answered in its next
// life, and keeps all once, if it could be opened.
fn check_killed(rt: &impl Abort, alloc: Global, calls: u32, fates: &[Fate]) {
    if let Ok(mut archive) = open(alloc, MemoryFile::new(alloc, Some(calls))) {
        let answered = keep_all(alloc, &mut archive);
        let file = archive.into_file().crash(fates, None).expect(rt, "memory");
        let mut again = open(alloc, file).expect(rt, "an archive");
        check_games(rt, alloc, &mut again, answered);
    }
}

#[test]
fn keeps_each_game_once(rt: HostRuntime) {
    for calls in 0..10 {
        for fates in &CUTS {
            check_killed(&rt, rt.alloc(), calls, fates);
        }
    }
}

// What comes of keeping a text as that of game 7.
fn kept(alloc: Global, archive: &mut Archive<MemoryFile>, pgn: &[u8]) -> &'static str {
    match archive.keep(alloc, 7, pgn) {
        Ok(true) => "new",
        Ok(false) => "there",
        Err(Fault::Control) => "control",
        Err(Fault::NotText) => "no text",
        Err(_) => "other",
    }
}

static KEPT: [(&[u8], &str); 8] = [
    (b"a\tb\n", "control"),
    (b"*\r\n", "control"),
    (b"\0", "control"),
    (b"\x1b", "control"),
    (b"\x7f", "control"),
    (b"\xff", "no text"),
    (b"*\n", "new"),
    (b"1. e4 *\n", "there"),
];

// A text is kept once, and an archive tells what it has.
fn check_kept(rt: &impl Abort, alloc: Global, archive: &mut Archive<MemoryFile>) {
    assert!(rt; !archive.has(7));
    for (pgn, wanted) in &KEPT {
        assert!(rt; kept(alloc, archive, pgn) == *wanted);
    }
    assert!(rt; archive.has(7) && !archive.has(8));
}

#[test]
fn keeps_a_text_once_and_tells_what_it_has(rt: HostRuntime) {
    let file = MemoryFile::new(rt.alloc(), None);
    let mut archive = open(rt.alloc(), file).expect(&rt, "an archive");
    check_kept(&rt, rt.alloc(), &mut archive);
}
