//! What is written.
use chess_answer::Reply;
use sector_dev::MemoryDevice;
use sector_journal::{JournalFault, Opened};
use std::alloc::Global;
use test_lines::{Fault, push_reply, text_line};

/// What replies say, line by line.
pub fn replies_text(alloc: Global, replies: &[Reply]) -> Result<String, Fault> {
    let mut text = String::new(alloc);
    for reply in replies {
        push_reply(&mut text, reply)?;
    }
    Ok(text)
}

/// That something was done, by its word.
pub fn done_text(alloc: Global, word: &str) -> Result<String, Fault> {
    Ok(text_line(alloc, word)?)
}

/// Why a journal is not read.
pub fn unread_text(alloc: Global, fault: JournalFault) -> Result<String, Fault> {
    Ok(format!(in alloc; "journal fault {fault:?}\n")?)
}

/// What a journal holds: of its header all but the counts of sectors, and how many records of a snapshot and of a
/// journal.
pub fn journal_text(alloc: Global, opened: &Opened<MemoryDevice>) -> Result<String, Fault> {
    let journal = &opened.journal;
    let limits = journal.limits();
    let (seq, half, version) = (journal.seq(), journal.half(), journal.version());
    let (base, tail) = (opened.base.len(), opened.tail.len());
    Ok(format!(in alloc;
        "journal version {version:?} seq {seq} half {half:?} limits {} {} records {base} {tail}\n",
        limits.games, limits.plies
    )?)
}
