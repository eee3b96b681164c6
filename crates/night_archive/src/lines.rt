//! The lines of an archive's file, for those who only read them, and for who is about to open it.
use crate::archive::{games_of_file, length_of_own};
use crate::reading::game_of;
use anyhow::{Context, Result};
use night_files::{end_last_line, tell_behind, whole_length};
use std::alloc::{AllocError, Global};
use std::fs;
use std::rt::Files;
use text_parts::skip;

/// Ends the last line of an archive's bytes where it lacks only its line feed, and answers whether it did.
pub fn end_game(alloc: Global, bytes: &mut Vec<u8>) -> Result<bool, AllocError> {
    end_last_line(bytes, |line| Ok(game_of(alloc, line)?.is_some()))
}

/// The lines of an archive's bytes, without what stands behind them, be it torn or the end of a line that was refused
/// (`length_of_own`). It fails where one is no game's, where a game has two, or where what stands behind them may not be
/// cut off.
pub fn lines_in(alloc: Global, file: &str, bytes: &[u8]) -> Result<String> {
    let mut lines = Vec::from_slice(alloc, bytes)?;
    lines.truncate(length_of_own(bytes));
    games_of_file(alloc, lines.as_slice()).context(format_args!("{file} is no archive"))?;
    let whole = whole_length(lines.as_slice());
    lines.truncate(whole);
    String::from_utf8(lines).context(format_args!("{file}"))
}

// The bytes of an archive's file, whose last line may lack its line feed.
fn bytes_of<R: Files + AllocGlobal>(rt: &R, file: &str) -> Result<Vec<u8>> {
    let mut bytes = fs::read(rt, file).context(format_args!("reading {file}"))?;
    end_game(rt.alloc(), &mut bytes)?;
    Ok(bytes)
}

/// The lines of an archive's file; the last one may lack its line feed. What stands behind them is left out: another
/// may be about to put it. It fails as `lines_in` does, and where the file is not read.
pub fn lines_of<R: Files + AllocGlobal>(rt: &R, file: &str) -> Result<String> {
    let bytes = bytes_of(rt, file)?;
    lines_in(rt.alloc(), file, bytes.as_slice())
}

/// The same, where standard error is told what is left out.
pub fn lines_told<R: Files + AllocGlobal + Eprint>(rt: &R, file: &str) -> Result<String> {
    let bytes = bytes_of(rt, file)?;
    let lines = lines_in(rt.alloc(), file, bytes.as_slice())?;
    let behind = skip(bytes.as_slice(), lines.len());
    tell_behind(rt, file, lines.len(), behind);
    Ok(lines)
}
