//! An archive's file that was opened, with the lines that it had.
use crate::archive::{Archive, length_of_own};
use crate::lines::{end_game, lines_in};
use anyhow::{Context, Result};
use night_files::{AppendedFile, DiskFile, TornFile, TornPlace};
use std::fs::File;
use std::rt::Files;
use text_parts::skip;

/// An archive, and its lines when it was opened.
#[derive(Drop)]
pub struct Opened {
    pub archive: Archive<DiskFile>,
    pub lines: String,
}

// The lines of a file, of which the last one is ended where it lacks only its line feed. What is no game's and has come
// back behind them goes to `FILE.torn` and is cut off, so that no copy of the file has it any more.
fn lines_ended<R>(rt: &R, path: &str, file: &mut DiskFile) -> Result<String>
where
    R: Files<File = File> + AllocGlobal + Eprint,
{
    let mut bytes = Vec::new(rt.alloc());
    file.read_all(&mut bytes)?;
    let was_ended = end_game(rt.alloc(), &mut bytes)?;
    let lines = lines_in(rt.alloc(), path, bytes.as_slice())?;
    let own = length_of_own(bytes.as_slice());
    if own < bytes.len() {
        let number = lines.lines().count().saturating_add(1);
        let _ = eprintln!(rt;
            "{path}: line {number} is no game's: the end of a line that was refused has come back"
        );
        TornFile::beside(rt, path).keep(own, skip(bytes.as_slice(), own))?;
        file.cut(own)?;
    }
    if was_ended {
        file.append(b"\n")?;
    }
    Ok(lines)
}

/// The archive of a file, which nobody else has, and its lines; the last one is ended where it lacks only its line
/// feed, and what else stands behind them, torn or brought back by a volume, goes to `FILE.torn`, and is told. It fails
/// where the file is no archive, as `lines_of` does, and then the file is as it was; and where the system refuses a
/// call.
pub fn open_archive<R>(rt: &R, path: &str, file: DiskFile) -> Result<Opened>
where
    R: Files<File = File> + AllocGlobal + Eprint,
{
    let mut file = file;
    let lines = lines_ended(rt, path, &mut file).context(format_args!("opening {path}"))?;
    let mut torn = TornFile::beside(rt, path);
    let archive = Archive::open(rt.alloc(), file, &mut torn).context(format_args!(
        "opening {path}"
    ))?;
    Ok(Opened { archive, lines })
}
