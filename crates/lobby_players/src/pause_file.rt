//! Whether entries are paused, for a lobby that begins anew: a file stands beside the players' file as long as they
//! are.
ghost use Rattle.std.specs.Prelude.{◌≡◌};

use crate::file::{put_own_file, take_away};
use anyhow::{Context, Result, bail};
use std::fs::{self, File};
use std::io::ErrorKind;
use std::rt::Files;

// What stands in the file: that it is there is what counts.
const TEXT: &str = "Entries are paused, and nobody but an arbiter opens games. \
    Without this file the next lobby begins with entries open.\n";

// Whether the file is there. It fails where what stands there is none, as a symbolic link.
fn is_there<R: Files>(rt: &R, file: &str) -> Result<bool> {
    match fs::symlink_metadata(rt, file) {
        Ok(found) if found.is_file() => Ok(true),
        Ok(_) => bail!("{file} is no regular file"),
        Err(error) if error.kind() == ErrorKind::NotFound => Ok(false),
        Err(error) => Err(error).context(format_args!("looking for {file}")),
    }
}

/// Whether entries are paused, as a file keeps it.
#[derive(Drop)]
pub struct PauseFile<'a, R> {
    rt: &'a R,
    file: String,
    is_paused: bool,
}

impl<'a, R: Files<File = File> + AllocGlobal + Eprint> PauseFile<'a, R> {
    /// Whether entries are paused, as it was kept beside this players' file; where they are paused that is told. It
    /// fails where the system does not tell, or where something else than a file has its name.
    pub fn new(rt: &'a R, players: &str) -> Result<Self> {
        let file = format!(in rt.alloc(); "{players}.paused")?;
        let is_paused = is_there(rt, file.as_str())?;
        if is_paused {
            let _ = eprintln!(rt; "entries are paused, as they were: {file} is there");
        }
        Ok(PauseFile {
            rt,
            file,
            is_paused,
        })
    }

    /// Whether entries are paused.
    pub fn is_paused(&self) -> bool
        ensures { result ≡ self.now.is_paused }
    {
        self.is_paused
    }

    // Keeps in the file whether entries are paused.
    fn put(&self, is_paused: bool) -> Result<()> {
        let file = self.file.as_str();
        if is_paused {
            put_own_file(self.rt, self.rt.alloc(), file, TEXT)
        } else {
            Ok(take_away(self.rt, file)?)
        }
    }

    /// Keeps whether entries are paused, where that is news. It is on the disk then, or standard error tells that it is
    /// not.
    pub fn keep(&mut self, is_paused: bool)
        ensures { self.new.is_paused ≡ is_paused }
    {
        if is_paused == self.is_paused {
            return;
        }
        self.is_paused = is_paused;
        if let Err(error) = self.put(is_paused) {
            let now = if is_paused { "paused" } else { "resumed" };
            let file = self.file.as_str();
            let _ = eprintln!(self.rt; "that entries are {now} is not kept in {file}: {error:#}");
        }
    }
}
