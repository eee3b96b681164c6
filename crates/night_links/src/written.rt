//! A file that is written anew where it is to have something else.
use anyhow::{Context, Result};
use night_files::HeldFile;
use std::fs::{self, File};
use std::rt::Files;

/// A file that others fetch, and that nobody else writes.
#[derive(Drop)]
pub struct WrittenFile<'a> {
    path: &'a str,
    held: HeldFile<'a>,
    // What the file has, where that is known.
    written: Option<Vec<u8>>,
}

impl<'a> WrittenFile<'a> {
    /// Opens a file, or makes it. It fails where another writes it.
    pub fn open<R: Files<File = File> + AllocGlobal>(rt: &R, path: &'a str) -> Result<Self> {
        let held = HeldFile::open(rt, path).context(format_args!("opening {path}"))?;
        Ok(WrittenFile {
            path,
            held,
            written: fs::read(rt, path).ok(),
        })
    }

    /// Puts a text in the file's place, at once, where the file has another.
    pub fn put<R: Files<File = File> + AllocGlobal>(
        &mut self,
        rt: &R,
        text: Vec<u8>,
    ) -> Result<()> {
        if self.written.as_ref() != Some(&text) {
            let path = self.path;
            self.held
                .replace(rt, text.as_slice())
                .context(format_args!("writing {path}"))?;
            self.written = Some(text);
        }
        Ok(())
    }
}
