//! A folder of files that spectators fetch: one of all games, and one for each game.
use anyhow::{Context, Result};
use night_files::{EVERYBODYS_MODE, HeldFile, new_file};
use std::alloc::Global;
use std::fs::{self, DirEntry, File};
use std::io::{self, Write};
use std::rt::Files;
use text_parts::number_of_32_bits;

/// What stands behind a game's number in the name of its file.
const ENDING: &str = ".json";

/// The folder, and its file of all games, which one program has at a time.
#[derive(Drop)]
pub struct GamesFolder<'a> {
    folder: &'a str,
    all: HeldFile<'a>,
    // How long the text of that file is.
    length: usize,
}

// The game whose file has this name.
fn game_named(name: &str) -> Option<u32> {
    number_of_32_bits(name.strip_suffix(ENDING)?)
}

// A text with a line feed more where it would be as long as the one before it. (A server of files that tells them apart
// by their lengths and the second of their writing finds another file then.)
fn other_length(text: &mut Vec<u8>, before: usize) -> Result<()> {
    if text.len() == before {
        text.push(b'\n')?;
    }
    Ok(())
}

// Puts a text in the place of a file, at once.
fn replace<R: Files + AllocGlobal>(rt: &R, path: &str, text: &[u8]) -> io::Result<()> {
    let new = format!(in rt.alloc(); "{path}.new")?;
    let mut file = new_file(rt, new.as_str(), EVERYBODYS_MODE)?;
    file.write_all(text)?;
    fs::rename(rt, new.as_str(), path)
}

impl<'a> GamesFolder<'a> {
    /// The name of the file of all games of a folder.
    pub fn all_of(alloc: Global, folder: &str) -> Result<String> {
        Ok(format!(in alloc; "{folder}/games.json")?)
    }

    /// Opens a folder, or makes it, with this file of all games. It fails where another program writes there.
    pub fn open<R: Files<File = File> + AllocGlobal>(
        rt: &R,
        folder: &'a str,
        all: &'a str,
    ) -> Result<Self> {
        if !fs::exists(rt, folder)? {
            fs::create_dir(rt, folder).context(format_args!("making {folder}"))?;
        }
        Ok(GamesFolder {
            folder,
            all: HeldFile::open(rt, all).context(format_args!("opening {all}"))?,
            length: 0,
        })
    }

    /// Puts the text of all games in the place of their file, at once.
    pub fn put_all<R: Files<File = File> + AllocGlobal>(
        &mut self,
        rt: &R,
        mut text: Vec<u8>,
    ) -> Result<()> {
        other_length(&mut text, self.length)?;
        let folder = self.folder;
        self.all
            .replace(rt, text.as_slice())
            .context(format_args!("writing the games of {folder}"))?;
        self.length = text.len();
        Ok(())
    }

    /// Puts a text in the place of a game's file, at once, where the one before was so long; and tells how long it is.
    pub fn put<R: Files + AllocGlobal>(
        &self,
        rt: &R,
        game: u32,
        mut text: Vec<u8>,
        before: usize,
    ) -> Result<usize> {
        other_length(&mut text, before)?;
        let folder = self.folder;
        let path = format!(in rt.alloc(); "{folder}/{game}{ENDING}")?;
        replace(rt, path.as_str(), text.as_slice()).context(format_args!("writing {path}"))?;
        Ok(text.len())
    }

    // Takes a file away, where it is that of a game which is none of these.
    fn take_off<R: Files>(&self, rt: &R, entry: &DirEntry<R>, games: &[u32]) -> Result<()> {
        match game_named(entry.file_name()) {
            Some(game) if !games.contains(&game) => Ok(fs::remove_file(rt, entry.path())?),
            _ => Ok(()),
        }
    }

    /// Takes the files of all other games away, as those of an evening before.
    pub fn keep_only<R: Files + AllocGlobal + Clone + Drop>(
        &self,
        rt: &R,
        games: &[u32],
    ) -> Result<()> {
        let folder = self.folder;
        let entries = fs::read_dir(rt, folder).context(format_args!(
            "reading the folder {folder}"
        ))?;
        for entry in entries {
            let entry = entry.context(format_args!("reading the folder {folder}"))?;
            self.take_off(rt, &entry, games)
                .context(format_args!("taking files of {folder} away"))?;
        }
        Ok(())
    }
}
