//! The games of an archive, for everybody to look up.
use crate::initials::push_with;
use anyhow::Result;
use lobby_words::NameForm;
use night_archive::{Kept, games_kept, lines_of};
use night_games::Telling;
use night_links::{FileState, WrittenFile};
use std::alloc::Global;
use std::fs::File;
use std::rt::Files;
use text_pgn::with_tag;

/// The tag that has a game's number.
const NUMBER: &str = "GameId";

// The PGNs of games, in the order opposite to theirs: each with its number as a tag, and the full names of its players
// in a form.
fn text_of(
    alloc: Global,
    form: NameForm,
    telling: &Telling<'_>,
    games: &[Kept],
) -> Result<Vec<u8>> {
    let mut text = Vec::new(alloc);
    for kept in games.iter().rev() {
        let pgn = with_tag(alloc, kept.pgn.as_str(), NUMBER, kept.game)?;
        push_with(&mut text, alloc, form, telling, kept.game, pgn.as_bytes())?;
    }
    Ok(text)
}

/// A file of all games of an archive, the one that was kept last first.
#[derive(Drop)]
pub struct KeptFile<'a> {
    file: WrittenFile<'a>,
    archive: &'a str,
    // How the archive stood whose games the file has; none where that is not known.
    state: Option<FileState>,
}

impl<'a> KeptFile<'a> {
    /// Opens the file, or makes it. It fails where another writes it.
    pub fn open<R: Files<File = File> + AllocGlobal>(
        rt: &R,
        file: &'a str,
        archive: &'a str,
    ) -> Result<Self> {
        Ok(KeptFile {
            file: WrittenFile::open(rt, file)?,
            archive,
            state: None,
        })
    }

    // What the file is to have. (An archive that is not there yet has no games.)
    fn text<R: Files + AllocGlobal>(
        &self,
        rt: &R,
        form: NameForm,
        telling: &Telling<'_>,
        state: FileState,
    ) -> Result<Vec<u8>> {
        if state.length == 0 {
            return Ok(Vec::new(rt.alloc()));
        }
        let lines = lines_of(rt, self.archive)?;
        let games = games_kept(rt.alloc(), lines.as_str())?;
        text_of(rt.alloc(), form, telling, games.as_slice())
    }

    /// Writes the file anew where the archive, which stands so now, is another than when that was done last.
    pub fn renew<R: Files<File = File> + AllocGlobal>(
        &mut self,
        rt: &R,
        form: NameForm,
        telling: &Telling<'_>,
        state: FileState,
    ) -> Result<()> {
        if self.state == Some(state) {
            return Ok(());
        }
        let text = self.text(rt, form, telling, state)?;
        self.file.put(rt, text)?;
        self.state = Some(state);
        Ok(())
    }
}
