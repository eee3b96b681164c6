//! The word that writes the games of an archive.
use crate::asked::{Exporting, Form};
use crate::besides::Read;
use anyhow::Result;
use lobby_words::NameForm;
use night_archive::{games_kept, lines_told, write_games, write_rows};
use night_outcomes::players_in;
use std::io;
use std::rt::Files;

/// Writes the games of an archive: the PGN of each, or a row for each, with what is told of players and boards. It
/// fails where the file is no archive, as `lines_told` does, where another file cannot be read or is none, where memory
/// is refused, or the output takes no more.
pub fn export<R>(rt: &R, exporting: &Exporting<'_>) -> Result<()>
where
    R: Files + AllocGlobal + Print + Eprint,
{
    let text = lines_told(rt, exporting.archive)?;
    let games = games_kept(rt.alloc(), text.as_str())?;
    let players = players_in(rt, exporting.players)?;
    let read = Read::now(rt, NameForm::Full, &exporting.besides)?;
    let known = read.known(rt.alloc())?;
    let telling = read.telling(players.as_slice(), known.as_slice());
    let told = telling.games(rt.alloc(), games)?;
    let mut output = io::writer(rt);
    match exporting.form {
        Form::Pgn => write_games(rt.alloc(), &mut output, told.as_slice()),
        Form::Csv => write_rows(rt.alloc(), &mut output, told.as_slice()),
    }
}
