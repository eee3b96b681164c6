//! The word that tells what the log has of a game.
use crate::asked::AskedEvidence;
use crate::besides::Read;
use anyhow::Result;
use lobby_words::NameForm;
use night_games::{print_evidence, print_page};
use night_outcomes::players_in;
use std::rt::Files;

/// Prints what the log has of a game: lines, or a page to print, which tells of players and board too. It fails where
/// the log has no such game, and where a file cannot be read or is none.
pub fn evidence<R>(rt: &R, asked: &AskedEvidence<'_>) -> Result<()>
where
    R: Files + AllocGlobal + Print + Eprint,
{
    if !asked.as_page {
        return print_evidence(rt, &asked.evidence);
    }
    let players = players_in(rt, asked.players)?;
    let read = Read::now(rt, NameForm::Full, &asked.besides)?;
    let known = read.known(rt.alloc())?;
    let telling = read.telling(players.as_slice(), known.as_slice());
    print_page(rt, &asked.evidence, &telling)
}
