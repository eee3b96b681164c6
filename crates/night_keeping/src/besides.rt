//! What is told of games besides their PGNs is read.
use crate::asked::Besides;
use crate::board_games::games_of_rounds;
use anyhow::Result;
use lobby_words::{NameForm, Player};
use night_games::{BoardGame, Roster, Telling, roster_in};
use night_report::Particulars;
use std::alloc::{AllocError, Global};
use std::rt::Files;

/// What the files have.
#[derive(Drop)]
pub struct Read {
    form: NameForm,
    roster: Roster,
    games: Vec<BoardGame>,
}

impl Read {
    /// Reads the files as they are now, where full names are told in a form.
    pub fn now<R: Files + AllocGlobal + Eprint>(
        rt: &R,
        form: NameForm,
        besides: &Besides<'_>,
    ) -> Result<Read> {
        Ok(Read {
            form,
            roster: roster_in(rt, besides.particulars)?,
            games: games_of_rounds(rt, form, besides.rounds.as_slice())?,
        })
    }

    /// What is known of players, where their full names are told; nothing where they are not, since by a title, a
    /// rating or a number everybody would know who it is.
    pub fn known(&self, alloc: Global) -> Result<Vec<Particulars<'_>>, AllocError> {
        if self.form == NameForm::Full {
            self.roster.particulars(alloc)
        } else {
            Ok(Vec::new(alloc))
        }
    }

    /// What is told.
    pub fn telling<'a>(
        &'a self,
        players: &'a [Player],
        known: &'a [Particulars<'a>],
    ) -> Telling<'a> {
        Telling {
            players,
            known,
            games: self.games.as_slice(),
        }
    }
}
