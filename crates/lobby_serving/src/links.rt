//! Players' links, changed in the players' file, players who are added there, whether entries are paused, kept beside
//! it, why clocks are stopped, and what arbiters decide.
ghost use Rattle.std.specs.Prelude.{ℕ, false, List, [], ◌≡◌, IfOk, IfSome};
ghost use Rattle.std.specs.String.{string_bytes};
ghost use Rattle.hex.specs.Hex.{encode_lower};
ghost use Rattle.lobby_words.specs.Players.{IsCarriedOut};
ghost use Rattle.lobby_serving.specs.ByHand.{kept_reason, FoundByHand};

use crate::asked::Serving;
use anyhow::Result;
use lobby_desk::{Halts, Order};
use lobby_loop::KeepsLinks;
use lobby_players::{ChangedFile, Hold, PauseFile, StopFile, carried_out, new_token};
use lobby_words::{Change, Linked, Player, cut_word, player_by_name};
use rand::rngs::SysRng;
use rand_core::TryRng;
use std::alloc::AllocError;
use std::fs::File;
use std::io::{self, ErrorKind};
use std::random::RandomSource;
use std::rt::Files;

/// Keeps what arbiters decide of the boards of rounds.
pub trait KeepsDecisions {
    /// Puts a decision, `ROUND BOARD RESULT ARTICLE REASON`, of an arbiter of this full name to those of its round. It
    /// fails, and they are as they were, where there is no such board, or it cannot be written. At `Ok` it is on the
    /// disk.
    fn put(&mut self, arbiter: &str, decision: &str) -> Result<()>;
}

/// The links of a players' file, what is kept of what an arbiter halts, and who keeps what arbiters decide.
#[derive(Drop)]
pub struct FileLinks<'a, R, D> {
    rt: &'a R,
    file: &'a str,
    entries: PauseFile<'a, R>,
    clocks: Option<StopFile<'a, R>>,
    decisions: D,
}

impl<'a, R, D> FileLinks<'a, R, D>
where
    R: Files<File = File> + AllocGlobal + RandomSource + Eprint,
    D: KeepsDecisions + Drop,
{
    /// Those of the players' file that is served, with what was halted when it was served last.
    pub fn open(rt: &'a R, serving: &Serving<'a>, decisions: D) -> Result<Self> {
        Ok(FileLinks {
            rt,
            file: serving.players,
            entries: PauseFile::new(rt, serving.players)?,
            clocks: match serving.stopped {
                Some(file) => Some(StopFile::new(rt, file)?),
                None => None,
            },
            decisions,
        })
    }

    /// What is halted. Nothing is announced yet.
    pub fn halts(&self) -> Result<Halts>
        ensures paused { IfOk result (λ halts. halts.is_paused ≡ self.now.entries.is_paused) }
        ensures announced { IfOk result (λ halts. string_bytes halts.announced ≡ []) }
        ensures room { IfOk result (λ halts. halts.is_full ≡ false) }
    {
        let reason = self.clocks.as_ref().map_or("", |clocks| clocks.reason());
        Ok(Halts {
            is_paused: self.entries.is_paused(),
            can_stop: self.clocks.is_some(),
            reason: String::from_str(self.rt.alloc(), reason)?,
            announced: String::new(self.rt.alloc()),
            is_full: false,
        })
    }

    /// Looks whether somebody else has stopped all clocks or has them run: then why they are, empty where they run.
    pub fn stopped_by_hand(&mut self) -> Result<Option<String>, AllocError>
        ensures found { IfOk result (λ found.
            FoundByHand (kept_reason self.old.clocks) found (kept_reason self.new.clocks)) }
        ensures others { self.new ≡ record self.old { clocks = self.new.clocks } }
    {
        match &mut self.clocks {
            Some(clocks) => clocks.look(),
            None => Ok(None),
        }
    }

    // One of these players, who are those of the file, which is held, or one more has the sum of a new token in it:
    // that of bytes which the source gave.
    fn put<G: TryRng>(
        &self,
        source: &mut G,
        order: &Order,
        full_name: &str,
        players: &[Player],
    ) -> Result<ChangedFile>
        ensures carried { IfOk result (λ new. IsCarriedOut order.now full_name.now
            (string_bytes new.linked.token) players.now new.linked.players.items) }
        ensures given { IfOk result (λ new.
            (bytes : List ℕ) × G.may_fill source.old bytes source.new
            × (string_bytes new.linked.token ≡ encode_lower bytes)) }
    {
        let text = lobby_players::read_file(self.rt, self.file)?;
        let token = new_token(source)?;
        let new = carried_out(
            self.rt.alloc(),
            players,
            text.as_slice(),
            order,
            full_name,
            &token,
        )?;
        lobby_players::put_file(self.rt, self.rt.alloc(), self.file, new.text.as_str())?;
        Ok(new)
    }

    // One of these players, or one more, has the sum of a new token in the file, where nobody else holds that. Where
    // the link is closed nobody is told the token.
    fn changed<G: TryRng>(
        &mut self,
        source: &mut G,
        order: &Order,
        full_name: &str,
        players: &[Player],
    ) -> Result<Linked>
        ensures carried { IfOk result (λ linked. IsCarriedOut order.now full_name.now
            (string_bytes linked.token) players.now linked.players.items) }
        ensures given { IfOk result (λ linked.
            (bytes : List ℕ) × G.may_fill source.old bytes source.new
            × (string_bytes linked.token ≡ encode_lower bytes)) }
    {
        let _hold = Hold::at_once(self.rt, self.file)?;
        let new = self.put(source, order, full_name, players)?;
        Ok(new.linked)
    }
}

impl<R, D> KeepsLinks for FileLinks<'_, R, D>
where
    R: Files<File = File> + AllocGlobal + RandomSource + Eprint,
    D: KeepsDecisions + Drop,
{
    fn change(&mut self, order: &Order, full_name: &str, players: &[Player]) -> Option<Linked> {
        let mut source = SysRng::new(self.rt);
        match self.changed(&mut source, order, full_name, players) {
            Ok(linked) => Some(linked),
            Err(error) => {
                let name = order.name.as_str();
                let _ = match order.change {
                    Change::NewPlayer => eprintln!(self.rt; "{name} is not added: {error:#}"),
                    _ => eprintln!(self.rt; "the link of {name} is as it was: {error:#}"),
                };
                None
            }
        }
    }

    fn decide(&mut self, arbiter: &str, text: &str, players: &[Player]) -> bool {
        let (_, decision) = cut_word(text);
        let full_name = player_by_name(players, arbiter).map_or("", |who| who.full_name.as_str());
        if let Err(error) = self.decisions.put(full_name, decision) {
            let _ = eprintln!(self.rt; "what {arbiter} decides is not put down: {error:#}");
            return false;
        }
        true
    }

    fn keep(&mut self, halts: &Halts) -> io::Result<()> {
        self.entries.keep(halts.is_paused);
        let Some(clocks) = &mut self.clocks else {
            return Ok(());
        };
        if let Err(error) = clocks.keep(halts.reason.as_str()) {
            let _ = eprintln!(self.rt; "whether all clocks are stopped is not kept: {error:#}");
            return Err(io::Error::from(ErrorKind::Other));
        }
        Ok(())
    }
}
