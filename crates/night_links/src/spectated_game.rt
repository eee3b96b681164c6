//! A game as spectators are told it, and the text of its file.
ghost use Rattle.std.specs.Prelude.{◌≡◌, ◌↔◌, [], IfOk, IfSome, IsTrue};
ghost use Rattle.std.specs.String.{string_bytes};
ghost use Rattle.server_answers.specs.Values.{ending_article};
ghost use Rattle.text_pgn.specs.Spectators.{is_stopped};
ghost use Rattle.night_links.specs.Told as spec;

use crate::table::ToldGame;
use anyhow::{Result, bail};
use server_answers::{Ending, Offers, Shown, result_text, seat_text, shown_of};
use std::alloc::{AllocError, Global};
use text_parts::parts;
use text_pgn::{
    Notices, PlayedGame, Spectated, Stand, game_json, replayed, running_side, value_of,
};

/// A game as it is to be told now.
#[derive(Clone, Copy)]
pub struct GameNow<'a> {
    pub game: u32,
    /// The PGN whose moves are told.
    pub moves: &'a str,
    /// The one whose tags are told.
    pub tags: &'a str,
    /// What the server told of it, and the clocks after its moves, in milliseconds, as far as they are known; none
    /// where it has left the table.
    pub told: Option<(&'a ToldGame, &'a [Option<u64>])>,
    pub notices: Notices<'a>,
    /// The moment, in milliseconds since 1970.
    pub at: u64,
}

/// What the tags tell.
#[derive(Drop)]
pub struct ToldTags {
    text: String,
    times: String,
    white_name: String,
    black_name: String,
}

/// How a game stands.
#[derive(Drop)]
pub struct Standing {
    // The server's answer to `show`, and when that came; empty where it was told of no game.
    shown: String,
    at: u64,
    white: String,
    black: String,
    result: String,
    article: String,
    clocks: Vec<Option<u64>>,
}

/// What an arbiter has everybody told.
#[derive(Drop)]
pub struct Said {
    stopped: String,
    announced: String,
}

/// A game as it is told.
#[derive(Drop)]
pub struct SpectatedGame {
    pub game: u32,
    tags: ToldTags,
    standing: Standing,
    said: Said,
    /// The replay of its moves.
    pub played: PlayedGame,
}

// How a game stands that is over and has left the table, so far as its PGN does not tell it.
const NO_OFFERS: Offers = Offers {
    white: false,
    black: false,
};

// How many moves were played: of the lines of the answer, that of the word and the row of the start stand in front.
fn plies_of(alloc: Global, played: &PlayedGame) -> Result<usize, AllocError>
    ensures { IfOk result (λ plies. plies ≡ spec.plies_in (string_bytes played.now.answer)) }
{
    let lines = parts(alloc, played.answer.as_str(), '\n')?;
    Ok(lines.len().saturating_sub(2))
}

// The value of a tag of a PGN; `-` where it has none.
fn tag_of(alloc: Global, pgn: &str, tag: &str) -> Result<String, AllocError> {
    match value_of(alloc, pgn, tag)? {
        Some(value) => Ok(value),
        None => String::from_str(alloc, "-"),
    }
}

// The article by which a game ended; `-` while it goes on.
fn article_text(ending: Option<Ending>) -> &'static str
    ensures { result.now ≡ ending_article ending }
{
    match ending {
        Some(ending) => ending.article.as_str(),
        None => "-",
    }
}

impl Said {
    /// Nothing is told.
    pub fn nothing(alloc: Global) -> Said
        ensures stopped { string_bytes result.stopped ≡ [] }
        ensures announced { string_bytes result.announced ≡ [] }
    {
        Said {
            stopped: String::new(alloc),
            announced: String::new(alloc),
        }
    }

    /// These are told.
    pub fn of(alloc: Global, notices: &Notices<'_>) -> Result<Said, AllocError>
        ensures { IfOk result (λ said. spec.IsSaid notices.now said) }
    {
        Ok(Said {
            stopped: String::from_str(alloc, notices.stopped)?,
            announced: String::from_str(alloc, notices.announced)?,
        })
    }

    /// What is told.
    pub fn notices(&self) -> Notices<'_>
        ensures { spec.IsSaid result self.now }
    {
        Notices {
            stopped: self.stopped.as_str(),
            announced: self.announced.as_str(),
        }
    }

    // Whether all clocks are stopped.
    fn is_stopped(&self) -> bool
        ensures { result ≡ is_stopped (string_bytes self.now.stopped) }
    {
        !self.stopped.is_empty()
    }

    /// Whether just these are told.
    pub fn is_told(&self, notices: &Notices<'_>) -> bool {
        self.stopped.as_str() == notices.stopped && self.announced.as_str() == notices.announced
    }
}

// What the tags of a game tell.
fn told_tags(alloc: Global, now: &GameNow<'_>) -> Result<ToldTags, AllocError>
    ensures { IfOk result (λ tags. string_bytes tags.text ≡ now.now.tags.now) }
{
    Ok(ToldTags {
        text: String::from_str(alloc, now.tags)?,
        times: tag_of(alloc, now.moves, "TimeControl")?,
        white_name: tag_of(alloc, now.tags, "White")?,
        black_name: tag_of(alloc, now.tags, "Black")?,
    })
}

// How a game of these players stands as its PGN alone tells it.
fn standing_by_pgn(
    alloc: Global,
    now: &GameNow<'_>,
    white: &str,
    black: &str,
) -> Result<Standing, AllocError> {
    Ok(Standing {
        shown: String::new(alloc),
        at: now.at,
        white: String::from_str(alloc, white)?,
        black: String::from_str(alloc, black)?,
        result: tag_of(alloc, now.moves, "Result")?,
        article: tag_of(alloc, now.moves, "Article")?,
        clocks: Vec::new(alloc),
    })
}

// How a game stood that the server told so at a moment by this text.
fn standing_shown(
    alloc: Global,
    text: &str,
    shown: &Shown,
    at: u64,
    clocks: &[Option<u64>],
) -> Result<Standing, AllocError>
    ensures { IfOk result (spec.IsStanding text.now shown.now at clocks.now) }
{
    Ok(Standing {
        shown: String::from_str(alloc, text)?,
        at,
        white: String::from_str(alloc, seat_text(&shown.seats.white))?,
        black: String::from_str(alloc, seat_text(&shown.seats.black))?,
        result: String::from_str(alloc, result_text(shown.ending))?,
        article: String::from_str(alloc, article_text(shown.ending))?,
        clocks: Vec::from_slice(alloc, clocks)?,
    })
}

// The same; by its PGN where the text is no answer to `show`.
fn standing_told(
    alloc: Global,
    now: &GameNow<'_>,
    text: &str,
    at: u64,
    clocks: &[Option<u64>],
) -> Result<Standing, AllocError>
    ensures { IfOk result (λ standing. spec.StandsBy text.now at clocks.now standing) }
{
    match shown_of(text) {
        Some(shown) => standing_shown(alloc, text, &shown, at, clocks),
        None => standing_by_pgn(alloc, now, "-", "-"),
    }
}

// How a game stands that has left the table: as it was told last where it was over then, else by its PGN.
fn standing_left(
    alloc: Global,
    now: &GameNow<'_>,
    last: &Standing,
) -> Result<Standing, AllocError> {
    let text = last.shown.as_str();
    match shown_of(text) {
        Some(shown) if shown.ending.is_some() => {
            standing_shown(alloc, text, &shown, last.at, last.clocks.as_slice())
        }
        _ => standing_by_pgn(alloc, now, last.white.as_str(), last.black.as_str()),
    }
}

// How a game stands: as the server told it; and where it has left the table as it was told last, or by its PGN.
fn standing_of(
    alloc: Global,
    now: &GameNow<'_>,
    last: Option<&SpectatedGame>,
) -> Result<Standing, AllocError>
    ensures { IfOk result (λ standing. spec.StandsAsTold now.now standing) }
{
    if let Some((told, clocks)) = now.told {
        return standing_told(alloc, now, told.shown.as_str(), told.at, clocks);
    }
    match last {
        Some(last) => standing_left(alloc, now, &last.standing),
        None => standing_by_pgn(alloc, now, "-", "-"),
    }
}

/// A game as it is to be told, where it was told so last; none where it stands elsewhere than its moves lead, since one
/// was made between the two answers. It fails where its PGN tells no game.
pub fn spectated_now(
    alloc: Global,
    now: &GameNow<'_>,
    last: Option<&SpectatedGame>,
) -> Result<Option<SpectatedGame>>
    ensures { IfOk result (λ told. IfSome told (λ game. spec.IsToldNow now.now game)) }
{
    let Some(played) = replayed(alloc, now.game, now.moves)? else {
        bail!("its PGN tells no game");
    };
    let tags = told_tags(alloc, now)?;
    let standing = standing_of(alloc, now, last)?;
    let said = Said::of(alloc, &now.notices)?;
    let game = SpectatedGame {
        game: now.game,
        tags,
        standing,
        said,
        played,
    };
    Ok(if game.is_whole(alloc)? {
        Some(game)
    } else {
        None
    })
}

impl SpectatedGame {
    // Whether it stands where its moves lead.
    fn is_whole(&self, alloc: Global) -> Result<bool, AllocError>
        ensures { IfOk result (λ is_whole. IsTrue is_whole ↔ spec.StandsBehind self.now) }
    {
        let plies = plies_of(alloc, &self.played)?;
        Ok(match shown_of(self.standing.shown.as_str()) {
            Some(shown) => shown.ply as usize == plies,
            None => true,
        })
    }

    // How it stands.
    fn stand(&self) -> Stand<'_>
        ensures { spec.IsStand self.now result }
    {
        let standing = &self.standing;
        let (result, article) = (standing.result.as_str(), standing.article.as_str());
        match shown_of(standing.shown.as_str()) {
            Some(shown) => Stand {
                at: standing.at,
                running: running_side(shown.ending, self.said.is_stopped(), shown.side),
                clocks: Some(shown.clocks),
                offers: shown.offers,
                result,
                article,
            },
            None => Stand {
                at: standing.at,
                running: None,
                clocks: None,
                offers: NO_OFFERS,
                result,
                article,
            },
        }
    }

    /// What is told of it besides its moves.
    pub fn spectated(&self) -> Spectated<'_>
        ensures { spec.IsSpectated self.now result }
    {
        Spectated {
            game: self.game,
            notices: self.said.notices(),
            white: self.standing.white.as_str(),
            black: self.standing.black.as_str(),
            white_name: self.tags.white_name.as_str(),
            black_name: self.tags.black_name.as_str(),
            tags: self.tags.text.as_str(),
            times: self.tags.times.as_str(),
            stand: self.stand(),
        }
    }

    /// The text of its file.
    pub fn text(&self, alloc: Global) -> Result<Vec<u8>, AllocError>
        ensures { IfOk result (λ text. spec.IsFileOf self.now text.items) }
    {
        game_json(
            alloc,
            &self.spectated(),
            &self.played,
            self.standing.clocks.as_slice(),
        )
    }

    /// Whether it was told just so.
    pub fn is_told(&self, now: &GameNow<'_>) -> bool {
        let is_shown = match now.told {
            Some((told, _)) => self.standing.at == told.at,
            None => true,
        };
        is_shown && self.said.is_told(&now.notices) && self.tags.text.as_str() == now.tags
    }
}
