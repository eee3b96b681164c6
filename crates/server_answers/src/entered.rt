//! The acts that were entered.
ghost use Rattle.std.specs.Prelude.{◌≡◌, [], ◌∷◌, Some, None, if◌then◌else◌};
ghost use Rattle.std.specs.Option.{option_map};
ghost use Rattle.server_answers.specs.Fields.{field};
ghost use Rattle.server_answers.specs.Values.{u32_in, told, end_in};
ghost use Rattle.server_answers.specs.Entered as spec;

use crate::fields::{cut_field, has_fields};
use crate::values::{Ending, Side, end_of};
use text_parts::number_of_32_bits;

/// A move that was made, as an answer tells it: `N SAN`, and the result and the article where the game is over with it.
#[derive(Clone, Copy)]
pub struct Made<'a> {
    /// How many moves were made with it.
    pub ply: u32,
    /// Its SAN: one field, which is not empty.
    pub san: &'a str,
    /// None while the game goes on.
    pub ending: Option<Ending>,
}

/// What was done in a game.
#[derive(Clone, Copy)]
pub enum Done<'a> {
    /// It was opened.
    Opened,
    /// It was joined: the seat that was empty.
    Joined(Side),
    Moved(Made<'a>),
    /// A draw was offered.
    Offered,
    /// The offer was accepted.
    Accepted(Ending),
    /// The offer was declined.
    Declined,
    Resigned(Ending),
    /// A draw was claimed, correctly.
    Claimed(Ending),
    /// A draw was claimed wrongly, and the move that the claim states was made, where it states one.
    ClaimedWrongly(Option<Made<'a>>),
    /// The flag of the side to move has fallen, in place of the act or by it.
    Fallen(Ending),
    /// It was taken off the table.
    Dropped,
}

impl Done<'_> {
    /// How the game ended with it, if it did.
    pub fn ending(&self) -> Option<Ending>
        ensures { result ≡ spec.end_of (spec.done_of self.now) }
    {
        match self {
            Done::Moved(made) | Done::ClaimedWrongly(Some(made)) => made.ending,
            Done::Accepted(ending)
            | Done::Resigned(ending)
            | Done::Claimed(ending)
            | Done::Fallen(ending) => Some(*ending),
            Done::Opened
            | Done::Joined(_)
            | Done::Offered
            | Done::Declined
            | Done::ClaimedWrongly(None)
            | Done::Dropped => None,
        }
    }
}

/// An act that was entered.
#[derive(Clone, Copy)]
pub struct Entered<'a> {
    pub game: u32,
    pub done: Done<'a>,
}

// What was done, by a word alone.
fn done_by_word<'a>(word: &str) -> Option<Done<'a>>
    ensures { option_map spec.done_of result ≡ spec.done_by_word word.now }
{
    match word {
        "open" => Some(Done::Opened),
        "offer" => Some(Done::Offered),
        "decline" => Some(Done::Declined),
        "drop" => Some(Done::Dropped),
        _ => None,
    }
}

// The side of a seat's word.
fn seat_side(word: &str) -> Option<Side>
    ensures { result ≡ spec.seat_side word.now }
{
    match word {
        "white" => Some(Side::White),
        "black" => Some(Side::Black),
        _ => None,
    }
}

// What was done, by a word and the one behind the game.
fn done_with_word<'a>(word: &str, last: &str) -> Option<Done<'a>>
    ensures { option_map spec.done_of result ≡ spec.done_with_word word.now last.now }
{
    if word == "join" {
        return match seat_side(last) {
            Some(side) => Some(Done::Joined(side)),
            None => None,
        };
    }
    let is_claim = word == "claim";
    let is_wrong = last == "wrong";
    if is_claim & is_wrong {
        Some(Done::ClaimedWrongly(None))
    } else {
        None
    }
}

// A move that was made; the ending is told, if there is one.
fn made_of<'a>(ply: &str, san: &'a str, ending: Option<Option<Ending>>) -> Option<Made<'a>>
    ensures { option_map spec.made_of result ≡ spec.made_with ply.now san.entry.now ending }
{
    let ply = number_of_32_bits(ply)?;
    let ending = ending?;
    if san.is_empty() {
        return None;
    }
    Some(Made { ply, san, ending })
}

// An ending that is told.
fn told_end(score: &str, article: &str) -> Option<Option<Ending>>
    ensures { result ≡ told (end_in score.now article.now) }
{
    match end_of(score, article) {
        Some(ending) => Some(Some(ending)),
        None => None,
    }
}

// What was done that ended the game.
fn done_at_end<'a>(word: &str, ending: Option<Ending>) -> Option<Done<'a>>
    ensures { option_map spec.done_of result ≡ spec.done_at_end word.now ending }
{
    let ending = ending?;
    match word {
        "accept" => Some(Done::Accepted(ending)),
        "resign" => Some(Done::Resigned(ending)),
        "claim" => Some(Done::Claimed(ending)),
        _ => None,
    }
}

// A move.
fn moved<'a>(made: Option<Made<'a>>) -> Option<Done<'a>>
    ensures { option_map spec.done_of result ≡ spec.moved (option_map spec.made_of made.entry) }
{
    match made {
        Some(made) => Some(Done::Moved(made)),
        None => None,
    }
}

// A wrong claim that states a move.
fn claimed_wrongly<'a>(made: Option<Made<'a>>) -> Option<Done<'a>>
    ensures { option_map spec.done_of result ≡ spec.claimed_wrongly (option_map spec.made_of made.entry) }
{
    match made {
        Some(made) => Some(Done::ClaimedWrongly(Some(made))),
        None => None,
    }
}

// A flag that has fallen.
fn fallen<'a>(ending: Option<Ending>) -> Option<Done<'a>>
    ensures { option_map spec.done_of result ≡ spec.fallen ending }
{
    match ending {
        Some(ending) => Some(Done::Fallen(ending)),
        None => None,
    }
}

// A move, or an act that ends the game.
fn move_or_end<'a>(word: &str, behind: &'a str) -> Option<Done<'a>>
    ensures { option_map spec.done_of result ≡
        spec.move_or_end word.now (field 0 behind.entry.now) (field 1 behind.entry.now) }
{
    let (first, rest) = cut_field(behind);
    let (second, _) = cut_field(rest);
    if word == "move" {
        moved(made_of(first, second, Some(None)))
    } else {
        done_at_end(word, end_of(first, second))
    }
}

// A move, where the word says so.
fn if_move<'a>(word: &str, made: Option<Made<'a>>) -> Option<Done<'a>>
    ensures { option_map spec.done_of result ≡ spec.if_move word.now (option_map spec.made_of made.entry) }
{
    if word == "move" { moved(made) } else { None }
}

// A wrong claim that states a move, where the words say so.
fn if_wrong<'a>(word: &str, wrong: &str, made: Option<Made<'a>>) -> Option<Done<'a>>
    ensures { option_map spec.done_of result ≡ spec.if_wrong word.now wrong.now (option_map spec.made_of made.entry) }
{
    let is_claim = word == "claim";
    let is_wrong = wrong == "wrong";
    if is_claim & is_wrong {
        claimed_wrongly(made)
    } else {
        None
    }
}

// A move that was made, of two fields or with END.
fn made_in<'a>(line: &'a str, is_over: bool) -> Option<Made<'a>>
    ensures { option_map spec.made_of result ≡ spec.made_with (field 0 line.entry.now) (field 1 line.entry.now)
        (if is_over then told (end_in (field 2 line.entry.now) (field 3 line.entry.now)) else Some None) }
{
    let (ply, rest) = cut_field(line);
    let (san, rest) = cut_field(rest);
    let (score, rest) = cut_field(rest);
    let (article, _) = cut_field(rest);
    let ending = if is_over {
        told_end(score, article)
    } else {
        Some(None)
    };
    made_of(ply, san, ending)
}

// An act in a game, where what was done is known.
fn entered_with<'a>(game: &str, done: Option<Done<'a>>) -> Option<Entered<'a>>
    ensures { option_map spec.entered_of result ≡
        spec.entered_with (u32_in game.now) (option_map spec.done_of done.entry) }
{
    let game = number_of_32_bits(game)?;
    let done = done?;
    Some(Entered { game, done })
}

// The same, where the line begins with `ok`.
fn if_ok<'a>(first: &str, game: &str, done: Option<Done<'a>>) -> Option<Entered<'a>>
    ensures { option_map spec.entered_of result ≡ spec.if_ok first.now game.now (option_map spec.done_of done.entry) }
{
    if first == "ok" {
        entered_with(game, done)
    } else {
        None
    }
}

// An act whose line has four fields, and this one last.
fn entered_by_4<'a>(first: &str, word: &str, game: &str, last: &str) -> Option<Entered<'a>>
    ensures { option_map spec.entered_of result ≡ spec.by_4 (first.now ∷ word.now ∷ game.now ∷ last.now ∷ []) }
{
    if first == "fallen" {
        entered_with(word, fallen(end_of(game, last)))
    } else {
        if_ok(first, game, done_with_word(word, last))
    }
}

/// The act that was entered, as its answer tells it, given without its line feed: `ok WORD G` and more, or `fallen G`
/// and END. `None` exactly where it has another form.
#[tactic(auto, unfolding(crate::specs::Entered::entered_in))]
pub fn entered_of<'a>(line: &'a str) -> Option<Entered<'a>>
    ensures { option_map spec.entered_of result ≡ spec.entered_in line.entry.now }
{
    let (first, rest) = cut_field(line);
    let (word, rest) = cut_field(rest);
    let (game, behind) = cut_field(rest);
    let (third, rest) = cut_field(behind);
    if has_fields(line, 3) {
        if_ok(first, game, done_by_word(word))
    } else if has_fields(line, 4) {
        entered_by_4(first, word, game, third)
    } else if has_fields(line, 5) {
        if_ok(first, game, move_or_end(word, behind))
    } else if has_fields(line, 6) {
        if_ok(first, game, if_wrong(word, third, made_in(rest, false)))
    } else if has_fields(line, 7) {
        if_ok(first, game, if_move(word, made_in(behind, true)))
    } else if has_fields(line, 8) {
        if_ok(first, game, if_wrong(word, third, made_in(rest, true)))
    } else {
        None
    }
}
