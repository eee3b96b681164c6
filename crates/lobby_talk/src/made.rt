//! Messages as browsers get them: what the desk told, with what the positions say.
ghost use Rattle.std.specs.Prelude.{◌≡◌, ◌++◌, ◌∷◌, [], codes, OnOk};
ghost use Rattle.std.specs.List.{AllZip};
ghost use Rattle.std.specs.String.{string_bytes};
ghost use Rattle.lobby_words.specs.Words.{rest_of};
ghost use Rattle.lobby_talk.specs.Making.{IsWithMoves, IsOfMoves};
ghost use Rattle.lobby_talk.specs.Keeping.{IsMadeOf};
ghost use Rattle.lobby_desk.specs.declared.telling.Kind.TheVariants.{Line};
ghost use Rattle.lobby_talk.specs.Replays.{IsNumberIn};
ghost use Rattle.lobby_talk.specs.Making as making;

use crate::kept::KeptAnswers;
use lobby_desk::{Kind, Message};
use lobby_words::Refusal;
use std::alloc::{AllocError, Global};
use text_parts::{before, behind};
use text_pgn::moves_line;

// The last line of a text, without its line feed.
fn last_line(text: &str) -> &str
    ensures { result.now ≡ making.last_line text.now }
{
    match text.split_once('\n') {
        None => text,
        Some((front, rest)) => {
            if rest.is_empty() {
                front
            } else {
                last_line(rest)
            }
        }
    }
}

// What stands behind the first space.
fn rest_of(text: &str) -> &str
    ensures { result.now ≡ rest_of text.now }
{
    behind(text, ' ')
}

// The FEN of a text that ends with the answer to `fen`, `ok fen G FEN`.
fn fen_in(text: &str) -> &str
    ensures { result.now ≡ making.fen_in text.now }
{
    rest_of(rest_of(rest_of(last_line(text))))
}

// Puts a line behind a text.
fn push_line(text: &mut String, line: &str) -> Result<(), AllocError>
    ensures { OnOk result (string_bytes text.new ≡ string_bytes text.old ++ line.now ++ 10 ∷ []) }
{
    text.push_str(line)?;
    text.push('\n')
}

// Puts the line of the legal moves behind a text that ends with the answer to `fen`.
fn add_moves(alloc: Global, text: &mut String) -> Result<(), AllocError>
    ensures { OnOk result (IsWithMoves (string_bytes text.old) (string_bytes text.new)) }
{
    let line = moves_line(alloc, fen_in(text.as_str()))?;
    match line {
        None => Ok(()),
        Some(line) => push_line(text, line.as_str()),
    }
}

// A text takes the place of another.
fn put(alloc: Global, text: &mut String, new: &str) -> Result<(), AllocError>
    ensures { OnOk result (string_bytes text.new ≡ new.now) }
{
    *text = String::from_str(alloc, new)?;
    Ok(())
}

// The line of the legal moves, behind `ok`, takes its place.
fn put_moves(alloc: Global, text: &mut String, line: &str) -> Result<(), AllocError>
    ensures { OnOk result (string_bytes text.new ≡ codes "ok " ++ line.now ++ 10 ∷ []) }
{
    put(alloc, text, "ok ")?;
    push_line(text, line)
}

// The legal moves of the position that a message `moves FEN` names take its place; where it names none, that it has no
// form.
fn tell_moves(alloc: Global, text: &mut String) -> Result<(), AllocError>
    ensures { OnOk result (IsOfMoves (string_bytes text.old) (string_bytes text.new)) }
{
    let line = moves_line(alloc, rest_of(text.as_str()))?;
    match line {
        None => put(alloc, text, Refusal::BadLine.line()),
        Some(line) => put_moves(alloc, text, line.as_str()),
    }
}

// The number of the game in `ok pgn G K`; 0 where there is none.
pub(crate) fn game_in(text: &str) -> u32
    ensures { IsNumberIn text.now result }
{
    let word = before(rest_of(rest_of(text)), ' ');
    word.parse().unwrap_or(0)
}

// A message whose answer to `line G` was made before is whole by that; another is left as it is.
fn finish_line(alloc: Global, one: &mut Message, kept: &KeptAnswers) -> Result<(), AllocError>
    requires { one.old.kind ≡ Line }
    ensures { OnOk result (IsMadeOf kept.now.answers.items one.old one.new) }
{
    match kept.find(one.text.as_str()) {
        None => Ok(()),
        Some(answer) => {
            one.text = String::from_str(alloc, answer)?;
            one.kind = Kind::Whole;
            Ok(())
        }
    }
}

// A message, as it goes out, or as it waits for its answer.
fn finish(alloc: Global, one: &mut Message, kept: &KeptAnswers) -> Result<(), AllocError>
    ensures { OnOk result (IsMadeOf kept.now.answers.items one.old one.new) }
{
    match one.kind {
        Kind::Whole | Kind::Log => Ok(()),
        Kind::Position => add_moves(alloc, &mut one.text),
        Kind::Moves => tell_moves(alloc, &mut one.text),
        Kind::Line => finish_line(alloc, one, kept),
    }
}

/// Messages, as they go out or wait for their answers: each in its own place.
pub(crate) fn finish_all(
    alloc: Global,
    told: &mut Vec<Message>,
    kept: &KeptAnswers,
) -> Result<(), AllocError>
    ensures { OnOk result (AllZip (IsMadeOf kept.now.answers.items) told.old.items told.new.items) }
{
    for one in told.iter_mut() {
        finish(alloc, one, kept)?;
    }
    Ok(())
}
