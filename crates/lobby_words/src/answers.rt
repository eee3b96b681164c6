//! What the answers of the server say, by `server_answers`, which reads them.
ghost use Rattle.std.specs.Prelude.{◌≡◌};
ghost use Rattle.lobby_words.specs.Answers as spec;

use crate::words::{cut_word, line_said, number_named};
use player_name::Name;
use server_answers::{Refusal, Seats, Shown, entered_of, refusal_of, shown_of};
use text_parts::before;

/// What stands before the first line feed of an answer.
pub fn first_line(answer: &str) -> &str
    ensures { result.now ≡ spec.first_line answer.now }
{
    before(answer, '\n')
}

/// The game in which an act was done, as its answer tells.
pub fn game_told(answer: &str) -> Option<u32>
    ensures { result ≡ spec.act_game answer.now }
{
    entered_of(first_line(answer)).map(|entered| entered.game)
}

/// Whether an act was entered, as its answer tells.
pub fn is_entered(answer: &str) -> bool
    ensures { result ≡ spec.is_entered answer.now }
{
    entered_of(first_line(answer)).is_some()
}

/// Whether the game is over with the act, as its answer tells.
pub fn tells_end(answer: &str) -> bool
    ensures { result ≡ spec.tells_end answer.now }
{
    entered_of(first_line(answer)).is_some_and(|entered| entered.done.ending().is_some())
}

/// Whether those who are told of the table are told of an act, whatever comes of it.
pub fn is_table_act(text: &str) -> bool
    ensures { result ≡ spec.is_table_act text.now }
{
    let (word, _) = cut_word(line_said(text));
    matches!(word, "open" | "join" | "drop" | "pair")
}

/// Whether an answer tells how a game stands.
pub fn is_shown(answer: &str) -> bool
    ensures { result ≡ spec.is_shown answer.now }
{
    shown_of(first_line(answer)).is_some()
}

// Whether a game is shown that has ended.
fn has_ended(shown: Option<Shown>) -> bool
    ensures { result ≡ spec.has_ended shown }
{
    shown.as_ref().is_some_and(|shown| shown.ending.is_some())
}

/// Whether a game goes on no more, as the answer to `show` says: it has ended, or there is no such game. Another
/// refusal says nothing of it.
pub fn is_over(answer: &str) -> bool
    ensures { result ≡ spec.is_over answer.now }
{
    let line = first_line(answer);
    has_ended(shown_of(line)) || matches!(refusal_of(line), Some(Refusal::NoGame))
}

// Who has one of two seats, where the other is empty.
fn alone(seats: &Seats) -> Option<Name>
    ensures { result ≡ spec.alone seats.now.white seats.now.black }
{
    seats.white.xor(seats.black)
}

// Who waits in a game that is shown, if it has this number.
fn alone_in(shown: &Shown, game: Option<u32>) -> Option<Name>
    ensures { result ≡ spec.alone_in shown.now game }
{
    if game? == shown.game {
        alone(&shown.seats)
    } else {
        None
    }
}

/// The player who waits for a second one in the game of this number, as the answer to `show` tells.
pub fn lone_player(answer: &str, number: &str) -> Option<Name>
    ensures { result ≡ spec.lone_player answer.now number.now }
{
    shown_of(first_line(answer))
        .as_ref()
        .and_then(|shown| alone_in(shown, number_named(number)))
}
