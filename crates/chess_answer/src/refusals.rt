ghost use Rattle.std.specs.Prelude.{◌≡◌, ◌≤◌, length};
ghost use Rattle.chess_answer.specs.Refusals.{row_of, refusal_text};

use crate::fields::{AnswerLine, begun, push_field, push_number_field};
use chess_entry::Refusal;

// The number of a refusal.
fn number_of(refusal: Refusal) -> u64
    ensures { result ≡ (row_of refusal).number }
{
    match refusal {
        Refusal::BadLine => 1,
        Refusal::NoName => 2,
        Refusal::NoGame => 3,
        Refusal::NotSeated => 4,
        Refusal::NotStarted => 5,
        Refusal::Over => 6,
        Refusal::WrongPly(_) => 7,
        Refusal::NotYourMove => 8,
        Refusal::BadMove => 9,
        Refusal::OfferStands => 10,
        Refusal::NoOffer => 11,
        Refusal::TooEarly => 12,
        Refusal::AlreadyClaimed => 13,
        Refusal::FlagUp => 14,
        Refusal::Taken => 15,
        Refusal::SamePlayer => 16,
        Refusal::BadFen => 17,
        Refusal::BadTime => 18,
        Refusal::TooManyGames => 19,
        Refusal::TooLong => 20,
        Refusal::NotOver => 21,
        Refusal::NoMemory => 22,
        Refusal::BadMoment => 23,
        Refusal::Finished => 24,
    }
}

// The name of a refusal, of at most 14 bytes.
fn name_of(refusal: Refusal) -> &'static str
    ensures name { result.now ≡ (row_of refusal).name }
    ensures short { length result.now ≤ 14 }
{
    match refusal {
        Refusal::BadLine => "BadLine",
        Refusal::NoName => "NoName",
        Refusal::NoGame => "NoGame",
        Refusal::NotSeated => "NotSeated",
        Refusal::NotStarted => "NotStarted",
        Refusal::Over => "Over",
        Refusal::WrongPly(_) => "WrongPly",
        Refusal::NotYourMove => "NotYourMove",
        Refusal::BadMove => "BadMove",
        Refusal::OfferStands => "OfferStands",
        Refusal::NoOffer => "NoOffer",
        Refusal::TooEarly => "TooEarly",
        Refusal::AlreadyClaimed => "AlreadyClaimed",
        Refusal::FlagUp => "FlagUp",
        Refusal::Taken => "Taken",
        Refusal::SamePlayer => "SamePlayer",
        Refusal::BadFen => "BadFen",
        Refusal::BadTime => "BadTime",
        Refusal::TooManyGames => "TooManyGames",
        Refusal::TooLong => "TooLong",
        Refusal::NotOver => "NotOver",
        Refusal::NoMemory => "NoMemory",
        Refusal::BadMoment => "BadMoment",
        Refusal::Finished => "Finished",
    }
}

/// The answer to what is refused, `no NUMBER NAME`: the numbers are 1 to 24, and number 7, a wrong PLY, tells the
/// present one behind its name.
pub fn refusal_line(refusal: Refusal) -> AnswerLine
    ensures { result.bytes ≡ refusal_text refusal }
{
    let mut text = begun("no");
    push_number_field(&mut text, number_of(refusal));
    push_field(&mut text, name_of(refusal));
    if let Refusal::WrongPly(ply) = refusal {
        push_number_field(&mut text, u64::from(ply));
    }
    text
}
