//! What the server refuses.
ghost use Rattle.std.specs.Prelude.{◌≡◌};
ghost use Rattle.server_answers.specs.Refusals as spec;

use crate::fields::{cut_field, has_fields};
use text_parts::number_of_32_bits;

/// Why the server does not do what a line asks. After any refusal nothing has changed.
#[derive(Clone, Copy)]
pub enum Refusal {
    /// 1: the line has none of the forms of the protocol.
    BadLine,
    /// 2: the session has no name.
    NoName,
    /// 3: no game of the table has the number.
    NoGame,
    /// 4: who asks plays neither side.
    NotSeated,
    /// 5: a seat is empty.
    NotStarted,
    /// 6: the game is over.
    Over,
    /// 7: the game has another number of moves, which is told.
    WrongPly(u32),
    /// 8: the other side is to move.
    NotYourMove,
    /// 9: the text names no legal move.
    BadMove,
    /// 10: an offer stands.
    OfferStands,
    /// 11: no offer of the opponent stands.
    NoOffer,
    /// 12: not both sides have made a move.
    TooEarly,
    /// 13: who asks has claimed in this turn.
    AlreadyClaimed,
    /// 14: the flag has not fallen.
    FlagUp,
    /// 15: both seats are taken.
    Taken,
    /// 16: nobody plays against himself.
    SamePlayer,
    /// 17: the text is no FEN of a valid position, or its fullmove number is over 9,999.
    BadFen,
    /// 18: the times are out of range.
    BadTime,
    /// 19: the table has as many games as it may, or no number is left.
    TooManyGames,
    /// 20: the game has as many moves as it may.
    TooLong,
    /// 21: the game is joined and not over.
    NotOver,
    /// 22: memory was refused.
    NoMemory,
    /// 23: the moment is over 4,611,686,018,427,387,903.
    BadMoment,
    /// 24: the game would be over at its start.
    Finished,
}

// What a line refuses of which every word is fixed.
fn fixed_refusal(line: &str) -> Option<Refusal>
    ensures { result ≡ spec.fixed_in line.now }
{
    match line {
        "no 1 BadLine" => Some(Refusal::BadLine),
        "no 2 NoName" => Some(Refusal::NoName),
        "no 3 NoGame" => Some(Refusal::NoGame),
        "no 4 NotSeated" => Some(Refusal::NotSeated),
        "no 5 NotStarted" => Some(Refusal::NotStarted),
        "no 6 Over" => Some(Refusal::Over),
        "no 8 NotYourMove" => Some(Refusal::NotYourMove),
        "no 9 BadMove" => Some(Refusal::BadMove),
        "no 10 OfferStands" => Some(Refusal::OfferStands),
        "no 11 NoOffer" => Some(Refusal::NoOffer),
        "no 12 TooEarly" => Some(Refusal::TooEarly),
        "no 13 AlreadyClaimed" => Some(Refusal::AlreadyClaimed),
        "no 14 FlagUp" => Some(Refusal::FlagUp),
        "no 15 Taken" => Some(Refusal::Taken),
        "no 16 SamePlayer" => Some(Refusal::SamePlayer),
        "no 17 BadFen" => Some(Refusal::BadFen),
        "no 18 BadTime" => Some(Refusal::BadTime),
        "no 19 TooManyGames" => Some(Refusal::TooManyGames),
        "no 20 TooLong" => Some(Refusal::TooLong),
        "no 21 NotOver" => Some(Refusal::NotOver),
        "no 22 NoMemory" => Some(Refusal::NoMemory),
        "no 23 BadMoment" => Some(Refusal::BadMoment),
        "no 24 Finished" => Some(Refusal::Finished),
        _ => None,
    }
}

/// What an answer refuses, given without its line feed: `no NUMBER NAME`, and of number 7 the present PLY behind that.
/// `None` exactly where it is none of the server's refusals.
#[tactic(auto, unfolding(crate::specs::Refusals::refusal_in))]
pub fn refusal_of(line: &str) -> Option<Refusal>
    ensures { result ≡ spec.refusal_in line.now }
{
    let (no, rest) = cut_field(line);
    let (number, rest) = cut_field(rest);
    let (name, rest) = cut_field(rest);
    let (ply, _) = cut_field(rest);
    let is_no = no == "no";
    let is_7 = number == "7";
    let is_wrong_ply = name == "WrongPly";
    if !has_fields(line, 4) {
        return fixed_refusal(line);
    }
    if !(is_no & is_7 & is_wrong_ply) {
        return None;
    }
    let ply = number_of_32_bits(ply)?;
    Some(Refusal::WrongPly(ply))
}
