//! `chess_entry`: what players ask for, and what that meets.
use arrayvec::ArrayString;
use chess_bits::Colour;
use chess_entry::{Act, Command, Entry, Limits, Name, Refusal, Text, Verdict, law_of_follow};

// The acts that have more than a game's number.
fn new_game(colour: Colour, initial: u32, increment: u32, period: Option<(u32, u32)>) -> Act {
    Act::NewGame {
        colour,
        initial,
        increment,
        fen: None,
        period,
    }
}

fn play(game: u32, ply: u32, text: ArrayString<255>) -> Act {
    Act::Play { game, ply, text }
}

fn claim(game: u32, ply: u32, fifty: bool, text: Option<Text>) -> Act {
    Act::Claim {
        game,
        ply,
        fifty,
        text,
    }
}

// The first word of the line that asks for an act.
fn word(act: &Act) -> &'static str {
    match act {
        Act::NewGame { .. } => "open",
        Act::Join { game: _ } => "join",
        Act::Play { .. } => "move",
        Act::Offer { game: _ } => "offer",
        Act::Accept { game: _ } => "accept",
        Act::Decline { game: _ } => "decline",
        Act::Resign { game: _ } => "resign",
        Act::Claim { .. } => "claim",
        Act::Flag { game: _ } => "flag",
        Act::Remove { game: _ } => "drop",
        Act::Show { game: _ } => "show",
        Act::Fen { game: _ } => "fen",
        Act::Pgn { game: _ } => "pgn",
        Act::List => "list",
    }
}

// The number that an answer has for a refusal.
fn number(refusal: Refusal) -> u32 {
    match refusal {
        Refusal::BadLine => 1,
        Refusal::NoName => 2,
        Refusal::NoGame => 3,
        Refusal::NotSeated => 4,
        Refusal::NotStarted => 5,
        Refusal::Over => 6,
        Refusal::WrongPly(_) => 7,
        Refusal::NotYourMove => 8,
        Refusal::BadMove => 9,
        Refusal::OfferStands => 10,
        Refusal::NoOffer => 11,
        Refusal::TooEarly => 12,
        Refusal::AlreadyClaimed => 13,
        Refusal::FlagUp => 14,
        Refusal::Taken => 15,
        Refusal::SamePlayer => 16,
        Refusal::BadFen => 17,
        Refusal::BadTime => 18,
        Refusal::TooManyGames => 19,
        Refusal::TooLong => 20,
        Refusal::NotOver => 21,
        Refusal::NoMemory => 22,
        Refusal::BadMoment => 23,
        Refusal::Finished => 24,
    }
}

// Whether a command changes a table of these limits, and to which entry.
fn entered(verdict: Verdict, _limits: Limits) -> Option<Entry> {
    match verdict {
        Verdict::Refuse(_) | Verdict::Read => None,
        Verdict::Enter(entry) => Some(entry),
    }
}

#[test]
fn commands_refusals_and_verdicts(rt: HostRuntime) {
    let text = Text::from("e4").ok().expect(&rt, "a text");
    let command = Command {
        at: 1_000,
        who: Name::try_new("ann"),
        act: play(1, 0, text),
    };
    assert!(rt; command.who.is_some() && word(&command.act) == "move");
    assert!(rt; word(&new_game(Colour::White, 60, 2, Some((1, 30)))) == "open");
    assert!(rt; word(&claim(1, 8, true, None)) == "claim");
    let limits = Limits {
        games: 4,
        plies: 60,
    };
    assert!(rt; number(Refusal::WrongPly(5)) == 7 && number(Refusal::Finished) == 24);
    assert!(rt; entered(Verdict::Refuse(Refusal::NoName), limits).is_none());
    law_of_follow();
}
