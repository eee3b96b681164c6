//! What follows the word of a line, read into acts.
ghost use Rattle.std.specs.Prelude.{◌≡◌, ℕ, [], ◌∷◌, Some, IfSome, IsSomeAnd, codes, decimal};
ghost use Rattle.chess_entry.specs.declared.commands.Act.{Act};
ghost use Rattle.chess_line.specs.declared.lines.Line.TheVariants as lines;
ghost use Rattle.chess_line.specs.Fields.{IsNumber};
ghost use Rattle.chess_line.specs.Cut.{Unspaced};
ghost use Rattle.chess_line.specs.Line.{IsLineAfter, IsSayable, SameAct, act_fields};

use crate::fields::{
    claim_named, colour_named, cut_word, field_number, field_text, optional_rest, take_number,
    times_named,
};
use chess_entry::Act;

// An act that a word and a game's number tell.
fn game_act(word: &str, game: u32) -> Option<Act>
    ensures some { IfSome result (λ act. act_fields act ≡ word.now ∷ decimal game ∷ []) }
    ensures sayable { IfSome result (λ act. IsSayable act) }
    ensures every { (act : Act) → IsSayable act → act_fields act ≡ word.now ∷ decimal game ∷ [] → result ≡ Some act }
{
    match word {
        "join" => Some(Act::Join { game }),
        "offer" => Some(Act::Offer { game }),
        "accept" => Some(Act::Accept { game }),
        "decline" => Some(Act::Decline { game }),
        "resign" => Some(Act::Resign { game }),
        "flag" => Some(Act::Flag { game }),
        "drop" => Some(Act::Remove { game }),
        "show" => Some(Act::Show { game }),
        "fen" => Some(Act::Fen { game }),
        "pgn" => Some(Act::Pgn { game }),
        _ => None,
    }
}

// What `open` asks for: the colour, the times, and perhaps a FEN.
fn opening(rest: &str) -> Option<Act>
    ensures some { IfSome result (λ act. IsLineAfter (codes "open") rest.now (lines.Act act)) }
    ensures every { (act : Act) → IsLineAfter (codes "open") rest.now (lines.Act act) → IsSomeAnd result (SameAct act) }
{
    let (colour, rest) = rest.split_once(' ')?;
    let colour = colour_named(colour)?;
    let (times, rest) = rest.split_once(' ')?;
    let (initial, period) = times_named(times)?;
    let (increment, fen) = cut_word(rest);
    let increment = field_number(increment)?;
    let fen = optional_rest(fen)?;
    Some(Act::NewGame {
        colour,
        initial,
        increment,
        fen,
        period,
    })
}

// What `move` asks for.
fn play(rest: &str) -> Option<Act>
    ensures some { IfSome result (λ act. IsLineAfter (codes "move") rest.now (lines.Act act)) }
    ensures every { (act : Act) → IsLineAfter (codes "move") rest.now (lines.Act act) → IsSomeAnd result (SameAct act) }
{
    let (game, rest) = take_number(rest)?;
    let (ply, text) = take_number(rest)?;
    let text = field_text(text)?;
    Some(Act::Play { game, ply, text })
}

// What `claim` asks for.
fn claim(rest: &str) -> Option<Act>
    ensures some { IfSome result (λ act. IsLineAfter (codes "claim") rest.now (lines.Act act)) }
    ensures every { (act : Act) → IsLineAfter (codes "claim") rest.now (lines.Act act)
        → IsSomeAnd result (SameAct act) }
{
    let (game, rest) = take_number(rest)?;
    let (ply, rest) = take_number(rest)?;
    let (claim, text) = cut_word(rest);
    let fifty = claim_named(claim)?;
    let text = match text {
        Some(text) => Some(field_text(text)?),
        None => None,
    };
    Some(Act::Claim {
        game,
        ply,
        fifty,
        text,
    })
}

/// The act of a line, of its word and the rest after the space.
pub fn read_act(word: &str, rest: &str) -> Option<Act>
    requires { Unspaced word.now }
    ensures some { IfSome result (λ act. IsLineAfter word.now rest.now (lines.Act act)) }
    ensures every { (act : Act) → IsLineAfter word.now rest.now (lines.Act act) → IsSomeAnd result (SameAct act) }
{
    match word {
        "open" => opening(rest),
        "move" => play(rest),
        "claim" => claim(rest),
        _ => {
            let game = field_number(rest)?;
            game_act(word, game)
        }
    }
}
