ghost use Rattle.std.specs.Prelude.{◌≡◌, ◌++◌, ℕ, List, OnOk, IfOk};
ghost use Rattle.std.specs.Option.{option_copied};
ghost use Rattle.std.specs.String.{string_bytes};
ghost use Rattle.chess_board.specs.Line.{IsLegalLine};
ghost use Rattle.chess_text.specs.Game.{HasRoom, IsGameText, PutsMoves};
ghost use Rattle.chess_text.specs.Pgn.{player_text, roster, tags_text, heading, result_text, PutsTags};

use crate::game::push_moves;
use crate::movetext::push_token;
use crate::tags::{push_article, push_set_up, push_tag, result_code, termination, time_control};
use chess_board::{Board, Move};
use chess_end::Ending;
use std::alloc::{AllocError, Global};

/// A game that is to be written in PGN.
#[derive(Clone, Copy)]
pub struct GameText<'a> {
    /// White's name, or `None` for an empty seat.
    pub white: Option<&'a str>,
    /// Black's name, or `None` for an empty seat.
    pub black: Option<&'a str>,
    /// The position in which the game starts.
    pub start: Board,
    /// The moves that were made, in order.
    pub moves: &'a [Move],
    /// How the game ended, or `None` while it goes on.
    pub ending: Option<Ending>,
    /// The initial time in seconds.
    pub initial: u32,
    /// What each move adds, in seconds.
    pub increment: u32,
    /// The number of moves of a first period, and the time in seconds that the second one adds.
    pub period: Option<(u32, u32)>,
}

// A player's name, or `?` for an empty seat (PGN Standard, sections 8.1.1.5 and 8.1.1.6).
fn player<'a>(name: Option<&'a str>) -> &'a str
    ensures { result.now ≡ player_text (option_copied name.entry) }
{
    match name {
        Some(name) => name,
        None => "?",
    }
}

// Writes the seven tags that stand first (PGN Standard, section 8.1.1). It fails where memory is refused.
fn push_roster(
    text: &mut String,
    white: Option<&str>,
    black: Option<&str>,
    ending: Option<Ending>,
) -> Result<(), AllocError>
    ensures { OnOk result (string_bytes text.new ≡ string_bytes text.old ++
        tags_text (roster (option_copied white.entry) (option_copied black.entry) ending)) }
{
    push_tag(text, "Event", "?")?;
    push_tag(text, "Site", "?")?;
    push_tag(text, "Date", "????.??.??")?;
    push_tag(text, "Round", "?")?;
    push_tag(text, "White", player(white))?;
    push_tag(text, "Black", player(black))?;
    push_tag(text, "Result", result_code(ending))
}

// Writes the tags of a game. It fails where memory is refused.
fn push_tags(text: &mut String, game: &GameText<'_>) -> Result<(), AllocError>
    ensures { OnOk result (PutsTags (string_bytes text.old) (string_bytes text.new)
        (heading (option_copied game.now.white) (option_copied game.now.black) game.now.start game.now.ending
        game.now.initial game.now.increment game.now.period)) }
{
    let control = time_control(game.initial, game.increment, game.period);
    push_roster(text, game.white, game.black, game.ending)?;
    push_article(text, game.ending)?;
    push_set_up(text, &game.start)?;
    push_tag(text, "Termination", termination(game.ending))?;
    push_tag(text, "TimeControl", control.as_str())
}

// Writes the moves and at last the result in lines (PGN Standard, section 8.2). It fails where memory is refused.
fn push_movetext(text: &mut String, game: &GameText<'_>) -> Result<(), AllocError>
    requires legal { IsLegalLine game.now.start game.now.moves.now }
    requires room { HasRoom game.now.start game.now.moves.now }
    ensures { OnOk result (PutsMoves (string_bytes text.old) (string_bytes text.new) game.now.start game.now.moves.now
        (result_text game.now.ending)) }
{
    let width = push_moves(text, &game.start, game.moves)?;
    push_token(text, width, result_code(game.ending))?;
    text.push('\n')?;
    Ok(())
}

/// The PGN of a game (PGN Standard, section 8): tags, an empty line, the moves in SAN and the result in lines of at
/// most 79 characters, an empty line. For a game there is one. The moves are legal, one after the other from the start,
/// and before each both counters are below 65,535. It fails where memory is refused.
pub fn pgn(alloc: Global, game: &GameText<'_>) -> Result<String, AllocError>
    requires legal { IsLegalLine game.now.start game.now.moves.now }
    requires room { HasRoom game.now.start game.now.moves.now }
    ensures pgn { IfOk result (λ text. IsGameText (string_bytes text)
        (heading (option_copied game.now.white) (option_copied game.now.black) game.now.start game.now.ending
        game.now.initial game.now.increment game.now.period) game.now.moves.now) }
    ensures one { IfOk result (λ text. (other : List ℕ) → IsGameText other
        (heading (option_copied game.now.white) (option_copied game.now.black) game.now.start game.now.ending
        game.now.initial game.now.increment game.now.period) game.now.moves.now →
        other ≡ string_bytes text) }
{
    let mut text = String::new(alloc);
    push_tags(&mut text, game)?;
    text.push('\n')?;
    push_movetext(&mut text, game)?;
    text.push('\n')?;
    Ok(text)
}
