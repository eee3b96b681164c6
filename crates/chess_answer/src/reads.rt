ghost use Rattle.std.specs.Prelude.{◌≡◌, ◌≤◌, ◌+◌, [], ◌∷◌, ◌++◌, length, codes, decimal, IfOk, OnOk, OnErr};
ghost use Rattle.std.specs.Option.{option_copied};
ghost use Rattle.std.specs.String.{string_bytes};
ghost use Rattle.arrayvec.specs.ArrayString.{array_string_len};
ghost use Rattle.chess_notation.specs.Fen.{side_letter};
ghost use Rattle.chess_text.specs.Game.{IsGameText};
ghost use Rattle.chess_text.specs.Pgn.{heading, result_text};
ghost use Rattle.chess_entry.specs.State.{position_of};
ghost use Rattle.chess_answer.specs.Reads.{time_shown, offer_text, article_or_dash, show_text, IsFenLine, line_count};
ghost use Rattle.chess_answer.specs.Reads.{IsPgnOfGame, IsPgnReply, list_line_text, list_row};

use crate::fields::{AnswerLine, accepted, begun, push_field, push_number_field, push_seat};
use chess_bits::Colour;
use chess_end::Ending;
use chess_fen::fen_write;
use chess_game::Game;
use chess_text::{GameText, article_code, pgn, result_code};
use itoa::Buffer;
use rec_codec::Name;
use std::alloc::{AllocError, Global};

/// An answer: a line without its line feed, and a body of whole lines behind it, which only those to `pgn` and `list`
/// have.
#[derive(Drop)]
pub struct Reply {
    pub line: AnswerLine,
    pub body: String,
}

impl Reply {
    /// An answer of one line.
    pub fn alone(alloc: Global, line: AnswerLine) -> Reply
        ensures line { result.line ≡ line }
        ensures alone { string_bytes result.body ≡ [] }
    {
        Reply {
            line,
            body: String::new(alloc),
        }
    }
}

// `w` or `b` for the side on move.
fn side_code(side: Colour) -> &'static str
    ensures code { result.now ≡ side_letter side ∷ [] }
    ensures short { length result.now ≤ 1 }
{
    match side {
        Colour::White => "w",
        Colour::Black => "b",
    }
}

// The offers that stand, or `-`.
fn offer_code(game: &Game) -> &'static str
    ensures code { result.now ≡ offer_text game.now }
    ensures short { length result.now ≤ 2 }
{
    match (game.offers(Colour::White), game.offers(Colour::Black)) {
        (true, true) => "wb",
        (true, false) => "w",
        (false, true) => "b",
        (false, false) => "-",
    }
}

// Appends what a game gave, or `*` while it goes on.
fn push_result(text: &mut AnswerLine, ending: Option<Ending>)
    requires room { array_string_len text.old + 8 ≤ 160 }
    ensures bytes { text.new.bytes ≡ text.old.bytes ++ 32 ∷ result_text ending }
    ensures len { array_string_len text.new ≤ array_string_len text.old + 8 }
{
    push_field(text, result_code(ending));
}

// Appends the article by which a game is over, or `-`.
fn push_article(text: &mut AnswerLine, ending: Option<Ending>)
    requires room { array_string_len text.old + 6 ≤ 160 }
    ensures { text.new.bytes ≡ text.old.bytes ++ 32 ∷ article_or_dash ending }
{
    match ending {
        None => push_field(text, "-"),
        Some(ending) => push_field(text, article_code(ending.article)),
    }
}

// The milliseconds that a side has left, as `show` tells them.
fn time_shown(game: &Game, colour: Colour, at: u64) -> u64
    requires { game.now.moment ≤ at }
    ensures { result ≡ time_shown game.now colour at }
{
    // The game's bounds: what a side holds before the join is the initial time.
    let _numbered = game.number();
    u64::from(game.left(colour, at))
}

/// The answer to `show`, at a moment that is not before the running turn: `ok show G`, both players, how many moves
/// were made, the side on move, what both sides have left in milliseconds, the offers that stand, the result and the
/// article. It takes no memory.
pub fn show_line(game: &Game, at: u64) -> AnswerLine
    requires { game.now.moment ≤ at }
    ensures { result.bytes ≡ show_text game.now at }
{
    let mut text = accepted("show", u64::from(game.number().get()));
    push_seat(&mut text, game.player(Colour::White));
    push_seat(&mut text, game.player(Colour::Black));
    push_number_field(&mut text, u64::from(game.ply()));
    push_field(&mut text, side_code(game.board().side()));
    push_number_field(&mut text, time_shown(game, Colour::White, at));
    push_number_field(&mut text, time_shown(game, Colour::Black, at));
    push_field(&mut text, offer_code(game));
    push_result(&mut text, game.ending());
    push_article(&mut text, game.ending());
    text
}

/// The answer to `fen`: `ok fen G` and the FEN of the position that stands. It takes no memory.
pub fn fen_line(game: &Game) -> AnswerLine
    ensures { IsFenLine game.now result.bytes }
{
    let mut text = accepted("fen", u64::from(game.number().get()));
    push_field(&mut text, fen_write(game.board()).as_str());
    text
}

// The text of a name, if there is one.
fn name_text<'a>(name: &'a Option<Name>) -> Option<&'a str>
    ensures { option_copied result ≡ name.now }
{
    match name {
        None => None,
        Some(name) => Some(name.as_str()),
    }
}

// The PGN of a game between these players. It fails where memory is refused.
fn pgn_between<'a>(
    alloc: Global,
    game: &'a Game,
    white: Option<&'a str>,
    black: Option<&'a str>,
) -> Result<String, AllocError>
    ensures { IfOk result (λ text. IsGameText (string_bytes text)
        (heading (option_copied white.entry) (option_copied black.entry) game.now.start game.now.ending
        game.now.control.initial game.now.control.increment game.now.control.period) game.now.moves) }
{
    let times = game.times();
    // The game's bounds: the counters have room before each move.
    let _numbered = game.number();
    let text = GameText {
        white,
        black,
        start: *game.start(),
        moves: game.moves(),
        ending: game.ending(),
        initial: times.initial,
        increment: times.increment,
        period: times.period,
    };
    pgn(alloc, &text)
}

// The PGN of a game. It fails where memory is refused.
fn pgn_of(alloc: Global, game: &Game) -> Result<String, AllocError>
    ensures { IfOk result (λ text. IsPgnOfGame game.now (string_bytes text)) }
{
    let white = game.player(Colour::White);
    let black = game.player(Colour::Black);
    pgn_between(alloc, game, name_text(&white), name_text(&black))
}

// How many lines a text has.
fn line_count(text: &str) -> usize
    ensures { result ≡ line_count text.now }
{
    text.as_bytes()
        .iter()
        .filter(|byte| **byte == b'\n')
        .count()
}

/// The answer to `pgn`: `ok pgn G K`, and then the K lines of the game's PGN. It fails where memory is refused.
pub fn pgn_reply(alloc: Global, game: &Game) -> Result<Reply, AllocError>
    ensures { IfOk result (λ reply. IsPgnReply game.now reply.line.bytes (string_bytes reply.body)) }
{
    let body = pgn_of(alloc, game)?;
    let mut line = accepted("pgn", u64::from(game.number().get()));
    push_number_field(&mut line, line_count(body.as_str()) as u64);
    Ok(Reply { line, body })
}

/// Appends a game's line of `list` with its line feed: `G WHITE BLACK PLY RESULT`. It fails where memory is refused,
/// and then the text is as it was.
pub fn write_row(text: &mut String, game: &Game) -> Result<(), AllocError>
    ensures written { OnOk result (string_bytes text.new ≡ string_bytes text.old ++ list_row game.now) }
    ensures refused { OnErr result (string_bytes text.new ≡ string_bytes text.old) }
{
    let mut buffer = Buffer::new();
    let mut row = begun(buffer.format(game.number().get()));
    push_seat(&mut row, game.player(Colour::White));
    push_seat(&mut row, game.player(Colour::Black));
    push_number_field(&mut row, u64::from(game.ply()));
    push_result(&mut row, game.ending());
    row.push('\n');
    text.push_str(row.as_str())?;
    Ok(())
}

/// The line of the answer to `list`: `ok list K`, where K lines follow.
pub fn list_line(count: usize) -> AnswerLine
    ensures { result.bytes ≡ list_line_text count }
{
    accepted("list", count as u64)
}
