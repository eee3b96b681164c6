ghost use Rattle.std.specs.Prelude.{◌≡◌, ◌++◌, ◌≤◌, ◌+◌, [], ◌∷◌, List, decimal, OnOk, OnErr};
ghost use Rattle.std.specs.String.{string_bytes};
ghost use Rattle.arrayvec.specs.ArrayString.{array_string_len};
ghost use Rattle.chess_text.specs.Pgn.{Tag, tag, tag_text, tags_text, result_text, article_text, article_tags};
ghost use Rattle.chess_text.specs.Pgn.{termination_text, increment_text, time_control_text, PutsSetUp};

use arrayvec::ArrayString;
use chess_board::Board;
use chess_end::{Article, Ending, GameResult};
use chess_fen::{FenText, fen_write, push};
use itoa::Buffer;
use std::alloc::AllocError;

/// Writes a tag pair on a line of its own (PGN Standard, section 8.1). It fails where memory is refused.
pub fn push_tag(text: &mut String, name: &str, value: &str) -> Result<(), AllocError>
    ensures { OnOk result (string_bytes text.new ≡ string_bytes text.old ++ tag_text (tag name.now value.now)) }
{
    text.push('[')?;
    text.push_str(name)?;
    text.push_str(" \"")?;
    text.push_str(value)?;
    text.push_str("\"]\n")?;
    Ok(())
}

/// What a game gave, or `*` while it goes on (PGN Standard, section 8.1.1.7).
pub fn result_code(ending: Option<Ending>) -> &'static str
    ensures { result.now ≡ result_text ending }
{
    match ending {
        None => "*",
        Some(ending) => match ending.result {
            GameResult::White => "1-0",
            GameResult::Black => "0-1",
            GameResult::Draw => "1/2-1/2",
        },
    }
}

/// The number of an article of the FIDE Laws of Chess, as `5.1.1`.
pub fn article_code(article: Article) -> &'static str
    ensures { result.now ≡ article_text article }
{
    match article {
        Article::A511 => "5.1.1",
        Article::A512 => "5.1.2",
        Article::A521 => "5.2.1",
        Article::A522 => "5.2.2",
        Article::A523 => "5.2.3",
        Article::A69 => "6.9",
        Article::A92 => "9.2",
        Article::A93 => "9.3",
        Article::A961 => "9.6.1",
        Article::A962 => "9.6.2",
    }
}

/// Writes the tag of the article by which a finished game ended. It fails where memory is refused.
pub fn push_article(text: &mut String, ending: Option<Ending>) -> Result<(), AllocError>
    ensures { OnOk result (string_bytes text.new ≡ string_bytes text.old ++ tags_text (article_tags ending)) }
{
    if let Some(ending) = ending {
        push_tag(text, "Article", article_code(ending.article))?;
    }
    Ok(())
}

/// Writes the tags of a start that is not the initial position. It fails where memory is refused.
pub fn push_set_up(text: &mut String, start: &Board) -> Result<(), AllocError>
    ensures { OnOk result (PutsSetUp (string_bytes text.old) (string_bytes text.new) start.now) }
{
    let _valid = start.rights();
    let fen = fen_write(start);
    let initial = Board::initial();
    if fen.as_str() == fen_write(&initial).as_str() {
        return Ok(());
    }
    push_tag(text, "FEN", fen.as_str())?;
    push_tag(text, "SetUp", "1")?;
    Ok(())
}

/// How a game ended (PGN Standard, section 9.8.1).
pub fn termination(ending: Option<Ending>) -> &'static str
    ensures { result.now ≡ termination_text ending }
{
    match ending {
        None => "unterminated",
        Some(ending) => match ending.article {
            Article::A69 => "time forfeit",
            _ => "normal",
        },
    }
}

// Appends a number.
fn push_decimal(text: &mut FenText, number: u32)
    requires room { array_string_len text.old + 10 ≤ 96 }
    ensures bytes { text.new.bytes ≡ text.old.bytes ++ decimal number }
    ensures len { array_string_len text.new ≤ array_string_len text.old + 10 }
{
    let mut buffer = Buffer::new();
    text.push_str(buffer.format(number));
}

// Appends a time, and the increment where it is not 0.
fn push_time(text: &mut FenText, time: u32, increment: u32)
    requires room { array_string_len text.old + 21 ≤ 96 }
    ensures bytes { text.new.bytes ≡ text.old.bytes ++ (decimal time ++ increment_text increment) }
    ensures len { array_string_len text.new ≤ array_string_len text.old + 21 }
{
    push_decimal(text, time);
    if increment > 0 {
        push(text, '+');
        push_decimal(text, increment);
    }
}

/// The times of a game in seconds (PGN Standard, section 9.6.1), with the moves of a first period and the time of a
/// second one, if there is one.
pub fn time_control(initial: u32, increment: u32, period: Option<(u32, u32)>) -> ArrayString<96>
    ensures { result.bytes ≡ time_control_text initial increment period }
{
    let mut text = ArrayString::new();
    match period {
        None => push_time(&mut text, initial, increment),
        Some((moves, second)) => {
            push_decimal(&mut text, moves);
            push(&mut text, '/');
            push_time(&mut text, initial, increment);
            push(&mut text, ':');
            push_time(&mut text, second, increment);
        }
    }
    text
}
