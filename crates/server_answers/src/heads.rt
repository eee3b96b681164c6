//! The first lines of answers that have more lines behind them, and the answers to `fen` and `name`.
ghost use Rattle.std.specs.Prelude.{◌≡◌};
ghost use Rattle.server_answers.specs.Heads as spec;

use crate::fields::{cut_field, has_fields};
use text_parts::number_of_32_bits;

/// The PGN of a game, as `ok pgn G K` tells it.
#[derive(Clone, Copy)]
pub struct PgnHead {
    pub game: u32,
    /// How many lines stand behind, which are the PGN.
    pub lines: u32,
}

/// How many rows stand behind the first line of an answer to `list`, given without its line feed: K of `ok list K`.
/// `None` exactly where it has another form.
#[tactic(auto, unfolding(crate::specs::Heads::list_in))]
pub fn list_head_of(first: &str) -> Option<u32>
    ensures { result ≡ spec.list_in first.now }
{
    let (ok, rest) = cut_field(first);
    let (list, rest) = cut_field(rest);
    let (count, _) = cut_field(rest);
    let is_whole = has_fields(first, 3);
    let is_ok = ok == "ok";
    let is_list = list == "list";
    if is_whole & is_ok & is_list {
        number_of_32_bits(count)
    } else {
        None
    }
}

/// Which game's PGN stands behind the first line of an answer to `pgn`, given without its line feed: `ok pgn G K`.
/// `None` exactly where it has another form.
#[tactic(auto, unfolding(crate::specs::Heads::pgn_in))]
pub fn pgn_head_of(first: &str) -> Option<PgnHead>
    ensures { result ≡ spec.pgn_in first.now }
{
    let (ok, rest) = cut_field(first);
    let (pgn, rest) = cut_field(rest);
    let (game, rest) = cut_field(rest);
    let (count, _) = cut_field(rest);
    let is_whole = has_fields(first, 4);
    let is_ok = ok == "ok";
    let is_pgn = pgn == "pgn";
    if !(is_whole & is_ok & is_pgn) {
        return None;
    }
    let game = number_of_32_bits(game)?;
    let lines = number_of_32_bits(count)?;
    Some(PgnHead { game, lines })
}

/// Which game's FEN an answer to `fen` tells, given without its line feed: G of `ok fen G FEN`, where FEN has six
/// fields. `None` exactly where it has another form.
#[tactic(auto, unfolding(crate::specs::Heads::fen_in))]
pub fn fen_game_of(line: &str) -> Option<u32>
    ensures { result ≡ spec.fen_in line.now }
{
    let (ok, rest) = cut_field(line);
    let (fen, rest) = cut_field(rest);
    let (game, _) = cut_field(rest);
    if has_fields(line, 9) && ok == "ok" && fen == "fen" {
        number_of_32_bits(game)
    } else {
        None
    }
}

/// Whether an answer to a `name` line takes this name: it is `ok name NAME`, given without its line feed.
pub fn takes_name(name: &str, line: &str) -> bool
    ensures { result ≡ spec.takes_name name.now line.now }
{
    let (ok, rest) = cut_field(line);
    let (word, said) = cut_field(rest);
    ok == "ok" && word == "name" && said == name
}

/// How many lines stand behind the first line of an answer: rows of a list, or lines of a PGN; none behind another.
pub fn lines_behind(first: &str) -> u32
    ensures { result ≡ spec.lines_behind first.now }
{
    match (list_head_of(first), pgn_head_of(first)) {
        (Some(rows), _) => rows,
        (None, Some(head)) => head.lines,
        (None, None) => 0,
    }
}
