//! How a game stands, and a row of the table.
ghost use Rattle.std.specs.Prelude.{◌≡◌};
ghost use Rattle.server_answers.specs.Games as spec;

use crate::fields::{cut_field, has_fields};
use crate::values::{
    Clocks, Ending, GameResult, Offers, Seats, Side, clocks_of, ending_of, offers_of, result_of,
    seats_of, side_of,
};
use text_parts::number_of_32_bits;

/// How a game stands, as `ok show G WHITE BLACK PLY SIDE WLEFT BLEFT OFFER RESULT ARTICLE` tells.
#[derive(Clone, Copy)]
pub struct Shown {
    pub game: u32,
    pub seats: Seats,
    /// How many moves were made.
    pub ply: u32,
    /// The side on move.
    pub side: Side,
    pub clocks: Clocks,
    pub offers: Offers,
    /// None while it goes on.
    pub ending: Option<Ending>,
}

/// A game of the table, as a row `G WHITE BLACK PLY RESULT` tells.
#[derive(Clone, Copy)]
pub struct Row {
    pub game: u32,
    pub seats: Seats,
    /// How many moves were made.
    pub ply: u32,
    /// None while it goes on.
    pub result: Option<GameResult>,
}

/// How a game stands, as the first line of an answer to `show` tells, given without its line feed. `None` exactly where
/// it has another form (`docs/client/PROTOCOL.md`).
#[tactic(auto, unfolding(crate::specs::Games::shown_in))]
pub fn shown_of(line: &str) -> Option<Shown>
    ensures { result ≡ spec.shown_in line.now }
{
    let (ok, rest) = cut_field(line);
    let (show, rest) = cut_field(rest);
    let (game, rest) = cut_field(rest);
    let (white, rest) = cut_field(rest);
    let (black, rest) = cut_field(rest);
    let (ply, rest) = cut_field(rest);
    let (side, rest) = cut_field(rest);
    let (white_ms, rest) = cut_field(rest);
    let (black_ms, rest) = cut_field(rest);
    let (offers, rest) = cut_field(rest);
    let (result, rest) = cut_field(rest);
    let (article, _) = cut_field(rest);
    let is_whole = has_fields(line, 12);
    let is_ok = ok == "ok";
    let is_show = show == "show";
    if !(is_whole & is_ok & is_show) {
        return None;
    }
    let game = number_of_32_bits(game)?;
    let seats = seats_of(white, black)?;
    let ply = number_of_32_bits(ply)?;
    let side = side_of(side)?;
    let clocks = clocks_of(white_ms, black_ms)?;
    let offers = offers_of(offers)?;
    let ending = ending_of(result, article)?;
    Some(Shown {
        game,
        seats,
        ply,
        side,
        clocks,
        offers,
        ending,
    })
}

/// A game of the table, as a row of the answer to `list` tells, given without its line feed. `None` exactly where it
/// has another form.
#[tactic(auto, unfolding(crate::specs::Games::row_in))]
pub fn row_of(line: &str) -> Option<Row>
    ensures { result ≡ spec.row_in line.now }
{
    let (game, rest) = cut_field(line);
    let (white, rest) = cut_field(rest);
    let (black, rest) = cut_field(rest);
    let (ply, rest) = cut_field(rest);
    let (result, _) = cut_field(rest);
    if !has_fields(line, 5) {
        return None;
    }
    let game = number_of_32_bits(game)?;
    let seats = seats_of(white, black)?;
    let ply = number_of_32_bits(ply)?;
    let result = result_of(result)?;
    Some(Row {
        game,
        seats,
        ply,
        result,
    })
}
