//! The results of a round.
ghost use Rattle.std.specs.Prelude.{◌≡◌, ◌++◌, IfOk, OnOk};
ghost use Rattle.std.specs.Option.{option_copied};
ghost use Rattle.night_report.specs.CsvRows.{bytes_of};
ghost use Rattle.night_rounds.specs.Counting.{decision_about};
ghost use Rattle.night_rounds.specs.Results as spec;

use crate::counting::{arbiter_of, article_by, decision_about, reason_of, result_by};
use crate::decisions::Decision;
use night_report::{Cell, push_header, push_row};
use std::alloc::{AllocError, Global};

/// What came of a board by its game: who plays there, the result as PGN has it (`1-0`, `0-1`, `1/2-1/2`, `*`), the
/// article by which it ended, the game, and what is to be told besides.
#[derive(Clone, Copy)]
pub struct Outcome<'a> {
    pub board: u32,
    pub white: &'a str,
    pub black: &'a str,
    pub result: &'a str,
    pub article: &'a str,
    pub game: Option<u32>,
    pub note: &'a str,
}

// The cell of a game; empty where there is none.
fn game_cell(alloc: Global, game: Option<u32>) -> Result<Cell, AllocError>
    ensures { IfOk result (λ cell. bytes_of cell ≡ spec.game_text game) }
{
    match game {
        Some(game) => Cell::of_number(alloc, u64::from(game)),
        None => Ok(Cell::empty(alloc)),
    }
}

// A board's row, by the decision about it.
fn push_outcome(
    rows: &mut Vec<u8>,
    alloc: Global,
    decision: Option<&Decision>,
    outcome: Outcome<'_>,
) -> Result<(), AllocError>
    ensures { OnOk result (rows.new.items ≡ rows.old.items
        ++ spec.row_text (option_copied decision.entry) outcome.entry) }
{
    let cells = [
        Cell::of_number(alloc, u64::from(outcome.board))?,
        Cell::of_text(alloc, outcome.white)?,
        Cell::of_text(alloc, outcome.black)?,
        Cell::of_text(alloc, result_by(decision, outcome.result))?,
        Cell::of_text(alloc, article_by(decision, outcome.article))?,
        game_cell(alloc, outcome.game)?,
        Cell::of_text(alloc, outcome.result)?,
        Cell::of_text(alloc, arbiter_of(decision))?,
        Cell::of_text(alloc, reason_of(decision))?,
        Cell::of_text(alloc, outcome.note)?,
    ];
    push_row(rows, alloc, &cells)
}

fn push_outcomes(
    rows: &mut Vec<u8>,
    alloc: Global,
    decisions: &[Decision],
    outcomes: &[Outcome<'_>],
) -> Result<(), AllocError>
    ensures { OnOk result (rows.new.items ≡ rows.old.items ++ spec.rows_text decisions.now outcomes.now) }
{
    for outcome in outcomes {
        push_outcome(
            rows,
            alloc,
            decision_about(decisions, outcome.board),
            *outcome,
        )?;
    }
    Ok(())
}

/// The results as CSV: the row `board,white,black,result,article,game,server,arbiter,reason,note`, and a row for each
/// board. Its result is that of the decision that counts for it, and else what came of its game, which stands in
/// `server`. It fails where memory is refused.
pub fn results(
    alloc: Global,
    decisions: &[Decision],
    outcomes: &[Outcome<'_>],
) -> Result<Vec<u8>, AllocError>
    ensures { IfOk result (λ text. text.items ≡ spec.results_text decisions.now outcomes.now) }
{
    let mut text = Vec::new(alloc);
    let names = [
        "board", "white", "black", "result", "article", "game", "server", "arbiter", "reason",
        "note",
    ];
    push_header(&mut text, alloc, &names)?;
    push_outcomes(&mut text, alloc, decisions, outcomes)?;
    Ok(text)
}
