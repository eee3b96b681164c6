//! A game as values of JSON: its own file, and its part of the file of all games.
ghost use Rattle.std.specs.Prelude.{ℕ, ◌≡◌, ◌++◌, ◌-◌, List, length, map, flat_map, codes, OnOk, IfOk};
ghost use Rattle.std.specs.Prelude.{IfSome, IsSomeAnd};
ghost use Rattle.std.specs.String.{string_bytes};
ghost use Rattle.chess_board.specs.declared.moves.Move.{Move};
ghost use Rattle.chess_board.specs.Position.{Position};
ghost use Rattle.text_pgn.specs.Game.{TellsGame};
ghost use Rattle.text_pgn.specs.Json.{behind_comma, listed};
ghost use Rattle.text_pgn.specs.Spectators as spec;
ghost use Rattle.text_pgn.specs.Rows as rows_spec;

use crate::answer::line_answer;
use crate::answer_rows::{cut_row, last_row, move_in, position_in, rows_in, san_in};
use crate::json::{push_decimal, push_known, push_number, push_text, push_truth};
use crate::json_tags::{push_players, push_tags};
use crate::moves::cut_clock;
use crate::spectated::{GameTold, Notices, PlayedGame, Spectated, Stand};
use chess_fen::fen_read;
use server_answers::{Clocks, Offers, Side};
use std::alloc::{AllocError, Global};
use text_parts::{before, behind};

// Appends what an arbiter has everybody told.
fn push_notices(out: &mut Vec<u8>, notices: &Notices<'_>) -> Result<(), AllocError>
    ensures { OnOk result (out.new.items ≡ out.old.items ++ spec.notices_json notices.now) }
{
    push_text(out, b",\"stopped\":", notices.stopped)?;
    push_text(out, b",\"announced\":", notices.announced)?;
    Ok(())
}

// Appends a move.
fn push_move(out: &mut Vec<u8>, row: &str, clock: Option<u64>) -> Result<(), AllocError>
    ensures { OnOk result (out.new.items ≡ out.old.items ++ spec.move_json row.now clock) }
{
    push_text(out, b"[", san_in(row))?;
    push_text(out, b",", move_in(row))?;
    push_text(out, b",", position_in(row))?;
    out.extend_from_slice(b",")?;
    push_known(out, clock)?;
    out.extend_from_slice(b"]")?;
    Ok(())
}

// Appends moves behind another.
fn push_more_moves(
    out: &mut Vec<u8>,
    rows: &[&str],
    clocks: &[Option<u64>],
) -> Result<(), AllocError>
    ensures { OnOk result (out.new.items
        ≡ out.old.items ++ flat_map behind_comma (spec.moves_from (map (λ row. row.now) rows.now) clocks.now)) }
{
    let mut left = clocks;
    for row in rows {
        let (clock, rest) = cut_clock(left);
        out.extend_from_slice(b",")?;
        push_move(out, row, clock)?;
        left = rest;
    }
    Ok(())
}

// Appends moves with commas between them.
fn push_listed(out: &mut Vec<u8>, rows: &[&str], clocks: &[Option<u64>]) -> Result<(), AllocError>
    ensures { OnOk result (out.new.items
        ≡ out.old.items ++ listed (spec.moves_from (map (λ row. row.now) rows.now) clocks.now)) }
{
    match rows {
        [] => Ok(()),
        [first, rest @ ..] => {
            let (clock, later) = cut_clock(clocks);
            push_move(out, first, clock)?;
            push_more_moves(out, rest, later)
        }
    }
}

// Appends moves.
fn push_moves(out: &mut Vec<u8>, rows: &[&str], clocks: &[Option<u64>]) -> Result<(), AllocError>
    ensures { OnOk result (out.new.items
        ≡ out.old.items ++ spec.moves_json (map (λ row. row.now) rows.now) clocks.now) }
{
    out.extend_from_slice(b"[")?;
    push_listed(out, rows, clocks)?;
    out.extend_from_slice(b"]")?;
    Ok(())
}

// The word of a side.
fn side_word(side: Side) -> &'static str
    ensures { result.now ≡ spec.side_word side }
{
    match side {
        Side::White => "white",
        Side::Black => "black",
    }
}

// The word of the side whose clock runs, or `-`.
fn running_word(running: Option<Side>) -> &'static str
    ensures { result.now ≡ spec.running_word running }
{
    match running {
        Some(side) => side_word(side),
        None => "-",
    }
}

// The word of the sides whose offers stand, or `-`.
fn offer_word(offers: Offers) -> &'static str
    ensures { result.now ≡ spec.offer_by offers.white offers.black }
{
    match (offers.white, offers.black) {
        (true, true) => "both",
        (true, false) => "white",
        (false, true) => "black",
        (false, false) => "-",
    }
}

// The word of the side to move of a FEN.
fn turn_word(fen: &str) -> &'static str
    ensures { result.now ≡ spec.turn_in fen.now }
{
    if before(behind(fen, ' '), ' ') == "b" {
        "black"
    } else {
        "white"
    }
}

// What a clock shows so much later.
fn ms_later(runs: bool, later: u64, ms: u64) -> u64
    ensures { result ≡ spec.ms_later runs later ms }
{
    if runs { ms.saturating_sub(later) } else { ms }
}

// Appends clocks as they are so much later.
fn push_clocks(
    out: &mut Vec<u8>,
    later: u64,
    running: Option<Side>,
    clocks: Option<Clocks>,
) -> Result<(), AllocError>
    ensures { OnOk result (out.new.items ≡ out.old.items ++ spec.clocks_json later running clocks) }
{
    let Some(clocks) = clocks else {
        return out.extend_from_slice(b"[null,null]");
    };
    let runs_white = matches!(running, Some(Side::White));
    let runs_black = matches!(running, Some(Side::Black));
    out.extend_from_slice(b"[")?;
    push_decimal(out, ms_later(runs_white, later, clocks.white_ms))?;
    out.extend_from_slice(b",")?;
    push_decimal(out, ms_later(runs_black, later, clocks.black_ms))?;
    out.extend_from_slice(b"]")
}

// Appends how a game stands in the position of a FEN, with its clocks as they are at a moment.
fn push_stand(
    out: &mut Vec<u8>,
    at: u64,
    stand: &Stand<'_>,
    fen: &str,
    is_check: bool,
) -> Result<(), AllocError>
    ensures { OnOk result (out.new.items ≡ out.old.items ++ spec.stand_json at stand.now fen.now is_check) }
{
    out.extend_from_slice(b"\"check\":")?;
    push_truth(out, is_check)?;
    push_text(out, b",\"toMove\":", turn_word(fen))?;
    push_text(out, b",\"running\":", running_word(stand.running))?;
    out.extend_from_slice(b",\"clocks\":")?;
    let later = at.saturating_sub(stand.at);
    push_clocks(out, later, stand.running, stand.clocks)?;
    push_text(out, b",\"offer\":", offer_word(stand.offers))?;
    push_text(out, b",\"result\":", stand.result)?;
    push_text(out, b",\"article\":", stand.article)?;
    Ok(())
}

// Whether the side to move of a FEN is in check.
fn is_check_at(fen: &str) -> bool
    ensures { spec.IsCheckAt result fen.now }
{
    match fen_read(fen) {
        Ok(board) => board.in_check(),
        Err(_) => false,
    }
}

// The same of the last position of an answer.
fn is_check_behind(alloc: Global, answer: &str) -> Result<bool, AllocError>
    ensures { IfOk result (λ check. spec.IsCheckAt check
        (rows_spec.position_in (rows_spec.last_row (rows_spec.rows_in answer.now)))) }
{
    let rows = rows_in(alloc, answer)?;
    Ok(is_check_at(position_in(last_row(rows.as_slice()))))
}

/// Replays the game that a PGN tells, as the answer to `line G` does. `None` just where it tells no game. It fails
/// where memory is refused.
pub fn replayed(alloc: Global, game: u32, pgn: &str) -> Result<Option<PlayedGame>, AllocError>
    ensures told { (start : Position) (moves : List Move) → TellsGame pgn.now start moves →
        IfOk result (λ played. IsSomeAnd played (spec.IsPlayed game start moves)) }
    ensures game { IfOk result (λ played. IfSome played (λ _.
        (start : Position) × (moves : List Move) × TellsGame pgn.now start moves)) }
{
    let Some(answer) = line_answer(alloc, game, pgn)? else {
        return Ok(None);
    };
    let is_check = is_check_behind(alloc, answer.as_str())?;
    Ok(Some(PlayedGame { answer, is_check }))
}

// Appends what stands in front of the moves: the moment, what everybody is told, who plays, the tags, the times and the
// position of the start.
fn push_front(
    out: &mut Vec<u8>,
    alloc: Global,
    game: &Spectated<'_>,
    start: &str,
) -> Result<(), AllocError>
    ensures { OnOk result (out.new.items ≡ out.old.items ++ spec.front_json game.now start.now) }
{
    push_number(out, b"{\"at\":", game.stand.at)?;
    push_notices(out, &game.notices)?;
    out.extend_from_slice(b",")?;
    push_players(out, alloc, game)?;
    out.extend_from_slice(b",\"tags\":")?;
    push_tags(out, alloc, game.tags)?;
    push_text(out, b",\"times\":", game.times)?;
    push_text(out, b",\"start\":", position_in(start))?;
    Ok(())
}

/// The text of a game's own file: what everybody is told, who plays, the tags, all moves with the positions that they
/// bring and the clocks after them, where these are known, and how it stands. It fails where memory is refused.
pub fn game_json(
    alloc: Global,
    game: &Spectated<'_>,
    played: &PlayedGame,
    clocks: &[Option<u64>],
) -> Result<Vec<u8>, AllocError>
    ensures { IfOk result (λ text. text.items ≡ spec.game_json game.now
        (rows_spec.rows_in (string_bytes played.now.answer)) played.now.is_check clocks.now) }
{
    let all = rows_in(alloc, played.answer.as_str())?;
    let (start, rows) = cut_row(all.as_slice());
    let fen = position_in(last_row(all.as_slice()));
    let mut out = Vec::new(alloc);
    push_front(&mut out, alloc, game, start)?;
    out.extend_from_slice(b",\"moves\":")?;
    push_moves(&mut out, rows, clocks)?;
    out.extend_from_slice(b",")?;
    push_stand(&mut out, game.stand.at, &game.stand, fen, played.is_check)?;
    out.extend_from_slice(b"}\n")?;
    Ok(out)
}

// Appends the last move of rows: how many there were, its SAN, its squares and the position that it brings.
fn push_last(out: &mut Vec<u8>, count: u64, last: &str) -> Result<(), AllocError>
    ensures { OnOk result (out.new.items ≡ out.old.items ++ spec.last_json count last.now) }
{
    push_number(out, b",\"plies\":", count)?;
    push_text(out, b",\"last\":", san_in(last))?;
    push_text(out, b",\"lastMove\":", move_in(last))?;
    push_text(out, b",\"fen\":", position_in(last))?;
    Ok(())
}

// Appends a game's part of the file of all games, at a moment.
fn push_entry(
    out: &mut Vec<u8>,
    alloc: Global,
    at: u64,
    game: &Spectated<'_>,
    played: &PlayedGame,
) -> Result<(), AllocError>
    ensures { OnOk result (out.new.items ≡ out.old.items ++ spec.entry_json at game.now
        (rows_spec.rows_in (string_bytes played.now.answer)) played.now.is_check) }
{
    let all = rows_in(alloc, played.answer.as_str())?;
    let (_, rows) = cut_row(all.as_slice());
    let last = last_row(all.as_slice());
    out.extend_from_slice(b"{")?;
    push_players(out, alloc, game)?;
    push_last(out, rows.len() as u64, last)?;
    out.extend_from_slice(b",")?;
    push_stand(out, at, &game.stand, position_in(last), played.is_check)?;
    out.extend_from_slice(b"}")?;
    Ok(())
}

// Appends games behind another.
fn push_more_games(
    out: &mut Vec<u8>,
    alloc: Global,
    at: u64,
    games: &[GameTold<'_>],
) -> Result<(), AllocError>
    ensures { OnOk result (out.new.items
        ≡ out.old.items ++ flat_map behind_comma (map (spec.entry_of at) games.now)) }
{
    for told in games {
        out.extend_from_slice(b",")?;
        push_entry(out, alloc, at, &told.game, told.played)?;
    }
    Ok(())
}

// Appends games.
fn push_games(
    out: &mut Vec<u8>,
    alloc: Global,
    at: u64,
    games: &[GameTold<'_>],
) -> Result<(), AllocError>
    ensures { OnOk result (out.new.items ≡ out.old.items ++ listed (map (spec.entry_of at) games.now)) }
{
    match games {
        [] => Ok(()),
        [first, rest @ ..] => {
            push_entry(out, alloc, at, &first.game, first.played)?;
            push_more_games(out, alloc, at, rest)
        }
    }
}

/// The text of the file of all games: what everybody is told, and of each game who plays, its last move, and how it
/// stands, with its clocks as they are at this moment. It fails where memory is refused.
pub fn games_json(
    alloc: Global,
    at: u64,
    notices: &Notices<'_>,
    games: &[GameTold<'_>],
) -> Result<Vec<u8>, AllocError>
    ensures { IfOk result (λ text. text.items ≡ spec.games_json at notices.now games.now) }
{
    let mut out = Vec::new(alloc);
    push_number(&mut out, b"{\"at\":", at)?;
    push_notices(&mut out, notices)?;
    out.extend_from_slice(b",\"games\":[")?;
    push_games(&mut out, alloc, at, games)?;
    out.extend_from_slice(b"]}\n")?;
    Ok(out)
}
