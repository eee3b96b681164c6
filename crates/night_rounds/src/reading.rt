//! A file of pairings is read.
ghost use Rattle.std.specs.Prelude.{◌≡◌, ◌∷◌, [], Ok, IfOk, IfErr, map};
ghost use Rattle.csv.specs.Records.{fields_of};
ghost use Rattle.night_rounds.specs.Round as spec;

use crate::faults::{Fault, RowFault};
use crate::rows::{Against, Pairing, is_header, pairing_of};
use csv::{Error, ErrorKind, StringRecord};
use night_report::records_of;
use player_name::Name;
use std::alloc::{AllocError, Global};

fn has_black(against: Against, name: &Name) -> bool
    ensures { result ≡ spec.has_black name.now against }
{
    match against {
        Against::Bye(_) => false,
        Against::Game(game) => game.black.as_str() == name.as_str(),
    }
}

// Whether a player has a seat at a board.
fn has_player(pairing: &Pairing, name: &Name) -> bool
    ensures { result ≡ spec.has_player name.now pairing.now }
{
    pairing.white.as_str() == name.as_str() || has_black(pairing.against, name)
}

fn has_board(pairings: &[Pairing], board: u32) -> bool
    ensures { result ≡ spec.has_board board pairings.now }
{
    pairings.iter().any(|pairing| pairing.board == board)
}

fn is_paired(pairings: &[Pairing], name: &Name) -> bool
    ensures { result ≡ spec.is_paired name.now pairings.now }
{
    pairings.iter().any(|pairing| has_player(pairing, name))
}

fn is_black_paired(pairings: &[Pairing], against: Against) -> bool
    ensures { result ≡ spec.is_black_paired against pairings.now }
{
    match against {
        Against::Bye(_) => false,
        Against::Game(game) => is_paired(pairings, &game.black),
    }
}

// Why a pairing may not stand behind others.
fn clash_of(pairings: &[Pairing], pairing: &Pairing) -> Option<RowFault>
    ensures { result ≡ spec.clash_of pairings.now pairing.now }
{
    if has_board(pairings, pairing.board) {
        Some(RowFault::BoardTwice)
    } else if is_paired(pairings, &pairing.white) {
        Some(RowFault::WhiteTwice)
    } else if is_black_paired(pairings, pairing.against) {
        Some(RowFault::BlackTwice)
    } else {
        None
    }
}

// Puts the pairing of a row behind the others. It answers the row's fault.
fn take(
    alloc: Global,
    pairings: &mut Vec<Pairing>,
    row: &StringRecord,
) -> Result<Option<RowFault>, AllocError>
    ensures { IfOk result (λ fault. spec.take_row pairings.old.items (fields_of row.now)
        ≡ spec.outcome_of pairings.new.items fault) }
{
    let pairing = match pairing_of(alloc, row)? {
        Ok(pairing) => pairing,
        Err(fault) => return Ok(Some(fault)),
    };
    if let Some(fault) = clash_of(pairings.as_slice(), &pairing) {
        return Ok(Some(fault));
    }
    pairings.push(pairing)?;
    Ok(None)
}

// The pairings of the rows below the header.
fn pairings_below(alloc: Global, rows: &[StringRecord]) -> Result<Vec<Pairing>, Fault>
    ensures pairings { IfOk result (λ pairings. spec.rows_in [] 2 (map fields_of rows.now) ≡ Ok pairings.items) }
    ensures fault { IfErr result (spec.IsBelowFault (map fields_of rows.now)) }
{
    let mut pairings = Vec::new(alloc);
    for at in 0..rows.len() {
        if let Some(fault) = take(alloc, &mut pairings, &rows[at])? {
            return Err(Fault::Row(at + 2, fault));
        }
    }
    Ok(pairings)
}

// The pairings of all rows, the first one and those below it.
fn pairings_under(
    alloc: Global,
    header: &StringRecord,
    below: &[StringRecord],
) -> Result<Vec<Pairing>, Fault>
    ensures pairings { IfOk result (λ pairings. spec.round_in (fields_of header.now ∷ map fields_of below.now)
        ≡ Ok pairings.items) }
    ensures fault { IfErr result (spec.IsRowsFault (fields_of header.now ∷ map fields_of below.now)) }
{
    if is_header(header) {
        pairings_below(alloc, below)
    } else {
        Err(Fault::NoHeader)
    }
}

// The pairings of all rows.
fn pairings_of(alloc: Global, rows: &[StringRecord]) -> Result<Vec<Pairing>, Fault>
    ensures pairings { IfOk result (λ pairings. spec.round_in (map fields_of rows.now) ≡ Ok pairings.items) }
    ensures fault { IfErr result (spec.IsRowsFault (map fields_of rows.now)) }
{
    match rows {
        [] => Err(Fault::NoHeader),
        [header, below @ ..] => pairings_under(alloc, header, below),
    }
}

// What an error of the rows says.
fn fault_of(error: &Error) -> Fault
    ensures { spec.IsUnread result }
{
    match error.kind() {
        ErrorKind::Utf8 { .. } => Fault::NotText,
        _ => Fault::NoMemory,
    }
}

/// The pairings of a file, in the order of its rows; else the first fault. A file is CSV (RFC 4180): the row
/// `board,white,black,times,start`, and a row for each board.
pub fn read(alloc: Global, text: &[u8]) -> Result<Vec<Pairing>, Fault>
    ensures pairings { IfOk result (λ pairings. spec.IsRoundOf text.now pairings.items) }
    ensures fault { IfErr result (spec.IsFault text.now) }
{
    match records_of(alloc, text) {
        Ok(rows) => pairings_of(alloc, rows.as_slice()),
        Err(error) => Err(fault_of(&error)),
    }
}
