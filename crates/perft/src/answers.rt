//! The answer to a line.
ghost use Rattle.std.specs.Prelude.{ℕ, ◌≡◌, ◌≢◌, ◌<◌, ◌≤◌, ◌^◌, decimal, IfOk, IfErr, IfSome, IfNone, SomeIff};
ghost use Rattle.perft.specs.Answers.{IsCountFrom, IsFault, IsAnswer, IsRefusal, board_fault_name, fen_fault_name};
ghost use Rattle.perft.specs.Answers.{fault_name};

use crate::lines::count_lines;
use chess_board::BadBoard;
use chess_fen::{FenError, fen_read};
use chess_san::rewound;

/// Why there is no count.
#[derive(Clone, Copy)]
pub enum Fault {
    /// The line is not a depth from 0 to 255, a space and a text.
    Line,
    /// The FEN has a fault.
    Fen(FenError),
}

/// The count of the legal lines of `depth` moves from the position of a FEN. `Fen`: the text is the FEN of no valid
/// position. The counters do not matter to the count, so it is taken from where they have room.
pub fn count_from(fen: &str, depth: u8) -> Result<u64, Fault>
    ensures ok { IfOk result (IsCountFrom fen.now depth) }
    ensures fault { IfErr result (IsFault fen.now) }
{
    match fen_read(fen) {
        Ok(board) => Ok(count_lines(&rewound(&board), depth)),
        Err(fault) => Err(Fault::Fen(fault)),
    }
}

// The depth that digits name, in their one spelling.
fn depth_named(digits: &str) -> Option<u8>
    ensures named { IfSome result (λ depth. digits.now ≡ decimal depth) }
    ensures none { IfNone result ((depth : ℕ) → depth ≤ 255 → digits.now ≢ decimal depth) }
{
    match text_parts::number_named(digits) {
        Some(number) => below_8_bits(number),
        None => None,
    }
}

// A number, where 8 bits have it.
fn below_8_bits(number: u64) -> Option<u8>
    ensures { SomeIff result (number < 2 ^ 8) number }
{
    u8::try_from(number).ok()
}

/// The answer to a line `DEPTH FEN`. `Line`: it is not a depth from 0 to 255 without leading zeros, a space and a text;
/// else as `count_from`.
pub fn answer(line: &str) -> Result<u64, Fault>
    ensures ok { IfOk result (IsAnswer line.now) }
    ensures fault { IfErr result (IsRefusal line.now) }
{
    let Some((digits, fen)) = line.split_once(' ') else {
        return Err(Fault::Line);
    };
    match depth_named(digits) {
        Some(depth) => count_from(fen, depth),
        None => Err(Fault::Line),
    }
}

/// The name of a fault, that of its innermost part.
pub fn fault_name(fault: Fault) -> &'static str
    ensures { result.now ≡ fault_name fault }
{
    match fault {
        Fault::Line => "Line",
        Fault::Fen(fault) => fen_fault(fault),
    }
}

fn fen_fault(fault: FenError) -> &'static str
    ensures { result.now ≡ fen_fault_name fault }
{
    match fault {
        FenError::Shape => "Shape",
        FenError::Placement => "Placement",
        FenError::Side => "Side",
        FenError::Castling => "Castling",
        FenError::Target => "Target",
        FenError::Counter => "Counter",
        FenError::Board(fault) => board_fault(fault),
    }
}

fn board_fault(fault: BadBoard) -> &'static str
    ensures { result.now ≡ board_fault_name fault }
{
    match fault {
        BadBoard::Kings => "Kings",
        BadBoard::Pieces => "Pieces",
        BadBoard::Pawns => "Pawns",
        BadBoard::Check => "Check",
        BadBoard::Rights => "Rights",
        BadBoard::Target => "Target",
        BadBoard::Counter => "Counter",
    }
}
