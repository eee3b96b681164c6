ghost use Rattle.std.specs.Prelude.{◌≡◌, ◌≤◌, ◌++◌, ◌∷◌, [], length, OnOk, OnErr};
ghost use Rattle.std.specs.List.{AllByRecursion};
ghost use Rattle.rec_codec.specs.Moves.{CanBecome};
ghost use Rattle.chess_entry.specs.Snapshot.{moves_record};
ghost use Rattle.chess_table.specs.Part.{IsFrontOf, HasHeadMore, HasRunsMore, HasGameMore};

use chess_board::Move;
use chess_game::Game;
use rec_codec::{GameNumber, MoveList, Moves, Record};
use std::alloc::AllocError;

// Appends the record of a game but for its moves.
fn put_head(records: &mut Vec<Record>, game: &Game) -> Result<(), AllocError>
    ensures ok { OnOk result (HasHeadMore records.old.items records.new.items game.now) }
    ensures err { OnErr result (records.new.items ≡ records.old.items) }
{
    records.extend_from_slice(&[Record::Head(game.head())])
}

// Appends the record of a run of moves.
fn put_run(records: &mut Vec<Record>, number: GameNumber, run: &[Move]) -> Result<(), AllocError>
    requires some { 1 ≤ length run.now }
    requires few { length run.now ≤ 60 }
    requires promotions { AllByRecursion (λ m. CanBecome m.promotion) run.now }
    ensures ok { OnOk result (records.new.items ≡ records.old.items ++ moves_record number run.now ∷ []) }
    ensures err { OnErr result (records.new.items ≡ records.old.items) }
{
    records.extend_from_slice(&[Record::Moves(Moves {
        game: number,
        moves: MoveList::new(run),
    })])
}

// Appends the records of moves, 60 a record. Where it fails, some of them may stand there.
fn put_moves(
    records: &mut Vec<Record>,
    number: GameNumber,
    moves: &[Move],
) -> Result<(), AllocError>
    requires { AllByRecursion (λ m. CanBecome m.promotion) moves.now }
    ensures ok { OnOk result (HasRunsMore records.old.items records.new.items number moves.now) }
    ensures err { OnErr result (IsFrontOf records.old.items records.new.items) }
{
    for run in moves.chunks(60) {
        put_run(records, number, run)?;
    }
    Ok(())
}

/// Appends a game's part of a snapshot: its head record, and its moves, 60 a record. It fails where memory is refused;
/// then the records that were there still are, and some of the game's may stand behind them.
pub fn push_game(records: &mut Vec<Record>, game: &Game) -> Result<(), AllocError>
    ensures written { OnOk result (HasGameMore records.old.items records.new.items game.now) }
    ensures refused { OnErr result (IsFrontOf records.old.items records.new.items) }
{
    put_head(records, game)?;
    put_moves(records, game.number(), game.moves())
}
