ghost use Rattle.std.specs.Prelude.{ℕ, ◌≡◌, ◌≢◌, ◌≤◌, ◌+◌, List, ◌++◌, length, min, true, false, [], IfSome, IfNone};
ghost use Rattle.std.specs.Prelude.{vec_len};
ghost use Rattle.std.specs.Vec.{vec_capacity};
ghost use Rattle.chess_board.specs.declared.moves.Move.{Move};
ghost use Rattle.rec_codec.specs.Limits.{ceiling};
ghost use Rattle.chess_entry.specs.Snapshot.{moves_record};
ghost use Rattle.chess_table.specs.Part.{HoldsMoves};

use chess_board::Move;
use rec_codec::{GameNumber, MoveList, Record};

// Appends the moves of a record.
fn append(moves: &mut Vec<Move>, run: &MoveList)
    requires { vec_len moves.old + length run.now ≤ vec_capacity moves.old }
    ensures moves { moves.new.items ≡ moves.old.items ++ run.now }
    ensures len { vec_len moves.new ≡ vec_len moves.old + length run.now }
    ensures capacity { vec_capacity moves.new ≡ vec_capacity moves.old }
{
    for place in 0..run.len() {
        moves.push_reserved(run.get(usize::from(place)));
    }
}

// The moves of a record that has the next of a game's, of which so many are still to come: 60, or the rest of them.
fn next_run(from: &Record, number: GameNumber, left: usize) -> Option<&MoveList>
    ensures run { IfSome result (λ run. from.now ≡ moves_record number run.now) }
    ensures whole { IfSome result (λ run. length run.now ≡ min 60 left) }
    ensures none { IfNone result ((run : List Move) → from.now ≡ moves_record number run → length run ≢ min 60 left) }
{
    match from {
        Record::Moves(part) => {
            if part.game.get() == number.get() && usize::from(part.moves.len()) == left.min(60) {
                Some(&part.moves)
            } else {
                None
            }
        }
        _ => None,
    }
}

/// Gathers the moves of a game from its records, one for each 60 moves begun; whether they hold just so many moves of
/// that game, cut as they must be. What stood in the buffer is lost.
pub fn gather(moves: &mut Vec<Move>, number: GameNumber, many: usize, records: &[Record]) -> bool
    requires room { many ≤ vec_capacity moves.old }
    requires records { length records.now ≡ ceiling many 60 }
    ensures whole { result ≡ true → HoldsMoves number many records.now moves.new.items }
    ensures none { result ≡ false → (all : List Move) → HoldsMoves number many records.now all → ⊥ }
{
    moves.clear();
    for record in records {
        let Some(run) = next_run(record, number, many - moves.len()) else {
            return false;
        };
        append(moves, run);
    }
    true
}
