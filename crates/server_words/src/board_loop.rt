//! Answers the lines of a reader on a writer, over one board.
ghost use Rattle.std.specs.Prelude.{◌≡◌, ℕ, List, IfSome, OnOk, OnErr, IsErrOf};
ghost use Rattle.chess_board.specs.Position.{IsValid};
ghost use Rattle.chess_board.specs.Initial.{initial};
ghost use Rattle.server_words.specs.BoardRun.{IsBoardText, AppendsText, AppendsFront, AnswersTaken, AnswersInPart};
ghost use Rattle.server_words.specs.BoardRun.{BoardIsOfSource};

use crate::board_answer::answer;
use chess_board::Board;
use chess_fen::ShownBoard;
use std::convert::Infallible;
use std::io::{Read, Write};
use std::marker::Model;
use text_lines::{Answer, Answerer, LoopFault, Reads, answer_lines, without_return};

/// Why the loop broke off.
#[derive(Clone, Copy)]
pub enum BoardFault {
    /// A read failed, or reads did not come to an end.
    Read,
    /// A write failed.
    Write,
}

// One board, whose lines are answered.
#[derive(Drop)]
struct AnsweredBoard {
    board: ShownBoard,
}

impl Model for AnsweredBoard {
    ghost use Rattle.chess_board.specs.Position.{Position};

    ghost Value = { Position };

    ghost view = { λ answered. answered.board };
}

impl Answerer for AnsweredBoard {
    ghost use Rattle.chess_board.specs.Position.{IsValid};
    ghost use Rattle.server_words.specs.BoardAnswer.{IsAnswer};

    type Fault = Infallible;

    ghost is_ready = { IsValid };

    ghost answers = { IsAnswer };

    // Every line is answered.
    ghost breaks = { λ _ _ _ _. ⊥ };

    fn answer(&mut self, line: &[u8], said: &mut Answer) -> Result<(), Infallible> {
        said.line.clear();
        said.body = None;
        answer(&mut self.board, without_return(line), &mut said.line);
        Ok(())
    }
}

// The board on which a game starts.
fn start() -> AnsweredBoard
    ensures initial { result ≡ initial }
    ensures valid { IsValid result }
{
    AnsweredBoard {
        board: ShownBoard::new(Board::initial()),
    }
}

/// The same as `board`, of a reader whose failure is marked: `Read` comes of nothing else. The mark starts as
/// `Reads::new` gives it.
pub fn board_reads<R: Read, W: Write>(
    reader: &mut R,
    reads: &mut Reads,
    writer: &mut W,
) -> Result<(), BoardFault>
    ensures whole { OnOk result (IfSome (R.remaining reader.old)
        (AppendsText (W.contents writer.old) (W.contents writer.new))) }
    ensures front { OnErr result (IfSome (R.remaining reader.old)
        (AppendsFront (W.contents writer.old) (W.contents writer.new))) }
    ensures answered { OnOk result (AnswersTaken (R.remaining reader.old) (R.remaining reader.new)
        (W.contents writer.old) (W.contents writer.new)) }
    ensures read { IsErrOf result BoardFault.Read → AnswersTaken (R.remaining reader.old) (R.remaining reader.new)
        (W.contents writer.old) (W.contents writer.new) }
    ensures write { IsErrOf result BoardFault.Write → AnswersInPart (R.remaining reader.old) (R.remaining reader.new)
        (W.contents writer.old) (W.contents writer.new) }
    // `Read` comes exactly where the reader failed, by its mark.
    ensures cause { BoardIsOfSource result reads.old.has_failed reads.new.has_failed }
{
    let answered = start();
    let (_, ended) = answer_lines(answered, reader, reads, writer);
    match ended {
        Ok(()) => Ok(()),
        Err(LoopFault::LineTooLong) => Ok(()),
        Err(LoopFault::Read) => Err(BoardFault::Read),
        Err(LoopFault::Write) => Err(BoardFault::Write),
        Err(LoopFault::Unanswered(fault)) => match fault {},
    }
}

/// Answers the lines of the reader, from the initial position on, until the reader ends or a line is too long. `Read`:
/// a read failed, or 4,294,967,295 pieces were read (one that a signal interrupts is made again, and counts once).
/// `Write`: a write failed. It takes no memory.
pub fn board<R: Read, W: Write>(reader: &mut R, writer: &mut W) -> Result<(), BoardFault>
    // What is written is the text that the input calls for, and nothing else.
    ensures whole { OnOk result (IfSome (R.remaining reader.old)
        (AppendsText (W.contents writer.old) (W.contents writer.new))) }

    // At a fault it is a front of that text.
    ensures front { OnErr result (IfSome (R.remaining reader.old)
        (AppendsFront (W.contents writer.old) (W.contents writer.new))) }

    // Also of a reader that does not tell its bytes: all lines that were read are answered, but where a write failed,
    // and then something that they call for is not written.
    ensures answered { OnOk result (AnswersTaken (R.remaining reader.old) (R.remaining reader.new)
        (W.contents writer.old) (W.contents writer.new)) }
    ensures read { IsErrOf result BoardFault.Read → AnswersTaken (R.remaining reader.old) (R.remaining reader.new)
        (W.contents writer.old) (W.contents writer.new) }
    ensures write { IsErrOf result BoardFault.Write → AnswersInPart (R.remaining reader.old) (R.remaining reader.new)
        (W.contents writer.old) (W.contents writer.new) }

    // An input calls for one text.
    ensures one { (input text other : List ℕ) → IsBoardText input text → IsBoardText input other → text ≡ other }
{
    board_reads(reader, &mut Reads::new(), writer)
}
