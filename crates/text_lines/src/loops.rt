//! The loop over the lines of a reader.
ghost use Rattle.std.specs.Prelude.{ℕ, ◌≡◌, List, [], ◌∷◌, ◌++◌, IfSome, OnOk, IsErrOf};
ghost use Rattle.std.specs.Io.KnownBytes.{Appends, IsAtEnd};
ghost use Rattle.text_lines.specs.Lines.{HasNoFeed, IsUnfinished};
ghost use Rattle.text_lines.specs.Texts.{IsText, IsOfSource, Ended, streams};
ghost use Rattle.text_lines.specs.Turns.{Takes, moment_of};

use crate::answerer::{Answer, Answerer, LoopFault};
use crate::outlet::{Ready, WriteFault, hand_out, say, say_answer};
use crate::source::{ReadFault, Reads, next_piece};
use crate::{LINE_ROOM, first_feed};
use arrayvec::{ArrayString, ArrayVec};
use std::io::{Read, Write};

/// Whether more lines are answered.
#[derive(Clone, Copy)]
enum Flow<F> {
    Open,
    /// A line was too long, and the farewell is said.
    TooLong,
    /// A line found no answer.
    Broken(F),
}

/// What came of taking bytes.
type Taking<F> = Result<Flow<F>, WriteFault>;

const PIECE_ROOM: usize = 4096;

/// Who answers, what has come of the next line, and the answers that are ready.
#[derive(Drop)]
struct LoopState<A> {
    answerer: A,
    line: ArrayVec<u8, LINE_ROOM>,
    ready: Ready,
}

// Answers a line that ends with its line feed.
fn answer_line<A: Answerer, W: Write>(
    answerer: &mut A,
    line: &[u8],
    ready: &mut Ready,
    writer: &mut W,
) -> Taking<A::Fault>
    requires asked { A.is_ready answerer.old }
    requires unfinished { IsUnfinished line.now }
    ensures { Takes A.is_ready A.answers A.breaks
        record { written = W.contents writer.old; ready = ready.old.bytes; answerer = answerer.old; held = line.now }
        (10 ∷ []) result
        record { written = W.contents writer.new; ready = ready.new.bytes; answerer = answerer.new; held = [] } }
{
    let mut said = Answer {
        line: ArrayString::new(),
        body: None,
    };
    match answerer.answer(line, &mut said) {
        Ok(()) => {
            say_answer(ready, &said, writer)?;
            Ok(Flow::Open)
        }
        Err(fault) => Ok(Flow::Broken(fault)),
    }
}

impl<A: Answerer> LoopState<A> {
    // Takes bytes of a line that does not end with them.
    fn take_part<W: Write>(&mut self, part: &[u8], writer: &mut W) -> Taking<A::Fault>
        requires asked { A.is_ready self.old.answerer }
        requires unfinished { IsUnfinished self.old.line.items }
        requires no_feed { HasNoFeed part.now }
        ensures { Takes A.is_ready A.answers A.breaks (moment_of self.old (W.contents writer.old)) part.now
            result (moment_of self.new (W.contents writer.new)) }
    {
        if self.line.remaining_capacity() < part.len() {
            say(&mut self.ready, "bye LineTooLong\n", writer)?;
            return Ok(Flow::TooLong);
        }
        self.line.try_extend_from_slice(part).unwrap();
        Ok(Flow::Open)
    }

    // Takes a line feed, and answers the line that it ends.
    fn end_line<W: Write>(&mut self, writer: &mut W) -> Taking<A::Fault>
        requires asked { A.is_ready self.old.answerer }
        requires unfinished { IsUnfinished self.old.line.items }
        ensures { Takes A.is_ready A.answers A.breaks (moment_of self.old (W.contents writer.old)) (10 ∷ [])
            result (moment_of self.new (W.contents writer.new)) }
    {
        let flow = answer_line(
            &mut self.answerer,
            self.line.as_slice(),
            &mut self.ready,
            writer,
        )?;
        self.line.clear();
        Ok(flow)
    }

    // Takes the rest of a line, and its line feed.
    fn take_line<W: Write>(&mut self, part: &[u8], writer: &mut W) -> Taking<A::Fault>
        requires asked { A.is_ready self.old.answerer }
        requires unfinished { IsUnfinished self.old.line.items }
        requires no_feed { HasNoFeed part.now }
        ensures { Takes A.is_ready A.answers A.breaks (moment_of self.old (W.contents writer.old)) (part.now ++ 10 ∷ [])
            result (moment_of self.new (W.contents writer.new)) }
    {
        // A line that came whole, as nearly all do, is answered where it lies.
        if self.line.is_empty() && part.len() <= LINE_ROOM {
            return answer_line(&mut self.answerer, part, &mut self.ready, writer);
        }
        match self.take_part(part, writer)? {
            Flow::Open => self.end_line(writer),
            Flow::TooLong => Ok(Flow::TooLong),
            Flow::Broken(fault) => Ok(Flow::Broken(fault)),
        }
    }

    // Takes the next bytes, in order, until a line is too long or finds no answer.
    fn take_piece<W: Write>(&mut self, piece: &[u8], writer: &mut W) -> Taking<A::Fault>
        requires asked { A.is_ready self.old.answerer }
        requires unfinished { IsUnfinished self.old.line.items }
        ensures { Takes A.is_ready A.answers A.breaks (moment_of self.old (W.contents writer.old)) piece.now
            result (moment_of self.new (W.contents writer.new)) }
    {
        let mut rest = piece;
        while let Some(end) = first_feed(rest) {
            match self.take_line(&rest[..end], writer)? {
                Flow::Open => rest = &rest[end + 1..],
                Flow::TooLong => return Ok(Flow::TooLong),
                Flow::Broken(fault) => return Ok(Flow::Broken(fault)),
            }
        }
        self.take_part(rest, writer)
    }

    // Takes the next bytes, and writes all answers to their lines.
    fn answer_piece<W: Write>(&mut self, piece: &[u8], writer: &mut W) -> Taking<A::Fault>
        requires asked { A.is_ready self.old.answerer }
        requires unfinished { IsUnfinished self.old.line.items }
        ensures taken { Takes A.is_ready A.answers A.breaks (moment_of self.old (W.contents writer.old)) piece.now
            result (moment_of self.new (W.contents writer.new)) }
        ensures empty { OnOk result (self.new.ready.bytes ≡ []) }
    {
        let flow = self.take_piece(piece, writer)?;
        hand_out(&mut self.ready, writer)?;
        Ok(flow)
    }

    // Takes all that comes, until a line is too long or finds no answer.
    fn answer_all<R: Read, W: Write>(
        &mut self,
        reader: &mut R,
        reads: &mut Reads,
        writer: &mut W,
    ) -> Result<(), LoopFault<A::Fault>>
        requires asked { A.is_ready self.old.answerer }
        requires empty { self.old.line.items ≡ [] }
        requires nothing { self.old.ready.bytes ≡ [] }
        ensures ended { Ended A.answers A.breaks result (streams (R.remaining reader.old) (W.contents writer.old))
            (streams (R.remaining reader.new) (W.contents writer.new)) self.old.answerer self.new.answerer }
        ensures end { OnOk result (IsAtEnd (R.remaining reader.new)) }
        ensures cause { IsOfSource result reads.old.has_failed reads.new.has_failed }
    {
        let mut piece = [0u8; PIECE_ROOM];
        loop {
            match next_piece(reader, reads, &mut piece) {
                Ok(0) => return Ok(()),
                Ok(count) => match self.answer_piece(&piece[..count], writer) {
                    Ok(Flow::Open) => {}
                    Ok(Flow::TooLong) => return Err(LoopFault::LineTooLong),
                    Ok(Flow::Broken(fault)) => return Err(LoopFault::Unanswered(fault)),
                    Err(WriteFault) => return Err(LoopFault::Write),
                },
                Err(ReadFault) => return Err(LoopFault::Read),
            }
        }
    }
}

/// Answers the lines of the reader on the writer until the reader ends, a line is too long or one finds no answer, and
/// hands who answers back. A piece has at most 4,096 bytes; the answers to its lines are gathered and written once all
/// are answered, before that only as often as they outgrow 65,536 bytes. Between the bytes of a line any number of
/// pieces may come; a rest without a line feed is no line. After a line that is too long the farewell is written.
/// `Read` exactly where the reader failed, by its mark.
pub fn answer_lines<A: Answerer + Drop, R: Read, W: Write>(
    answerer: A,
    reader: &mut R,
    reads: &mut Reads,
    writer: &mut W,
) -> (A, Result<(), LoopFault<A::Fault>>)
    requires asked { A.is_ready answerer }
    // Of a reader that tells its bytes: what is written is the text of the whole input.
    ensures whole { OnOk result.1 (IfSome (R.remaining reader.old) (λ input. (text : List ℕ)
        × IsText A.answers answerer input text result.0
        × Appends (W.contents writer.old) (W.contents writer.new) text)) }
    ensures long { IsErrOf result.1 LoopFault.LineTooLong → IfSome (R.remaining reader.old) (λ input. (text : List ℕ)
        × IsText A.answers answerer input text result.0
        × Appends (W.contents writer.old) (W.contents writer.new) text) }

    // Also of a reader that does not.
    ensures ended { Ended A.answers A.breaks result.1 (streams (R.remaining reader.old) (W.contents writer.old))
        (streams (R.remaining reader.new) (W.contents writer.new)) answerer result.0 }
    ensures end { OnOk result.1 (IsAtEnd (R.remaining reader.new)) }
    ensures cause { IsOfSource result.1 reads.old.has_failed reads.new.has_failed }
{
    let mut state = LoopState {
        answerer,
        line: ArrayVec::new(),
        ready: Ready::new(),
    };
    let ended = state.answer_all(reader, reads, writer);
    (state.answerer, ended)
}
