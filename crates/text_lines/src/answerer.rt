//! Who answers lines.
ghost use Rattle.std.specs.Prelude.{ℕ, List, IfErr, OnOk};
ghost use Rattle.std.specs.Io.BufRead.{strip_last};
ghost use Rattle.text_lines.specs.Lines.{IsUnfinished};
ghost use Rattle.text_lines.specs.Texts.{as_text};

use arrayvec::ArrayString;

/// An answer to a line: a line without its line feed, and whole lines behind it, each with its own.
#[derive(Drop)]
pub struct Answer {
    pub line: ArrayString<160>,
    pub body: Option<String>,
}

/// Why a loop over lines ends before the input does.
#[derive(Clone, Copy)]
pub enum LoopFault<F> {
    /// A read failed, or reads did not come to an end.
    Read,
    /// A write failed.
    Write,
    /// A line was too long, and the farewell was written.
    LineTooLong,
    /// A line found no answer.
    Unanswered(F),
}

/// Answers lines, one after the other.
pub trait Answerer {
    /// Why a line finds no answer.
    type Fault: Copy;

    /// It may be asked.
    ghost is_ready: { Self → Type 0 };

    /// At this state a line, without a carriage return at its end, is answered with this text, and that state comes.
    ghost answers: { Self → List ℕ → List ℕ → Self → Type 0 };

    /// At this state a line finds no answer, for this reason, and that state comes.
    ghost breaks: { Self → List ℕ → Self.Fault → Self → Type 0 };

    /// Answers a line that came before a line feed, and writes the answer over what stands in `said`, since an answer
    /// is dear to move. After a fault it is not asked again.
    fn answer(&mut self, line: &[u8], said: &mut Answer) -> Result<(), Self::Fault>
        requires ready { is_ready self.old }
        requires unfinished { IsUnfinished line.now }
        ensures answered { OnOk result (answers self.old (strip_last 13 line.now) (as_text said.new) self.new) }
        ensures ready { OnOk result (is_ready self.new) }
        ensures broken { IfErr result (λ fault. breaks self.old (strip_last 13 line.now) fault self.new) };
}
