//! One session from a reader to a writer.
ghost use Rattle.std.specs.Prelude.{ℕ, ◌≡◌, List, None, IfSome, OnOk, IsErrOf};
ghost use Rattle.std.specs.Io.KnownBytes.{Appends, IsAtEnd};
ghost use Rattle.sector_dev.specs.Device.{measures};
ghost use Rattle.text_lines.specs.Texts.{streams};
ghost use Rattle.chess_hub.specs.Running.{IsRunText, RunEnds, RunIsOfSource, stands};
ghost use Rattle.chess_hub.specs.Turning.{kept};

use crate::fault::HubFault;
use crate::moments::Moments;
use crate::talk::begin;
use chess_store::Store;
use sector_dev::Device;
use std::alloc::Global;
use std::io::{Read, Write};
use text_lines::{LoopFault, Reads, answer_lines};
use thiserror::Error;

/// Why a run ends before its input does.
#[derive(Clone, Copy, Debug, Error)]
pub enum RunFault {
    /// A read failed, or reads did not come to an end.
    #[error("a read failed, or reads did not come to an end")]
    Read,
    /// A write failed.
    #[error("a write failed")]
    Write,
    /// The hub refused a call.
    #[error("a line was not answered")]
    Hub(#[source] HubFault),
    /// A line was too long, and `bye LineTooLong` was written.
    #[error("a line has more than 255 bytes")]
    LineTooLong,
}

impl From<LoopFault<HubFault>> for RunFault {
    ghost use Rattle.std.specs.Prelude.{◌≡◌};
    ghost use Rattle.chess_hub.specs.Running.{of_loop};

    ghost from_gives = { λ fault made. made ≡ of_loop fault };

    fn from(fault: LoopFault<HubFault>) -> RunFault {
        match fault {
            LoopFault::Read => RunFault::Read,
            LoopFault::Write => RunFault::Write,
            LoopFault::LineTooLong => RunFault::LineTooLong,
            LoopFault::Unanswered(fault) => RunFault::Hub(fault),
        }
    }
}

/// The same as `run`, of a reader whose failure is marked: `Read` comes of nothing else. The mark starts as
/// `Reads::new` gives it.
pub fn run_reads<R: Read, W: Write, D: Device + Drop, M: Moments + Drop>(
    alloc: Global,
    reader: &mut R,
    reads: &mut Reads,
    writer: &mut W,
    store: Store<D>,
    moments: M,
) -> Result<(), RunFault>
    ensures whole { OnOk result (IfSome (R.remaining reader.old) (IsRunText
        (measures D.state D.sector_count D.failures) M.gives (kept store) moments (W.contents writer.old)
        (W.contents writer.new))) }
    ensures long { IsErrOf result RunFault.LineTooLong → IfSome (R.remaining reader.old) (IsRunText
        (measures D.state D.sector_count D.failures) M.gives (kept store) moments (W.contents writer.old)
        (W.contents writer.new)) }
    ensures ended { RunEnds (measures D.state D.sector_count D.failures) M.gives result
        (streams (R.remaining reader.old) (W.contents writer.old))
        (streams (R.remaining reader.new) (W.contents writer.new)) (stands (kept store) None moments) }
    ensures end { OnOk result (IsAtEnd (R.remaining reader.new)) }
    // `Read` comes exactly where the reader failed, by its mark.
    ensures cause { RunIsOfSource result reads.old.has_failed reads.new.has_failed }
{
    let talk = match begin(alloc, store, moments) {
        Ok(talk) => talk,
        Err(fault) => return Err(RunFault::Hub(fault)),
    };
    let (_, ended) = answer_lines(talk, reader, reads, writer);
    ended?;
    Ok(())
}

/// Answers the lines of a reader on a writer, as one session over a store, which it keeps: each whole line has a turn
/// of its own at the next of the moments, and each command is a batch of its own. The answers to the lines of one
/// piece, of at most 4,096 bytes, are gathered and written once all are answered, before that only as often as they
/// outgrow 65,536 bytes. It ends where the reader does; a rest without a line feed is no line.
///
/// `LineTooLong`: a line was, and `bye LineTooLong` was written. `Read`: a read failed, or 4,294,967,295 pieces were
/// read (one that a signal interrupts is made again, and counts once). `Write`: a write did. `Hub`: a line was refused
/// memory, or the store refused it; the answers before it were written.
pub fn run<R: Read, W: Write, D: Device + Drop, M: Moments + Drop>(
    alloc: Global,
    reader: &mut R,
    writer: &mut W,
    store: Store<D>,
    moments: M,
) -> Result<(), RunFault>
    // What is written is the text of what was read, and nothing else.
    ensures whole { OnOk result (IfSome (R.remaining reader.old) (IsRunText
        (measures D.state D.sector_count D.failures) M.gives (kept store) moments (W.contents writer.old)
        (W.contents writer.new))) }
    ensures long { IsErrOf result RunFault.LineTooLong → IfSome (R.remaining reader.old) (IsRunText
        (measures D.state D.sector_count D.failures) M.gives (kept store) moments (W.contents writer.old)
        (W.contents writer.new)) }

    // Also of a reader that does not tell its bytes: all lines that were read are answered. Where a write failed
    // something that they call for is not written; where the hub refused a line the answers to those before it are.
    ensures ended { RunEnds (measures D.state D.sector_count D.failures) M.gives result
        (streams (R.remaining reader.old) (W.contents writer.old))
        (streams (R.remaining reader.new) (W.contents writer.new)) (stands (kept store) None moments) }
    ensures end { OnOk result (IsAtEnd (R.remaining reader.new)) }
{
    run_reads(alloc, reader, &mut Reads::new(), writer, store, moments)
}
