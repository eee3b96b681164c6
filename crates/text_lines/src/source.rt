//! Where bytes come from.
ghost use Rattle.std.specs.Prelude.{ℕ, ◌≡◌, ◌+◌, ◌-◌, ◌^◌, true, false, OnOk, OnErr};
ghost use Rattle.std.specs.Io.KnownBytes.{ReadConsumes};
ghost use Rattle.std.specs.Io.{ReadsAtMost};

use std::io::{ErrorKind, Read};

/// A reader has failed.
#[derive(Clone, Copy)]
pub(crate) struct ReadFault;

/// What is known of a reader that is read to its end. std's reads leave no trace of a failure in their clauses; here it
/// is marked.
#[derive(Drop)]
pub struct Reads {
    /// Whether a read failed, 4,294,967,295 pieces were read, or so many reads on end were interrupted.
    has_failed: bool,
    /// So many pieces may still be read.
    left: u32,
}

impl Reads {
    /// Nothing was read yet.
    pub fn new() -> Reads
        ensures works { result.has_failed ≡ false }
        ensures left { result.left ≡ 2 ^ 32 - 1 }
    {
        Reads {
            has_failed: false,
            left: u32::MAX,
        }
    }

    // The reader has failed.
    fn fail(&mut self) -> ReadFault
        ensures { self.new.has_failed ≡ true }
    {
        self.has_failed = true;
        ReadFault
    }
}

/// The next bytes of a reader: none at the end, or where there is no room for any. A read that a signal interrupts is
/// made again. A fault comes only where the reader failed, and nothing is lost by it.
pub(crate) fn next_piece<R: Read>(
    reader: &mut R,
    reads: &mut Reads,
    piece: &mut [u8],
) -> Result<usize, ReadFault>
    ensures bound { ReadsAtMost result piece.new }
    ensures bytes { ReadConsumes (R.remaining reader.old) (R.remaining reader.new) result piece.new }
    ensures works { OnOk result (reads.new.has_failed ≡ reads.old.has_failed) }
    ensures failed { OnErr result (reads.new.has_failed ≡ true) }
    ensures fewer { OnOk result (reads.new.left + 1 ≡ reads.old.left) }
{
    if reads.left == 0 {
        return Err(reads.fail());
    }
    reads.left -= 1;
    for _ in 0..u32::MAX {
        match reader.read(piece) {
            Ok(count) => return Ok(count),
            Err(error) => {
                if error.kind() != ErrorKind::Interrupted {
                    return Err(reads.fail());
                }
            }
        }
    }
    Err(reads.fail())
}
