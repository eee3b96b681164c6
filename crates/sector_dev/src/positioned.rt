// A file that is read and written at byte offsets.
ghost use Rattle.std.specs.Prelude.{◌≡◌, ℕ, Option, Some, Ok};
ghost use Rattle.sector_dev.specs.Device.{State, IsCoherent};
ghost use Rattle.sector_dev.specs.FileCalls.{IsReadAt, IsWriteAt, IsSync};

use std::io;

/// Whether a file still stands where it was opened.
#[derive(Clone, Copy)]
pub enum Standing {
    /// It has its name still, and so many bytes.
    Named(u64),
    /// Another has its name, or none: it was removed, renamed or replaced.
    Lost,
}

/// A file that is read and written at offsets, 512 bytes at a time. Where it keeps its bytes, its sector `n` is the 512
/// bytes from byte `512 * n` on, and what holds of the sectors of a device holds of these.
pub trait PositionedFile {
    ghost use Rattle.sector_dev.specs.declared.positioned.Standing.{Standing};

    /// What reads give and what a crash may leave, where the file keeps its bytes.
    ghost state: { Self → State };

    /// How many whole sectors it has, where it keeps its bytes.
    ghost sector_count: { Self → ℕ };

    /// What `standing` answers, where that is known beforehand.
    ghost known_standing: { Self → Option Standing };

    /// Reads 512 bytes from this offset on.
    fn read_at(&mut self, into: &mut [u8; 512], offset: u64) -> io::Result<()>
        ensures { IsReadAt state sector_count self.old self.new into.new offset result };

    /// Writes 512 bytes from this offset on.
    fn write_at(&mut self, from: &[u8; 512], offset: u64) -> io::Result<()>
        ensures { IsWriteAt state sector_count self.old self.new from.now offset result };

    /// Makes what was written last.
    fn sync(&mut self) -> io::Result<()>
        ensures { IsSync state sector_count self.old self.new result };

    /// Whether the file still has its name, and how many bytes it has. Nothing changes.
    fn standing(&self) -> io::Result<Standing>
        ensures known { (standing : Standing) → known_standing self.now ≡ Some standing → result ≡ Ok standing };

    /// The parts of the state belong together.
    ghost coherent: { (file : Self) → IsCoherent (sector_count file) (state file) };
}
