//! Sectors that somebody else may write while they are read.
ghost use Rattle.std.specs.Prelude.{◌≡◌, ◌<◌, ◌≤◌, ◌↔◌, ℕ, IfOk};
ghost use Rattle.sector_dev.specs.Image.{Sectors};
ghost use Rattle.sector_copy.specs.Source.{IsSeen, AreSlotsSeen};

use sector_dev::DeviceFault;

/// What the two header slots hold, sectors 0 and 1.
#[derive(Clone, Copy)]
pub struct Slots {
    pub zero: [u8; 512],
    pub one: [u8; 512],
}

/// Sectors of 512 bytes that are read and not written here, and that may change between one read and the next. Each
/// read gives what a sector holds at some moment between the call's start and its end.
pub trait Source {
    /// Whether it is told what reads give. Without it only the number of sectors is promised.
    ghost told: { Self → Type 0 };

    /// What the sectors are at each moment, past and to come.
    ghost image: { Self → ℕ → Sectors };

    /// The present moment. No read makes it smaller.
    ghost moment: { Self → ℕ };

    /// The number of sectors.
    ghost sector_count: { Self → ℕ };

    /// The number of sectors, which no read changes.
    fn sectors(&self) -> u32
        ensures { result ≡ sector_count self.now };

    /// What the two header slots hold at one moment.
    fn read_slots(&mut self) -> Result<Slots, DeviceFault>
        requires { 2 ≤ sector_count self.old }
        ensures sectors { sector_count self.new ≡ sector_count self.old }
        ensures told { told self.new ↔ told self.old }
        ensures image { told self.old → image self.new ≡ image self.old }
        ensures moment { told self.old → moment self.old ≤ moment self.new }
        ensures seen { told self.old → IfOk result (λ slots.
            AreSlotsSeen (image self.old) (moment self.old) (moment self.new) slots.zero slots.one) };

    /// What a sector holds.
    fn read(&mut self, at: u32, into: &mut [u8; 512]) -> Result<(), DeviceFault>
        requires { at < sector_count self.old }
        ensures sectors { sector_count self.new ≡ sector_count self.old }
        ensures told { told self.new ↔ told self.old }
        ensures image { told self.old → image self.new ≡ image self.old }
        ensures moment { told self.old → moment self.old ≤ moment self.new }
        ensures seen { told self.old → IfOk result (λ _.
            IsSeen (image self.old) (moment self.old) (moment self.new) at into.new) };
}
