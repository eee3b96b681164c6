// A device as its callers see it: what a read gives, and what a crash may leave.
ghost use Rattle.std.specs.Prelude.{◌≡◌, ◌<◌, ◌↔◌, List, ℕ, [], Option, Some, None};
ghost use Rattle.sector_dev.specs.Image.{Sectors, Write};
ghost use Rattle.sector_dev.specs.Device.{State, IsCoherent, IsUnchanged, IsStable, Elapses, HasStopped};
ghost use Rattle.sector_dev.specs.Calls.{IsReadCall, IsWriteCall, IsSyncCall};
ghost use Rattle.sector_dev.specs.Crash.{left_by, fates_of, IsOfDisk};

use thiserror::Error;

/// The device failed, or had no memory for a call.
#[derive(Clone, Copy, Debug, PartialEq, Eq, Error)]
#[error("the device failed, or had no memory for a call")]
pub struct DeviceFault;

/// What a read found.
#[derive(Clone, Copy, PartialEq, Eq)]
pub enum Got {
    /// The sector's 512 bytes.
    Whole,
    /// A sector that lost its bytes in a crash and was not written since. That is no failure.
    Unreadable,
}

/// What a sector holds.
#[derive(Clone, Copy)]
pub enum Sector {
    Bytes([u8; 512]),
    /// Nothing, until it is written again.
    Unreadable,
}

/// What becomes of a pending write in a crash.
#[derive(Clone, Copy)]
pub enum Fate {
    /// The sector is as though it had not been written.
    Lost,
    /// The sector has the bytes of the write.
    Kept,
    /// The sector is unreadable until it is written again.
    Unreadable,
}

/// Sectors of 512 bytes. Its clauses speak of the disk model: `docs/design/DISK.md` in words, `specs/Device.antt` for
/// what a caller can know, `specs/Calls.antt` for what each call does, `specs/Image.antt` for what a crash may leave. A
/// sector is named by its number, which callers keep below `sectors()`.
pub trait Device {
    /// What reads give and what a crash may leave, where the device keeps the model. Without it only the number of
    /// sectors and the two counts are promised.
    ghost state: { Self → State };

    /// The number of sectors.
    ghost sector_count: { Self → ℕ };

    /// How often the device has failed. At 2^64 - 1 the count stays.
    ghost failures: { Self → ℕ };

    /// At most so many more calls succeed, where that is limited. One may still fail for another reason.
    ghost calls_left: { Self → Option ℕ };

    /// The number of sectors, which no call changes.
    fn sectors(&self) -> u32
        ensures { result ≡ sector_count self.now };

    /// `Whole` with the sector's 512 bytes in `into`, or `Unreadable` with zeros in it; after `DeviceFault`, which
    /// comes with a failure counted, it may hold anything. Nothing changes.
    fn read(&mut self, at: u32, into: &mut [u8; 512]) -> Result<Got, DeviceFault>
        requires { at < sector_count self.old }
        ensures { IsReadCall state sector_count failures calls_left self.old self.new at into.new result };

    /// At `Ok` the write is pending. At `DeviceFault`, which comes with a failure counted, it may be. The other
    /// sectors are as before.
    fn write(&mut self, at: u32, from: &[u8; 512]) -> Result<(), DeviceFault>
        requires { at < sector_count self.old }
        ensures { IsWriteCall state sector_count failures calls_left self.old self.new at from.now result };

    /// At `Ok` what reads give is stable, with nothing pending. At `DeviceFault`, which comes with a failure counted,
    /// some of the pending writes may be stable.
    fn sync(&mut self) -> Result<(), DeviceFault>
        ensures { IsSyncCall state sector_count failures calls_left self.old self.new result };

    /// As `sync`, for use within what a later `sync` ends, before anybody is told that it lasts. A device that also
    /// looks whether it is still in its place may leave that to the later one.
    fn barrier(&mut self) -> Result<(), DeviceFault>
        ensures { IsSyncCall state sector_count failures calls_left self.old self.new result }
    {
        self.sync()
    }

    /// The parts of the state belong together.
    ghost coherent: { (device : Self) → IsCoherent (sector_count device) (state device) };
}

/// A device on which crashes can be played.
pub trait CrashDevice: Device {
    /// The stable values, sector by sector.
    ghost stable: { Self → Sectors };

    /// The pending writes, to whose places the crashes refer. That they are in the order of the calls is said by the
    /// clauses of a type, as `MemoryDevice`.
    ghost pending: { Self → List Write };

    /// How often the device has failed, as `failures` says it.
    fn failure_count(&self) -> u64
        ensures { result ≡ Self.failures self.now };

    /// The next `calls` calls of `read`, `write`, `sync` and `barrier` are served, unless they fail for another reason,
    /// and every later one fails, until a crash or until the device is armed again. Nothing else changes.
    fn arm(&mut self, calls: u64)
        ensures sectors { Self.sector_count self.new ≡ Self.sector_count self.old }
        ensures model { (Self.state self.new).keeps_model ↔ (Self.state self.old).keeps_model }
        ensures calls_left { Self.calls_left self.new ≡ Some calls }
        ensures failures { Self.failures self.new ≡ Self.failures self.old }
        ensures unchanged { (Self.state self.old).keeps_model
            → IsUnchanged (Self.state self.old) (Self.state self.new) }
        ensures time { (Self.state self.old).keeps_model
            → Elapses (Self.state self.old) (Self.state self.new) (Self.state self.old).image }
        ensures stable { (Self.state self.old).keeps_model → stable self.new ≡ stable self.old }
        ensures pending { (Self.state self.old).keeps_model → pending self.new ≡ pending self.old };

    /// A crash that gives each pending write its fate, by place; a missing place is `Lost`. Of the writes to one sector
    /// the last that is not lost decides. Then nothing is pending, calls are not limited any more, and the device has
    /// stopped once more. Time begins anew: moments from before it mean nothing after it.
    fn crash_as(&mut self, fates: &[Fate])
        ensures sectors { Self.sector_count self.new ≡ Self.sector_count self.old }
        ensures model { (Self.state self.new).keeps_model ↔ (Self.state self.old).keeps_model }
        ensures calls_left { Self.calls_left self.new ≡ None }
        ensures failures { Self.failures self.new ≡ Self.failures self.old }
        ensures left { (Self.state self.old).keeps_model
            → IsStable (left_by (stable self.old) (pending self.old) fates.now) (Self.state self.new) }
        ensures image { (Self.state self.old).keeps_model
            → (Self.state self.old).image (Self.state self.new).reads }
        ensures stable { (Self.state self.old).keeps_model
            → stable self.new ≡ left_by (stable self.old) (pending self.old) fates.now }
        ensures pending { (Self.state self.old).keeps_model → pending self.new ≡ [] }
        ensures stops { (Self.state self.old).keeps_model → HasStopped (Self.state self.old) (Self.state self.new) };

    /// As `crash_as`, where the writes whose place in `keep` is true are `Kept` and the others `Lost`.
    fn crash(&mut self, keep: &[bool])
        ensures sectors { Self.sector_count self.new ≡ Self.sector_count self.old }
        ensures model { (Self.state self.new).keeps_model ↔ (Self.state self.old).keeps_model }
        ensures calls_left { Self.calls_left self.new ≡ None }
        ensures failures { Self.failures self.new ≡ Self.failures self.old }
        ensures left { (Self.state self.old).keeps_model
            → IsStable (left_by (stable self.old) (pending self.old) (fates_of keep.now)) (Self.state self.new) }
        ensures image { (Self.state self.old).keeps_model
            → (Self.state self.old).image (Self.state self.new).reads }
        ensures stable { (Self.state self.old).keeps_model
            → stable self.new ≡ left_by (stable self.old) (pending self.old) (fates_of keep.now) }
        ensures pending { (Self.state self.old).keeps_model → pending self.new ≡ [] }
        ensures stops { (Self.state self.old).keeps_model → HasStopped (Self.state self.old) (Self.state self.new) };

    /// The state is that of the stable values and the pending writes.
    ghost of_disk: { (device : Self) → (Self.state device).keeps_model
        → IsOfDisk (stable device) (pending device) (Self.state device) };
}
