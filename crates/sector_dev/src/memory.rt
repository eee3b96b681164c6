// A device in memory: the values that were stable when its record began, and the record of the calls since.
ghost use Rattle.std.specs.Prelude.{◌≡◌, ◌⊎◌, ◌<◌, ◌^◌, ◌++◌, ◌∷◌, ◌↔◌, [], false, map, length, slice_set, Some, None};
ghost use Rattle.std.specs.Prelude.{IsErr, IfOk, OnOk, OnErr, vec_len, vec_capacity, ◌≤◌, ◌+◌};
ghost use Rattle.sector_dev.specs.declared.device.Sector.TheVariants.{Bytes};
ghost use Rattle.sector_dev.specs.Device.{IsUnchanged, IsStable, Elapses, HasStopped, CountsFailure, TakesOne};
ghost use Rattle.sector_dev.specs.Device.{one_less};
ghost use Rattle.sector_dev.specs.Calls.{IsReadCall, IsWriteCall, IsSyncCall};
ghost use Rattle.sector_dev.specs.Whole.{AreWhole, AreWholeWrites};
ghost use Rattle.sector_dev.specs.Image.{applied};
ghost use Rattle.sector_dev.specs.Crash.{left_by, fates_of, kept_or_lost};
ghost use Rattle.sector_dev.specs.Memory.{shown, disk_after, at_rest, writes_of, IsUnsynced, IsSettledAt};
ghost use Rattle.sector_dev.specs.Replay.{recorded_is_coherent};

use crate::{CrashDevice, Device, DeviceFault, Fate, Got, Sector};
use std::alloc::{AllocError, Global};

/// A recorded call.
#[derive(Clone, Copy)]
pub enum Call {
    /// A write of these bytes to the sector with this number, also one that failed and is pending.
    Written(u32, [u8; 512]),
    /// A sync that answered `Ok`.
    Synced,
}

/// A device in memory, on which every crash can be played. It always keeps the model. It records its writes and syncs,
/// and a write or sync for which memory is refused counts as a failure and changes nothing that reads or crashes show.
#[derive(Drop)]
pub struct MemoryDevice {
    /// The values that were stable when the record began.
    base: Vec<Sector>,
    /// What reads give.
    seen: Vec<Sector>,
    calls: Vec<Call>,
    calls_left: Option<u64>,
    /// Whether, since it was armed, a write that failed became pending.
    failed_pending: bool,
    failures: u64,
    /// How often it has crashed, of which the clauses speak; at 2^64 - 1 it stays.
    stops: u64,
    ghost fits: { length base.items < 2 ^ 32 },
    ghost is_shown: { seen.items ≡ shown (disk_after (at_rest base.items) calls.items) },
    ghost whole: { AreWhole base.items },
    ghost whole_writes: { AreWholeWrites (writes_of calls.items) },
}

impl MemoryDevice {
    ghost use Rattle.sector_dev.specs.InMemory.{IsZeroed, state_of, sector_count_of, room_of, KeepsDisk};

    /// A device of zeros, all of them stable, whose calls are not limited. `AllocError` where memory for twice its
    /// sectors is refused.
    pub fn new(alloc: Global, sectors: u32) -> Result<MemoryDevice, AllocError>
        ensures { IfOk result (λ device. IsZeroed sectors device) }
    {
        let mut base = Vec::new(alloc);
        base.resize(sectors as usize, Sector::Bytes([0; 512]))?;
        let mut seen = Vec::new(alloc);
        seen.extend_from_slice(&base)?;
        Ok(MemoryDevice {
            base,
            seen,
            calls: Vec::new(alloc),
            calls_left: None,
            failed_pending: false,
            failures: 0,
            stops: 0,
        })
    }

    /// Takes memory for so many writes and syncs: of as many, none fails for want of it. Nothing else changes.
    /// `AllocError` where it is refused.
    pub fn reserve(&mut self, calls: usize) -> Result<(), AllocError>
        ensures room { OnOk result (calls ≤ room_of self.new) }
        ensures sectors { sector_count_of self.new ≡ sector_count_of self.old }
        ensures unchanged { IsUnchanged (state_of self.old) (state_of self.new) }
        ensures time { Elapses (state_of self.old) (state_of self.new) (state_of self.old).image }
        ensures disk { KeepsDisk self.old self.new }
        ensures calls_left { self.new.calls_left ≡ self.old.calls_left }
        ensures failures { self.new.failures ≡ self.old.failures }
    {
        self.calls.reserve(calls)
    }
}

// Takes one of the calls that are left.
fn take_one(calls_left: &mut Option<u64>, failures: &mut u64) -> Result<(), DeviceFault>
    ensures taken { TakesOne result calls_left.old calls_left.new }
    ensures left { calls_left.new ≡ one_less calls_left.old }
    ensures variant { IsErr result ↔ (calls_left.old ≡ Some 0) }
    ensures cause { CountsFailure result failures.old failures.new }
{
    match *calls_left {
        Some(0) => {
            *failures = failures.saturating_add(1);
            Err(DeviceFault)
        }
        Some(left) => {
            *calls_left = Some(left - 1);
            Ok(())
        }
        None => Ok(()),
    }
}

// Records a call.
fn note(calls: &mut Vec<Call>, call: Call, failures: &mut u64) -> Result<(), DeviceFault>
    ensures ok { OnOk result (calls.new.items ≡ calls.old.items ++ call ∷ []) }
    ensures err { OnErr result (calls.new.items ≡ calls.old.items) }
    ensures full { OnErr result (vec_capacity calls.old ≤ vec_len calls.old) }
    ensures room { vec_capacity calls.old + vec_len calls.new ≤ vec_capacity calls.new + vec_len calls.old + 1 }
    ensures cause { CountsFailure result failures.old failures.new }
{
    if calls.push(call).is_err() {
        *failures = failures.saturating_add(1);
        return Err(DeviceFault);
    }
    Ok(())
}

// Makes a write pending, or does nothing for want of memory.
fn put(
    seen: &mut Vec<Sector>,
    calls: &mut Vec<Call>,
    at: u32,
    from: &[u8; 512],
    failures: &mut u64,
) -> Result<(), DeviceFault>
    requires { at < length seen.old.items }
    ensures calls { OnOk result (calls.new.items ≡ calls.old.items ++ Call.Written at from.now ∷ []) }
    ensures seen { OnOk result (seen.new.items ≡ slice_set seen.old.items at (Bytes from.now)) }
    ensures calls_err { OnErr result (calls.new.items ≡ calls.old.items) }
    ensures seen_err { OnErr result (seen.new.items ≡ seen.old.items) }
    ensures full { OnErr result (vec_capacity calls.old ≤ vec_len calls.old) }
    ensures room { vec_capacity calls.old + vec_len calls.new ≤ vec_capacity calls.new + vec_len calls.old + 1 }
    ensures cause { CountsFailure result failures.old failures.new }
{
    note(calls, Call::Written(at, *from), failures)?;
    seen[at as usize] = Sector::Bytes(*from);
    Ok(())
}

impl Device for MemoryDevice {
    ghost use Rattle.sector_dev.specs.InMemory.{disk_of, sector_count_of, state_of, room_of, IsStopped, KeepsDisk};
    ghost use Rattle.sector_dev.specs.InMemory.{IsRefused, Pends, IsFirstFailed};
    ghost use Rattle.sector_dev.specs.Memory.{step};
    ghost use Rattle.sector_dev.specs.declared.memory.Call.TheVariants.{Synced};

    ghost state = { state_of };

    ghost sector_count = { sector_count_of };

    ghost failures = { λ m. m.failures };

    ghost calls_left = { λ m. m.calls_left };

    ghost coherent = { λ m. recorded_is_coherent m.base.items m.calls.items m.whole m.whole_writes };

    fn sectors(&self) -> u32 {
        self.base.len() as u32
    }

    /// It takes no memory, so it fails only where the device is armed and no call is left.
    fn read(&mut self, at: u32, into: &mut [u8; 512]) -> Result<Got, DeviceFault>
        requires { at < sector_count_of self.old }
        ensures call { IsReadCall state_of sector_count_of (λ m. m.failures) (λ m. m.calls_left) self.old self.new
            at into.new result }
        ensures taken { self.new.calls_left ≡ one_less self.old.calls_left }
        ensures disk { KeepsDisk self.old self.new }
        ensures fails { IsErr result ↔ (self.old.calls_left ≡ Some 0) }
        ensures room { room_of self.new ≡ room_of self.old }
    {
        take_one(&mut self.calls_left, &mut self.failures)?;
        match &self.seen[at as usize] {
            Sector::Bytes(bytes) => {
                *into = *bytes;
                Ok(Got::Whole)
            }
            Sector::Unreadable => {
                *into = [0; 512];
                Ok(Got::Unreadable)
            }
        }
    }

    /// Of the writes that fail because the device is armed, the first for which there is memory is pending, and the
    /// others are not. One that fails for want of memory is not pending. It fails for no other reason.
    fn write(&mut self, at: u32, from: &[u8; 512]) -> Result<(), DeviceFault>
        requires { at < sector_count_of self.old }
        ensures call { IsWriteCall state_of sector_count_of (λ m. m.failures) (λ m. m.calls_left) self.old self.new
            at from.now result }
        ensures taken { self.new.calls_left ≡ one_less self.old.calls_left }
        ensures pending { OnOk result (Pends at from.now self.old self.new) }
        ensures failed_pending { OnOk result (self.new.failed_pending ≡ self.old.failed_pending) }
        ensures failed { OnErr result (IsRefused self.old self.new ⊎ IsFirstFailed at from.now self.old self.new) }
        ensures served { OnErr result (IsStopped self.old) }
        ensures room { room_of self.old ≤ room_of self.new + 1 }
    {
        let taken = take_one(&mut self.calls_left, &mut self.failures);
        if taken.is_err() && self.failed_pending {
            return taken;
        }
        put(
            &mut self.seen,
            &mut self.calls,
            at,
            from,
            &mut self.failures,
        )?;
        self.failed_pending |= taken.is_err();
        taken
    }

    /// One that fails leaves the pending writes as they are. It fails only where no call is left or memory is refused.
    fn sync(&mut self) -> Result<(), DeviceFault>
        ensures call { IsSyncCall state_of sector_count_of (λ m. m.failures) (λ m. m.calls_left) self.old self.new
            result }
        ensures taken { self.new.calls_left ≡ one_less self.old.calls_left }
        ensures settled { OnOk result (disk_of self.new ≡ step (disk_of self.old) Synced) }
        ensures failed_pending { OnOk result (self.new.failed_pending ≡ self.old.failed_pending) }
        ensures failed { OnErr result (KeepsDisk self.old self.new) }
        ensures served { OnErr result (IsStopped self.old) }
        ensures room { room_of self.old ≤ room_of self.new + 1 }
    {
        take_one(&mut self.calls_left, &mut self.failures)?;
        note(&mut self.calls, Call::Synced, &mut self.failures)?;
        Ok(())
    }
}

// How many of the calls stand up to the last sync, it included.
fn settled(calls: &[Call]) -> usize
    ensures { IsSettledAt calls.now result }
{
    let mut settled = 0;
    for (at, call) in calls.iter().enumerate() {
        if let Call::Synced = call {
            settled = at + 1;
        }
    }
    settled
}

// Makes the writes among these calls.
fn redo(sectors: &mut [Sector], calls: &[Call])
    ensures { sectors.new ≡ applied sectors.old (writes_of calls.now) }
{
    for call in calls {
        redo_one(sectors, call, Fate::Kept);
    }
}

// Gives a write its fate.
fn redo_one(sectors: &mut [Sector], call: &Call, fate: Fate)
    ensures { sectors.new ≡ left_by sectors.old (writes_of (call.now ∷ [])) (fate ∷ []) }
{
    if let Call::Written(at, value) = call {
        if (*at as usize) < sectors.len() {
            match fate {
                Fate::Lost => {}
                Fate::Kept => sectors[*at as usize] = Sector::Bytes(*value),
                Fate::Unreadable => sectors[*at as usize] = Sector::Unreadable,
            }
        }
    }
}

// What tells the fate of a write.
trait TellsFate {
    ghost use Rattle.sector_dev.specs.declared.device.Fate.{Fate};

    ghost fate_of: { Self → Fate };

    fn fate(&self) -> Fate
        ensures { result ≡ fate_of self.now };
}

impl TellsFate for Fate {
    ghost fate_of = { λ fate. fate };

    fn fate(&self) -> Fate {
        *self
    }
}

impl TellsFate for bool {
    ghost fate_of = { kept_or_lost };

    fn fate(&self) -> Fate {
        if *self { Fate::Kept } else { Fate::Lost }
    }
}

// Gives each of these writes its fate.
fn redo_as<F: TellsFate>(sectors: &mut [Sector], calls: &[Call], fates: &[F])
    requires { IsUnsynced calls.now }
    ensures { sectors.new ≡ left_by sectors.old (writes_of calls.now) (map F.fate_of fates.now) }
{
    for (place, write) in calls.iter().enumerate() {
        if place < fates.len() {
            redo_one(sectors, write, fates[place].fate());
        }
    }
}

// Makes the writes that a sync has settled, and gives each later one its fate.
fn play<F: TellsFate>(sectors: &mut [Sector], calls: &[Call], fates: &[F])
    ensures { let disk = disk_after (at_rest sectors.old) calls.now in
        sectors.new ≡ left_by disk.stable disk.pending (map F.fate_of fates.now) }
{
    let settled = settled(calls);
    redo(sectors, &calls[..settled]);
    redo_as(sectors, &calls[settled..], fates);
}

impl MemoryDevice {
    ghost use Rattle.sector_dev.specs.InMemory.{disk_of, sector_count_of, state_of, room_of};

    // A crash: what these fates leave is stable, and nothing is pending.
    fn crash_by<F: TellsFate>(&mut self, fates: &[F])
        ensures sectors { sector_count_of self.new ≡ sector_count_of self.old }
        ensures disk { disk_of self.new
            ≡ at_rest (left_by (disk_of self.old).stable (disk_of self.old).pending (map F.fate_of fates.now)) }
        ensures left { IsStable
            (left_by (disk_of self.old).stable (disk_of self.old).pending (map F.fate_of fates.now))
            (state_of self.new) }
        ensures image { (state_of self.old).image (state_of self.new).reads }
        ensures calls_left { self.new.calls_left ≡ None }
        ensures failures { self.new.failures ≡ self.old.failures }
        ensures failed_pending { self.new.failed_pending ≡ false }
        ensures stops { HasStopped (state_of self.old) (state_of self.new) }
        ensures room { room_of self.old ≤ room_of self.new }
    {
        play(&mut self.base, &self.calls, fates);
        self.seen.copy_from_slice(&self.base);
        self.calls.clear();
        self.calls_left = None;
        self.failed_pending = false;
        self.stops = self.stops.saturating_add(1);
    }
}

impl CrashDevice for MemoryDevice {
    ghost use Rattle.std.specs.Prelude.{refl};
    ghost use Rattle.sector_dev.specs.InMemory.{disk_of, sector_count_of, state_of, room_of};

    ghost stable = { λ m. (disk_of m).stable };

    ghost pending = { λ m. (disk_of m).pending };

    ghost of_disk = { λ m model. record { images = λ c. (λ i. i, λ i. i); reads = refl } };

    fn failure_count(&self) -> u64 {
        self.failures
    }

    fn arm(&mut self, calls: u64)
        ensures sectors { sector_count_of self.new ≡ sector_count_of self.old }
        ensures model { (state_of self.new).keeps_model ↔ (state_of self.old).keeps_model }
        ensures calls_left { self.new.calls_left ≡ Some calls }
        ensures failures { self.new.failures ≡ self.old.failures }
        ensures unchanged { (state_of self.old).keeps_model
            → IsUnchanged (state_of self.old) (state_of self.new) }
        ensures time { (state_of self.old).keeps_model
            → Elapses (state_of self.old) (state_of self.new) (state_of self.old).image }
        ensures stable { (state_of self.old).keeps_model
            → (disk_of self.new).stable ≡ (disk_of self.old).stable }
        ensures pending { (state_of self.old).keeps_model
            → (disk_of self.new).pending ≡ (disk_of self.old).pending }
        ensures failed_pending { self.new.failed_pending ≡ false }
        ensures room { room_of self.new ≡ room_of self.old }
    {
        self.calls_left = Some(calls);
        self.failed_pending = false;
    }

    fn crash_as(&mut self, fates: &[Fate])
        ensures sectors { sector_count_of self.new ≡ sector_count_of self.old }
        ensures model { (state_of self.new).keeps_model ↔ (state_of self.old).keeps_model }
        ensures calls_left { self.new.calls_left ≡ None }
        ensures failures { self.new.failures ≡ self.old.failures }
        ensures left { (state_of self.old).keeps_model
            → IsStable (left_by (disk_of self.old).stable (disk_of self.old).pending fates.now) (state_of self.new) }
        ensures image { (state_of self.old).keeps_model → (state_of self.old).image (state_of self.new).reads }
        ensures stable { (state_of self.old).keeps_model
            → (disk_of self.new).stable ≡ left_by (disk_of self.old).stable (disk_of self.old).pending fates.now }
        ensures pending { (state_of self.old).keeps_model → (disk_of self.new).pending ≡ [] }
        ensures stops { (state_of self.old).keeps_model → HasStopped (state_of self.old) (state_of self.new) }
        ensures failed_pending { self.new.failed_pending ≡ false }
        ensures room { room_of self.old ≤ room_of self.new }
    {
        self.crash_by(fates);
    }

    fn crash(&mut self, keep: &[bool])
        ensures sectors { sector_count_of self.new ≡ sector_count_of self.old }
        ensures model { (state_of self.new).keeps_model ↔ (state_of self.old).keeps_model }
        ensures calls_left { self.new.calls_left ≡ None }
        ensures failures { self.new.failures ≡ self.old.failures }
        ensures left { (state_of self.old).keeps_model
            → IsStable (left_by (disk_of self.old).stable (disk_of self.old).pending (fates_of keep.now))
            (state_of self.new) }
        ensures image { (state_of self.old).keeps_model → (state_of self.old).image (state_of self.new).reads }
        ensures stable { (state_of self.old).keeps_model
            → (disk_of self.new).stable
            ≡ left_by (disk_of self.old).stable (disk_of self.old).pending (fates_of keep.now) }
        ensures pending { (state_of self.old).keeps_model → (disk_of self.new).pending ≡ [] }
        ensures stops { (state_of self.old).keeps_model → HasStopped (state_of self.old) (state_of self.new) }
        ensures failed_pending { self.new.failed_pending ≡ false }
        ensures room { room_of self.old ≤ room_of self.new }
    {
        self.crash_by(keep);
    }
}
