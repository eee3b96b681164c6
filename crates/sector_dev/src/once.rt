// A device of which one call fails.
ghost use Rattle.std.specs.Prelude.{◌≡◌, ◌≢◌, ◌⊎◌, ◌<◌, ◌+◌, ◌-◌, ◌↔◌, true, false, IsTrue, IsErr, OnOk, OnErr};
ghost use Rattle.sector_dev.specs.Calls.{IsReadCall, IsWriteCall, IsSyncCall};
ghost use Rattle.sector_dev.specs.Device.{IsPending, HasRisen, CountsFailure};

use crate::{Device, DeviceFault, Got};

/// A device of which one call fails, and later ones go on. All else is the device below: it keeps the model where that
/// one does.
#[derive(Drop)]
pub struct OnceDevice<D> {
    device: D,
    /// Which of the coming calls fails, counted from 1; 0 where none does.
    fails_in: u64,
    pending: bool,
    /// How often a call failed here.
    failures: u64,
}

impl<D: Device> OnceDevice<D> {
    /// The device, of which no call fails besides those that fail by themselves.
    pub fn new(device: D) -> OnceDevice<D>
        ensures device { result.device ≡ device }
        ensures fails_in { result.fails_in ≡ 0 }
        ensures failures { result.failures ≡ 0 }
    {
        OnceDevice {
            device,
            fails_in: 0,
            pending: false,
            failures: 0,
        }
    }

    /// Lets that one of the coming calls of `read`, `write`, `sync` and `barrier` fail, counted from 1 (none for 0),
    /// and no other. A write that fails so is pending where `pending` says so; a sync leaves the pending writes.
    pub fn fail_at(&mut self, call: u64, pending: bool)
        ensures device { self.new.device ≡ self.old.device }
        ensures fails_in { self.new.fails_in ≡ call }
        ensures pending { self.new.pending ≡ pending }
        ensures failures { self.new.failures ≡ self.old.failures }
    {
        self.fails_in = call;
        self.pending = pending;
    }

    /// The device below.
    pub fn into_device(self) -> D
        ensures { result ≡ self.device }
    {
        self.device
    }

    // Counts a call down. `Err`: it is the one that fails.
    fn fail_if_due(&mut self) -> Result<(), DeviceFault>
        ensures device { self.new.device ≡ self.old.device }
        ensures counted { self.new.fails_in ≡ self.old.fails_in - 1 }
        ensures pending { self.new.pending ≡ self.old.pending }
        ensures due { OnErr result (self.old.fails_in ≡ 1) }
        ensures not_due { OnOk result (self.old.fails_in ≢ 1) }
        ensures failures { CountsFailure result self.old.failures self.new.failures }
    {
        if is_due(&mut self.fails_in) {
            self.failures = self.failures.saturating_add(1);
            return Err(DeviceFault);
        }
        Ok(())
    }
}

// Whether this call is the one that fails. It counts down.
fn is_due(fails_in: &mut u64) -> bool
    ensures due { IsTrue result ↔ (fails_in.old ≡ 1) }
    ensures left { fails_in.new ≡ fails_in.old - 1 }
{
    let due = *fails_in == 1;
    *fails_in = fails_in.saturating_sub(1);
    due
}

impl<D: Device> Device for OnceDevice<D> {
    ghost state = { λ once. D.state once.device };

    ghost sector_count = { λ once. D.sector_count once.device };

    ghost failures = { λ once. D.failures once.device + once.failures };

    ghost calls_left = { λ once. D.calls_left once.device };

    ghost coherent = { λ once. D.coherent once.device };

    fn sectors(&self) -> u32 {
        self.device.sectors()
    }

    fn read(&mut self, at: u32, into: &mut [u8; 512]) -> Result<Got, DeviceFault>
        requires { at < D.sector_count self.old.device }
        ensures call { IsReadCall (λ once. D.state once.device) (λ once. D.sector_count once.device)
            (λ once. D.failures once.device + once.failures) (λ once. D.calls_left once.device)
            self.old self.new at into.new result }
        ensures counted { self.new.fails_in ≡ self.old.fails_in - 1 }
        ensures pending { self.new.pending ≡ self.old.pending }
        ensures fails { self.old.fails_in ≡ 1 → IsErr result × (self.new.device ≡ self.old.device) }
        // Any other call fails only where the device below does.
        ensures passes { self.old.fails_in ≢ 1
            → CountsFailure result (D.failures self.old.device) (D.failures self.new.device) }
    {
        self.fail_if_due()?;
        self.device.read(at, into)
    }

    fn write(&mut self, at: u32, from: &[u8; 512]) -> Result<(), DeviceFault>
        requires { at < D.sector_count self.old.device }
        ensures call { IsWriteCall (λ once. D.state once.device) (λ once. D.sector_count once.device)
            (λ once. D.failures once.device + once.failures) (λ once. D.calls_left once.device)
            self.old self.new at from.now result }
        ensures counted { self.new.fails_in ≡ self.old.fails_in - 1 }
        ensures pending { self.new.pending ≡ self.old.pending }
        ensures fails { self.old.fails_in ≡ 1 → IsErr result }
        ensures not_pending { self.old.fails_in ≡ 1 → self.old.pending ≡ false → self.new.device ≡ self.old.device }
        // It is pending, unless the device below failed besides.
        ensures is_pending { self.old.fails_in ≡ 1 → self.old.pending ≡ true → (D.state self.old.device).keeps_model
            → IsPending at from.now (D.state self.old.device) (D.state self.new.device)
            ⊎ HasRisen (D.failures self.old.device) (D.failures self.new.device) }
        ensures passes { self.old.fails_in ≢ 1
            → CountsFailure result (D.failures self.old.device) (D.failures self.new.device) }
    {
        match self.fail_if_due() {
            Ok(()) => self.device.write(at, from),
            Err(fault) => {
                if self.pending {
                    self.device.write(at, from)?;
                }
                Err(fault)
            }
        }
    }

    fn sync(&mut self) -> Result<(), DeviceFault>
        ensures call { IsSyncCall (λ once. D.state once.device) (λ once. D.sector_count once.device)
            (λ once. D.failures once.device + once.failures) (λ once. D.calls_left once.device)
            self.old self.new result }
        ensures counted { self.new.fails_in ≡ self.old.fails_in - 1 }
        ensures pending { self.new.pending ≡ self.old.pending }
        ensures fails { self.old.fails_in ≡ 1 → IsErr result × (self.new.device ≡ self.old.device) }
        ensures passes { self.old.fails_in ≢ 1
            → CountsFailure result (D.failures self.old.device) (D.failures self.new.device) }
    {
        self.fail_if_due()?;
        self.device.sync()
    }
}
