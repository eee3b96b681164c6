//! Lives on a device in memory, from the empty table.
ghost use Rattle.std.specs.Prelude.{IfOk};
ghost use Rattle.rec_codec.specs.declared.limits.Version.TheVariants.{Two};
ghost use Rattle.rec_codec.specs.Limits.{IsInRange};
ghost use Rattle.chess_store.specs.Lives.{AreSubmittable};
ghost use Rattle.chess_store.specs.Drill.{IsLivedInMemory};

use crate::Store;
use crate::living::lives;
use crate::plan::{Lived, Plan};
use rec_codec::{Limits, need};
use sector_dev::MemoryDevice;
use std::alloc::{AllocError, Global};

/// Lives the lives of a plan as `lives` does, on a new device in memory that has the sectors which the limits need, and
/// that is made a store of the empty table first. It answers the device that is left and what is reported of these
/// lives from the empty table, or the fault: of the lives `NoMemory`, `Worn` or `Device`, with the count of the entries
/// that may last or not; or `Device` with none, which the device counted while it was made a store. No other fault
/// comes. `AllocError`: memory was refused for the device.
pub fn lives_in_memory(
    alloc: Global,
    limits: Limits,
    plan: &Plan,
) -> Result<Lived<MemoryDevice>, AllocError>
    requires limits { IsInRange Two limits }
    requires batches { AreSubmittable plan.now.lives.items }
    ensures { IfOk result (λ lived. IsLivedInMemory limits plan.now.lives.items lived) }
{
    let device = MemoryDevice::new(alloc, need(limits))?;
    match Store::create(alloc, device, limits) {
        Ok(store) => Ok(lives(alloc, store.into_device(), plan)),
        Err(refused) => Ok(Lived {
            dev: refused.dev,
            report: Err(refused.fault),
        }),
    }
}
