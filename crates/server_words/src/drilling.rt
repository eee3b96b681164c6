//! The word that plays the drill.
ghost use Rattle.std.specs.Prelude.{IfErr};
ghost use Rattle.server_words.specs.PlayFaults.{IsDrillFault};

use crate::{Fault, printed, told};
use chess_store::{StoreFault, Tally, drill};
use server_telling::Teller;
use std::alloc::Global;

// Plays the drill, and prints what came of it.
fn print_drill<R: Print + Eprint>(
    rt: &R,
    alloc: Global,
    teller: &Teller<'_, R>,
) -> Result<(), Fault>
    ensures { IfErr result IsDrillFault }
{
    let Ok(drilled) = drill(alloc) else {
        return Err(Fault::Store(StoreFault::NoMemory));
    };
    let Tally { cases, none, all } = match drilled.tally {
        Ok(tally) => tally,
        Err(fault) => return Err(Fault::Store(fault)),
    };
    printed(teller, println!(rt; "drill {cases} none {none} all {all}"))
}

/// Plays the drill, and prints what came of it as `drill C none N all A`: the cases, those in which no move of the
/// batch shows, and those in which all do.
pub fn tell_drill<R: Print + Eprint>(rt: &R, alloc: Global) -> Result<(), Fault>
    ensures { IfErr result IsDrillFault }
{
    let teller = Teller::new(rt, false);
    let drilled = print_drill(rt, alloc, &teller);
    told(&teller, "a device in memory", drilled)
}
