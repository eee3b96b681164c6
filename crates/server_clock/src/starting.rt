//! The first moment of a server's life.
ghost use Rattle.std.specs.Prelude.{◌≡◌};
ghost use Rattle.server_clock.specs.Starting as spec;

use crate::slots::Beat;

/// The first moment of a life, in milliseconds: the later of the last entry's and the last beat's. The system's clock
/// is asked alone where there is neither.
pub fn first_moment(system: u64, entry: Option<u64>, beat: Option<Beat>) -> u64
    ensures { result ≡ spec.first_moment system entry beat }
{
    match (entry, beat) {
        (None, None) => system,
        (Some(entry), None) => entry,
        (None, Some(beat)) => beat.moment,
        (Some(entry), Some(beat)) => entry.max(beat.moment),
    }
}

/// For how many milliseconds the clocks stood still before a life that begins at the moment `first`, by the system's
/// clock; 0 where that was set back.
pub fn stood_still(system: u64, first: u64, beat: Option<Beat>) -> u64
    ensures { result ≡ spec.stood_still system first beat }
{
    match beat {
        None => system.saturating_sub(first),
        Some(beat) => {
            let ran = first.saturating_sub(beat.moment);
            system.saturating_sub(beat.system.saturating_add(ran))
        }
    }
}
