//! Moments by the system's monotonic clock.
ghost use Rattle.std.specs.Prelude.{◌≡◌, ◌^◌, ◌/◌, ◌-◌, min, ◌≤◌, IfOk};
ghost use Rattle.std.specs.Duration.{as_nanos};

use std::io;
use std::rt::Clock;
use std::time::{Duration, Instant};

/// So many milliseconds, as far as 64 bits count them.
pub fn milliseconds(time: Duration) -> u64
    ensures { result ≡ min (as_nanos time / 1_000_000) (2 ^ 64 - 1) }
{
    u64::try_from(time.as_millis()).unwrap_or(u64::MAX)
}

/// The milliseconds since it began, by the system's clock that is never set. They do not fall, and begin at 0.
#[derive(Drop)]
pub struct Moments<'a, R> {
    clock: &'a R,
    begun: Instant,
    // The moment that was told last.
    last: u64,
}

impl<'a, R: Clock> Moments<'a, R> {
    /// It begins. It fails where the system does not tell the time.
    pub fn new(clock: &'a R) -> io::Result<Self>
        ensures { IfOk result (λ moments. moments.last ≡ 0) }
    {
        Ok(Moments {
            clock,
            begun: Instant::now(clock)?,
            last: 0,
        })
    }

    /// The moment now, or the last one where the system does not tell it.
    pub fn next(&mut self) -> u64
        ensures rising { self.old.last ≤ result }
        ensures told { self.new.last ≡ result }
    {
        if let Ok(passed) = self.begun.elapsed(self.clock) {
            self.last = self.last.max(milliseconds(passed));
        }
        self.last
    }
}
