//! A clock that goes on by the monotonic one.
ghost use Rattle.std.specs.Prelude.{◌≡◌, ◌≤◌, ◌^◌, ◌-◌, false};

use crate::pace::Pace;
use sockets::milliseconds;
use std::rt::Clock;
use std::time::Instant;

/// The milliseconds since a reading of the monotonic clock; 0 where there is none, or no second one.
pub fn milliseconds_since(clock: &impl Clock, begun: Option<Instant>) -> u64 {
    match begun {
        Some(begun) => begun
            .elapsed(clock)
            .map_or(0, |passed| milliseconds(passed)),
        None => 0,
    }
}

/// The system's clock, in milliseconds since 1970: 0 before, and where the system has none.
pub(crate) fn system_moment(clock: &impl Clock) -> u64 {
    clock.since_1970().map_or(0, |passed| milliseconds(passed))
}

/// Moments that go on by the monotonic clock, which is never set: a jump of the system's clock changes nothing. They
/// never fall.
#[derive(Drop)]
pub struct SteadyClock<'a, R> {
    clock: &'a R,
    begun: Option<Instant>,
    pace: Pace,
}

impl<'a, R: Clock> SteadyClock<'a, R> {
    ghost use Rattle.server_clock.specs.Pace.{GoesOn};

    /// A clock that begins at the system's moment of now, and goes on by all that passes; without a monotonic clock it
    /// stands still.
    pub fn new(clock: &'a R) -> Self
        ensures longest { result.pace.longest ≡ 2 ^ 64 - 1 }
        ensures goes { result.pace.is_stopped ≡ false }
    {
        SteadyClock::starting(clock, system_moment(clock), u64::MAX)
    }

    /// A clock that begins at a moment, in milliseconds, and of a gap between two of its moments counts so many at
    /// most.
    pub fn starting(clock: &'a R, moment: u64, longest: u64) -> Self
        ensures { result.pace ≡ record { moment = moment; reading = 0; longest = longest; is_stopped = false } }
    {
        SteadyClock {
            clock,
            begun: Instant::now(clock).ok(),
            pace: Pace::starting(moment, longest),
        }
    }

    /// Where it stands.
    pub fn pace(&self) -> Pace
        ensures { result ≡ self.now.pace }
    {
        self.pace
    }

    /// Stops it, or has it go on, from the last moment on.
    pub fn stop(&mut self, is_stopped: bool)
        ensures { self.new.pace ≡ record self.old.pace { is_stopped = is_stopped } }
    {
        self.pace.stop(is_stopped);
    }

    /// The next moment, in milliseconds. What the monotonic clock tells is not promised, and which moment comes of it
    /// is.
    pub fn go_on(&mut self) -> u64
        ensures goes { GoesOn self.old.pace self.new.pace }
        ensures last { result ≡ self.new.pace.moment }
        ensures rising { self.old.pace.moment ≤ result }
    {
        self.pace.read(milliseconds_since(self.clock, self.begun));
        self.pace.moment
    }
}
