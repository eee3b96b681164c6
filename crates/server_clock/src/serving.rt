//! The clock of a server whose games' clocks run only while it serves.
ghost use Rattle.std.specs.Prelude.{◌≡◌, ◌-◌, ◌≤◌, ◌↔◌, IsTrue};
ghost use Rattle.server_clock.specs.Pace.{IsHeld};
ghost use Rattle.server_clock.specs.Starting.{BeginsAt};
ghost use Rattle.server_clock.specs.Serving.{last_beat};

use crate::beats::Beats;
use crate::beside::{Beside, NOT_KEPT, reason_in};
use crate::pace::LONGEST_GAP;
use crate::slots::Beat;
use crate::starting::{first_moment, stood_still};
use crate::steady::{SteadyClock, system_moment};
use sector_dev::Device;
use server_telling::Teller;
use std::alloc::Global;
use std::fs;
use std::rt::{Clock, Files};
use text_parts::before;

/// Moments for the turns of a server, and what is done for them behind each.
pub trait TurnMoments {
    ghost use Rattle.std.specs.Prelude.{◌≡◌, ◌≤◌};
    ghost use Rattle.server_clock.specs.declared.pace.Pace.{Pace};
    ghost use Rattle.server_clock.specs.Pace.{GoesOn, IsHeld};

    /// The last moment, and the reading of the clock at which it was.
    ghost pace: { Self → Pace };

    /// The next moment, in milliseconds: what a reading of the clock makes of the last. None is before the last.
    fn next(&mut self) -> u64
        ensures goes { GoesOn (pace self.old) (pace self.new) }
        ensures rising { (pace self.old).moment ≤ result }
        ensures last { (pace self.new).moment ≡ result };

    /// The last reading of the monotonic clock, in milliseconds since it began.
    fn reading(&self) -> u64
        ensures { result ≡ (pace self.now).reading };

    /// Does what is due behind a turn. It is no moment's, and no time passes in it; all clocks may be stopped by it, or
    /// go on.
    fn tick(&mut self)
        ensures { IsHeld (pace self.old) (pace self.new) };
}

impl<R: Clock> TurnMoments for SteadyClock<'_, R> {
    ghost pace = { λ clock. clock.pace };

    fn next(&mut self) -> u64 {
        self.go_on()
    }

    fn reading(&self) -> u64 {
        self.pace().reading
    }

    fn tick(&mut self) {}
}

/// So many milliseconds lie between two beats.
const BEAT_EVERY: u64 = 1_000;

/// So many milliseconds lie between two looks whether all clocks are stopped.
const LOOK_EVERY: u64 = 100;

// Whether so many milliseconds have passed since a reading.
fn is_due(reading: u64, last: u64, every: u64) -> bool
    ensures { IsTrue result ↔ (every ≤ reading - last) }
{
    reading.saturating_sub(last) >= every
}

/// The clock of a server that keeps its moments over restarts, by beats in a file beside its journal, and stands still
/// while another file is there.
#[derive(Drop)]
pub struct ServingClock<'r, 't, 'b, R, D: Device> {
    steady: SteadyClock<'r, R>,
    rt: &'r R,
    alloc: Global,
    teller: &'t Teller<'t, R>,
    beside: &'b Beside,
    beats: Option<Beats<D>>,
    /// The readings at the last beat and the last look.
    beaten: u64,
    looked: u64,
}

// The last beat, where beats are kept.
fn last_of<D: Device>(beats: &Option<Beats<D>>) -> Option<Beat>
    ensures { result ≡ last_beat beats.now }
{
    match beats {
        Some(beats) => beats.last(),
        None => None,
    }
}

impl<'r, 't, 'b, R: Files + Clock + Eprint, D: Device + Drop> ServingClock<'r, 't, 'b, R, D> {
    /// Begins at the first moment of a life, by that of the journal's last entry, where it has one, and the last beat.
    /// For how long no clock ran is told.
    pub fn new(
        rt: &'r R,
        alloc: Global,
        teller: &'t Teller<'t, R>,
        beside: &'b Beside,
        entry: Option<u64>,
        beats: Option<Beats<D>>,
    ) -> Self
        ensures first { BeginsAt entry (last_beat beats) result.steady.pace.moment }
        ensures longest { result.steady.pace.longest ≡ 1000 }
    {
        let system = system_moment(rt);
        let last = last_of(&beats);
        let first = first_moment(system, entry, last);
        teller.stood_still(stood_still(system, first, last));
        let mut clock = ServingClock {
            steady: SteadyClock::starting(rt, first, LONGEST_GAP),
            rt,
            alloc,
            teller,
            beside,
            beats,
            beaten: 0,
            looked: 0,
        };
        clock.look();
        clock.beat();
        clock
    }

    // Looks whether all clocks are to stand still. Where the system does not say it, that stays as it was.
    fn look(&mut self)
        ensures { IsHeld self.old.steady.pace self.new.steady.pace }
    {
        let path = self.beside.stopped.as_str();
        let Ok(is_stopped) = fs::exists(self.rt, path) else {
            return;
        };
        if is_stopped == self.steady.pace().is_stopped {
            return;
        }
        self.steady.stop(is_stopped);
        if is_stopped {
            match reason_in(self.rt, self.alloc, path) {
                Ok(reason) => self.teller.stopped(path, before(reason.as_str(), '\n')),
                Err(_) => self.teller.stopped(path, ""),
            }
        } else {
            self.teller
                .explain(path, "it is gone, and the clocks go on");
        }
    }

    // Looks where so long has passed since the last look.
    fn look_when_due(&mut self, reading: u64)
        ensures { IsHeld self.old.steady.pace self.new.steady.pace }
    {
        if is_due(reading, self.looked, LOOK_EVERY) {
            self.looked = reading;
            self.look();
        }
    }

    // Keeps the moment. Where that fails it is told, and not tried again.
    fn beat(&mut self)
        ensures { self.new.steady ≡ self.old.steady }
    {
        let Some(beats) = &mut self.beats else {
            return;
        };
        let moment = self.steady.pace().moment;
        if beats.beat(moment, system_moment(self.rt)).is_err() {
            self.teller.explain(self.beside.clock.as_str(), NOT_KEPT);
            self.beats = None;
        }
    }

    // Keeps it where so long has passed since the last time.
    fn beat_when_due(&mut self, reading: u64)
        ensures { self.new.steady ≡ self.old.steady }
    {
        if is_due(reading, self.beaten, BEAT_EVERY) {
            self.beaten = reading;
            self.beat();
        }
    }
}

impl<R: Files + Clock + Eprint, D: Device + Drop> TurnMoments for ServingClock<'_, '_, '_, R, D> {
    ghost pace = { λ clock. clock.steady.pace };

    fn next(&mut self) -> u64 {
        self.steady.go_on()
    }

    fn reading(&self) -> u64 {
        self.steady.pace().reading
    }

    /// Keeps the moment once in a second, and looks ten times in one whether all clocks are stopped.
    fn tick(&mut self) {
        let reading = self.steady.pace().reading;
        self.look_when_due(reading);
        self.beat_when_due(reading);
    }
}
