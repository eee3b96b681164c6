//! The moment of a server, as the readings of a clock move it on.
ghost use Rattle.std.specs.Prelude.{◌≡◌, false};

/// A gap between two readings counts for so many milliseconds at most where games' clocks run only while a server
/// serves: in a longer one its process was held, and nobody could play.
pub const LONGEST_GAP: u64 = 1_000;

/// The moment of a server, and what moves it on.
#[derive(Clone, Copy)]
pub struct Pace {
    /// The moment, in milliseconds.
    pub moment: u64,
    /// The greatest reading of the clock so far, in milliseconds.
    pub reading: u64,
    /// So many milliseconds of a gap between two readings count at most.
    pub longest: u64,
    /// Whether all clocks are stopped.
    pub is_stopped: bool,
}

impl Pace {
    ghost use Rattle.std.specs.Prelude.{◌≤◌};
    ghost use Rattle.server_clock.specs.Pace.{read_at};

    /// Begins at a moment, and at the reading 0.
    pub fn starting(moment: u64, longest: u64) -> Pace
        ensures { result ≡ record { moment = moment; reading = 0; longest = longest; is_stopped = false } }
    {
        Pace {
            moment,
            reading: 0,
            longest,
            is_stopped: false,
        }
    }

    /// Moves on to a reading of the clock, in milliseconds. A clock that has gone back brings nothing.
    pub fn read(&mut self, reading: u64)
        ensures read { self.new ≡ read_at self.old reading }
        ensures rising { self.old.moment ≤ self.new.moment }
    {
        let passed = if self.is_stopped {
            0
        } else {
            reading.saturating_sub(self.reading).min(self.longest)
        };
        self.moment = self.moment.saturating_add(passed);
        self.reading = self.reading.max(reading);
    }

    /// Stops all clocks, or has them go on, from the last reading on.
    pub fn stop(&mut self, is_stopped: bool)
        ensures { self.new ≡ record self.old { is_stopped = is_stopped } }
    {
        self.is_stopped = is_stopped;
    }
}
