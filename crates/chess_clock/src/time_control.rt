ghost use Rattle.std.specs.Prelude.{◌≡◌, ◌*◌, ◌≤◌, ◌↔◌, IsTrue, Option};
ghost use Rattle.chess_clock.specs.TimeControl.{time_control, IsTimeControl, moves_to_go, second_time};

use std::marker::Model;

/// The times that a game is played with, in seconds, within their ranges.
#[derive(Clone, Copy)]
pub struct TimeControl {
    initial: u32,
    increment: u32,
    /// The moves of the first period, and the seconds of the second.
    period: Option<(u32, u32)>,
}

impl Model for TimeControl {
    ghost use Rattle.chess_clock.specs.TimeControl as times;

    ghost Value = { times.TimeControl };

    ghost view = { λ c. times.time_control c.initial c.increment c.period };

    ghost invariant = { λ c. times.IsTimeControl (times.time_control c.initial c.increment c.period) };

    ghost inverse = { λ c. record { initial = c.initial; increment = c.increment; period = c.period } };
}

/// Whether these times may be set: 1 to 86,400 s to begin with, an increment of 0 to 60 s, and with a second period 1
/// to 255 moves before it and 1 to 86,400 s for it (our own choice).
pub fn is_time_control(initial: u32, increment: u32, period: Option<(u32, u32)>) -> bool
    ensures { IsTrue result ↔ IsTimeControl (time_control initial increment period) }
{
    let period_fits = match period {
        None => true,
        Some((moves, seconds)) => 1 <= moves && moves <= 255 && 1 <= seconds && seconds <= 86_400,
    };
    1 <= initial && initial <= 86_400 && increment <= 60 && period_fits
}

impl TimeControl {
    /// Times that are within their ranges.
    pub fn new(initial: u32, increment: u32, period: Option<(u32, u32)>) -> TimeControl
        requires { IsTimeControl (time_control initial increment period) }
        ensures { result ≡ time_control initial increment period }
    {
        TimeControl {
            initial,
            increment,
            period,
        }
    }

    /// The initial time, in milliseconds.
    pub fn initial_time(self) -> u32
        ensures time { result ≡ 1000 * self.initial }
        ensures at_most { result ≤ 86400000 }
    {
        self.initial * 1000
    }

    /// What each completed move adds, in milliseconds.
    pub fn increment_time(self) -> u32
        ensures time { result ≡ 1000 * self.increment }
        ensures at_most { result ≤ 60000 }
    {
        self.increment * 1000
    }

    /// What the second period adds, in milliseconds; 0 where there is none.
    pub fn second_time(self) -> u32
        ensures time { result ≡ second_time self.period }
        ensures at_most { result ≤ 86400000 }
    {
        match self.period {
            None => 0,
            Some((_, seconds)) => seconds * 1000,
        }
    }

    /// The moves that a side that has completed so many has still to complete before its second period begins; 0 where
    /// the period has begun, and where there is none.
    pub fn moves_to_go(self, completed: u32) -> u32
        ensures { result ≡ moves_to_go self.period completed }
    {
        match self.period {
            None => 0,
            Some((moves, _)) => moves.saturating_sub(completed),
        }
    }
}
