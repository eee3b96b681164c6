ghost use Rattle.std.specs.Prelude.{◌≡◌, ◌^◌, ◌<◌};
ghost use Rattle.chess_clock.specs.SideTimes.{after_turn, with_penalty};

use crate::time_control::TimeControl;

/// What a wrong claim gives to the opponent, in milliseconds (FIDE article 9.5.3).
const PENALTY: u32 = 120_000;

/// A side's time.
#[derive(Clone, Copy)]
pub struct SideTime {
    /// The milliseconds that it held at the start of the running turn.
    pub held: u32,
    /// The moves that it has still to complete before its second period begins; 0 where the period has begun, and where
    /// there is none.
    pub to_go: u32,
}

impl SideTime {
    /// The time after a turn of so many milliseconds, which ended with a completed move before the flag fell.
    pub fn after_turn(self, control: TimeControl, length: u64) -> SideTime
        requires in_time { length < self.held }
        requires fits { (after_turn control self length).held < 2 ^ 32 }
        ensures { result ≡ after_turn control self length }
    {
        let mut held = self.held - length as u32 + control.increment_time();
        if self.to_go == 1 {
            held += control.second_time();
        }
        SideTime {
            held,
            to_go: self.to_go.saturating_sub(1),
        }
    }

    /// The time after a wrong claim of the opponent.
    pub fn with_penalty(self) -> SideTime
        requires { (with_penalty self).held < 2 ^ 32 }
        ensures { result ≡ with_penalty self }
    {
        SideTime {
            held: self.held + PENALTY,
            to_go: self.to_go,
        }
    }
}
