ghost use Rattle.std.specs.Prelude.{◌≡◌, ◌^◌, ◌<◌, ◌≤◌, ◌↔◌, IsTrue, false, [], ◌∷◌};
ghost use Rattle.chess_bits.specs.Man.{other};
ghost use Rattle.chess_clock.specs.TimeControl.{time_control, IsTimeControl, moves_to_go};
ghost use Rattle.chess_clock.specs.ClockState.{started, time_of, left, HasFallen, clock_after, turn_ended, stopped_at};
ghost use Rattle.chess_clock.specs.ClockState.{with_time, IsNotBefore, TimesFit};

use crate::events::ClockEvent;
use crate::side_times::SideTime;
use crate::time_control::TimeControl;
use chess_bits::Colour;
use std::marker::Model;

/// The clock of a game. Moments are milliseconds that are handed in, and times are milliseconds.
#[derive(Clone, Copy)]
pub struct Clock {
    control: TimeControl,
    side: Colour,
    since: u64,
    white: SideTime,
    black: SideTime,
    is_stopped: bool,
}

impl Model for Clock {
    ghost use Rattle.chess_clock.specs.ClockState as states;

    ghost Value = { states.ClockState };

    ghost view = { λ c. record {
      control = c.control;
      side = c.side;
      since = c.since;
      white = c.white;
      black = c.black;
      is_stopped = c.is_stopped;
    } };

    ghost inverse = { λ c. record {
      control = c.control;
      side = c.side;
      since = c.since;
      white = c.white;
      black = c.black;
      is_stopped = c.is_stopped;
    } };
}

impl Clock {
    /// The clock of a game whose first turn, of this side, starts at this moment. The initial time, 1 to 86,400, and
    /// the increment, 0 to 60, are in seconds; a second period is the moves before it, 1 to 255, and its seconds, 1 to
    /// 86,400.
    pub fn new(
        initial: u32,
        increment: u32,
        side: Colour,
        at: u64,
        period: Option<(u32, u32)>,
    ) -> Clock
        requires { IsTimeControl (time_control initial increment period) }
        ensures { result ≡ started (time_control initial increment period) side at }
    {
        let control = TimeControl::new(initial, increment, period);
        let time = SideTime {
            held: control.initial_time(),
            to_go: control.moves_to_go(0),
        };
        Clock {
            control,
            side,
            since: at,
            white: time,
            black: time,
            is_stopped: false,
        }
    }

    /// The time that the side held at the start of the running turn, or had left where the clock is stopped, in
    /// milliseconds.
    pub fn held(&self, colour: Colour) -> u32
        ensures { result ≡ (time_of colour self.now).held }
    {
        self.time(colour).held
    }

    /// The start of the running turn, or the moment at which the clock was stopped.
    pub fn since(&self) -> u64
        ensures { result ≡ self.now.since }
    {
        self.since
    }

    /// The time that the side has left at this moment, in milliseconds: what it holds, less the running turn if it is
    /// the side on move, and never below 0. A stopped clock stands still.
    pub fn left(&self, colour: Colour, at: u64) -> u32
        requires { IsNotBefore self.now at }
        ensures { result ≡ left colour self.now at }
    {
        let held = self.held(colour);
        if self.is_stopped || colour != self.side {
            return held;
        }
        u64::from(held).saturating_sub(at - self.since) as u32
    }

    /// Whether the flag of the side on move has fallen: the running turn is at least as long as the time held, before
    /// any increment of a move that would end it (our own choice; FIDE article 6.9 says what follows).
    pub fn fallen(&self, at: u64) -> bool
        requires running { self.now.is_stopped ≡ false }
        requires from_start { self.now.since ≤ at }
        ensures { IsTrue result ↔ HasFallen self.now at }
    {
        at - self.since >= u64::from(self.held(self.side))
    }

    /// Ends the running turn, in which the flag has not fallen, with a completed move: the side's time is less the
    /// turn's length, and more the increment, and the second period's time with the last move before it. The other
    /// side's turn starts (FIDE article 6.2.1).
    pub fn finish_turn(&mut self, at: u64)
        requires running { self.old.is_stopped ≡ false }
        requires from_start { self.old.since ≤ at }
        requires in_time { ¬ HasFallen self.old at }
        requires fits { TimesFit (clock_after self.old (turn_ended self.old at)) }
        ensures { self.new ≡ clock_after self.old (turn_ended self.old at) }
    {
        let time = self
            .time(self.side)
            .after_turn(self.control, at - self.since);
        self.set_time(self.side, time);
        self.since = at;
        self.side = self.side.other();
    }

    /// Adds 120,000 ms to the colour's time, for a wrong claim of its opponent (FIDE article 9.5.3).
    pub fn penalty(&mut self, colour: Colour)
        requires running { self.old.is_stopped ≡ false }
        requires fits { TimesFit (clock_after self.old (ClockEvent.WrongClaim (other colour) ∷ [])) }
        ensures { self.new ≡ clock_after self.old (ClockEvent.WrongClaim (other colour) ∷ []) }
    {
        self.set_time(colour, self.time(colour).with_penalty());
    }

    /// Stops the clock at this moment: from then on each side holds, and has left, what it had left.
    pub fn stop(&mut self, at: u64)
        requires running { self.old.is_stopped ≡ false }
        requires from_start { self.old.since ≤ at }
        ensures { self.new ≡ stopped_at self.old at }
    {
        self.white.held = self.left(Colour::White, at);
        self.black.held = self.left(Colour::Black, at);
        self.since = at;
        self.is_stopped = true;
    }

    /// Sets a side's time, as a snapshot of a game has it: it holds so many milliseconds and has completed so many
    /// moves, and goes on from there.
    pub fn set_held(&mut self, colour: Colour, ms: u32, completed: u32)
        requires { self.old.is_stopped ≡ false }
        ensures { self.new ≡ with_time colour self.old
            (record { held = ms; to_go = moves_to_go self.old.control.period completed }) }
    {
        let to_go = self.control.moves_to_go(completed);
        self.set_time(colour, SideTime { held: ms, to_go });
    }

    fn time(&self, colour: Colour) -> SideTime
        ensures { result ≡ time_of colour self.now }
    {
        match colour {
            Colour::White => self.white,
            Colour::Black => self.black,
        }
    }

    fn set_time(&mut self, colour: Colour, time: SideTime)
        ensures { self.new ≡ with_time colour self.old time }
    {
        match colour {
            Colour::White => self.white = time,
            Colour::Black => self.black = time,
        }
    }
}

impl Clock {
    ghost use Rattle.std.specs.Prelude.{◌≡◌, ◌^◌, ◌<◌, false};
    ghost use Rattle.chess_clock.specs.TimeControl.{time_control, IsTimeControl};
    ghost use Rattle.chess_clock.specs.ClockState.{started, clock_after, clock_of};
    ghost use Rattle.chess_clock.specs.Replay.{TurnsEndInTime, TimesAlwaysFit, IsWithinTime};

    /// Takes the clock through turns and wrong claims: its times are then the sums over all of them, going on from what
    /// they were, and no side has used more than it had. Each turn is one of the side on move and ends before its flag
    /// falls, and no time held comes to pass 4,294,967,295 ms.
    pub fn replay(&mut self, events: &[ClockEvent])
        requires running { self.old.is_stopped ≡ false }
        requires in_time { TurnsEndInTime self.old events.now }
        requires fits { TimesAlwaysFit self.old events.now }
        requires moments { (clock_after self.old events.now).since < 2 ^ 64 }
        ensures sums { self.new ≡ clock_after self.old events.now }
        ensures within { IsWithinTime self.old events.now }
    {
        for event in events {
            match *event {
                ClockEvent::Turn(_, length) => self.finish_turn(self.since() + length),
                ClockEvent::WrongClaim(claimant) => self.penalty(claimant.other()),
            }
        }
    }

    /// The clock of a game with these times, whose first turn, of this side, started at this moment, after these turns
    /// and wrong claims: each side holds its sum over the whole game.
    pub fn of_game(
        initial: u32,
        increment: u32,
        side: Colour,
        at: u64,
        period: Option<(u32, u32)>,
        events: &[ClockEvent],
    ) -> Clock
        requires times { IsTimeControl (time_control initial increment period) }
        requires in_time { TurnsEndInTime (started (time_control initial increment period) side at) events.now }
        requires fits { TimesAlwaysFit (started (time_control initial increment period) side at) events.now }
        requires moments { (clock_of (time_control initial increment period) side at events.now).since < 2 ^ 64 }
        ensures { result ≡ clock_of (time_control initial increment period) side at events.now }
    {
        let mut clock = Clock::new(initial, increment, side, at, period);
        clock.replay(events);
        clock
    }
}
