//! Chess clocks: the time that each side of a game holds, with an increment and an optional second period.
#![tactic(auto)]

mod clocks;
mod events;
mod side_times;
mod time_control;

pub use clocks::Clock;
pub use events::ClockEvent;
pub use time_control::is_time_control;
