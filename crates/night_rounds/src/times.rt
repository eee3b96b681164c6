//! The times of a game.
ghost use Rattle.std.specs.Prelude.{◌≡◌, ◌++◌, OnOk, IfOk};
ghost use Rattle.std.specs.String.{string_bytes};
ghost use Rattle.night_rounds.specs.Times as spec;

use lobby_words::number_or_0;
use std::alloc::{AllocError, Global};
use text_parts::{cut, push_number};

/// The first period's moves, and the seconds that stand for the second.
#[derive(Clone, Copy)]
pub struct Period {
    pub moves: u32,
    pub seconds: u32,
}

/// The times of a game, in seconds.
#[derive(Clone, Copy)]
pub struct Times {
    pub initial: u32,
    pub increment: u32,
    /// Where there is a second period.
    pub period: Option<Period>,
}

// The times of one period: what stands before the `+`, and behind it.
fn plain_times(text: &str) -> Times
    ensures { result ≡ spec.plain_times text.now }
{
    let (initial, increment) = cut(text, '+');
    Times {
        initial: number_or_0(initial),
        increment: number_or_0(increment),
        period: None,
    }
}

// The times of two periods: of what stands before the `/`, between it and the `:`, and behind this.
fn long_times(moves: &str, first: &str, second: &str) -> Times
    ensures { result ≡ spec.long_times moves.now first.now second.now }
{
    let (initial, increment) = cut(first, '+');
    let (seconds, _) = cut(second, '+');
    Times {
        initial: number_or_0(initial),
        increment: number_or_0(increment),
        period: Some(Period {
            moves: number_or_0(moves),
            seconds: number_or_0(seconds),
        }),
    }
}

// The times of which a text may be that of.
#[tactic(auto, unfolding(crate::specs::Times::likely_times))]
fn likely_times(text: &str) -> Times
    ensures { result ≡ spec.likely_times text.now }
{
    let (moves, rest) = cut(text, '/');
    if rest.is_empty() {
        return plain_times(text);
    }
    let (first, second) = cut(rest, ':');
    long_times(moves, first, second)
}

// Seconds and the increment.
fn push_span(text: &mut String, seconds: u32, increment: u32) -> Result<(), AllocError>
    ensures { OnOk result (string_bytes text.new ≡ string_bytes text.old ++ spec.span_text seconds increment) }
{
    push_number(text, u64::from(seconds))?;
    if increment > 0 {
        text.push('+')?;
        push_number(text, u64::from(increment))?;
    }
    Ok(())
}

// The moves of the first period.
fn push_moves(text: &mut String, period: Option<Period>) -> Result<(), AllocError>
    ensures { OnOk result (string_bytes text.new ≡ string_bytes text.old ++ spec.moves_text period) }
{
    if let Some(period) = period {
        push_number(text, u64::from(period.moves))?;
        text.push('/')?;
    }
    Ok(())
}

// The second period.
fn push_second(text: &mut String, period: Option<Period>, increment: u32) -> Result<(), AllocError>
    ensures { OnOk result (string_bytes text.new ≡ string_bytes text.old ++ spec.second_text period increment) }
{
    if let Some(period) = period {
        text.push(':')?;
        push_span(text, period.seconds, increment)?;
    }
    Ok(())
}

/// The text of times, as the tag TimeControl of PGN has them.
#[tactic(auto, unfolding(crate::specs::Times::times_text))]
pub fn times_text(alloc: Global, times: Times) -> Result<String, AllocError>
    ensures { IfOk result (λ text. string_bytes text ≡ spec.times_text times) }
{
    let mut text = String::new(alloc);
    push_moves(&mut text, times.period)?;
    push_span(&mut text, times.initial, times.increment)?;
    push_second(&mut text, times.period, times.increment)?;
    Ok(text)
}

fn is_between(low: u32, high: u32, number: u32) -> bool
    ensures { result ≡ spec.is_between low high number }
{
    low <= number && number <= high
}

fn is_period(period: Option<Period>) -> bool
    ensures { result ≡ spec.is_period period }
{
    match period {
        None => true,
        Some(period) => is_between(1, 255, period.moves) && is_between(1, 86_400, period.seconds),
    }
}

// Whether the server takes the times.
fn are_taken(times: Times) -> bool
    ensures { result ≡ spec.are_taken times }
{
    is_between(1, 86_400, times.initial) && times.increment <= 60 && is_period(times.period)
}

/// The times of a text; `None` where it is the text of none that the server takes.
#[tactic(auto, unfolding(crate::specs::Times::times_in))]
pub fn times_of(alloc: Global, text: &str) -> Result<Option<Times>, AllocError>
    ensures { IfOk result (λ times. times ≡ spec.times_in text.now) }
{
    let times = likely_times(text);
    let told = times_text(alloc, times)?;
    if are_taken(times) && told.as_str() == text {
        Ok(Some(times))
    } else {
        Ok(None)
    }
}
