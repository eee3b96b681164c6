//! What an arbiter has halted, entries and all clocks, what he announces, and whether there is room for the log.
ghost use Rattle.std.specs.Prelude.{◌≡◌, ◌++◌, IfOk, OnOk};
ghost use Rattle.std.specs.String.{string_bytes};
ghost use Rattle.lobby_players.specs.Halts as spec;

use lobby_words::{
    Call, Plan, Refusal, as_line, cut_word, is_decision, is_of_clocks, is_pair, joins_game,
    opens_game,
};
use std::alloc::{AllocError, Global};

/// What an arbiter has halted, what he announces, and whether there is room for the log.
#[derive(Drop)]
pub struct Halts {
    /// Whether no games are opened, but by an arbiter.
    pub is_paused: bool,
    /// Whether clocks can be stopped.
    pub can_stop: bool,
    /// Why all clocks are stopped; empty where they run.
    pub reason: String,
    /// What is announced; empty where nothing is.
    pub announced: String,
    /// Whether there is no room for the log: no game begins.
    pub is_full: bool,
}

/// What is found beside the desk, of which everybody is told.
#[derive(Drop)]
pub enum Finding {
    /// Whether there is no room for the log.
    LogFull(bool),
    /// Why all clocks are stopped by hand; empty where they have to run.
    Clocks(String),
}

// What the line of the log behind a first message has; nothing where there is room.
fn full_word(is_full: bool) -> &'static str
    ensures { result.now ≡ spec.full_word is_full }
{
    if is_full { "full" } else { "" }
}

// What everybody is told where there is no room for the log, or there is again.
fn full_line(is_full: bool) -> &'static str
    ensures { result.now ≡ spec.full_line is_full }
{
    if is_full {
        "log full\n"
    } else {
        "log goes on\n"
    }
}

// A reason behind this front, as a line, or where there is none this line.
fn with_reason(alloc: Global, front: &str, reason: &str, none: &str) -> Result<String, AllocError>
    ensures { IfOk result (λ line. string_bytes line ≡ spec.with_reason front.now reason.now none.now) }
{
    if reason.is_empty() {
        return String::from_str(alloc, none);
    }
    let mut line = String::from_str(alloc, front)?;
    line.push_str(reason)?;
    line.push('\n')?;
    Ok(line)
}

/// What everybody is told of what is found.
pub fn found_line(alloc: Global, finding: &Finding) -> Result<String, AllocError>
    ensures { IfOk result (λ line. string_bytes line ≡ spec.found_line finding.now) }
{
    match finding {
        Finding::LogFull(is_full) => String::from_str(alloc, full_line(*is_full)),
        Finding::Clocks(reason) => {
            with_reason(alloc, "clocks stopped ", reason.as_str(), "clocks run\n")
        }
    }
}

/// What the log is told where all clocks are stopped by hand, for this reason, or have to run: `-` stands in the place
/// of an arbiter's name.
pub fn hand_text(alloc: Global, reason: &str) -> Result<String, AllocError>
    ensures { IfOk result (λ text. string_bytes text ≡ spec.hand_text reason.now) }
{
    with_reason(
        alloc,
        "clocks by - stop clocks ",
        reason,
        "clocks by - start clocks\n",
    )
}

// Whether entries are paused after a plan.
fn paused_after(before: bool, plan: &Plan) -> bool
    ensures { result ≡ spec.paused_after plan.now before }
{
    match plan {
        Plan::Pause => true,
        Plan::Resume => false,
        _ => before,
    }
}

// Puts a line behind a text that tells this, if it is something.
fn push_line_if(text: &mut String, front: &str, what: &str) -> Result<(), AllocError>
    ensures { OnOk result (string_bytes text.new ≡ string_bytes text.old ++ spec.line_if front.now what.now) }
{
    if what.is_empty() {
        return Ok(());
    }
    text.push_str(front)?;
    text.push_str(what)?;
    text.push('\n')
}

impl Halts {
    // What everybody is told by a message, by the plan for it: why all clocks are stopped, or what is announced.
    fn note_call(&mut self, alloc: Global, plan: &Plan, text: &str) -> Result<(), AllocError>
        ensures reason { OnOk result (string_bytes self.new.reason
            ≡ spec.reason_after plan.now text.now (string_bytes self.old.reason)) }
        ensures announced { OnOk result (string_bytes self.new.announced
            ≡ spec.announced_after plan.now text.now (string_bytes self.old.announced)) }
        ensures paused { OnOk result (self.new.is_paused ≡ self.old.is_paused) }
        ensures can { OnOk result (self.new.can_stop ≡ self.old.can_stop) }
        ensures full { OnOk result (self.new.is_full ≡ self.old.is_full) }
    {
        match plan {
            Plan::Call(Call::StopClocks) => self.reason = String::from_str(alloc, as_line(text))?,
            Plan::Call(Call::StartClocks) => self.reason = String::new(alloc),
            Plan::Call(Call::Announce) => {
                let (_, announced) = cut_word(text);
                self.announced = String::from_str(alloc, announced)?;
            }
            _ => {}
        }
        Ok(())
    }

    /// Notes what a plan for a message halts, has go on or announces.
    pub fn note(&mut self, alloc: Global, plan: &Plan, text: &str) -> Result<(), AllocError>
        ensures { OnOk result (spec.halted self.new ≡ spec.halted_after plan.now text.now (spec.halted self.old)) }
    {
        self.note_call(alloc, plan, text)?;
        self.is_paused = paused_after(self.is_paused, plan);
        Ok(())
    }

    /// Notes what is found.
    pub fn find(&mut self, alloc: Global, finding: &Finding) -> Result<(), AllocError>
        ensures { OnOk result (spec.halted self.new ≡ spec.halted_found finding.now (spec.halted self.old)) }
    {
        match finding {
            Finding::LogFull(is_full) => self.is_full = *is_full,
            Finding::Clocks(reason) => self.reason = String::from_str(alloc, reason.as_str())?,
        }
        Ok(())
    }

    /// Whether a message begins no game now, but an arbiter's: it opens one, or is a pairing, while entries are paused
    /// or there is no room for the log; or it joins one while there is none.
    pub fn shuts(&self, text: &str) -> bool
        ensures { result ≡ spec.shuts (spec.halted self.now) text.now }
    {
        let opens = opens_game(text) || is_pair(text);
        (opens && (self.is_paused || self.is_full)) || (joins_game(text) && self.is_full)
    }

    /// Why nobody but an arbiter acts: all clocks are stopped.
    pub fn stop_bar(&self, is_arbiter: bool) -> Option<Refusal>
        ensures { result ≡ spec.stop_bar (spec.halted self.now) is_arbiter }
    {
        if !self.reason.is_empty() && !is_arbiter {
            Some(Refusal::ClocksStopped)
        } else {
            None
        }
    }

    /// Why a message is not done: it is a decision that has not been put to those of its round, or by the clocks.
    pub fn bar(&self, is_put: bool, is_arbiter: bool, text: &str) -> Option<Refusal>
        ensures { result ≡ spec.halts_bar (spec.halted self.now) is_put is_arbiter text.now }
    {
        if is_decision(text) && !is_put {
            Some(Refusal::NotDecided)
        } else if is_of_clocks(text) && !self.can_stop {
            Some(Refusal::NoClocks)
        } else {
            self.stop_bar(is_arbiter)
        }
    }

    /// A text, and behind it the lines that tell why all clocks are stopped, what is announced, and that there is no
    /// room for the log, where that is so.
    pub fn told_behind(&self, alloc: Global, text: &str) -> Result<String, AllocError>
        ensures { IfOk result (λ told. string_bytes told ≡ spec.told_behind text.now (spec.halted self.now)) }
    {
        let mut told = String::from_str(alloc, text)?;
        push_line_if(&mut told, "clocks stopped ", self.reason.as_str())?;
        push_line_if(&mut told, "announced ", self.announced.as_str())?;
        push_line_if(&mut told, "log ", full_word(self.is_full))?;
        Ok(told)
    }
}
