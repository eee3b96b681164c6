//! Lives of a store on devices in memory. A line `plan SECTORS GAMES PLIES` begins a plan on a new device of so many
//! sectors. `life CALLS FATES` adds a life, CALLS a number or `-`, FATES letters of `l`, `k` and `u` (lost, kept,
//! unreadable) or `-`; `batch` adds a batch to it, and `MOMENT NAME LINE` a command to that, NAME `-` for none. `live`
//! lives the plan and writes what came of it. `drill` plays the drill, and writes what came of each case, and the
//! tally.
mod texts;

use crate::memory::store_in_memory;
use chess_entry::Command;
use chess_store::{Life, Plan, lives};
use std::alloc::Global;
use test_lines::{Fault, SMALL, Size, fates_of, read_calls, read_command, read_size, split};
use texts::{drill_text, report_text};

/// A plan, and the size of the device for it.
#[derive(Drop)]
pub struct LivesPlayer {
    alloc: Global,
    size: Size,
    plan: Plan,
}

impl LivesPlayer {
    /// A plan without lives.
    pub fn new(alloc: Global) -> LivesPlayer {
        LivesPlayer {
            alloc,
            size: SMALL,
            plan: Plan {
                lives: Vec::new(alloc),
            },
        }
    }

    /// What a line answers.
    pub fn play(&mut self, line: &str) -> Result<String, Fault> {
        let (word, rest) = split(line);
        match word {
            "plan" => self.begin(read_size(rest)?),
            "life" => self.begin_life(rest)?,
            "batch" => self.begin_batch()?,
            "live" => return self.live(),
            "drill" => return drill_text(self.alloc),
            _ => self.send(&read_command(line)?)?,
        }
        Ok(String::new(self.alloc))
    }

    // Begins a plan.
    fn begin(&mut self, size: Size) {
        self.size = size;
        self.plan.lives.clear();
    }

    // Adds a life: `CALLS FATES`, FATES `-` for none.
    fn begin_life(&mut self, text: &str) -> Result<(), Fault> {
        let (calls, fates) = split(text);
        let calls = read_calls(calls)?;
        let fates = fates_of(self.alloc, if fates == "-" { "" } else { fates })?;
        self.plan.lives.reserve(1)?;
        self.plan.lives.push_reserved(Life {
            calls,
            batches: Vec::new(self.alloc),
            fates,
        });
        Ok(())
    }

    // Adds a batch to the last life.
    fn begin_batch(&mut self) -> Result<(), Fault> {
        let alloc = self.alloc;
        match self.plan.lives.last_mut() {
            Some(life) => {
                life.batches.reserve(1)?;
                life.batches.push_reserved(Vec::new(alloc));
                Ok(())
            }
            None => Err(Fault::Input),
        }
    }

    // Adds a command to the last batch.
    fn send(&mut self, command: &Command) -> Result<(), Fault> {
        match self.plan.lives.last_mut() {
            Some(life) => match life.batches.last_mut() {
                Some(batch) => {
                    batch.extend_from_slice(&[*command])?;
                    Ok(())
                }
                None => Err(Fault::Input),
            },
            None => Err(Fault::Input),
        }
    }

    // What comes of the plan on a new device.
    fn live(&self) -> Result<String, Fault> {
        if !self.plan.is_submittable() {
            return Err(Fault::Input);
        }
        let store = store_in_memory(self.alloc, &self.size)?;
        let lived = lives(self.alloc, store.into_device(), &self.plan);
        match &lived.report {
            Ok(report) => Ok(report_text(self.alloc, report)?),
            Err(fault) => Err(Fault::of(self.alloc, fault)),
        }
    }
}
