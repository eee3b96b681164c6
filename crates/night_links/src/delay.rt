//! Texts that are shown later than they were made.
use anyhow::Result;
use std::alloc::Global;
use std::rt::Clock;
use std::time::{Duration, Instant};

// A text, and when it was made.
#[derive(Drop)]
struct Made {
    at: Instant,
    text: Vec<u8>,
}

/// The texts that wait, the oldest first.
#[derive(Drop)]
pub struct Delay {
    wait: Duration,
    // How long after another a text is made at the least, a sixtieth of the wait: so few wait.
    gap: Duration,
    made: Vec<Made>,
}

impl Delay {
    /// None waits; each will wait for so many minutes.
    pub fn new(alloc: Global, minutes: u32) -> Delay {
        Delay {
            wait: Duration::from_secs(60 * u64::from(minutes)),
            gap: Duration::from_secs(u64::from(minutes)),
            made: Vec::new(alloc),
        }
    }

    // Whether a text is put behind those that wait: it is another than the last one, which is not too new.
    fn is_put(&self, now: Instant, text: &[u8]) -> bool {
        match self.made.last() {
            Some(last) => {
                last.text.as_slice() != text && now.duration_since(last.at) >= self.gap
            }
            None => true,
        }
    }

    // Whether a text has waited long enough.
    fn has_waited(&self, now: Instant, made: &Made) -> bool {
        now.duration_since(made.at) >= self.wait
    }

    // Drops the texts before the last one that has waited long enough.
    fn drop_older(&mut self, now: Instant) {
        for _ in 0..self.made.len() {
            if self.made.len() < 2 || !self.has_waited(now, &self.made[1]) {
                return;
            }
            self.made.remove(0);
        }
    }

    /// What is to be shown now that this text was made: the last one that has waited long enough. None where none has,
    /// as in the beginning: what is shown stays.
    pub fn due<R: Clock>(&mut self, rt: &R, text: Vec<u8>) -> Result<Option<Vec<u8>>> {
        if self.wait.is_zero() {
            return Ok(Some(text));
        }
        let now = Instant::now(rt)?;
        if self.is_put(now, text.as_slice()) {
            self.made.push(Made { at: now, text })?;
        }
        self.drop_older(now);
        match self.made.first() {
            Some(made) if self.has_waited(now, made) => Ok(Some(made.text.clone()?)),
            _ => Ok(None),
        }
    }
}
