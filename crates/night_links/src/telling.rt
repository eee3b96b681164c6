//! What is told on standard error of work that is done again and again.
use anyhow::Result;
use command_lines::{tell, unix_time};
use std::rt::Clock;
use std::thread;
use std::time::Duration;

/// What was told last.
#[derive(Drop)]
pub struct Telling<'a, R> {
    rt: &'a R,
    /// What is told once nothing is wrong any more.
    well: &'a str,
    told: String,
}

impl<'a, R: AllocGlobal + Eprint> Telling<'a, R> {
    /// Nothing was wrong.
    pub fn new(rt: &'a R, well: &'a str) -> Self {
        Telling {
            rt,
            well,
            told: String::new(rt.alloc()),
        }
    }

    /// Tells what came of the work, where that is something else than the last time.
    pub fn tell(&mut self, done: Result<()>) -> Result<()> {
        let alloc = self.rt.alloc();
        let text = match done {
            Ok(()) => String::new(alloc),
            Err(error) => format!(in alloc; "{error:#}")?,
        };
        if text != self.told {
            let said = if text.is_empty() {
                self.well
            } else {
                text.as_str()
            };
            let _ = tell(self.rt, said);
            self.told = text;
        }
        Ok(())
    }
}

/// Work that may be done again and again.
pub trait Work {
    /// Does it. Where it is not done again, more is told of it.
    fn work(&mut self, is_once: bool) -> Result<()>;
}

/// How often work is done.
#[derive(Clone, Copy)]
pub enum Pace {
    Once,
    /// So many seconds lie between two times.
    Seconds(u32),
    /// It begins with each half of a second of the system's clock, but for those that pass while it is done: so it is
    /// begun twice in a second at most.
    HalfSeconds,
}

/// So many milliseconds are half a second.
const HALF: u64 = 500;

impl Pace {
    /// Once, or with so many seconds between two times.
    pub fn every(seconds: Option<u32>) -> Pace {
        match seconds {
            Some(seconds) => Pace::Seconds(seconds),
            None => Pace::Once,
        }
    }

    // Waits until it is to be done again.
    fn wait<R: Clock>(self, rt: &R) -> Result<()> {
        let pause = match self {
            Pace::Once => Duration::ZERO,
            Pace::Seconds(seconds) => Duration::from_secs(u64::from(seconds)),
            Pace::HalfSeconds => {
                let at = unix_time(rt)?.unwrap_or(0);
                Duration::from_millis(HALF - at % HALF)
            }
        };
        thread::sleep(rt, pause);
        Ok(())
    }
}

/// Does work once, or again and again until the program is killed. What is wrong is then told, and that all is well
/// again.
pub fn go_on<R, W>(rt: &R, work: &mut W, pace: Pace, well: &str) -> Result<()>
where
    R: AllocGlobal + Eprint + Clock,
    W: Work,
{
    if matches!(pace, Pace::Once) {
        return work.work(true);
    }
    let mut telling = Telling::new(rt, well);
    for _ in 0..u64::MAX {
        let done = work.work(false);
        telling.tell(done)?;
        pace.wait(rt)?;
    }
    Ok(())
}
