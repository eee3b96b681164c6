//! What wakes a server that has nothing to do.
ghost use Rattle.std.specs.Prelude.{◌≡◌, ◌<◌, ◌+◌, true, false, IfOk, OnOk, OnErr};

use mio::unix::SourceFd;
use mio::{Events, Interest, Poll, Token};
use std::alloc::Global;
use std::io;
use std::net::Net;
use std::os::fd::RawFd;
use std::time::Duration;

/// The sockets of a server.
#[derive(Drop)]
pub struct Watch {
    poll: Poll,
    events: Events,
    /// So many waits on end were calm.
    calm_waits: u32,
    /// Whether the system has refused to watch a socket.
    is_blind: bool,
    ghost often: { calm_waits < 100 },
}

/// How many sockets one wait tells of. It ends at the first.
const EVENTS: usize = 64;

/// The longest wait, in milliseconds.
const REST: u64 = 10;

/// Of so many waits on end, a second's, one at least is not calm.
const CALM: u32 = 100;

impl Watch {
    /// Watches no socket yet. An `Err` is the system's, or memory is refused.
    pub fn new(net: &impl Net, alloc: Global) -> io::Result<Watch>
        ensures sees { IfOk result (λ watch. watch.is_blind ≡ false) }
        ensures waits { IfOk result (λ watch. watch.calm_waits ≡ 0) }
    {
        Ok(Watch {
            poll: Poll::new(net)?,
            events: Events::with_capacity(alloc, EVENTS)?,
            calm_waits: 0,
            is_blind: false,
        })
    }

    /// Watches a socket too, until it is closed. An `Err` is the system's, which refuses that: no wait is calm from
    /// then on.
    pub fn add(&mut self, socket: RawFd) -> io::Result<()>
        ensures refused { OnErr result (self.new.is_blind ≡ true) }
        ensures watched { OnOk result (self.new.is_blind ≡ self.old.is_blind) }
        ensures lasts { self.old.is_blind ≡ true → self.new.is_blind ≡ true }
        ensures waits { self.new.calm_waits ≡ self.old.calm_waits }
    {
        let interest = Interest::READABLE | Interest::WRITABLE;
        let watched = self
            .poll
            .registry()
            .register(&mut SourceFd(&socket), Token(0), interest);
        if watched.is_err() {
            self.is_blind = true;
        }
        watched
    }

    /// Waits until one of the sockets is ready or 10 ms have passed, and tells whether the wait was calm: no socket was
    /// ready, so none that was read to its end has more. A wait that failed is not calm, nor is each hundredth on end:
    /// an event that got lost costs a second.
    pub fn rest(&mut self) -> bool
        ensures often { result ≡ true → self.new.calm_waits ≡ self.old.calm_waits + 1 }
        ensures blind { self.old.is_blind ≡ true → result ≡ false }
        ensures kept { self.new.is_blind ≡ self.old.is_blind }
    {
        let waited = self
            .poll
            .poll(&mut self.events, Some(Duration::from_millis(REST)));
        let is_calm = waited.is_ok()
            && self.events.is_empty()
            && !self.is_blind
            && self.calm_waits + 1 < CALM;
        self.calm_waits = if is_calm { self.calm_waits + 1 } else { 0 };
        is_calm
    }
}
