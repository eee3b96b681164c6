//! Whether memory was refused for what a client sends.
ghost use Rattle.std.specs.Prelude.{◌≡◌, ◌≤◌, [], true, false, None, length, IfSome, IsSomeAnd};
ghost use Rattle.std.specs.Bool.{OnTrue, OnFalse};
ghost use Rattle.chess_hub.specs.Law.{hub_store, hub_refusals};
ghost use Rattle.chess_hub.specs.Session.{session_at};
ghost use Rattle.chess_sockets.specs.Clients.{IsOpen, OthersStay, HasHeard};
ghost use Rattle.chess_sockets.specs.Portions.{IsPortion};

use chess_hub::{Hub, HubFault, Sid};
use sector_dev::Device;

/// Whether memory was refused for what a client sends. Only `feed` tells.
#[derive(Drop)]
pub struct Memory {
    was_refused: bool,
}

impl Memory {
    /// None was refused.
    pub fn new() -> Memory
        ensures sound { result.was_refused ≡ false }
    {
        Memory { was_refused: false }
    }

    /// Gives a session of which nothing waits a portion; what comes behind a line that is too long is dropped. Where
    /// memory is refused the session is closed, and it answers false.
    pub fn feed<D: Device>(&mut self, hub: &mut Hub<D>, sid: Sid, portion: &[u8]) -> bool
        requires open { IsOpen hub.old.sessions sid }
        requires small { length portion.now ≤ 4096 }
        requires portion { IsPortion portion.now }
        requires alone { IfSome (session_at hub.old.sessions sid) (λ s. s.heard.bytes ≡ []) }
        ensures heard { IfSome (session_at hub.old.sessions sid) (λ s. OnTrue result (IsSomeAnd
            (session_at hub.new.sessions sid) (HasHeard s portion.now))) }
        ensures closed { OnFalse result (session_at hub.new.sessions sid ≡ None) }
        ensures refused { OnFalse result (self.new.was_refused ≡ true) }
        ensures sound { OnTrue result (self.new.was_refused ≡ self.old.was_refused) }
        ensures others { OthersStay hub.old.sessions hub.new.sessions sid }
        ensures store { hub_store hub.new ≡ hub_store hub.old }
        ensures refusals { hub_refusals hub.new ≡ hub_refusals hub.old }
    {
        match hub.feed(sid, portion) {
            Ok(()) | Err(HubFault::LineTooLong) => true,
            // Memory was refused: no other is a fault of `feed`.
            Err(_) => {
                self.was_refused = true;
                hub.close(sid);
                false
            }
        }
    }
}
