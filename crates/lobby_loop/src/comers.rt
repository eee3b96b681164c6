//! How many come in a second, and whether that is more than are served.
ghost use Rattle.std.specs.Prelude.{◌≡◌};
ghost use Rattle.lobby_loop.specs.Comers.{seen, is_over};

use crate::hall::FIRST_KEY;

// Of those who come in a second so many are served: 2,000 spectators who look once in it, and who else comes.
const SERVED_MOST: usize = 2_200;

const SECOND: u64 = 1_000;

/// A second, by those who come in it.
#[derive(Clone, Copy)]
pub struct Comers {
    /// When it began, in milliseconds.
    pub from: u64,
    /// How many had come by then.
    pub before: usize,
}

impl Comers {
    /// The first second: nobody has come, since the sockets of browsers have the names behind these.
    pub fn new() -> Comers
        ensures { result ≡ record { from = 0; before = 2 } }
    {
        Comers {
            from: 0,
            before: FIRST_KEY,
        }
    }

    /// So many have come by this moment, in milliseconds: where the second is over the next one begins. It tells
    /// whether more came in it than are served.
    pub fn see(&mut self, came: usize, at: u64) -> bool
        ensures seen { self.new ≡ seen came at self.old }
        ensures over { result ≡ is_over came self.new }
    {
        if at.saturating_sub(self.from) >= SECOND {
            self.from = at;
            self.before = came;
        }
        came.saturating_sub(self.before) > SERVED_MOST
    }
}
