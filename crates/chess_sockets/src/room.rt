//! What a turn has room for.
ghost use Rattle.std.specs.Prelude.{◌≡◌, ◌≤◌, ◌<◌, ◌+◌, ◌↔◌, ◌⊎◌, true, false, IsTrue};
ghost use Rattle.std.specs.Bool.{OnTrue, OnFalse};
ghost use Rattle.chess_sockets.specs.Portions.{is_dear, IsDearLine};

use crate::incoming::is_dear;

/// How many lines that ask for much a turn gives to sessions.
const DEAR_LINES: usize = 1;

/// What is left of a turn for lines that ask for much. Who has waited longest comes first.
#[derive(Drop)]
pub struct Room {
    /// So many of them may still be given.
    lines: usize,
    /// So many turns has a client waited that has waited longest.
    longest: u32,
}

impl Room {
    /// That of a whole turn.
    pub fn new(longest: u32) -> Room
        ensures lines { result.lines ≡ 1 }
        ensures longest { result.longest ≡ longest }
    {
        Room {
            lines: DEAR_LINES,
            longest,
        }
    }

    /// Whether a client that has waited for so many turns may be given this portion: one that asks for little always
    /// may; a line that asks for much where there is room, which it takes, and nobody has waited longer.
    pub fn admit(&mut self, portion: &[u8], waited: u32) -> bool
        ensures may { IsTrue result ↔ ((is_dear portion.now ≡ false)
            ⊎ ((0 < self.old.lines) × (self.old.longest ≤ waited))) }
        ensures fewer { self.new.lines ≤ self.old.lines }
        ensures dear { OnTrue result (IsDearLine portion.now → (self.new.lines + 1 ≤ self.old.lines)
            × (self.old.longest ≤ waited)) }
        // Nothing else takes room.
        ensures spent { (self.new.lines ≡ self.old.lines) ⊎ (is_dear portion.now ≡ true) }
        ensures refused { OnFalse result (self.new.lines ≡ self.old.lines) }
        ensures waits { OnFalse result ((self.old.lines ≡ 0) ⊎ (waited < self.old.longest)) }
        ensures longest { self.new.longest ≡ self.old.longest }
    {
        if !is_dear(portion) {
            return true;
        }
        if self.lines == 0 || waited < self.longest {
            return false;
        }
        self.lines -= 1;
        true
    }
}
