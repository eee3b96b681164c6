//! Whether a plan may be lived.
ghost use Rattle.std.specs.Prelude.{◌↔◌, map, IsTrue};
ghost use Rattle.chess_board.specs.Legal.{EachOf};
ghost use Rattle.chess_store.specs.Courses.{IsSubmittable};
ghost use Rattle.chess_store.specs.Lives.{AreSubmittable};

use crate::plan::Plan;
use chess_entry::Command;

// Whether these commands may be submitted at once.
fn is_submittable(commands: &[Command]) -> bool
    ensures { IsTrue result ↔ IsSubmittable commands.now }
{
    !commands.is_empty() && commands.len() <= 64
}

// Whether each of these batches may be.
fn are_batches(batches: &[Vec<Command>]) -> bool
    ensures { IsTrue result ↔ EachOf IsSubmittable (map (λ b. b.items) batches.now) }
{
    for batch in batches {
        let may = is_submittable(batch);
        if !may {
            return false;
        }
    }
    true
}

impl Plan {
    /// Whether every batch has 1 to 64 commands, as `lives` wants it.
    pub fn is_submittable(&self) -> bool
        ensures { IsTrue result ↔ AreSubmittable self.now.lives.items }
    {
        for life in &self.lives {
            let may = are_batches(&life.batches);
            if !may {
                return false;
            }
        }
        true
    }
}
