//! How many games there may be.
ghost use Rattle.std.specs.Prelude.{◌≡◌, map};
ghost use Rattle.lobby_table.specs.Owed.{owed_of};
ghost use Rattle.lobby_desk.specs.Limits as spec;

use lobby_table::ServerLine;
use lobby_words::Stage;

/// How many games there may be.
#[derive(Clone, Copy)]
pub struct Limits {
    /// Of a player's that wait for a second one, that go on, and that are over and still on the table.
    pub waiting: usize,
    pub playing: usize,
    pub over: usize,
    /// The places on the server's table, where they are known.
    pub places: Option<u32>,
}

impl Limits {
    /// Whether no game more of a player may be opened.
    pub fn is_crowded(&self, line: &ServerLine, name: &str) -> bool
        ensures { result ≡ spec.is_crowded self.now line.now.seats.items (map owed_of line.now.queue.items) name.now }
    {
        line.has_many(self.waiting, Stage::Waits, name)
    }

    /// Whether a player may play in no game more.
    pub fn is_busy(&self, line: &ServerLine, name: &str) -> bool
        ensures { result ≡ spec.is_busy self.now line.now.seats.items (map owed_of line.now.queue.items) name.now }
    {
        line.has_many(self.playing, Stage::Plays, name)
    }

    /// Whether a player has left as many games on the table as may be.
    pub fn is_spent(&self, line: &ServerLine, name: &str) -> bool
        ensures { result ≡ spec.is_spent self.now line.now.seats.items (map owed_of line.now.queue.items) name.now }
    {
        line.has_many(self.over, Stage::Over, name)
    }

    /// Whether the table has places left for arbiters and pairings alone.
    pub fn is_nearly_full(&self, line: &ServerLine) -> bool
        ensures { result ≡ spec.is_nearly_full self.now line.now.seats.items (map owed_of line.now.queue.items) }
    {
        self.places.is_some_and(|places| line.is_full_at(places))
    }
}
