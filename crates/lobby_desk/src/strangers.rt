//! For whom connections act.
ghost use Rattle.std.specs.Prelude.{◌≡◌};
ghost use Rattle.lobby_desk.specs.Strangers.{acts, player_at};

use crate::desk::Desk;
use lobby_table::who_acts;
use player_name::Name;

impl Desk {
    /// Whether a connection acts for a player.
    pub fn acts(&self, connection: u64) -> bool
        ensures { result ≡ acts self.now connection }
    {
        who_acts(&self.visitors, connection).is_some()
    }

    /// The player for whom a connection acts.
    pub fn player_at(&self, connection: u64) -> Option<Name>
        ensures { result ≡ player_at self.now connection }
    {
        who_acts(&self.visitors, connection).map(|who| who.name)
    }
}
