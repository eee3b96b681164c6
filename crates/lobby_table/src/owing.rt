//! For whom the answers of the server are.
ghost use Rattle.std.specs.Prelude.{◌≡◌, map};
ghost use Rattle.lobby_table.specs.Owed.{is_number, owed_of, owes, waiter};

use crate::server_line::{Due, ServerLine};

/// Whose line is answered.
pub fn asker(due: &Due) -> Option<u64>
    ensures { result ≡ waiter (owed_of due.now) }
{
    match due {
        Due::Own | Due::Name(_) | Due::Notice(_) | Due::Behind => None,
        Due::Reply(to) | Due::Positions(to) | Due::Table(to) | Due::Watch(to, _) => Some(*to),
        Due::Act(act) | Due::Drop(act) | Due::Pair(act, _) => Some(act.from),
    }
}

// Whether it is a connection's line that is answered.
fn is_for(due: &Due, connection: u64) -> bool
    ensures { result ≡ is_number connection (waiter (owed_of due.now)) }
{
    asker(due).is_some_and(|to| connection == to)
}

impl ServerLine {
    /// Whether a line of a connection waits for the server's answer.
    pub fn is_owed(&self, connection: u64) -> bool
        ensures { result ≡ owes (map owed_of self.now.queue.items) connection }
    {
        self.queue.iter().any(|due| is_for(due, connection))
    }
}
