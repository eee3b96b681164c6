ghost use Rattle.std.specs.Prelude.{◌↔◌, List, IsTrue};
ghost use Rattle.rec_codec.specs.declared.limits.Version.TheVariants.{Two};
ghost use Rattle.rec_codec.specs.Limits.{IsInRange};
ghost use Rattle.chess_entry.specs.State.{GameState};
ghost use Rattle.chess_entry.specs.Table.{IsOnTable};
ghost use Rattle.chess_table.specs.Stored.{table_from, StandFrom, IsStanding};

use chess_entry::GREATEST_MOMENT;
use chess_game::Game;
use rec_codec::{Limits, Meta};

// Whether a game may stand on a table under limits, of whose other entries a snapshot's first record tells.
fn is_on_table(limits: Limits, game: &Game, meta: &Meta) -> bool
    ensures { (games : List GameState) → IsTrue result ↔ IsOnTable (table_from limits games meta.now) game.now }
{
    game.ply() <= limits.plies && game.number().get() <= meta.last && game.moment() <= meta.moment
}

// Whether games may stand on such a table, each with a number above those of the games before it.
fn may_stand(limits: Limits, games: &[Game], meta: &Meta) -> bool
    ensures { IsTrue result ↔ StandFrom (table_from limits games.now meta.now) 0 games.now }
{
    let mut before = 0;
    for game in games {
        let number = game.number().get();
        if number <= before || !is_on_table(limits, game, meta) {
            return false;
        }
        before = number;
    }
    true
}

/// Whether there may be a table under limits with just these games, of which a snapshot's first record tells so.
pub(crate) fn is_standing(limits: Limits, games: &[Game], meta: &Meta) -> bool
    requires { IsInRange Two limits }
    ensures { IsTrue result ↔ IsStanding limits games.now meta.now }
{
    // Read, so that they are known to fit their fields.
    let (_last, _entries) = (meta.last, meta.entries);
    if games.len() > limits.games as usize
        || meta.games as usize != games.len()
        || meta.moment > GREATEST_MOMENT
    {
        return false;
    }
    may_stand(limits, games, meta)
}
