//! A connection's place among all of them.
ghost use Rattle.std.specs.Prelude.{◌≡◌};
ghost use Rattle.lobby_guests.specs.Paces.{number_of};
ghost use Rattle.lobby_guests.specs.Place.{is_gone};

use player_name::Name;

/// How a connection stands.
#[derive(Clone, Copy)]
pub enum Role {
    /// It is to be closed.
    Gone,
    /// It acts for a player.
    Player,
    /// It acts for nobody.
    Newcomer,
}

/// What is left to do for what came of a connection.
#[derive(Clone, Copy)]
pub enum Work {
    /// It is being answered: something of it may be left to hear, or something to write to it.
    Answering,
    /// Requests of it were answered, and of none more a head has begun.
    Idle,
    /// No whole request came of it yet, or its socket is open: what it shows is awaited.
    Awaited,
}

/// A connection's place.
#[derive(Clone, Copy)]
pub struct Place {
    /// The address that it counts for, if for any.
    pub address: Option<u64>,
    pub role: Role,
    /// The player for whom it acts, if for any.
    pub player: Option<Name>,
    /// When it came, in milliseconds.
    pub since: u64,
    pub work: Work,
}

/// Whether a connection is to be closed.
pub fn is_gone(role: Role) -> bool
    ensures { result ≡ is_gone role }
{
    matches!(role, Role::Gone)
}

/// A name as a number.
#[tactic(auto, unfolding(crate::specs::Paces::number_of))]
pub fn number_of(name: &Name) -> u128
    ensures { result ≡ number_of name.now }
{
    u128::from_le_bytes(name.padded())
}
