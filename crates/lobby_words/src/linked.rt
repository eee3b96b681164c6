//! A player's link that was changed.
use crate::players::Player;

/// What has become of the players for an order, and the token of a new link.
#[derive(Drop)]
pub struct Linked {
    pub players: Vec<Player>,
    pub token: String,
}
