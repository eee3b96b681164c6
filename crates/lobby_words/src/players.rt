//! The players of a club, and whom a token shows.
ghost use Rattle.std.specs.Prelude.{◌≡◌};
ghost use Rattle.std.specs.List.{list_all};
ghost use Rattle.std.specs.Str.{bytes_eq};
ghost use Rattle.lobby_words.specs.Players.{identity_of, is_token_digit, is_token, or_holder, holder_of_sum, holder_of};

use crate::Identity;
use player_name::Name;
use sha2::{Digest, Sha256};

/// A player, as the players' file has it.
#[derive(Drop)]
pub struct Player {
    pub name: Name,
    pub full_name: String,
    /// The SHA-256 of the token's text.
    pub sum: [u8; 32],
    pub is_arbiter: bool,
}

/// Whether two sums are the same. Each byte is looked at, wherever they differ.
pub fn is_same_sum(a: &[u8; 32], b: &[u8; 32]) -> bool
    ensures { result ≡ bytes_eq a.now b.now }
{
    a.iter()
        .zip(b.iter())
        .fold(true, |same, (one, other)| same & (one == other))
}

// Who was found before, and else the player, if he has the token.
fn or_holder(before: Option<Identity>, is_holder: bool, player: &Player) -> Option<Identity>
    ensures { result ≡ or_holder before is_holder (identity_of player.now) }
{
    let holder = Identity {
        name: player.name,
        is_arbiter: player.is_arbiter,
    };
    before.or(is_holder.then_some(holder))
}

// Whether a byte is one of the digits 0 to 9 and a to f.
fn is_token_digit(byte: u8) -> bool
    ensures { result ≡ is_token_digit byte }
{
    matches!(byte, b'0'..=b'9' | b'a'..=b'f')
}

// Whether each byte is one of the digits 0 to 9 and a to f.
fn are_token_digits(bytes: &[u8]) -> bool
    ensures { result ≡ list_all is_token_digit bytes.now }
{
    bytes.iter().all(|byte| is_token_digit(*byte))
}

/// Whether a text is a token: 32 hex digits, with small letters.
pub fn is_token(text: &str) -> bool
    ensures { result ≡ is_token text.now }
{
    let bytes = text.as_bytes();
    bytes.len() == 32 && are_token_digits(bytes)
}

// The first player who has the sum, and `None` where no player has it. Each player's sum is looked at, wherever one is
// this.
fn holder_of_sum(players: &[Player], sum: &[u8; 32]) -> Option<Identity>
    ensures { result ≡ holder_of_sum players.now sum.now }
{
    let mut holder = None;
    for player in players {
        let is_holder = is_same_sum(&player.sum, sum);
        holder = or_holder(holder, is_holder, player);
    }
    holder
}

/// The first player who has the token, and `None` where no player has it, or it is no token. Of a token each player's
/// sum is looked at, wherever one is the token's.
pub fn holder_of(players: &[Player], token: &str) -> Option<Identity>
    ensures { result ≡ holder_of players.now token.now }
{
    if !is_token(token) {
        return None;
    }
    let sum = Sha256::digest(token);
    holder_of_sum(players, &sum)
}
