//! The order of players by which they have their starting numbers.
ghost use Rattle.std.specs.Prelude.{◌≡◌, ◌≤◌, [], length, IfOk};
ghost use Rattle.night_report.specs.Order as spec;

use crate::particulars::Particulars;
use std::alloc::{AllocError, Global};

/// The place of a title among FIDE's, the highest first; behind them all a text that is none.
pub fn title_place(title: &str) -> u32
    ensures { result ≡ spec.title_place title.now }
{
    match title {
        "GM" => 0,
        "IM" => 1,
        "WGM" => 2,
        "FM" => 3,
        "WIM" => 4,
        "CM" => 5,
        "WFM" => 6,
        "WCM" => 7,
        _ => 8,
    }
}

// Whether a text stands before another one, byte by byte.
fn is_before(one: &str, other: &str) -> bool
    ensures { result ≡ spec.is_before one.now other.now }
{
    one.cmp(other).is_lt()
}

// Whether a number of digits, without zeros before them, is less than another; nothing is less than each.
fn is_less(one: &str, other: &str) -> bool
    ensures { result ≡ spec.is_less one.now other.now }
{
    one.len() < other.len() || (one.len() == other.len() && is_before(one, other))
}

// Whether a player of the same rating stands before another one: by title, and then by name.
fn is_named_before(one: &Particulars<'_>, other: &Particulars<'_>) -> bool
    ensures { result ≡ spec.is_named_before one.now other.now }
{
    let (place, other_place) = (title_place(one.title), title_place(other.title));
    place < other_place || (place == other_place && is_before(one.full_name, other.full_name))
}

// Whether a player stands before another one.
fn precedes(one: &Particulars<'_>, other: &Particulars<'_>) -> bool
    ensures { result ≡ spec.precedes one.now other.now }
{
    is_less(other.rating, one.rating)
        || (!is_less(one.rating, other.rating) && is_named_before(one, other))
}

// How many stand before a player: up to the first before whom the player stands.
fn place_of(player: &Particulars<'_>, before: &[Particulars<'_>]) -> usize
    ensures place { result ≡ spec.place_of player.now before.now }
    ensures among { result ≤ length before.now }
{
    for at in 0..before.len() {
        if precedes(player, &before[at]) {
            return at;
        }
    }
    before.len()
}

/// Players in the order of their starting numbers (FIDE's handbook, C.04.2): by rating, the highest first, then by
/// title, the highest first, and then by full name; who are alike in all stay in their order. It fails where memory is
/// refused.
pub fn starting_order<'a>(
    alloc: Global,
    players: &[Particulars<'a>],
) -> Result<Vec<Particulars<'a>>, AllocError>
    ensures { IfOk result (λ ordered. ordered.items ≡ spec.in_order [] players.now) }
{
    let mut ordered = Vec::new(alloc);
    for player in players {
        let place = place_of(player, ordered.as_slice());
        ordered.insert(place, *player)?;
    }
    Ok(ordered)
}
