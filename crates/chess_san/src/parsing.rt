ghost use Rattle.std.specs.Prelude.{◌≡◌, ◌<◌, reverse, slice_index};
ghost use Rattle.chess_san.specs.Asked as asks;

use chess_bits::{Colour, Kind, Square};
use chess_board::{Move, Wing, castled_king};
use chess_notation::square_named;

/// What a text asks for: a man of the kind to the square, which becomes that.
#[derive(Clone, Copy)]
pub struct Asked {
    pub kind: Kind,
    pub to: Square,
    pub promotion: Option<Kind>,
}

/// What a text ends with: the square reached, and what a pawn becomes there.
#[derive(Clone, Copy)]
pub struct Arrival {
    pub to: Square,
    pub promotion: Option<Kind>,
}

// The byte at an index, or 0 past the end.
fn byte_at(text: &[u8], index: usize) -> u8
    ensures { result ≡ slice_index text.now index }
{
    text.get(index).copied().unwrap_or(0)
}

// The byte so many places before the last, or 0 where there is none.
fn byte_from_end(text: &[u8], back: usize) -> u8
    ensures { result ≡ slice_index (reverse text.now) back }
{
    if back < text.len() {
        text[text.len() - 1 - back]
    } else {
        0
    }
}

// The piece that a capital letter names.
#[tactic(auto, unfolding(crate::specs::Asked::piece_named))]
fn piece_named(letter: u8) -> Option<Kind>
    ensures { result ≡ asks.piece_named letter }
{
    match letter {
        b'N' => Some(Kind::Knight),
        b'B' => Some(Kind::Bishop),
        b'R' => Some(Kind::Rook),
        b'Q' => Some(Kind::Queen),
        b'K' => Some(Kind::King),
        _ => None,
    }
}

// How many bytes `+` or `#` takes at the end.
#[tactic(auto, unfolding(crate::specs::Asked::suffix_len))]
fn suffix_len(text: &[u8]) -> usize
    ensures len { result ≡ asks.suffix_len (reverse text.now) }
    ensures below { result < 2 }
{
    match byte_from_end(text, 0) {
        b'+' | b'#' => 1,
        _ => 0,
    }
}

// The square before `=` and a letter.
#[tactic(auto, unfolding(crate::specs::Asked::promoted_arrival))]
fn promoted_arrival(text: &[u8], skip: usize) -> Option<Arrival>
    requires { skip < 2 }
    ensures { result ≡ asks.promoted_arrival (reverse text.now) skip }
{
    let kind = piece_named(byte_from_end(text, skip))?;
    let to = square_named(byte_from_end(text, skip + 3), byte_from_end(text, skip + 2))?;
    Some(Arrival {
        to,
        promotion: Some(kind),
    })
}

// The square at the end.
#[tactic(auto, unfolding(crate::specs::Asked::plain_arrival))]
fn plain_arrival(text: &[u8], skip: usize) -> Option<Arrival>
    requires { skip < 2 }
    ensures { result ≡ asks.plain_arrival (reverse text.now) skip }
{
    let to = square_named(byte_from_end(text, skip + 1), byte_from_end(text, skip))?;
    Some(Arrival {
        to,
        promotion: None,
    })
}

// What a text ends with.
#[tactic(auto, unfolding(crate::specs::Asked::arrival_of))]
fn arrival_of(text: &[u8]) -> Option<Arrival>
    ensures { result ≡ asks.arrival_of (reverse text.now) }
{
    let skip = suffix_len(text);
    if byte_from_end(text, skip + 1) == b'=' {
        promoted_arrival(text, skip)
    } else {
        plain_arrival(text, skip)
    }
}

// The castling that a text with `O` asks for: `O-O-O` has a stroke where `O-O` has ended.
#[tactic(auto, unfolding(crate::specs::Asked::asked_castling))]
fn asked_castling(side: Colour, text: &[u8]) -> Asked
    ensures { result ≡ asks.asked_castling side text.now }
{
    let wing = if byte_at(text, 3) == b'-' {
        Wing::Queen
    } else {
        Wing::King
    };
    Asked {
        kind: Kind::King,
        to: castled_king(side, wing),
        promotion: None,
    }
}

/// What a text asks for. Each SAN of a legal move, with its suffix or without it, asks for what the move does.
#[tactic(auto, unfolding(crate::specs::Asked::asked_of))]
pub fn asked_of(side: Colour, text: &[u8]) -> Option<Asked>
    ensures { result ≡ asks.asked_of side text.now }
{
    let first = byte_at(text, 0);
    if first == b'O' {
        return Some(asked_castling(side, text));
    }
    let end = arrival_of(text)?;
    Some(Asked {
        kind: piece_named(first).unwrap_or(Kind::Pawn),
        to: end.to,
        promotion: end.promotion,
    })
}

// Whether a byte can be the second of a piece's text: `x`, or of the square left, or the file of the square reached.
fn is_second(second: u8, mv: &Move) -> bool
    ensures { result ≡ asks.is_second second mv.now }
{
    let from = mv.from;
    let to = mv.to;
    second == b'x'
        || second == b'`' + from.file()
        || second == b'0' + from.rank()
        || second == b'`' + to.file()
}

/// Whether a text's beginning allows the square that a move of a man of the kind leaves. It is so of the move's SAN.
#[tactic(auto, unfolding(crate::specs::Asked::may_leave))]
pub fn may_leave(text: &[u8], kind: Kind, mv: &Move) -> bool
    ensures { result ≡ asks.may_leave text.now kind mv.now }
{
    let from = mv.from;
    match kind {
        Kind::Pawn => byte_at(text, 0) == b'`' + from.file(),
        Kind::King => true,
        Kind::Knight | Kind::Bishop | Kind::Rook | Kind::Queen => is_second(byte_at(text, 1), mv),
    }
}
