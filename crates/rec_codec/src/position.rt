//! Positions as 38 bytes.
ghost use Rattle.std.specs.Prelude.{◌≡◌, ◌≤◌, ◌<◌, ◌^◌, List, Option, Some, None, IfSome, length, map};
ghost use Rattle.std.specs.List.{range_with_len};
ghost use Rattle.chess_bits.specs.declared.men.Kind.{Kind};
ghost use Rattle.chess_bits.specs.Square.{Square, IsOnBoard};
ghost use Rattle.chess_bits.specs.Man.{Man};
ghost use Rattle.chess_board.specs.Position.{Position, IsValid};
ghost use Rattle.chess_board.specs.RightsOf.{rights_of};
ghost use Rattle.rec_codec.specs.Position.{content_number, pair_byte, target_number, position_flags, position_bytes};
ghost use Rattle.rec_codec.specs.Position.{kind_number, kind_numbered, with_colour, man_numbered};

use crate::fields::{colour_of, is_black, is_set, put, put_u8, put_u16, u8_at, u16_at};
use chess_bits::{Colour, Kind, Square};
use chess_board::{Board, CastlingRights, Parts, Wing};

// The number of a kind.
fn kind_number(kind: Kind) -> u8
    ensures number { result ≡ kind_number kind }
    ensures few { result ≤ 6 }
{
    match kind {
        Kind::Pawn => 1,
        Kind::Knight => 2,
        Kind::Bishop => 3,
        Kind::Rook => 4,
        Kind::Queen => 5,
        Kind::King => 6,
    }
}

// The number of what stands on a square.
fn content_number(man: Option<(Colour, Kind)>) -> u8
    ensures number { result ≡ content_number man }
    ensures few { result ≤ 14 }
{
    match man {
        None => 0,
        Some((Colour::White, kind)) => kind_number(kind),
        Some((Colour::Black, kind)) => 8 + kind_number(kind),
    }
}

// The kind of a number.
fn kind_numbered(number: u8) -> Option<Kind>
    ensures { result ≡ kind_numbered number }
{
    match number {
        1 => Some(Kind::Pawn),
        2 => Some(Kind::Knight),
        3 => Some(Kind::Bishop),
        4 => Some(Kind::Rook),
        5 => Some(Kind::Queen),
        6 => Some(Kind::King),
        _ => None,
    }
}

// A man of the colour, where there is a kind.
fn with_colour(colour: Colour, kind: Option<Kind>) -> Option<(Colour, Kind)>
    ensures { result ≡ with_colour colour kind }
{
    match kind {
        None => None,
        Some(kind) => Some((colour, kind)),
    }
}

// What stands on a square of this number; nothing, where it is no man's. (What is read is compared with what would be
// written, so such a number is refused.)
fn man_numbered(number: u8) -> Option<(Colour, Kind)>
    ensures { result ≡ man_numbered number }
{
    if number < 8 {
        with_colour(Colour::White, kind_numbered(number))
    } else {
        with_colour(Colour::Black, kind_numbered(number - 8))
    }
}

// The bytes of the men.
fn men_bytes(board: &Board) -> [u8; 32]
    ensures { result ≡ map (pair_byte board.now.placement) (range_with_len 0 32) }
{
    let mut bytes = [0; 32];
    for k in 0..32 {
        let low = content_number(board.piece_at(Square::new(2 * k as u8)));
        let high = content_number(board.piece_at(Square::new(2 * k as u8 + 1)));
        bytes[k] = low + 16 * high;
    }
    bytes
}

// The men of such bytes.
fn men_of(bytes: &[u8]) -> [Option<(Colour, Kind)>; 64]
    requires { length bytes.now ≡ 32 }
    ensures { (p : List (Option Man)) → length p ≡ 64 → bytes.now ≡ map (pair_byte p) (range_with_len 0 32) →
        result ≡ p }
{
    let mut men = [None; 64];
    for k in 0..32 {
        let pair = bytes[k];
        men[2 * k] = man_numbered(pair % 16);
        men[2 * k + 1] = man_numbered(pair / 16);
    }
    men
}

// The target's number, or 64.
fn target_number(target: Option<Square>) -> u8
    ensures { result ≡ target_number target }
{
    match target {
        None => 64,
        Some(square) => square.number(),
    }
}

// The target of a number.
fn target_of(number: u8) -> Option<Square>
    ensures { (target : Option Square) → IfSome target IsOnBoard → number ≡ target_number target → result ≡ target }
{
    if number < 64 {
        Some(Square::new(number))
    } else {
        None
    }
}

// The byte of a position's flags.
fn position_flags(board: &Board) -> u8
    ensures { result ≡ position_flags board.now }
{
    let rights = board.rights();
    u8::from(is_black(board.side()))
        + 2 * u8::from(rights.allows(Colour::White, Wing::King))
        + 4 * u8::from(rights.allows(Colour::White, Wing::Queen))
        + 8 * u8::from(rights.allows(Colour::Black, Wing::King))
        + 16 * u8::from(rights.allows(Colour::Black, Wing::Queen))
}

// The side to move of such a byte.
fn side_of(flags: u8) -> Colour
    ensures { (p : Position) → flags ≡ position_flags p → result ≡ p.side }
{
    colour_of(is_set(flags, 1))
}

// The castling rights of such a byte.
fn rights_of(flags: u8) -> CastlingRights
    ensures { (p : Position) → flags ≡ position_flags p → rights_of result ≡ p.rights }
{
    let white_king = is_set(flags, 2);
    let white_queen = is_set(flags, 4);
    let black_king = is_set(flags, 8);
    let black_queen = is_set(flags, 16);
    CastlingRights::of(white_king, white_queen, black_king, black_queen)
}

/// The bytes of a board's position.
pub fn position_bytes(board: &Board) -> [u8; 38]
    ensures bytes { result ≡ position_bytes (Some board.now) }
    ensures valid { IsValid board.now }
{
    let _valid = board.rights();
    let mut out = [0; 38];
    put(&mut out, 0, &men_bytes(board));
    put_u8(&mut out, 32, position_flags(board));
    put_u8(&mut out, 33, target_number(board.target()));
    put_u16(&mut out, 34, board.halfmove());
    put_u16(&mut out, 36, board.fullmove());
    out
}

/// The board of a position's bytes, if they are some valid position's. (Bytes that are none's may be read too, or not.)
pub fn board_of(bytes: &[u8]) -> Option<Board>
    requires { length bytes.now ≡ 38 }
    ensures { (p : Position) → IsValid p → bytes.now ≡ position_bytes (Some p) → result ≡ Some p }
{
    let (men, _rest) = bytes.split_at(32);
    let flags = u8_at(bytes, 32);
    let target = u8_at(bytes, 33);
    let parts = Parts {
        men: men_of(men),
        side: side_of(flags),
        rights: rights_of(flags),
        target: target_of(target),
        halfmove: u16_at(bytes, 34),
        fullmove: u16_at(bytes, 36),
    };
    match Board::try_new(parts) {
        Ok(board) => Some(board),
        Err(_) => None,
    }
}
