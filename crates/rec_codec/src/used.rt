//! The fields that kinds of records share.
ghost use Rattle.std.specs.Prelude.{◌≡◌, ◌≤◌, ◌<◌, ◌^◌, ◌+◌, ℕ, List, length, replicate, Option, Some, None, IfSome};
ghost use Rattle.std.specs.Prelude.{is_some};
ghost use Rattle.chess_board.specs.declared.moves.Move.{Move};
ghost use Rattle.chess_board.specs.Position.{Position, IsValid};
ghost use Rattle.rec_codec.specs.Field.{Stands, over, u32 as u32_field};
ghost use Rattle.player_name.specs.Name.{IsName};
ghost use Rattle.rec_codec.specs.NameField.{name as name_field, name_bytes};
ghost use Rattle.rec_codec.specs.Position.{position as position_field, position_bytes};
ghost use Rattle.rec_codec.specs.Period.{period_moves, period_second};

use crate::Name;
use crate::fields::{put, u32_at};
use crate::position::{board_of, position_bytes};
use chess_board::Board;

// The 17 bytes of a name.
fn some_name_bytes(name: Name) -> [u8; 17]
    ensures bytes { result ≡ name_bytes (Some name) }
    ensures named { IsName name }
{
    let mut out = [0; 17];
    out[0] = name.len();
    out[1..].copy_from_slice(&name.padded());
    out
}

// The 17 bytes of a name, or zeros for none.
fn name_bytes(name: Option<Name>) -> [u8; 17]
    ensures bytes { result ≡ name_bytes name }
    ensures named { IfSome name IsName }
{
    match name {
        None => [0; 17],
        Some(name) => some_name_bytes(name),
    }
}

/// Writes a name, or zeros for none.
pub fn put_name(out: &mut [u8], at: usize, name: Option<Name>)
    requires { at + 17 ≤ length out.old }
    ensures field { out.new ≡ over out.old (name_field at name) }
    ensures named { IfSome name IsName }
{
    let bytes = name_bytes(name);
    put(out, at, &bytes);
}

// The name that a field's 17 bytes hold, if they hold one: after the length the text.
fn name_in(field: &[u8]) -> Option<Name>
    requires { length field.now ≡ 17 }
    ensures name { (text : List ℕ) → IsName text → field.now ≡ name_bytes (Some text) → result ≡ Some text }
    ensures none { field.now ≡ name_bytes None → result ≡ None }
{
    let len = field[0] as usize;
    if len > 16 {
        return None;
    }
    Name::of_bytes(&field[1..1 + len])
}

/// The name at a place, if there is one.
pub fn name_at(bytes: &[u8], at: usize) -> Option<Name>
    requires { at + 17 ≤ length bytes.now }
    ensures { (name : Option (List ℕ)) → IfSome name IsName → Stands bytes.now (name_field at name) → result ≡ name }
{
    let (_before, from) = bytes.split_at(at);
    let (field, _after) = from.split_at(17);
    name_in(field)
}

// The 38 bytes of a position, or zeros for none.
#[tactic(auto, unfolding(crate::specs::Position::position_bytes))]
fn start_bytes(start: Option<Board>) -> [u8; 38]
    ensures bytes { result ≡ position_bytes start }
    ensures valid { IfSome start IsValid }
{
    match start {
        None => [0; 38],
        Some(board) => position_bytes(&board),
    }
}

/// Writes a position, or zeros for none.
pub fn put_position(out: &mut [u8], at: usize, start: Option<Board>)
    requires { at + 38 ≤ length out.old }
    ensures field { out.new ≡ over out.old (position_field at start) }
    ensures valid { IfSome start IsValid }
{
    let bytes = start_bytes(start);
    put(out, at, &bytes);
}

/// The board of the position at a place, if there is a valid one.
pub fn position_at(bytes: &[u8], at: usize) -> Option<Board>
    requires { at + 38 ≤ length bytes.now }
    ensures { (p : Position) → IsValid p → Stands bytes.now (position_field at (Some p)) → result ≡ Some p }
{
    let (_before, from) = bytes.split_at(at);
    let (field, _after) = from.split_at(38);
    board_of(field)
}

/// The numbers of a second period, 0 and 0 where there is none.
pub fn period_numbers(period: Option<(u32, u32)>) -> (u32, u32)
    ensures moves { result.0 ≡ period_moves period }
    ensures second { result.1 ≡ period_second period }
{
    match period {
        None => (0, 0),
        Some(period) => period,
    }
}

/// The second period whose two numbers stand at a place, where the flag is set.
pub fn period_at(bytes: &[u8], at: usize, flag: bool) -> Option<(u32, u32)>
    requires { at + 8 ≤ length bytes.now }
    ensures { (period : Option (ℕ × ℕ)) → period_moves period < 2 ^ 32 → period_second period < 2 ^ 32 →
        Stands bytes.now (u32_field at (period_moves period)) →
        Stands bytes.now (u32_field (at + 4) (period_second period)) →
        flag ≡ is_some period → result ≡ period }
{
    let moves = u32_at(bytes, at);
    let second = u32_at(bytes, at + 4);
    if flag { Some((moves, second)) } else { None }
}
