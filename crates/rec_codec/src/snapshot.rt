//! The records of snapshots.
ghost use Rattle.std.specs.Prelude.{◌≡◌, ◌+◌, ◌≤◌, ◌<◌, ◌^◌, Bool, length, Option, Some};
ghost use Rattle.rec_codec.specs.declared.record.Meta.{Meta};
ghost use Rattle.rec_codec.specs.declared.record.Seat.{Seat};
ghost use Rattle.rec_codec.specs.declared.record.StoredEnding.{StoredEnding};
ghost use Rattle.rec_codec.specs.declared.record.Head.{Head};
ghost use Rattle.rec_codec.specs.declared.record.Moves.{Moves};
ghost use Rattle.rec_codec.specs.Field.{Stands, AllStand, laid, u32 as u32_field};
ghost use Rattle.rec_codec.specs.NameField.{name as name_field};
ghost use Rattle.rec_codec.specs.Records as spec;

use crate::fields::{
    is_set, put, put_u8, put_u16, put_u32, put_u64, u8_at, u16_at, u32_at, u64_at,
};
use crate::used::{name_at, period_at, period_numbers, position_at, put_name, put_position};
use crate::{GameNumber, Head, Meta, MoveList, Moves, Seat, StoredEnding};

/// The bytes of a meta record.
pub fn write_meta(meta: &Meta) -> [u8; 128]
    ensures bytes { result ≡ laid 128 (spec.meta_fields meta.now) }
    ensures meta { spec.IsMeta meta.now }
{
    let mut out = [0; 128];
    put_u8(&mut out, 0, 16);
    put_u32(&mut out, 4, meta.games);
    put_u64(&mut out, 8, meta.moment);
    put_u32(&mut out, 16, meta.last);
    put_u64(&mut out, 20, meta.entries);
    out
}

/// The meta record of a record's bytes, if they are one's. (Others may be read too.)
pub fn read_meta(bytes: &[u8]) -> Meta
    requires { length bytes.now ≡ 128 }
    ensures { (m : Meta) → spec.IsMeta m → AllStand bytes.now (spec.meta_fields m) → result ≡ m }
{
    Meta {
        games: u32_at(bytes, 4),
        moment: u64_at(bytes, 8),
        last: u32_at(bytes, 16),
        entries: u64_at(bytes, 20),
    }
}

// The number of an ending.
fn ending_number(ending: Option<StoredEnding>) -> u16
    ensures number { result ≡ spec.ending_number ending }
    ensures few { result ≤ 14 }
{
    match ending {
        None => 0,
        Some(StoredEnding::WhiteMates) => 1,
        Some(StoredEnding::BlackMates) => 2,
        Some(StoredEnding::WhiteWinsByResignation) => 3,
        Some(StoredEnding::BlackWinsByResignation) => 4,
        Some(StoredEnding::Stalemate) => 5,
        Some(StoredEnding::DeadPosition) => 6,
        Some(StoredEnding::Agreement) => 7,
        Some(StoredEnding::WhiteWinsOnTime) => 8,
        Some(StoredEnding::BlackWinsOnTime) => 9,
        Some(StoredEnding::DrawnOnTime) => 10,
        Some(StoredEnding::ThirdOccurrence) => 11,
        Some(StoredEnding::FiftyMoves) => 12,
        Some(StoredEnding::FifthOccurrence) => 13,
        Some(StoredEnding::SeventyFiveMoves) => 14,
    }
}

// The ending of a number.
fn ending_of(number: u16) -> Option<StoredEnding>
    ensures { (ending : Option StoredEnding) → number ≡ spec.ending_number ending → result ≡ ending }
{
    match number {
        1 => Some(StoredEnding::WhiteMates),
        2 => Some(StoredEnding::BlackMates),
        3 => Some(StoredEnding::WhiteWinsByResignation),
        4 => Some(StoredEnding::BlackWinsByResignation),
        5 => Some(StoredEnding::Stalemate),
        6 => Some(StoredEnding::DeadPosition),
        7 => Some(StoredEnding::Agreement),
        8 => Some(StoredEnding::WhiteWinsOnTime),
        9 => Some(StoredEnding::BlackWinsOnTime),
        10 => Some(StoredEnding::DrawnOnTime),
        11 => Some(StoredEnding::ThirdOccurrence),
        12 => Some(StoredEnding::FiftyMoves),
        13 => Some(StoredEnding::FifthOccurrence),
        14 => Some(StoredEnding::SeventyFiveMoves),
        _ => None,
    }
}

// The byte of a head's flags.
fn head_flags(head: &Head) -> u8
    ensures { result ≡ spec.head_flags head.now }
{
    u8::from(head.white.taken)
        + 2 * u8::from(head.black.taken)
        + 4 * u8::from(head.white.offers)
        + 8 * u8::from(head.black.offers)
        + 16 * u8::from(head.claimed)
        + 32 * u8::from(head.period.is_some())
}

/// The bytes of a head record.
pub fn write_head(head: &Head) -> [u8; 128]
    ensures bytes { result ≡ laid 128 (spec.head_fields head.now) }
    ensures head { spec.IsHead head.now }
{
    let (moves, second) = period_numbers(head.period);
    let mut out = [0; 128];
    put_u8(&mut out, 0, 17);
    put_u8(&mut out, 1, head_flags(head));
    put_u16(&mut out, 2, ending_number(head.ending));
    put_u32(&mut out, 4, head.game.get());
    put_u64(&mut out, 8, head.moment);
    put_u32(&mut out, 16, head.moves);
    put_u32(&mut out, 20, head.initial);
    put_u32(&mut out, 24, head.increment);
    put_name(&mut out, 28, head.white.name);
    put_position(&mut out, 45, Some(head.start));
    put_name(&mut out, 83, head.black.name);
    put_u32(&mut out, 100, head.white.held);
    put_u32(&mut out, 104, head.black.held);
    put_u32(&mut out, 108, moves);
    put_u32(&mut out, 112, second);
    out
}

// A side by its flags, and its name and time at their places.
fn seat_at(bytes: &[u8], taken: bool, offers: bool, name: usize, held: usize) -> Seat
    requires name_inside { name + 17 ≤ length bytes.now }
    requires held_inside { held + 4 ≤ length bytes.now }
    ensures { (s : Seat) → spec.IsSeat s → Stands bytes.now (name_field name s.name) →
        Stands bytes.now (u32_field held s.held) →
        taken ≡ s.taken → offers ≡ s.offers → result ≡ s }
{
    Seat {
        taken,
        name: name_at(bytes, name),
        offers,
        held: u32_at(bytes, held),
    }
}

/// The head record of a record's bytes, if they are one's. (Others may be read too, or not.)
pub fn read_head(bytes: &[u8]) -> Option<Head>
    requires { length bytes.now ≡ 128 }
    ensures { (h : Head) → spec.IsHead h → AllStand bytes.now (spec.head_fields h) → result ≡ Some h }
{
    let flags = u8_at(bytes, 1);
    let white_taken = is_set(flags, 1);
    let black_taken = is_set(flags, 2);
    let white_offers = is_set(flags, 4);
    let black_offers = is_set(flags, 8);
    let claimed = is_set(flags, 16);
    let has_period = is_set(flags, 32);
    let game = GameNumber::try_new(u32_at(bytes, 4))?;
    let start = position_at(bytes, 45)?;
    let moment = u64_at(bytes, 8);
    let moves = u32_at(bytes, 16);
    let initial = u32_at(bytes, 20);
    let increment = u32_at(bytes, 24);
    let period = period_at(bytes, 108, has_period);
    let white = seat_at(bytes, white_taken, white_offers, 28, 100);
    let black = seat_at(bytes, black_taken, black_offers, 83, 104);
    let ending = ending_of(u16_at(bytes, 2));
    Some(Head {
        game,
        moment,
        moves,
        initial,
        increment,
        period,
        start,
        white,
        black,
        claimed,
        ending,
    })
}

/// The bytes of a moves record.
pub fn write_moves(moves: &Moves) -> [u8; 128]
    ensures bytes { result ≡ laid 128 (spec.moves_fields moves.now) }
    ensures moves { spec.IsMoves moves.now }
{
    let mut field = [0; 120];
    moves.moves.write(&mut field);
    let mut out = [0; 128];
    put_u8(&mut out, 0, 18);
    put_u8(&mut out, 1, moves.moves.len());
    put_u32(&mut out, 4, moves.game.get());
    put(&mut out, 8, &field);
    out
}

/// The moves record of a record's bytes, if they are one's. (Others may be read too, or not.)
pub fn read_moves(bytes: &[u8]) -> Option<Moves>
    requires { length bytes.now ≡ 128 }
    ensures { (m : Moves) → spec.IsMoves m → AllStand bytes.now (spec.moves_fields m) → result ≡ Some m }
{
    let game = GameNumber::try_new(u32_at(bytes, 4))?;
    let count = u8_at(bytes, 1);
    let (_front, field) = bytes.split_at(8);
    let moves = MoveList::from_field(count, field)?;
    Some(Moves { game, moves })
}
