//! Fields of a table, written and read at their places.
ghost use Rattle.std.specs.Prelude.{◌≡◌, ◌==◌, ◌+◌, ◌*◌, ◌^◌, ◌<◌, ◌≤◌, ℕ, length, cond};
ghost use Rattle.rec_codec.specs.Field.{u8 as byte_field, u16 as u16_field, u32 as u32_field, u64 as u64_field, over};
ghost use Rattle.rec_codec.specs.Field.{Stands};
ghost use Rattle.rec_codec.specs.Flags.{is_set, is_black, colour_of};

use byteorder::{ByteOrder, LittleEndian};
use chess_bits::Colour;

/// Writes a field's bytes at its place.
pub fn put(out: &mut [u8], at: usize, bytes: &[u8])
    requires room { at + length bytes.now ≤ length out.old }
    ensures { out.new ≡ over out.old (record { offset = at; width = length bytes.now; bytes = bytes.now }) }
{
    out[at..at + bytes.len()].copy_from_slice(bytes);
}

/// Writes a byte.
pub fn put_u8(out: &mut [u8], at: usize, n: u8)
    requires { at < length out.old }
    ensures field { out.new ≡ over out.old (byte_field at n) }
    ensures fits { n < 2 ^ 8 }
{
    put(out, at, &[n]);
}

/// Writes a number of two bytes.
pub fn put_u16(out: &mut [u8], at: usize, n: u16)
    requires { at + 2 ≤ length out.old }
    ensures field { out.new ≡ over out.old (u16_field at n) }
    ensures fits { n < 2 ^ 16 }
{
    let mut bytes = [0; 2];
    LittleEndian::write_u16(&mut bytes, n);
    put(out, at, &bytes);
}

/// Writes a number of four bytes.
pub fn put_u32(out: &mut [u8], at: usize, n: u32)
    requires { at + 4 ≤ length out.old }
    ensures field { out.new ≡ over out.old (u32_field at n) }
    ensures fits { n < 2 ^ 32 }
{
    let mut bytes = [0; 4];
    LittleEndian::write_u32(&mut bytes, n);
    put(out, at, &bytes);
}

/// Writes a number of eight bytes.
pub fn put_u64(out: &mut [u8], at: usize, n: u64)
    requires { at + 8 ≤ length out.old }
    ensures field { out.new ≡ over out.old (u64_field at n) }
    ensures fits { n < 2 ^ 64 }
{
    let mut bytes = [0; 8];
    LittleEndian::write_u64(&mut bytes, n);
    put(out, at, &bytes);
}

/// The byte at a place.
pub fn u8_at(bytes: &[u8], at: usize) -> u8
    requires { at < length bytes.now }
    ensures { (n : ℕ) → Stands bytes.now (byte_field at n) → result ≡ n }
{
    bytes[at]
}

/// The number in two bytes.
pub fn u16_at(bytes: &[u8], at: usize) -> u16
    requires { at + 2 ≤ length bytes.now }
    ensures { (n : ℕ) → n < 2 ^ 16 → Stands bytes.now (u16_field at n) → result ≡ n }
{
    LittleEndian::read_u16(&bytes[at..])
}

/// The number in four bytes.
pub fn u32_at(bytes: &[u8], at: usize) -> u32
    requires { at + 4 ≤ length bytes.now }
    ensures { (n : ℕ) → n < 2 ^ 32 → Stands bytes.now (u32_field at n) → result ≡ n }
{
    LittleEndian::read_u32(&bytes[at..])
}

/// The number in eight bytes.
pub fn u64_at(bytes: &[u8], at: usize) -> u64
    requires { at + 8 ≤ length bytes.now }
    ensures { (n : ℕ) → n < 2 ^ 64 → Stands bytes.now (u64_field at n) → result ≡ n }
{
    LittleEndian::read_u64(&bytes[at..])
}

/// Whether the flag of this worth is set in a byte of flags.
pub fn is_set(byte: u8, worth: u8) -> bool
    requires { 1 ≤ worth }
    ensures { result ≡ is_set byte worth }
{
    byte / worth % 2 == 1
}

/// Whether a side is Black, whose flag is set.
pub fn is_black(colour: Colour) -> bool
    ensures { result ≡ is_black colour }
{
    match colour {
        Colour::White => false,
        Colour::Black => true,
    }
}

/// The side of a flag.
pub fn colour_of(flag: bool) -> Colour
    ensures { result ≡ colour_of flag }
{
    if flag { Colour::Black } else { Colour::White }
}
