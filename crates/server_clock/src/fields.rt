//! The fields of a slot, written and read at their places.
ghost use Rattle.std.specs.Prelude.{◌≡◌, ◌+◌, ◌^◌, ◌<◌, ◌≤◌, ℕ, length};
ghost use Rattle.rec_codec.specs.Field.{u64 as u64_field, over, Stands};

use byteorder::{ByteOrder, LittleEndian};

/// Writes a field's bytes at its place.
pub fn put(out: &mut [u8], at: usize, bytes: &[u8])
    requires room { at + length bytes.now ≤ length out.old }
    ensures { out.new ≡ over out.old (record { offset = at; width = length bytes.now; bytes = bytes.now }) }
{
    out[at..at + bytes.len()].copy_from_slice(bytes);
}

/// Writes a number of eight bytes.
pub fn put_u64(out: &mut [u8], at: usize, n: u64)
    requires { at + 8 ≤ length out.old }
    ensures field { out.new ≡ over out.old (u64_field at n) }
    ensures fits { n < 2 ^ 64 }
{
    let mut bytes = [0; 8];
    LittleEndian::write_u64(&mut bytes, n);
    put(out, at, &bytes);
}

/// The number in eight bytes.
pub fn u64_at(bytes: &[u8], at: usize) -> u64
    requires { at + 8 ≤ length bytes.now }
    ensures { (n : ℕ) → n < 2 ^ 64 → Stands bytes.now (u64_field at n) → result ≡ n }
{
    LittleEndian::read_u64(&bytes[at..])
}
