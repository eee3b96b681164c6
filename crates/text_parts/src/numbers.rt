//! The number that a text spells, and a text with a number put behind it.
ghost use Rattle.std.specs.Prelude.{ℕ, ◌≡◌, ◌<◌, ◌^◌, ◌++◌, Some, IfSome, SomeIff, OnOk, OnErr, decimal};
ghost use Rattle.std.specs.String.{string_bytes};
ghost use Rattle.text_parts.specs.Numbers.{number_below, u64_in};

use itoa::Buffer;
use std::alloc::AllocError;

/// The number below 2 ^ 64 that a text spells, in its one spelling.
pub fn number_named(text: &str) -> Option<u64>
    ensures { result ≡ u64_in text.now }
{
    number_read(text)
}

// The number that is read and must be what is written for it.
fn number_read(text: &str) -> Option<u64>
    ensures some { IfSome result (λ n. (n < 2 ^ 64) × (text.now ≡ decimal n)) }
    ensures every { (n : ℕ) → n < 2 ^ 64 → text.now ≡ decimal n → result ≡ Some n }
{
    let Ok(number) = text.parse::<u64>() else {
        return None;
    };
    let mut buffer = Buffer::new();
    if buffer.format(number) == text {
        Some(number)
    } else {
        None
    }
}

/// The number below 2 ^ 32 that a text spells, in its one spelling.
pub fn number_of_32_bits(text: &str) -> Option<u32>
    ensures { result ≡ number_below (2 ^ 32) text.now }
{
    match number_named(text) {
        Some(number) => below_32_bits(number),
        None => None,
    }
}

// A number, where 32 bits have it.
fn below_32_bits(number: u64) -> Option<u32>
    ensures { SomeIff result (number < 2 ^ 32) number }
{
    u32::try_from(number).ok()
}

/// Puts a number behind a text, in decimal digits. The text stays as it was where memory is refused.
pub fn push_number(text: &mut String, number: u64) -> Result<(), AllocError>
    ensures put { OnOk result (string_bytes text.new ≡ string_bytes text.old ++ decimal number) }
    ensures unchanged { OnErr result (string_bytes text.new ≡ string_bytes text.old) }
{
    let mut buffer = Buffer::new();
    text.push_str(buffer.format(number))
}
