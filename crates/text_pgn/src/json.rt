//! Values of JSON.
ghost use Rattle.std.specs.Prelude.{◌≡◌, ◌++◌, OnOk, decimal};
ghost use Rattle.text_pgn.specs.Json as spec;

use itoa::Buffer;
use std::alloc::AllocError;
use text_parts::push_escaped;

/// Appends a string.
#[tactic(auto, unfolding(crate::specs::Json::string))]
pub fn push_string(out: &mut Vec<u8>, text: &[u8]) -> Result<(), AllocError>
    ensures { OnOk result (out.new.items ≡ out.old.items ++ spec.string text.now) }
{
    out.extend_from_slice(b"\"")?;
    push_escaped(out, text)?;
    out.extend_from_slice(b"\"")
}

/// Appends what stands in front of a string, and the string.
pub fn push_text(out: &mut Vec<u8>, front: &[u8], text: &str) -> Result<(), AllocError>
    ensures { OnOk result (out.new.items ≡ out.old.items ++ (front.now ++ spec.string text.now)) }
{
    out.extend_from_slice(front)?;
    push_string(out, text.as_bytes())?;
    Ok(())
}

/// Appends a number.
pub fn push_decimal(out: &mut Vec<u8>, number: u64) -> Result<(), AllocError>
    ensures { OnOk result (out.new.items ≡ out.old.items ++ decimal number) }
{
    let mut buffer = Buffer::new();
    out.extend_from_slice(buffer.format(number).as_bytes())
}

/// Appends what stands in front of a number, and the number.
pub fn push_number(out: &mut Vec<u8>, front: &[u8], number: u64) -> Result<(), AllocError>
    ensures { OnOk result (out.new.items ≡ out.old.items ++ (front.now ++ decimal number)) }
{
    out.extend_from_slice(front)?;
    push_decimal(out, number)?;
    Ok(())
}

/// Appends a number, or `null` where there is none.
pub fn push_known(out: &mut Vec<u8>, number: Option<u64>) -> Result<(), AllocError>
    ensures { OnOk result (out.new.items ≡ out.old.items ++ spec.number_or_null number) }
{
    match number {
        Some(number) => push_decimal(out, number),
        None => out.extend_from_slice(b"null"),
    }
}

/// Appends `true` or `false`.
pub fn push_truth(out: &mut Vec<u8>, truth: bool) -> Result<(), AllocError>
    ensures { OnOk result (out.new.items ≡ out.old.items ++ spec.truth truth) }
{
    let text = if truth { "true" } else { "false" };
    out.extend_from_slice(text.as_bytes())
}
