//! The text in a string.
ghost use Rattle.std.specs.Prelude.{◌≡◌, ◌++◌, false, IfOk, OnOk};
ghost use Rattle.text_parts.specs.Strings as spec;

use std::alloc::{AllocError, Global};

// A byte in a string.
fn push_byte(out: &mut Vec<u8>, byte: u8) -> Result<(), AllocError>
    ensures { OnOk result (out.new.items ≡ out.old.items ++ spec.escaped_byte byte) }
{
    if byte == b'\n' {
        out.extend_from_slice(b"\\n")?;
        return Ok(());
    }
    if byte == b'"' || byte == b'\\' {
        out.push(b'\\')?;
    }
    out.push(byte)?;
    Ok(())
}

/// Puts a text behind others as it stands in a string: a line feed, a quote and a backslash are escaped, and no other
/// control character, which has no place there.
pub fn push_escaped(out: &mut Vec<u8>, text: &[u8]) -> Result<(), AllocError>
    ensures { OnOk result (out.new.items ≡ out.old.items ++ spec.escaped text.now) }
{
    for byte in text {
        push_byte(out, *byte)?;
    }
    Ok(())
}

// The byte that stands behind a backslash.
fn plain_byte(byte: u8) -> u8
    ensures { result ≡ spec.plain_byte byte }
{
    if byte == b'n' { b'\n' } else { byte }
}

/// The text of a string of which the first quote is taken off: without its escapes, up to the quote that ends it.
pub fn unescaped(alloc: Global, text: &[u8]) -> Result<Vec<u8>, AllocError>
    ensures { IfOk result (λ plain. plain.items ≡ spec.unescaped_from false text.now) }
{
    let mut plain = Vec::new(alloc);
    let mut is_behind = false;
    for byte in text {
        if is_behind {
            plain.push(plain_byte(*byte))?;
            is_behind = false;
        } else if *byte == b'"' {
            return Ok(plain);
        } else if *byte == b'\\' {
            is_behind = true;
        } else {
            plain.push(*byte)?;
        }
    }
    Ok(plain)
}

/// What stands behind the quote that ends such a string.
pub fn behind_string(text: &[u8]) -> &[u8]
    ensures { result.now ≡ spec.behind_from false text.entry.now }
{
    let mut rest = text;
    let mut is_behind = false;
    while let [byte, more @ ..] = rest {
        rest = more;
        if is_behind {
            is_behind = false;
        } else if *byte == b'"' {
            return rest;
        } else {
            is_behind = *byte == b'\\';
        }
    }
    &[]
}
