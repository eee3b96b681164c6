//! Tokens, and the links that show them.
ghost use Rattle.std.specs.Prelude.{◌≡◌, ◌++◌, IfOk, codes};
ghost use Rattle.std.specs.String.{string_bytes};
ghost use Rattle.hex.specs.Hex.{encode_lower};

use rand_core::TryRng;
use std::alloc::{AllocError, Global};

/// A new token of 128 bits: the bytes that the source gave when it was asked for them, and no others.
pub fn new_token<G: TryRng>(source: &mut G) -> Result<[u8; 16], G::Error>
    ensures { IfOk result (λ token. G.may_fill source.old token source.new) }
{
    let mut token = [0; 16];
    source.try_fill_bytes(&mut token)?;
    Ok(token)
}

/// Lets a text go whose bytes are a secret: zeros are written over them before its memory is given back. That is all
/// that is done, and no clause says it: a compiler may leave such writes out, and copies that were made of the text
/// stay.
pub fn forget(text: String) {
    let mut bytes = text.into_bytes();
    bytes.as_mut_slice().fill(0);
}

/// A token as text: 32 hex digits, with small letters.
pub fn token_text(alloc: Global, token: &[u8; 16]) -> Result<String, AllocError>
    ensures { IfOk result (λ text. string_bytes text ≡ encode_lower token.now) }
{
    hex::encode(alloc, token.as_slice())
}

/// The personal link of who has the token: the page's address, as `http://club.example/`, and the token behind a `#`,
/// so that no browser sends it.
pub fn link_text(alloc: Global, page: &str, token: &[u8; 16]) -> Result<String, AllocError>
    ensures { IfOk result (λ text. string_bytes text ≡ page.now ++ codes "#" ++ encode_lower token.now) }
{
    let shown = token_text(alloc, token)?;
    let mut text = String::from_str(alloc, page)?;
    text.push('#')?;
    text.push_str(shown.as_str())?;
    forget(shown);
    Ok(text)
}
