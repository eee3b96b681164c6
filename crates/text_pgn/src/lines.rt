//! Tokens in lines.
ghost use Rattle.std.specs.Prelude.{◌≡◌, ℕ, true, [], ◌∷◌, ◌++◌, ◌≤◌, List, map, IfOk, OnOk};
ghost use Rattle.std.specs.List.{list_all};
ghost use Rattle.chess_text.specs.Movetext.{IsToken, IsUnderWay, PutsMovetext, is_token};
ghost use Rattle.text_pgn.specs.Archived.{is_laid};

use chess_text::{WIDEST, separated};
use std::alloc::AllocError;

// Whether a token is not empty and fits into a line.
fn is_short(token: &[u8]) -> bool
    ensures { result ≡ is_token token.now }
{
    !token.is_empty() && token.len() <= WIDEST
}

// Whether each token fits into a line.
fn are_short(tokens: &[Vec<u8>]) -> bool
    ensures { result ≡ list_all (λ t. is_token t.items) tokens.now }
{
    tokens.iter().all(|token| is_short(token.as_slice()))
}

/// Whether there is a token, and each fits into a line.
pub fn are_laid(tokens: &[Vec<u8>]) -> bool
    ensures { result ≡ is_laid (map (λ t. t.items) tokens.now) }
{
    !tokens.is_empty() && are_short(tokens)
}

// Writes a token behind those of the movetext under way, whose last line has `width` characters: in that line, if it
// fits there, else in a new one. It answers the width of the last line then, and fails where memory is refused.
fn push_token(out: &mut Vec<u8>, width: usize, token: &[u8]) -> Result<usize, AllocError>
    requires width { width ≤ 79 }
    requires token { IsToken token.now }
    ensures under_way { (front : List ℕ) (tokens : List (List ℕ)) → IsUnderWay front tokens out.old.items width →
        IfOk result (λ wide. IsUnderWay front (tokens ++ token.now ∷ []) out.new.items wide) }
    ensures width { IfOk result (λ wide. wide ≤ 79) }
{
    let len = token.len();
    let (separator, before) = separated(width, len);
    out.extend_from_slice(separator.as_bytes())?;
    out.extend_from_slice(token)?;
    Ok(before + len)
}

/// Writes tokens behind a text, in lines that each take as many as fit (PGN Standard, section 8.2.1), each with its
/// line feed. It fails where memory is refused.
pub fn push_lines(out: &mut Vec<u8>, tokens: &[Vec<u8>]) -> Result<(), AllocError>
    requires { is_laid (map (λ t. t.items) tokens.now) ≡ true }
    ensures { OnOk result (PutsMovetext out.old.items out.new.items (map (λ t. t.items) tokens.now)) }
{
    let mut width = 0;
    for token in tokens {
        width = push_token(out, width, token.as_slice())?;
    }
    out.push(b'\n')?;
    Ok(())
}
