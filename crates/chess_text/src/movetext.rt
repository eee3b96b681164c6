ghost use Rattle.std.specs.Prelude.{◌≡◌, ℕ, [], ◌∷◌, ◌++◌, ◌+◌, ◌≤◌, List, length, map, All, IfOk, OnOk};
ghost use Rattle.std.specs.String.{string_bytes};
ghost use Rattle.chess_text.specs.Movetext.{IsToken, IsUnderWay, PutsMovetext};

use std::alloc::AllocError;

/// The greatest number of characters of a line (PGN Standard, section 8.2.1).
pub const WIDEST: usize = 79;

/// What stands in front of a token of this length, which comes behind the movetext under way, whose last line has
/// `width` characters, and how many the token's line has before it: it is that line, if the token fits there, else a
/// new one. `width` and `len` are at most 79.
pub fn separated(width: usize, len: usize) -> (&'static str, usize)
    requires width { width ≤ 79 }
    requires len { len ≤ 79 }
    ensures under_way { (front : List ℕ) (tokens : List (List ℕ)) (text token : List ℕ)
        → IsUnderWay front tokens text width →
        IsToken token → length token ≡ len →
        IsUnderWay front (tokens ++ token ∷ []) (text ++ (result.0.now ++ token)) (result.1 + len) }
    ensures width { result.1 + len ≤ 79 }
{
    if width == 0 {
        ("", 0)
    } else if width + 1 + len <= WIDEST {
        (" ", width + 1)
    } else {
        ("\n", 0)
    }
}

/// Writes a token behind those of the movetext under way, whose last line has `width` characters: in that line, if it
/// fits there, else in a new one. It answers the width of the last line then, and fails where memory is refused.
pub fn push_token(text: &mut String, width: usize, token: &str) -> Result<usize, AllocError>
    requires width { width ≤ 79 }
    requires token { IsToken token.now }
    ensures under_way { (front : List ℕ) (tokens : List (List ℕ))
        → IsUnderWay front tokens (string_bytes text.old) width →
        IfOk result (λ wide. IsUnderWay front (tokens ++ token.now ∷ []) (string_bytes text.new) wide) }
    ensures width { IfOk result (λ wide. wide ≤ 79) }
{
    let len = token.len();
    let (separator, before) = separated(width, len);
    text.push_str(separator)?;
    text.push_str(token)?;
    Ok(before + len)
}
