//! The fields of a line.
ghost use Rattle.std.specs.Prelude.{◌≡◌, ◌≢◌, ◌↔◌, ℕ, List, ◌∷◌, ◌++◌, Bool, Option, Some, None, EachIndex, IsTrue};
ghost use Rattle.std.specs.Prelude.{IfSome, IsSome, IsSomeAnd, option_map, slice_index, length, decimal};
ghost use Rattle.std.specs.Option.{MatchOption};
ghost use Rattle.chess_bits.specs.declared.men.Colour.{Colour};
ghost use Rattle.chess_line.specs.Fields.{IsNumber, IsField, IsRest, claim_word, times_text, AreTimes};
ghost use Rattle.arrayvec.specs.ArrayString.{ArrayString};
ghost use Rattle.chess_entry.specs.Parsed.{bytes_of};
ghost use Rattle.chess_entry.specs.Words.{colour_word};
ghost use Rattle.chess_line.specs.Text.{shown};
ghost use Rattle.chess_line.specs.Cut.{Unspaced, joined, rest_of};

use chess_bits::Colour;
use chess_entry::Text;

/// The text up to its first space and what follows that space; the whole text where it has none.
pub fn cut_word(text: &str) -> (&str, Option<&str>)
    ensures unspaced { Unspaced result.0.now }
    ensures joined { text.entry.now ≡ joined result.0.now (rest_of result.1) }
{
    match text.split_once(' ') {
        Some((field, rest)) => (field, Some(rest)),
        None => (text, None),
    }
}

/// The number that a field tells, in its one spelling.
pub fn field_number(text: &str) -> Option<u32>
    ensures some { IfSome result (λ n. IsNumber n × (text.now ≡ decimal n)) }
    ensures every { (n : ℕ) → IsNumber n → text.now ≡ decimal n → result ≡ Some n }
{
    text_parts::number_of_32_bits(text)
}

/// The number of the first field, and what follows the space after it.
pub fn take_number(text: &str) -> Option<(u32, &str)>
    ensures some { IfSome result (λ p. IsNumber p.0 × (text.entry.now ≡ decimal p.0 ++ (32 ∷ p.1.now))) }
    ensures every { (n : ℕ) (rest : List ℕ) → IsNumber n → text.entry.now ≡ decimal n ++ (32 ∷ rest)
        → IsSomeAnd result (λ p. (p.0 ≡ n) × (p.1.now ≡ rest)) }
{
    let (field, rest) = text.split_once(' ')?;
    let number = field_number(field)?;
    Some((number, rest))
}

/// The initial time in seconds and, in `MOVES/INITIAL:SECOND`, the moves before the second period and its seconds.
pub fn times_named(text: &str) -> Option<(u32, Option<(u32, u32)>)>
    ensures some { IfSome result (λ t. AreTimes t.0 t.1 × (text.now ≡ times_text t.0 t.1)) }
    ensures every { (initial : ℕ) (period : Option (ℕ × ℕ)) → AreTimes initial period
        → text.now ≡ times_text initial period
        → result ≡ Some (initial, period) }
{
    let Some((moves, rest)) = text.split_once('/') else {
        let initial = field_number(text)?;
        return Some((initial, None));
    };
    let (initial, second) = rest.split_once(':')?;
    let moves = field_number(moves)?;
    let initial = field_number(initial)?;
    let second = field_number(second)?;
    Some((initial, Some((moves, second))))
}

/// The colour that a field names.
pub fn colour_named(text: &str) -> Option<Colour>
    ensures some { IfSome result (λ colour. text.now ≡ colour_word colour) }
    ensures every { (colour : Colour) → text.now ≡ colour_word colour → result ≡ Some colour }
{
    match text {
        "white" => Some(Colour::White),
        "black" => Some(Colour::Black),
        _ => None,
    }
}

/// Whether the claim that a field names is of fifty moves (FIDE article 9.3), and not of a third occurrence (9.2).
pub fn claim_named(text: &str) -> Option<bool>
    ensures some { IfSome result (λ fifty. text.now ≡ claim_word fifty) }
    ensures every { (fifty : Bool) → text.now ≡ claim_word fifty → result ≡ Some fifty }
{
    match text {
        "fifty" => Some(true),
        "three" => Some(false),
        _ => None,
    }
}

fn is_field(bytes: &[u8]) -> bool
    ensures { IsTrue result ↔ IsField bytes.now }
{
    !bytes.is_empty() && bytes.len() <= 255 && bytes.iter().all(|b| b.is_ascii_graphic())
}

fn is_rest(bytes: &[u8]) -> bool
    ensures { IsTrue result ↔ IsRest bytes.now }
{
    !bytes.is_empty()
        && bytes.len() <= 255
        && bytes.iter().all(|b| b.is_ascii_graphic() || *b == b' ')
}

/// The text, if it is one field.
pub fn field_text(text: &str) -> Option<Text>
    ensures some { IfSome result (λ t. IsField t.bytes × (t.bytes ≡ text.now)) }
    ensures every { IsField text.now → IsSome result }
{
    if !is_field(text.as_bytes()) {
        return None;
    }
    Text::from(text).ok()
}

/// The text, if it may stand as the rest of a line.
pub fn rest_text(text: &str) -> Option<Text>
    ensures some { IfSome result (λ t. IsRest t.bytes × (t.bytes ≡ text.now)) }
    ensures every { IsRest text.now → IsSome result }
{
    if !is_rest(text.as_bytes()) {
        return None;
    }
    Text::from(text).ok()
}

/// The text that may stand as the rest of a line, where one is given.
pub fn optional_rest(text: Option<&str>) -> Option<Option<Text>>
    ensures some { IfSome result (λ t. IfSome t (λ told. IsRest told.bytes) × (bytes_of t ≡ rest_of text.entry)) }
    ensures every { (t : Option ArrayString) → IfSome t (λ told. IsRest told.bytes) → rest_of text.entry ≡ bytes_of t
        → IsSomeAnd result (λ u. option_map shown u ≡ option_map shown t) }
{
    match text {
        Some(text) => {
            let told = rest_text(text)?;
            Some(Some(told))
        }
        None => Some(None),
    }
}
