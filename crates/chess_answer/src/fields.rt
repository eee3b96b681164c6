ghost use Rattle.std.specs.Prelude.{◌≡◌, ◌≤◌, ◌+◌, [], ◌∷◌, ◌++◌, length, codes, decimal};
ghost use Rattle.arrayvec.specs.ArrayString.{array_string_len};
ghost use Rattle.chess_answer.specs.Fields.{with_fields, ok_text, end_fields, seat_text};

use arrayvec::ArrayString;
use chess_end::Ending;
use chess_text::{article_code, result_code};
use itoa::Buffer;
use rec_codec::Name;

/// Room for the line of an answer, without its line feed. The longest is that of `fen`: at most 18 bytes before the
/// FEN, which has at most 93.
pub type AnswerLine = ArrayString<160>;

/// An answer's first word, of at most 16 bytes.
pub fn begun(word: &str) -> AnswerLine
    requires { length word.now ≤ 16 }
    ensures bytes { result.bytes ≡ word.now }
    ensures len { array_string_len result ≡ length word.now }
{
    let mut text = ArrayString::new();
    text.push_str(word);
    text
}

/// Appends a space and a field.
pub fn push_field(text: &mut AnswerLine, field: &str)
    requires room { array_string_len text.old + (1 + length field.now) ≤ 160 }
    ensures bytes { text.new.bytes ≡ text.old.bytes ++ 32 ∷ field.now }
    ensures len { array_string_len text.new ≡ array_string_len text.old + (1 + length field.now) }
{
    text.push_str(" ");
    text.push_str(field);
}

/// Appends a space and a number, of at most 20 digits.
pub fn push_number_field(text: &mut AnswerLine, number: u64)
    requires room { array_string_len text.old + 21 ≤ 160 }
    ensures bytes { text.new.bytes ≡ text.old.bytes ++ 32 ∷ decimal number }
    ensures len { array_string_len text.new ≤ array_string_len text.old + 21 }
{
    let mut buffer = Buffer::new();
    push_field(text, buffer.format(number));
}

/// Appends a space and a player's name, or `-` for an empty seat.
pub fn push_seat(text: &mut AnswerLine, name: Option<Name>)
    requires room { array_string_len text.old + 17 ≤ 160 }
    ensures bytes { text.new.bytes ≡ text.old.bytes ++ 32 ∷ seat_text name }
    ensures len { array_string_len text.new ≤ array_string_len text.old + 17 }
{
    match name {
        None => push_field(text, "-"),
        Some(name) => push_field(text, name.as_str()),
    }
}

/// Appends the result and the article by which a game is over, or nothing.
pub fn push_ending(text: &mut AnswerLine, ending: Option<Ending>)
    requires room { array_string_len text.old + 14 ≤ 160 }
    ensures bytes { text.new.bytes ≡ with_fields text.old.bytes (end_fields ending) }
    ensures len { array_string_len text.new ≤ array_string_len text.old + 14 }
{
    if let Some(by) = ending {
        push_field(text, result_code(ending));
        push_field(text, article_code(by.article));
    }
}

/// `ok`, a word of at most 8 bytes and a number.
pub fn accepted(word: &str, number: u64) -> AnswerLine
    requires { length word.now ≤ 8 }
    ensures bytes { result.bytes ≡ ok_text word.now number [] }
    ensures len { array_string_len result ≤ 32 }
{
    let mut text = begun("ok");
    push_field(&mut text, word);
    push_number_field(&mut text, number);
    text
}
