ghost use Rattle.std.specs.Prelude.{◌≡◌, ◌≤◌, ◌↔◌, IsTrue, IfSome, IfNone, length};
ghost use Rattle.std.specs.List.{list_all};
ghost use Rattle.player_name.specs.Name.{IsName, is_name_byte, padded};

use std::marker::Model;

/// A player's name: 1 to 16 letters A to Z or a to z, digits or `_`.
#[derive(Clone, Copy, PartialEq, Eq)]
pub struct Name {
    len: u8,
    bytes: [u8; 16],
}

impl Model for Name {
    ghost use Rattle.std.specs.Prelude.{ℕ, List};

    ghost Value = { List ℕ };

    ghost use Rattle.player_name.specs.NameInside.{text_of, inside_of, IsSoundName};

    ghost view = { text_of };

    ghost invariant = { IsSoundName };

    ghost inverse = { inside_of };

    ghost inverse_ok = { λ _ sound. sound.same };
}

// Whether a byte may stand in a name.
fn is_name_byte(byte: u8) -> bool
    ensures { result ≡ is_name_byte byte }
{
    byte.is_ascii_alphanumeric() || byte == b'_'
}

// Whether each byte may stand in a name.
fn are_name_bytes(text: &[u8]) -> bool
    ensures { result ≡ list_all is_name_byte text.now }
{
    text.iter().all(|byte| is_name_byte(*byte))
}

// Whether a text is a name.
fn is_name(text: &[u8]) -> bool
    ensures { IsTrue result ↔ IsName text.now }
{
    1 <= text.len() && text.len() <= 16 && are_name_bytes(text)
}

// The text in 16 bytes, with zeros after it.
fn padded(text: &[u8]) -> [u8; 16]
    requires { length text.now ≤ 16 }
    ensures { result ≡ padded text.now }
{
    let mut bytes = [0; 16];
    bytes[..text.len()].copy_from_slice(text);
    bytes
}

impl Name {
    /// The name of a text; `None` exactly where the text is no name.
    pub fn try_new(text: &str) -> Option<Name>
        ensures some { IfSome result (λ name. (name ≡ text.now) × IsName name) }
        ensures none { IfNone result (¬ IsName text.now) }
    {
        Name::of_bytes(text.as_bytes())
    }

    /// The name of a text's bytes; `None` exactly where they are no name.
    pub fn of_bytes(text: &[u8]) -> Option<Name>
        ensures some { IfSome result (λ name. (name ≡ text.now) × IsName name) }
        ensures none { IfNone result (¬ IsName text.now) }
    {
        if is_name(text) {
            Some(Name {
                len: text.len() as u8,
                bytes: padded(text),
            })
        } else {
            None
        }
    }

    /// The 16 bytes of the name's text and the zeros after it.
    pub fn padded(self) -> [u8; 16]
        ensures padded { result ≡ padded self }
        ensures named { IsName self }
    {
        self.bytes
    }

    /// How many bytes the name's text has, 1 to 16.
    pub fn len(self) -> u8
        ensures { result ≡ length self }
    {
        self.len
    }

    /// The name's text.
    pub fn as_str(&self) -> &str
        ensures text { result.now ≡ self.now }
        ensures named { IsName self.now }
    {
        let len = self.len as usize;
        match str::from_utf8(&self.bytes[..len]) {
            Ok(text) => text,
            Err(_) => unreachable!(),
        }
    }
}
