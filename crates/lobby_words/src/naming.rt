//! The name under which lines go to the server: it is said before a line, where another was said last.
ghost use Rattle.std.specs.Prelude.{◌≡◌};
ghost use Rattle.player_name.specs.Name.{IsName};
ghost use Rattle.lobby_words.specs.Naming as naming;

use crate::answers::first_line;
use player_name::Name;

/// Whether the name was said last.
pub fn is_said(said: &Option<Name>, name: &Name) -> bool
    ensures said { result ≡ naming.is_said said.now name.now }
    ensures named { IsName name.now }
{
    let name = name.as_str();
    said.as_ref().is_some_and(|said| said.as_str() == name)
}

/// Whether an answer of the server takes a name: it is `ok name NAME`, with this name.
pub fn takes_name(name: &Name, answer: &str) -> bool
    ensures { result ≡ naming.takes_name name.now answer.now }
{
    server_answers::takes_name(name.as_str(), first_line(answer))
}
