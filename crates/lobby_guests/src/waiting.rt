//! A message that waits for a browser.
ghost use Rattle.std.specs.Prelude.{◌≡◌, IfOk};
ghost use Rattle.lobby_guests.specs.Waiting.{IsCopyOf};
ghost use Rattle.lobby_guests.specs.Waiting as waiting;

use lobby_desk::{Kind, Message};
use std::alloc::{AllocError, Global};

/// A message whose answer to `line G` is not there yet, or one that came behind such a message.
#[derive(Drop)]
pub struct Waiting {
    pub kind: Kind,
    pub text: String,
    /// Since when it waits, in milliseconds.
    pub since: u64,
}

impl Waiting {
    /// A message that waits from this moment on, in memory of its own. It fails where memory is refused.
    pub fn copy_of(alloc: Global, made: &Message, at: u64) -> Result<Waiting, AllocError>
        ensures { IfOk result (IsCopyOf at made.now) }
    {
        let text = String::from_str(alloc, made.text.as_str())?;
        Ok(Waiting {
            kind: made.kind,
            text,
            since: at,
        })
    }
}

/// Whether a message of this kind is not whole: it is told by an answer that is not there yet.
pub fn is_line(kind: Kind) -> bool
    ensures { result ≡ waiting.is_line kind }
{
    match kind {
        Kind::Line => true,
        Kind::Whole | Kind::Position | Kind::Moves | Kind::Log => false,
    }
}
