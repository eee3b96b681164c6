//! What the server says, as the desk takes it.
ghost use Rattle.std.specs.Prelude.{◌≡◌, ◌≤◌, IfOk, IsUtf8, length, drop};
ghost use Rattle.std.specs.Bool.{OnTrue, OnFalse};
ghost use Rattle.lobby_desk.specs.Events.{Heard};
ghost use Rattle.lobby_talk.specs.Talking.{Moves};
ghost use Rattle.lobby_talk.specs.Lines.{AreTaken, IsLeft};

use crate::talk::Talk;
use std::alloc::AllocError;
use std::str;
use text_lines::first_feed;

// Tells the desk a line. False where it is no text, and then nothing was told.
fn hear_line(talk: &mut Talk, line: &[u8]) -> Result<bool, AllocError>
    ensures told { IfOk result (λ is_text. OnTrue is_text (Moves talk.old (Heard line.now) talk.new)) }
    ensures none { IfOk result (λ is_text. OnFalse is_text ((talk.new ≡ talk.old) × ¬ IsUtf8 line.now)) }
{
    let Ok(line) = str::from_utf8(line) else {
        return Ok(false);
    };
    talk.heard(line)?;
    Ok(true)
}

// Tells the desk each whole line, up to the first that is no text; so many bytes were told, and whether there was none
// that is no text.
pub(crate) fn hear_lines(talk: &mut Talk, held: &[u8]) -> Result<(usize, bool), AllocError>
    ensures within { IfOk result (λ told. told.0 ≤ length held.now) }
    ensures told { IfOk result (λ told. AreTaken held.now (drop told.0 held.now) talk.old talk.new) }
    ensures left { IfOk result (λ told. IsLeft told.1 (drop told.0 held.now)) }
{
    let mut from = 0;
    while let Some(at) = first_feed(&held[from..]) {
        if !hear_line(talk, &held[from..from + at])? {
            return Ok((from, false));
        }
        from += at + 1;
    }
    Ok((from, true))
}
