//! Texts on their way to a writer.
ghost use Rattle.std.specs.Prelude.{ℕ, ◌≡◌, ◌≤◌, ◌<◌, ◌+◌, List, [], ◌∷◌, ◌++◌, length, OnOk, OnErr};
ghost use Rattle.std.specs.Io.KnownBytes.{Appends};
ghost use Rattle.text_lines.specs.Texts.{as_text, body_of};
ghost use Rattle.text_lines.specs.Outlets.{Says, Loses};

use crate::answerer::Answer;
use arrayvec::ArrayString;
use std::io::{ErrorKind, Write};

/// A write failed.
#[derive(Clone, Copy)]
pub(crate) struct WriteFault;

/// Room for texts that are ready: more than the answers to a piece of input mostly take.
const READY_ROOM: usize = 65_536;

/// The texts that are ready, and not yet written.
pub(crate) type Ready = ArrayString<READY_ROOM>;

// Writes a text. A fault comes only where something is left to write.
fn send<W: Write>(writer: &mut W, text: &[u8]) -> Result<(), WriteFault>
    ensures whole { OnOk result (Appends (W.contents writer.old) (W.contents writer.new) text.now) }
    ensures front { OnErr result ((front : List ℕ) × (rest : List ℕ) × (text.now ≡ front ++ rest)
        × (0 < length rest) × Appends (W.contents writer.old) (W.contents writer.new) front) }
{
    let mut rest = text;
    for _ in 0..u32::MAX {
        if rest.is_empty() {
            return Ok(());
        }
        match writer.write(rest) {
            Ok(0) => return Err(WriteFault),
            Ok(count) => rest = &rest[count..],
            Err(error) => {
                if error.kind() != ErrorKind::Interrupted {
                    return Err(WriteFault);
                }
            }
        }
    }
    if rest.is_empty() {
        Ok(())
    } else {
        Err(WriteFault)
    }
}

/// Writes what is ready.
pub(crate) fn hand_out<W: Write>(ready: &mut Ready, writer: &mut W) -> Result<(), WriteFault>
    ensures empty { OnOk result (ready.new.bytes ≡ []) }
    ensures says { OnOk result (Says (W.contents writer.old) ready.old.bytes [] (W.contents writer.new) []) }
    ensures loses { OnErr result (Loses (W.contents writer.old) ready.old.bytes [] (W.contents writer.new)) }
{
    send(writer, ready.as_str().as_bytes())?;
    ready.clear();
    Ok(())
}

// Writes what is ready, and then a text.
fn send_behind<W: Write>(ready: &mut Ready, text: &[u8], writer: &mut W) -> Result<(), WriteFault>
    ensures says { OnOk result (Says (W.contents writer.old) ready.old.bytes text.now
        (W.contents writer.new) ready.new.bytes) }
    ensures loses { OnErr result (Loses (W.contents writer.old) ready.old.bytes text.now (W.contents writer.new)) }
{
    hand_out(ready, writer)?;
    send(writer, text)
}

/// Says a text: it is ready behind what was. Where there is no room for it, what was ready is written, and it too.
pub(crate) fn say<W: Write>(ready: &mut Ready, text: &str, writer: &mut W) -> Result<(), WriteFault>
    ensures says { OnOk result (Says (W.contents writer.old) ready.old.bytes text.now
        (W.contents writer.new) ready.new.bytes) }
    ensures loses { OnErr result (Loses (W.contents writer.old) ready.old.bytes text.now (W.contents writer.new)) }
{
    if ready.remaining_capacity() < text.len() {
        return send_behind(ready, text.as_bytes(), writer);
    }
    ready.push_str(text);
    Ok(())
}

// Says the whole lines behind an answer's first.
fn say_body<W: Write>(
    ready: &mut Ready,
    body: &Option<String>,
    writer: &mut W,
) -> Result<(), WriteFault>
    ensures says { OnOk result (Says (W.contents writer.old) ready.old.bytes (body_of body.now)
        (W.contents writer.new) ready.new.bytes) }
    ensures loses { OnErr result (Loses (W.contents writer.old) ready.old.bytes (body_of body.now)
        (W.contents writer.new)) }
{
    match body {
        Some(body) => say(ready, body.as_str(), writer),
        None => Ok(()),
    }
}

/// Says an answer.
pub(crate) fn say_answer<W: Write>(
    ready: &mut Ready,
    answer: &Answer,
    writer: &mut W,
) -> Result<(), WriteFault>
    ensures says { OnOk result (Says (W.contents writer.old) ready.old.bytes (as_text answer.now)
        (W.contents writer.new) ready.new.bytes) }
    ensures loses { OnErr result (Loses (W.contents writer.old) ready.old.bytes (as_text answer.now)
        (W.contents writer.new)) }
{
    say(ready, answer.line.as_str(), writer)?;
    say(ready, "\n", writer)?;
    say_body(ready, &answer.body, writer)
}
