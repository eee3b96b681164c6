//! Which lines of the sessions stand next in turn.
ghost use Rattle.std.specs.Prelude.{ℕ, ◌≡◌, ◌≤◌, Some, None, length, slice_get, IfOk, OnOk};
ghost use Rattle.std.specs.Option.{MatchOption};
ghost use Rattle.text_lines.specs.Lines.{lines_of};
ghost use Rattle.std.specs.Vec.{vec_len};
ghost use Rattle.chess_hub.specs.Delivery.{AreOpen};
ghost use Rattle.chess_hub.specs.Turn.{AreTurnLines, MoreTurnLines, line_of, lines_at, turn_lines, waiting_of};
ghost use Rattle.chess_hub.specs.Turn.{waiting_in};

use crate::sessions::{Session, Sessions, Sid};
use chess_line::{Line, parse};
use slab::Slab;
use std::alloc::AllocError;
use text_lines::Lines;

/// A line that stands next in turn: its session, and the line, read; `None` where it has no form of the protocol.
#[derive(Clone, Copy)]
pub(crate) struct TurnLine {
    pub(crate) sid: Sid,
    pub(crate) line: Option<Line>,
}

// The line that has so many before it, of those that wait.
fn line_at<'a>(lines: &'a Lines, place: usize) -> Option<&'a [u8]>
    ensures { MatchOption result (slice_get (lines_of lines.now.bytes) place ≡ None)
        (λ line. slice_get (lines_of lines.now.bytes) place ≡ Some line.now) }
{
    let mut ahead = lines.ahead();
    for _ in 0..place {
        ahead.next_line()?;
    }
    ahead.next_line()
}

// Pushes the line at a place of a session, if it has so many and the turn has no more than `most` with it. It fails
// where memory is refused.
fn push_line(
    lines: &Lines,
    sid: Sid,
    place: usize,
    most: usize,
    turn: &mut Vec<TurnLine>,
) -> Result<(), AllocError>
    requires few { vec_len turn.old ≤ most }
    ensures few { OnOk result (vec_len turn.new ≤ most) }
    ensures more { OnOk result (MoreTurnLines most turn.old.items turn.new.items
        (line_of sid place (lines_of lines.now.bytes))) }
{
    if turn.len() >= most {
        return Ok(());
    }
    match line_at(lines, place) {
        Some(text) => turn.extend_from_slice(&[TurnLine {
            sid,
            line: parse(text),
        }]),
        None => Ok(()),
    }
}

// Pushes one line of each session that has so many before it, as long as the turn has no more than `most`.
fn push_round(
    slab: &Slab<Session>,
    place: usize,
    most: usize,
    turn: &mut Vec<TurnLine>,
) -> Result<(), AllocError>
    requires few { vec_len turn.old ≤ most }
    ensures few { OnOk result (vec_len turn.new ≤ most) }
    ensures more { OnOk result (MoreTurnLines most turn.old.items turn.new.items
        (lines_at place (waiting_in slab.now))) }
{
    for sid in 0..slab.capacity() {
        if let Some(session) = slab.get(sid) {
            push_line(&session.lines, sid, place, most, turn)?;
        }
    }
    Ok(())
}

impl Sessions {
    /// The lines that wait, read, in the order in which a turn takes them: round the sessions by rising number, one
    /// line of each, then the second of each, until there are so many or no more waits. They wait on. It fails where
    /// memory is refused.
    pub(crate) fn next_lines(&self, most: usize) -> Result<Vec<TurnLine>, AllocError>
        ensures turn { IfOk result (λ turn. AreTurnLines (turn_lines most (waiting_of self.now)) turn.items) }
        ensures open { IfOk result (λ turn. AreOpen self.now turn.items) }
        ensures few { IfOk result (λ turn. vec_len turn ≤ most) }
    {
        let mut turn = Vec::new(self.alloc);
        for place in 0..most {
            if turn.len() == most {
                return Ok(turn);
            }
            let before = turn.len();
            push_round(&self.slab, place, most, &mut turn)?;
            // Who has no line at this place has none at a later one.
            if turn.len() == before {
                return Ok(turn);
            }
        }
        Ok(turn)
    }
}
