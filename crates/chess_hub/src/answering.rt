//! Names, commands, and where answers go.
ghost use Rattle.std.specs.Prelude.{ℕ, ◌≡◌, ◌≢◌, ◌+◌, ◌<◌, ◌≤◌, List, [], ◌∷◌, ◌++◌, if◌then◌else◌, is_none, Option};
ghost use Rattle.std.specs.Prelude.{Some, None, IsSome, IsSomeAnd, IfSome, IfNone, IfOk, OnOk, length, map, option_map};
ghost use Rattle.std.specs.Vec.{vec_len};
ghost use Rattle.std.specs.Vec.Iter.{into_iter_items};
ghost use Rattle.std.specs.Option.{MatchOption};
ghost use Rattle.std.specs.VecDeque.{deque_len, deque_capacity};
ghost use Rattle.slab.specs.Slab.{get};
ghost use Rattle.chess_hub.specs.Session.{said, shown, session_at, IsUnchanged};
ghost use Rattle.chess_hub.specs.Answers.{is_late, given_name, own_answer, alone, asked, names_after, names_over};
ghost use Rattle.chess_hub.specs.Answers.{name_at, commands_of, AreAnswers};
ghost use Rattle.chess_hub.specs.Delivery.{Answered, AllAnswered, IsGiven, HasRoom, HaveRoom, AreOpen, asking_count};

use crate::sessions::{Session, Sessions, Sid};
use crate::turn::TurnLine;
use chess_answer::{AnswerLine, Reply, named_line, refusal_line};
use chess_entry::{Command, GREATEST_MOMENT, Refusal};
use chess_line::Line;
use player_name::Name;
use slab::Slab;
use std::alloc::{AllocError, Global};
use std::vec::IntoIter;

// Whether no command may have this moment.
fn is_late(at: u64) -> bool
    ensures { result ≡ is_late at }
{
    GREATEST_MOMENT < at
}

// The name that a line gives its session, if it is accepted.
fn given_name(at: u64, line: &Option<Line>) -> Option<Name>
    ensures { result ≡ given_name at line.now }
{
    match line {
        Some(Line::Called(name)) => { if is_late(at) { None } else { Some(*name) } }
        _ => None,
    }
}

// The answer to a line that asks nothing of the table.
fn own_answer(at: u64, line: &Option<Line>) -> Option<AnswerLine>
    ensures { option_map (λ answer. answer.bytes) result ≡ own_answer at line.now }
{
    match line {
        None => Some(refusal_line(Refusal::BadLine)),
        Some(Line::Called(name)) => {
            if is_late(at) {
                Some(refusal_line(Refusal::BadMoment))
            } else {
                Some(named_line(name))
            }
        }
        Some(Line::Act(_)) => None,
    }
}

// The name of a session after a line, which may be its own.
fn name_after(at: u64, line: &TurnLine, sid: Sid, before: Option<Name>) -> Option<Name>
    ensures { result ≡ names_after at (λ _. before) line.now sid }
{
    if line.sid != sid {
        return before;
    }
    match given_name(at, &line.line) {
        Some(name) => Some(name),
        None => before,
    }
}

// The name of a session after lines, of which some may be its own.
fn name_over(at: u64, lines: &[TurnLine], sid: Sid, before: Option<Name>) -> Option<Name>
    ensures { (names : ℕ → Option (List ℕ)) → names sid ≡ before → result ≡ names_over at names lines.now sid }
{
    let mut name = before;
    for line in lines {
        name = name_after(at, line, sid, name);
    }
    name
}

// Pushes what a line asks of the table behind other commands. It fails where memory is refused.
fn push_command(
    at: u64,
    who: Option<Name>,
    line: &Option<Line>,
    commands: &mut Vec<Command>,
) -> Result<(), AllocError>
    ensures commands { OnOk result (commands.new.items ≡ commands.old.items ++ asked at who line.now) }
    ensures len { OnOk result (vec_len commands.new ≡ vec_len commands.old
        + (if is_none (own_answer at line.now) then 1 else 0)) }
{
    if let Some(Line::Act(act)) = line {
        commands.push(Command { at, who, act: *act })?;
    }
    Ok(())
}

// The answer to a line: its own, or the first reply that is left.
fn next_answer(alloc: Global, at: u64, line: &Option<Line>, left: &mut IntoIter<Reply>) -> Reply
    requires { IfNone (own_answer at line.now) (0 < length (into_iter_items left.old)) }
    ensures { MatchOption (own_answer at line.now)
        (into_iter_items left.old ≡ result ∷ into_iter_items left.new)
        (λ text. (said result ≡ alone text) × (into_iter_items left.old ≡ into_iter_items left.new)) }
{
    if let Some(answer) = own_answer(at, line) {
        return Reply::alone(alloc, answer);
    }
    match left.next() {
        Some(reply) => reply,
        None => unreachable!(),
    }
}

impl Session {
    // The oldest line is taken, and answered.
    fn give(&mut self, name: Option<Name>, reply: Reply)
        requires { HasRoom 1 self.old }
        ensures { IsGiven self.old name reply self.new }
    {
        self.lines.drop_line();
        if let Some(name) = name {
            self.name = Some(name);
        }
        self.answers.push_back_reserved(reply);
    }
}

// The oldest line of a session is taken, and answered.
fn give(slab: &mut Slab<Session>, sid: Sid, name: Option<Name>, reply: Reply)
    requires { IsSomeAnd (get slab.old sid) (HasRoom 1) }
    ensures given { IfSome (get slab.old sid) (λ s. IsSomeAnd (get slab.new sid) (IsGiven s name reply)) }
    ensures others { (other : ℕ) → other ≢ sid → get slab.new other ≡ get slab.old other }
{
    match slab.get_mut(sid) {
        Some(session) => session.give(name, reply),
        None => unreachable!(),
    }
}

// Room for so many answers more of a session. It fails where memory is refused.
fn make_room(slab: &mut Slab<Session>, sid: Sid, count: usize) -> Result<(), AllocError>
    requires { IsSome (get slab.old sid) }
    ensures room { OnOk result (IsSomeAnd (get slab.new sid) (HasRoom count)) }
    ensures kept { (n : ℕ) → IsSomeAnd (get slab.old sid) (HasRoom n) → IsSomeAnd (get slab.new sid) (HasRoom n) }
    ensures shown { option_map shown (get slab.new sid) ≡ option_map shown (get slab.old sid) }
    ensures others { (other : ℕ) → other ≢ sid → get slab.new other ≡ get slab.old other }
{
    match slab.get_mut(sid) {
        Some(session) => session.answers.reserve(count),
        None => unreachable!(),
    }
}

impl Sessions {
    /// The commands of the lines of a turn, at a moment: acts, each by the name that its session has after the lines
    /// before it. It fails where memory is refused.
    pub(crate) fn commands(&self, at: u64, lines: &[TurnLine]) -> Result<Vec<Command>, AllocError>
        ensures commands { IfOk result (λ commands. commands.items ≡ commands_of at (name_at self.now) lines.now) }
        ensures count { IfOk result (λ commands. vec_len commands ≡ asking_count at lines.now) }
        ensures few { IfOk result (λ commands. vec_len commands ≤ length lines.now) }
    {
        let mut commands = Vec::new(self.alloc);
        for (place, line) in lines.iter().enumerate() {
            let who = name_over(at, &lines[..place], line.sid, self.name(line.sid));
            push_command(at, who, &line.line, &mut commands)?;
        }
        Ok(commands)
    }

    // The name of a session, if it has one.
    fn name(&self, sid: Sid) -> Option<Name>
        ensures { result ≡ name_at self.now sid }
    {
        match self.slab.get(sid) {
            Some(session) => session.name,
            None => None,
        }
    }

    /// Makes room for the answers to the lines of a turn. All sessions are as they were; it fails where memory is
    /// refused.
    pub(crate) fn reserve(&mut self, lines: &[TurnLine]) -> Result<(), AllocError>
        requires { AreOpen self.old lines.now }
        ensures room { OnOk result (HaveRoom (length lines.now) self.new.slab lines.now) }
        ensures unchanged { IsUnchanged self.old self.new }
    {
        for line in lines {
            make_room(&mut self.slab, line.sid, lines.len())?;
        }
        Ok(())
    }

    /// Takes lines of sessions that wait and gives each its answer: to those that ask something of the table these
    /// replies, one after the other. A name holds from its line on. It takes no memory, for which room was made.
    pub(crate) fn deliver(&mut self, at: u64, lines: &[TurnLine], replies: Vec<Reply>)
        requires room { HaveRoom (length lines.now) self.old.slab lines.now }
        requires replies { length replies.items ≡ asking_count at lines.now }
        ensures { (answered : List Answered) × (map (λ a. a.taken) answered ≡ lines.now)
            × AreAnswers at lines.now (map said replies.items) (map (λ a. a.said) answered)
            × AllAnswered at answered self.old self.new }
    {
        let mut left = replies.into_iter();
        for line in lines {
            let reply = next_answer(self.alloc, at, &line.line, &mut left);
            give(&mut self.slab, line.sid, given_name(at, &line.line), reply);
        }
    }
}
