//! The lobby's line to the server: the connection to it, with the name that was said last and whose answers come, and
//! what the server has told by it.
ghost use Rattle.std.specs.Prelude.{◌≡◌, ◌++◌, [], ◌∷◌, map, false, Some, None, IfOk, OnOk};
ghost use Rattle.player_name.specs.Name.{IsName};
ghost use Rattle.std.specs.String.{string_bytes};
ghost use Rattle.lobby_table.specs.Owed.{owed_of, owed_last, owed_lines, Nobody, Naming, Behind, Asker, Pairer};
ghost use Rattle.lobby_table.specs.Owed.{ForAct};
ghost use Rattle.lobby_table.specs.Refusals.{game_named};
ghost use Rattle.lobby_words.specs.Answers.{ended};
ghost use Rattle.lobby_words.specs.Lines.{bytes_of};
ghost use Rattle.lobby_table.specs.Sending.{name_lines, act_lines, join_line, notice_lines, game_line};
ghost use Rattle.lobby_table.specs.Sending.{IsHeardSame};
ghost use Rattle.lobby_words.specs.Words.{pair_line};

use crate::pairings::Pairing;
use crate::refusals::{RefusedActs, game_named};
use itoa::Buffer;
use lobby_words::{Coming, Seat, is_said, pair_times};
use player_name::Name;
use std::alloc::{AllocError, Global};
use std::collections::VecDeque;

/// An act: the connection whose message it is, the name under which it was sent, and the message.
#[derive(Drop)]
pub struct Acting {
    pub from: u64,
    pub who: Name,
    pub text: String,
}

/// A connection's act, as it waits.
pub fn waiting_act(alloc: Global, from: u64, who: Name, text: &str) -> Result<Acting, AllocError>
    ensures { IfOk result (λ act. (act.from ≡ from) × (act.who ≡ who) × (string_bytes act.text ≡ text.now)) }
{
    Ok(Acting {
        from,
        who,
        text: String::from_str(alloc, text)?,
    })
}

/// A notice of an act: its game, the lines that tell of it, and whether those who are told of the table are told of it.
#[derive(Drop)]
pub struct Notice {
    pub game: u32,
    pub act: String,
    pub is_table: bool,
}

/// Whom an answer is for, and what is still to be done with it.
#[derive(Drop)]
pub enum Due {
    /// The desk's own line: nobody is told of it by itself.
    Own,
    /// The `name` line that says this name.
    Name(Name),
    /// A connection's line.
    Reply(u64),
    /// The `pgn G` of a connection that asks for the positions of the game.
    Positions(u64),
    /// The `list` of a connection that will be told of the table.
    Table(u64),
    /// A connection's act.
    Act(Acting),
    /// The `show G` before a connection's `drop G`.
    Drop(Acting),
    /// The `open` of a connection's pairing, whose game this player joins.
    Pair(Acting, Name),
    /// The `fen G`, behind `show G`, for a connection that will watch the game.
    Watch(u64, u32),
    /// The `fen G`, behind `show G`, for those who are told of a game.
    Notice(Notice),
    /// The `fen G`, behind `show G`, right behind an act: for those who are told of it, where the server accepted it.
    Behind,
}

/// The lobby's line to the server. The first six are of the connection that stands, and begin anew with the next one;
/// what the server has told stays.
#[derive(Drop)]
pub struct ServerLine {
    pub is_here: bool,
    /// The name that was said last.
    pub said: Option<Name>,
    /// Whose answers come, the next first.
    pub queue: VecDeque<Due>,
    /// The answer of which not every line has come.
    pub coming: Coming,
    /// The act of which is told with the answers behind it, once they are there.
    pub acted: Option<Notice>,
    /// Whether the server has not taken a name there: no answer counts any more.
    pub is_misnamed: bool,
    /// The last whole answer.
    pub last: String,
    /// The games that wait for a second player, as far as the answers have told.
    pub seats: Vec<Seat>,
    /// Those that pairings have opened, and that are kept for Black until then.
    pub pairings: Vec<Pairing>,
    /// The acts that were refused, of each game since one was accepted there.
    pub refused: Vec<RefusedActs>,
}

// Puts a line of two parts behind others.
fn put(wire: &mut Vec<u8>, front: &str, rest: &str) -> Result<(), AllocError>
    ensures { OnOk result (wire.new.items ≡ wire.old.items ++ ended (front.now ++ rest.now)) }
{
    wire.extend_from_slice(front.as_bytes())?;
    wire.extend_from_slice(rest.as_bytes())?;
    wire.extend_from_slice(b"\n")
}

impl ServerLine {
    /// A line to a server that is not there, and has told nothing.
    pub fn new(alloc: Global) -> ServerLine
        ensures here { result.is_here ≡ false }
        ensures said { result.said ≡ None }
        ensures owed { result.queue.items ≡ [] }
        ensures left { result.coming.left ≡ 0 }
        ensures begun { string_bytes result.coming.text ≡ [] }
        ensures last { string_bytes result.last ≡ [] }
        ensures seats { result.seats.items ≡ [] }
        ensures pairings { result.pairings.items ≡ [] }
        ensures refused { result.refused.items ≡ [] }
        ensures acted { result.acted ≡ None }
        ensures misnamed { result.is_misnamed ≡ false }
    {
        ServerLine {
            is_here: false,
            said: None,
            queue: VecDeque::new(alloc),
            coming: Coming::new(alloc),
            acted: None,
            is_misnamed: false,
            last: String::new(alloc),
            seats: Vec::new(alloc),
            pairings: Vec::new(alloc),
            refused: Vec::new(alloc),
        }
    }

    /// The connection is lost, or there is a new one: on what comes next nothing was said, no answer is due, and none
    /// has begun. What the server has told stays.
    pub fn renew(&mut self, is_here: bool)
        ensures here { self.new.is_here ≡ is_here }
        ensures said { self.new.said ≡ None }
        ensures owed { self.new.queue.items ≡ [] }
        ensures left { self.new.coming.left ≡ 0 }
        ensures begun { string_bytes self.new.coming.text ≡ [] }
        ensures last { self.new.last ≡ self.old.last }
        ensures seats { self.new.seats ≡ self.old.seats }
        ensures pairings { self.new.pairings ≡ self.old.pairings }
        ensures refused { self.new.refused ≡ self.old.refused }
        ensures acted { self.new.acted ≡ None }
        ensures misnamed { self.new.is_misnamed ≡ false }
    {
        self.is_here = is_here;
        self.said = None;
        self.queue.clear();
        self.coming.clear();
        self.acted = None;
        self.is_misnamed = false;
    }

    // Sends a line of two parts, whose answer is due.
    fn send(
        &mut self,
        front: &str,
        rest: &str,
        due: Due,
        wire: &mut Vec<u8>,
    ) -> Result<(), AllocError>
        ensures sent { OnOk result (wire.new.items ≡ wire.old.items ++ ended (front.now ++ rest.now)) }
        ensures owed { OnOk result (map owed_of self.new.queue.items
            ≡ map owed_of self.old.queue.items ++ owed_of due ∷ []) }
        ensures said { self.new.said ≡ self.old.said }
        ensures here { self.new.is_here ≡ self.old.is_here }
        ensures heard { IsHeardSame self.old self.new }
    {
        self.queue.push_back(due)?;
        put(wire, front, rest)
    }

    /// Passes a line on.
    pub fn pass(&mut self, line: &str, due: Due, wire: &mut Vec<u8>) -> Result<(), AllocError>
        ensures sent { OnOk result (wire.new.items ≡ wire.old.items ++ ended line.now) }
        ensures owed { OnOk result (map owed_of self.new.queue.items
            ≡ map owed_of self.old.queue.items ++ owed_of due ∷ []) }
        ensures said { self.new.said ≡ self.old.said }
        ensures here { self.new.is_here ≡ self.old.is_here }
        ensures heard { IsHeardSame self.old self.new }
    {
        self.send("", line, due, wire)
    }

    /// Asks something of a game; the word ends with a space.
    pub fn ask(
        &mut self,
        word: &str,
        game: u32,
        due: Due,
        wire: &mut Vec<u8>,
    ) -> Result<(), AllocError>
        ensures sent { OnOk result (wire.new.items ≡ wire.old.items ++ ended (game_line word.now game)) }
        ensures owed { OnOk result (map owed_of self.new.queue.items
            ≡ map owed_of self.old.queue.items ++ owed_of due ∷ []) }
        ensures said { self.new.said ≡ self.old.said }
        ensures here { self.new.is_here ≡ self.old.is_here }
        ensures heard { IsHeardSame self.old self.new }
    {
        let mut buffer = Buffer::new();
        self.send(word, buffer.format(game), due, wire)
    }

    // Says a name, where another was said last.
    #[tactic(auto, using(crate::proofs::Sent::one_line, crate::proofs::Sent::is_said_same))]
    fn say_name(&mut self, name: Name, wire: &mut Vec<u8>) -> Result<(), AllocError>
        ensures sent { OnOk result (wire.new.items ≡ wire.old.items ++ bytes_of (name_lines self.old.said name)) }
        ensures owed { OnOk result (map owed_of self.new.queue.items
            ≡ map owed_of self.old.queue.items ++ owed_last (Naming name) (name_lines self.old.said name)) }
        ensures said { OnOk result (self.new.said ≡ Some name) }
        ensures here { self.new.is_here ≡ self.old.is_here }
        ensures heard { IsHeardSame self.old self.new }
        ensures named { OnOk result (IsName name) }
    {
        if is_said(&self.said, &name) {
            return Ok(());
        }
        self.send("name ", name.as_str(), Due::Name(name), wire)?;
        self.said = Some(name);
        Ok(())
    }

    /// Asks how a game stands, by two lines: the answer to the second is due so.
    pub fn ask_standing(
        &mut self,
        game: u32,
        due: Due,
        wire: &mut Vec<u8>,
    ) -> Result<(), AllocError>
        ensures sent { OnOk result (wire.new.items ≡ wire.old.items ++ bytes_of (notice_lines (Some game))) }
        ensures owed { OnOk result (map owed_of self.new.queue.items
            ≡ map owed_of self.old.queue.items ++ Nobody ∷ owed_of due ∷ []) }
        ensures said { self.new.said ≡ self.old.said }
        ensures here { self.new.is_here ≡ self.old.is_here }
        ensures heard { IsHeardSame self.old self.new }
    {
        self.ask("show ", game, Due::Own, wire)?;
        self.ask("fen ", game, due, wire)
    }

    // Asks right behind an act how its game stands, if it names one.
    fn ask_behind(&mut self, game: Option<u32>, wire: &mut Vec<u8>) -> Result<(), AllocError>
        ensures sent { OnOk result (wire.new.items ≡ wire.old.items ++ bytes_of (notice_lines game)) }
        ensures owed { OnOk result (map owed_of self.new.queue.items
            ≡ map owed_of self.old.queue.items ++ owed_last Behind (notice_lines game)) }
        ensures said { self.new.said ≡ self.old.said }
        ensures here { self.new.is_here ≡ self.old.is_here }
        ensures heard { IsHeardSame self.old self.new }
    {
        match game {
            None => Ok(()),
            Some(game) => self.ask_standing(game, Due::Behind, wire),
        }
    }

    /// Passes an act on by this line and under this name, which is said first where another was said last, and asks
    /// right behind it how its game stands, if it names one.
    pub fn pass_act(
        &mut self,
        act: Acting,
        name: Name,
        line: &str,
        wire: &mut Vec<u8>,
    ) -> Result<(), AllocError>
        ensures sent { OnOk result (wire.new.items ≡ wire.old.items
            ++ bytes_of (act_lines self.old.said name line.now (game_named (string_bytes act.text)))) }
        ensures owed { OnOk result (map owed_of self.new.queue.items ≡ map owed_of self.old.queue.items
            ++ owed_lines (Asker act.from (ForAct act.who (string_bytes act.text)))
            (act_lines self.old.said name line.now (game_named (string_bytes act.text)))) }
        ensures said { OnOk result (self.new.said ≡ Some name) }
        ensures here { self.new.is_here ≡ self.old.is_here }
        ensures heard { IsHeardSame self.old self.new }
        ensures named { OnOk result (IsName name) }
    {
        let game = game_named(act.text.as_str());
        self.say_name(name, wire)?;
        self.pass(line, Due::Act(act), wire)?;
        self.ask_behind(game, wire)
    }

    /// Opens the game of a pairing, the act of this message, under the name of White, which is said first where another
    /// was said last.
    pub fn open_pair(
        &mut self,
        act: Acting,
        text: &str,
        white: Name,
        black: Name,
        wire: &mut Vec<u8>,
    ) -> Result<(), AllocError>
        ensures sent { OnOk result (wire.new.items ≡ wire.old.items
            ++ bytes_of (act_lines self.old.said white (pair_line text.now) None)) }
        ensures owed { OnOk result (map owed_of self.new.queue.items ≡ map owed_of self.old.queue.items
            ++ owed_lines (Pairer act.from act.who black (string_bytes act.text))
            (act_lines self.old.said white (pair_line text.now) None)) }
        ensures said { OnOk result (self.new.said ≡ Some white) }
        ensures here { self.new.is_here ≡ self.old.is_here }
        ensures heard { IsHeardSame self.old self.new }
        ensures named { OnOk result (IsName white) }
    {
        self.say_name(white, wire)?;
        self.send("open white ", pair_times(text), Due::Pair(act, black), wire)
    }

    /// Joins the game that a pairing has opened under the name of Black, which is said first where another was said
    /// last.
    pub fn join_pair(
        &mut self,
        alloc: Global,
        game: u32,
        black: Name,
        act: &Acting,
        wire: &mut Vec<u8>,
    ) -> Result<(), AllocError>
        ensures sent { OnOk result (wire.new.items ≡ wire.old.items
            ++ bytes_of (act_lines self.old.said black (join_line game) None)) }
        ensures owed { OnOk result (map owed_of self.new.queue.items ≡ map owed_of self.old.queue.items
            ++ owed_lines (Asker act.now.from (ForAct act.now.who (string_bytes act.now.text)))
            (act_lines self.old.said black (join_line game) None)) }
        ensures said { OnOk result (self.new.said ≡ Some black) }
        ensures here { OnOk result (self.new.is_here ≡ self.old.is_here) }
        ensures heard { OnOk result (IsHeardSame self.old self.new) }
        ensures named { OnOk result (IsName black) }
    {
        let later = waiting_act(alloc, act.from, act.who, act.text.as_str())?;
        self.say_name(black, wire)?;
        self.ask("join ", game, Due::Act(later), wire)
    }

    /// Sends the drop that waited under a name, and asks right behind it how its game stands.
    pub fn drop_under(
        &mut self,
        alloc: Global,
        name: Name,
        act: &Acting,
        wire: &mut Vec<u8>,
    ) -> Result<(), AllocError>
        ensures sent { OnOk result (wire.new.items ≡ wire.old.items
            ++ bytes_of (act_lines self.old.said name (string_bytes act.now.text)
            (game_named (string_bytes act.now.text)))) }
        ensures owed { OnOk result (map owed_of self.new.queue.items ≡ map owed_of self.old.queue.items
            ++ owed_lines (Asker act.now.from (ForAct act.now.who (string_bytes act.now.text)))
            (act_lines self.old.said name (string_bytes act.now.text) (game_named (string_bytes act.now.text)))) }
        ensures said { OnOk result (self.new.said ≡ Some name) }
        ensures here { OnOk result (self.new.is_here ≡ self.old.is_here) }
        ensures heard { OnOk result (IsHeardSame self.old self.new) }
        ensures named { OnOk result (IsName name) }
    {
        let text = act.text.as_str();
        let later = waiting_act(alloc, act.from, act.who, text)?;
        self.pass_act(later, name, text, wire)
    }
}
