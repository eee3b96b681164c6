ghost use Rattle.std.specs.Prelude.{◌≡◌, ◌≤◌, true, [], Some, length, is_some, IfOk, OnErr};
ghost use Rattle.std.specs.String.{string_bytes};
ghost use Rattle.chess_entry.specs.declared.verdicts.Verdict.TheVariants.{Enter};
ghost use Rattle.chess_entry.specs.State.{find_game};
ghost use Rattle.chess_entry.specs.Verdict.{IsVerdict};
ghost use Rattle.chess_entry.specs.Table.{IsEnteredOn};
ghost use Rattle.chess_answer.specs.Acts.{IsActLine};
ghost use Rattle.chess_answer.specs.Reads.{IsReply, list_line_text, list_text};
ghost use Rattle.chess_table.specs.Reading.{IsRead, HasBody};

use crate::table::Table;
use chess_answer::{
    AnswerLine, Reply, fen_line, game_line, list_line, opened_line, pgn_reply, show_line, write_row,
};
use chess_entry::{Act, Command, Entry, know_name};
use chess_game::Game;
use std::alloc::{AllocError, Global};

/// The answer to the act of a command that becomes an entry, on the table before it is entered: `ok`, the act and what
/// came of it, or `fallen`. It takes no memory.
pub fn act_line(table: &Table, command: &Command, entry: &Entry) -> AnswerLine
    requires { IsVerdict table.now command.now (Enter entry.now) }
    ensures { IsActLine table.now entry.now result.bytes }
{
    know_name(&command.who);
    entry_line(table, entry)
}

/// The answer to the act that becomes an entry, which may come on the table.
pub(crate) fn entry_line(table: &Table, entry: &Entry) -> AnswerLine
    requires { IsEnteredOn table.now entry.now }
    ensures { IsActLine table.now entry.now result.bytes }
{
    // With it, the table's bounds are known.
    let _limits = table.limits();
    match table.find(entry.game.get()) {
        Some(game) => game_line(game, entry),
        None => opened_line(entry.game),
    }
}

/// The answer to a read: a line, and for `pgn` and `list` a body of more lines. It fails where memory is refused, which
/// happens only for these two.
pub fn answer(table: &Table, command: &Command) -> Result<Reply, AllocError>
    requires { IsRead table.now command.now }
    ensures reply { IfOk result (λ reply.
        IsReply table.now command.now reply.line.bytes (string_bytes reply.body)) }
    ensures growing { OnErr result (HasBody command.now.act) }
{
    let at = table.moment().max(command.at);
    match &command.act {
        Act::Show { game } => Ok(Reply::alone(
            table.allocator(),
            show_line(table.standing(*game), at),
        )),
        Act::Fen { game } => Ok(Reply::alone(table.allocator(), fen_line(table.standing(*game)))),
        Act::Pgn { game } => pgn_reply(table.allocator(), table.standing(*game)),
        Act::List => table.listed(),
        _ => unreachable!(),
    }
}

impl Table {
    // Where the table takes its memory.
    pub(crate) fn allocator(&self) -> Global {
        *self.games.allocator()
    }

    // The game of a number that stands on the table.
    fn standing(&self, number: u32) -> &Game
        requires { is_some (find_game number self.now.games) ≡ true }
        ensures game { find_game number self.now.games ≡ Some result.now }
        ensures began { result.now.moment ≤ self.now.moment }
    {
        match self.find(number) {
            Some(game) => game,
            None => unreachable!(),
        }
    }

    // The answer to `list`.
    fn listed(&self) -> Result<Reply, AllocError>
        ensures { IfOk result (λ reply. (reply.line.bytes ≡ list_line_text (length self.now.games))
            × (string_bytes reply.body ≡ list_text self.now.games)) }
    {
        let mut body = String::new(self.allocator());
        for place in 0..self.games.len() {
            write_row(&mut body, self.games[place].game())?;
        }
        Ok(Reply {
            line: list_line(self.games()),
            body,
        })
    }
}
