//! The command line: each word with its values and its help.
use clap::Command;
use command_lines::{OptionText, OptionValue, WordText, command_line};
use std::alloc::{AllocError, Global};

const HELP_OF_BOARD: &str = "\
The board begins with the initial position. Each line gets one line as its answer:

  move TEXT     TEXT names a legal move by its squares, as e2e4, e7e8q for a
                promotion, or e1g1 for castling: the new position as FEN
                other TEXT: no 9 BadMove
                a counter of the position is 65535: no 20 TooLong
  other lines   no 1 BadLine

It makes no claim on the ends of a game.

Limits: a line has at most 255 bytes before its line feed, a carriage return among
them. A longer one is answered by bye LineTooLong, which ends the run. What follows
the last line feed is no line.

Exit status: 0 where the input has ended or a line was too long; 1 where a read or
a write failed, with fault Read or fault Write on standard error; 2 for words that
the program does not know.

Example:
  printf 'move e2e4\\nmove e2e4\\n' | chess_server board
prints
  rnbqkbnr/pppppppp/8/8/4P3/8/PPPP1PPP/RNBQKBNR b KQkq e3 0 1
  no 9 BadMove";

const HELP_OF_FORMAT: &str = "\
It makes the file where it isn't there, lengthens it with zero bytes where it is
shorter than the limits need, and prints ok format S, S being the sectors of 512
bytes that they need. A longer file is not cut.

A file in which a journal may stand already is left as it is: fault Exists. So is
one with a byte that is not zero among its first 1024, since it may be something
else that is wanted; with --force it is made a journal all the same.

Limits: 1 to 4096 games on the table at once, 1 to 20000 moves a game. They can be
raised later by widen, never lowered.

Exit status: 0; 1 with fault NAME on standard error: File (the file cannot be
opened, read, made or lengthened, or another program has it open), Exists, Device
(a read, a write or a sync failed), NoMemory, Write (the answer could not be
printed); 2 for words that the program does not know.

Example:
  chess_server format --journal club.journal --games 4 --plies 60
prints
  ok format 212";

const HELP_OF_DRILL: &str = "\
On a device in memory two batches of commands are submitted: a game is opened and
joined, then five moves are made. The second is stopped at each of its device calls,
and each unsynced sector is lost, kept or left unreadable, in every combination; then
the journal is opened again. It prints in how many cases there were, in how many no
move shows and in how many all five do. No case shows some of them.

Exit status: 0; 1 with fault NAME on standard error, as NoMemory; 2 for words that
the program does not know.

Example:
  chess_server drill
prints
  drill 28 none 25 all 3";

const HELP_OF_WIDEN: &str = "\
It lengthens the file with zero bytes to the need of the new limits, raises the limits
of the journal's table, and prints ok widen S, S being the sectors of 512 bytes that
they need. Games and moves stay. A stop in the middle leaves the old limits or the new.

Limits: 1 to 4096 games, 1 to 20000 moves a game, neither below the present one: that
is fault Limits, and the file is untouched.

Exit status: 0; 1 with fault NAME on standard error: File (the file isn't there, or
another program has it open), NotOurs (no journal stands in it), Damaged, TooSmall,
Limits, Device (a read, a write or a sync of the file failed), Failed (a call after
that), Worn, NoMemory, Write; 2 for words that the program does not know.

Example:
  chess_server widen --journal club.journal --games 8 --plies 60
prints
  ok widen 216";

const HELP_OF_RUN: &str = "\
One session over the journal: each line of standard input gets its answer on standard
output, as docs/client/PROTOCOL.md tells. What is answered by ok or fallen lasts, but for a
name, which is the session's: it stands in the file before the answer is written.

  name NAME     who sends the lines that follow: 1 to 16 of A-Z a-z 0-9 _
  open COLOUR TIME INCREMENT [FEN]
                COLOUR is white or black; TIME is INITIAL, seconds for all moves,
                or MOVES/INITIAL:SECOND, so many seconds more after so many moves
  join G, move G PLY TEXT, offer G, accept G, decline G, resign G, flag G
  claim G PLY three [TEXT], claim G PLY fifty [TEXT]
  drop G, show G, fen G, pgn G, list

TEXT names a move, as Nf3, Qh4#, g1f3 or e7e8q. Moments are those of the system's
clock as it was at the start, and go on evenly from there.

Limits: a line has at most 255 bytes before its line feed, a carriage return among
them. A longer one is answered by bye LineTooLong, which ends the run. What follows
the last line feed is no line.

Exit status: 0 where the input has ended; 1 with fault NAME on standard error: File
(the file isn't there, or another program has it open), NotOurs (no journal stands in
it), Damaged, TooSmall, Device (a read, a write or a sync of the file failed), Failed
(a call after that), Worn, NoMemory, LineTooLong, Read, Write; 2 for words that the
program does not know.

Example:
  printf 'name ann\\nopen white 300 0\\n' | chess_server run --journal club.journal
prints
  ok name ann
  ok open 1";

const HELP_OF_SERVE: &str = "\
With --port it listens on 127.0.0.1, and prints port P with the port that it listens on;
with --socket by a Unix socket at PATH, which the owner alone may connect to, and prints
socket PATH. One of the two is given. It serves each connection as a session over the
journal, with the lines and answers of run: 64 at a time. A further connection is closed
at once, and so is one that begins as HTTP or TLS does, with no answer.

A port is open to every program and every user of this machine. A socket that nobody
listens by is replaced, and is taken away at the end; one that somebody listens by, and
whatever else stands at PATH, is left as it is.

It goes on until it is ended: kill it, by any signal. What was answered by ok or
fallen lasts, but for names. With --turns it ends after so many turns: a turn accepts
a connection, reads from each session, answers up to 64 lines and writes what can be
written, and one that finds nothing to do waits up to 10 ms.

On standard error it tells what an operator wants to know, a line for each: how many
games and entries the journal has and how long the opening took; by how much the clock
is behind the last entry, where it is; how many connections were turned away, once a
minute at most; and what the system said of a fault. With --quiet it tells none of
these, but fault NAME.

A line has at most 255 bytes before its line feed, a carriage return among them. A
longer one is answered by bye LineTooLong, which closes the connection. Where a client
sends no more its whole lines are still answered. Up to 16 lines of a client are taken
at a time: the next once these are answered and it has taken the answers. With --idle
a client is closed from which nothing came for S seconds and for which nothing waits.

Moments are those of the system's clock as it was at the start, and go on evenly from
there: a clock that is set while it runs changes nothing. So the games' clocks run on
while nothing is served. With --clock serving they stand still then, whatever the
system's clock is: the first moment is the later of the last entry's and the last that
stands in F.clock, where it is written each second. Of more than a second in which the
program was held a second counts. While a file F.stopped is there all clocks stand
still, and its first line is told as the reason; without --clock serving it does nothing.

Limits: P 0 to 65535, where 0 leaves the choice to the system; N and S 1 to 4294967295.

Exit status: 0 after N turns; 1 with fault NAME on standard error: File (the file
isn't there, another program has it open, or F.clock is something else), NotOurs (no
journal stands in it), Damaged, TooSmall, Socket (the port or socket cannot be bound), Device (a read, a write
or a sync of the file failed), Failed (a call after that), Worn, NoMemory, Write; 2 for
words that the program does not know.

Example:
  chess_server serve --journal club.journal --port 5001
prints
  port 5001
and then
  printf 'name ann\\nlist\\n' | nc -N 127.0.0.1 5001
prints
  ok name ann
  ok list 0";

const HELP_OF_COPY: &str = "\
It makes G a journal of the table that stands in F, also while a server plays in F: of
that table at some moment between its start and its end. F is opened for reading only,
and not locked. It prints ok copy S, S being the sectors of 512 bytes of G.

G is made as format makes a file, and so is what may not be made of one: fault Exists.
Where F is changed so fast that no copy comes about, it is fault Changing, and G is no
journal.

Exit status: 0; 1 with fault NAME on standard error: File (F isn't there, or G cannot
be made), NotOurs (no journal stands in F), Damaged, TooSmall, Exists, Changing,
Device (a read of F, or a write or a sync of G failed), NoMemory, Write; 2 for words
that the program does not know.

Example:
  chess_server copy --journal club.journal --to copy.journal
prints
  ok copy 212";

const HELP_OF_SHOW: &str = "\
It writes the PGN of every game of the table, by rising number, each with an empty line
at its end, as files of many games have it. It needs no server, and one may be at work:
it shows the table at some moment between its start and its end. F is opened for
reading only, and not locked, and no byte of it is changed.

Exit status: 0; 1 with fault NAME on standard error: File (F isn't there), NotOurs (no
journal stands in it), Damaged, TooSmall, Changing (it is changed so fast that it cannot
be read), Device (a read of it failed), NoMemory, Write; 2 for words that the program
does not know.

Example:
  chess_server show --journal club.journal >night.pgn";

const JOURNAL: OptionText = OptionText {
    name: "journal",
    value: OptionValue::Text("F"),
    help: "The journal's file",
    is_required: true,
};

const TO: OptionText = OptionText {
    name: "to",
    value: OptionValue::Text("G"),
    help: "The file that is to be the copy",
    is_required: true,
};

const GAMES: OptionText = OptionText {
    name: "games",
    value: OptionValue::Number("G", 1, 4_096),
    help: "How many games the table holds, 1 to 4096",
    is_required: true,
};

const PLIES: OptionText = OptionText {
    name: "plies",
    value: OptionValue::Number("P", 1, 20_000),
    help: "How many moves a game may have, 1 to 20000",
    is_required: true,
};

const PORT: OptionText = OptionText {
    name: "port",
    value: OptionValue::Number("P", 0, 65_535),
    help: "The port on 127.0.0.1, 0 to 65535; 0 leaves the choice to the system",
    is_required: false,
};

const SOCKET: OptionText = OptionText {
    name: "socket",
    value: OptionValue::Text("PATH"),
    help: "The Unix socket to listen by, in place of a port",
    is_required: false,
};

const TURNS: OptionText = OptionText {
    name: "turns",
    value: OptionValue::Number("N", 1, 4_294_967_295),
    help: "After how many turns it ends, 1 to 4294967295; without it, it goes on",
    is_required: false,
};

const IDLE: OptionText = OptionText {
    name: "idle",
    value: OptionValue::Number("S", 1, 4_294_967_295),
    help: "After how many seconds of silence a client is closed, 1 to 4294967295",
    is_required: false,
};

const CLOCK: OptionText = OptionText {
    name: "clock",
    value: OptionValue::Text("CLOCK"),
    help: "system, as without it, or serving: whether games' clocks run while it does not serve",
    is_required: false,
};

const FORCE: OptionText = OptionText {
    name: "force",
    value: OptionValue::Nothing,
    help: "Also a file that has other bytes than zeros at its front, and is no journal",
    is_required: false,
};

const QUIET: OptionText = OptionText {
    name: "quiet",
    value: OptionValue::Nothing,
    help: "Tells nothing on standard error but fault NAME",
    is_required: false,
};

const BOARD: WordText = WordText {
    name: "board",
    about: "Answers the lines of standard input, over one board in memory",
    help: HELP_OF_BOARD,
    options: &[],
};

const FORMAT: WordText = WordText {
    name: "format",
    about: "Makes a file a journal without games",
    help: HELP_OF_FORMAT,
    options: &[JOURNAL, GAMES, PLIES, FORCE],
};

const RUN: WordText = WordText {
    name: "run",
    about: "Answers the lines of standard input, over the games of a journal",
    help: HELP_OF_RUN,
    options: &[JOURNAL],
};

const SERVE: WordText = WordText {
    name: "serve",
    about: "Serves players on a port or by a socket, over the games of a journal",
    help: HELP_OF_SERVE,
    options: &[JOURNAL, PORT, SOCKET, CLOCK, TURNS, IDLE, QUIET],
};

const DRILL: WordText = WordText {
    name: "drill",
    about: "Plays every crash of one batch on a device in memory",
    help: HELP_OF_DRILL,
    options: &[],
};

const WIDEN: WordText = WordText {
    name: "widen",
    about: "Raises the limits of a journal's table",
    help: HELP_OF_WIDEN,
    options: &[JOURNAL, GAMES, PLIES],
};

const COPY: WordText = WordText {
    name: "copy",
    about: "Copies a journal, also one in which a server plays",
    help: HELP_OF_COPY,
    options: &[JOURNAL, TO],
};

const SHOW: WordText = WordText {
    name: "show",
    about: "Writes the PGN of every game of a journal",
    help: HELP_OF_SHOW,
    options: &[JOURNAL],
};

// The words, in the order in which help lists them. (They have a function of their own, since each step of a function
// that has texts tells of all their bytes.)
fn words() -> [WordText; 8] {
    [BOARD, FORMAT, RUN, SERVE, DRILL, WIDEN, COPY, SHOW]
}

/// The program's command line.
pub fn command<'a>(alloc: Global) -> Result<Command<'a>, AllocError> {
    command_line(
        alloc,
        "chess_server",
        "A chess game server whose games last. Each word has its own --help.",
        &words(),
    )
}
