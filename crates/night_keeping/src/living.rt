//! The word that writes the games of a night where others fetch them.
use crate::asked::Living;
use crate::asking::{Knowledge, clocks_after, pgn_told};
use crate::besides::Read;
use crate::initials::push_with;
use crate::kept::KeptFile;
use crate::rows::rows_of;
use crate::sources::{Sources, link_to};
use anyhow::{Context, Result};
use command_lines::unix_time;
use lobby_words::NameForm;
use night_archive::{game_of, lines_of, pgn_of as pgn_in};
use night_games::Telling;
use night_links::{
    Delay, FileState, GameNow, GamesFolder, Link, NO_FILE, Pace, Spectators, Table, ToldGame, Work,
    WrittenFile, go_on, state_of,
};
use std::alloc::{AllocError, Global};
use std::fs::File;
use std::net::{Net, TcpStream};
use std::rt::{Clock, Files};
use text_parts::parts;
use text_pgn::{Notices, value_of};

// A game: its PGN, and what else is known of it where it is on the table.
#[derive(Drop)]
struct Board {
    game: u32,
    pgn: Vec<u8>,
    // When the server told it, the clocks after its moves, and whether it is over.
    at: u64,
    clocks: Vec<Option<u64>>,
    is_over: bool,
}

// Who writes the files.
#[derive(Drop)]
struct Writer<'a, R> {
    rt: &'a R,
    living: &'a Living<'a>,
    file: WrittenFile<'a>,
    // The file of all games of the archive, and those of spectators, where they are asked for.
    kept: Option<KeptFile<'a>>,
    spectators: Option<Spectators<'a>>,
    sources: Sources<'a, R>,
    link: Option<Link>,
    // The games of the table as the server told them last, and their PGNs; and whether all clocks were stopped then.
    table: Table,
    seen: Vec<Board>,
    was_stopped: bool,
    // The games of the archive that are written, and how it stood when they were read.
    archived: Vec<Board>,
    archive: FileState,
    delay: Delay,
}

// Whether a game that is on the table still is written as the archive has it: it is over, and was kept.
fn is_kept(board: &Board, archived: &[Board]) -> bool {
    board.is_over && archived.iter().any(|one| one.game == board.game)
}

// Whether a PGN has a tag Date with this value, or a later one. (What is not known of a date counts as late.)
fn is_since(alloc: Global, pgn: &[u8], date: &str) -> Result<bool> {
    let Ok(text) = str::from_utf8(pgn) else {
        return Ok(false);
    };
    match value_of(alloc, text, "Date")? {
        Some(value) => Ok(value.as_str() >= date),
        None => Ok(false),
    }
}

// Whether the table's board of a game is written.
fn is_played(table: &[Board], archived: &[Board], game: u32) -> bool {
    table
        .iter()
        .any(|board| board.game == game && !is_kept(board, archived))
}

// The table's boards, and those of the archive that were kept or are not there any more, by their numbers.
fn in_order<'a>(
    alloc: Global,
    table: &'a [Board],
    archived: &'a [Board],
) -> Result<Vec<&'a Board>, AllocError> {
    let played = table.iter().filter(|board| !is_kept(board, archived));
    let left = archived
        .iter()
        .filter(|board| !is_played(table, archived, board.game));
    let mut boards: Vec<&Board> = played.chain(left).collect(alloc)?;
    boards.sort_by_key(|board| board.game)?;
    Ok(boards)
}

// Puts the game of a line of the archive behind others, where it is written: each one, or where a date is given those
// from this date on.
fn push_line(
    boards: &mut Vec<Board>,
    alloc: Global,
    line: &str,
    since: Option<&str>,
) -> Result<()> {
    let Some(game) = game_of(alloc, line)? else {
        return Ok(());
    };
    let pgn = pgn_in(alloc, line)?;
    let is_here = match since {
        Some(date) => is_since(alloc, pgn.as_slice(), date)?,
        None => true,
    };
    if is_here {
        boards.push(Board {
            game,
            pgn,
            at: 0,
            clocks: Vec::new(alloc),
            is_over: true,
        })?;
    }
    Ok(())
}

// The games of an archive's text that are written.
fn boards_of(alloc: Global, text: &str, since: Option<&str>) -> Result<Vec<Board>> {
    let lines = parts(alloc, text, '\n')?;
    let mut boards = Vec::new(alloc);
    for line in lines.as_slice() {
        push_line(&mut boards, alloc, line, since)?;
    }
    Ok(boards)
}

// The PGNs of the table's boards, and of those of the archive that were kept or are not there any more, in their order,
// with what is told besides.
fn pgns_of(
    alloc: Global,
    form: NameForm,
    table: &[Board],
    archived: &[Board],
    telling: &Telling<'_>,
) -> Result<Vec<Vec<u8>>> {
    let boards = in_order(alloc, table, archived)?;
    let mut pgns = Vec::new(alloc);
    for board in boards.as_slice() {
        let mut pgn = Vec::new(alloc);
        let plain = board.pgn.as_slice();
        push_with(&mut pgn, alloc, form, telling, board.game, plain)?;
        pgns.push(pgn)?;
    }
    Ok(pgns)
}

// PGNs, one behind the other.
fn text_of(alloc: Global, pgns: &[Vec<u8>]) -> Result<Vec<u8>> {
    let mut text = Vec::new(alloc);
    for pgn in pgns {
        text.extend_from_slice(pgn.as_slice())?;
    }
    Ok(text)
}

// A game of the table with its PGN: the clocks are looked for where it was told anew since the boards of before.
fn board_of(
    alloc: Global,
    known: &Knowledge<'_>,
    before: &[Board],
    told: &ToldGame,
) -> Result<Board> {
    let last = before
        .iter()
        .find(|board| board.game == told.game && board.at == told.at);
    let clocks = match last {
        Some(board) => Vec::from_slice(alloc, board.clocks.as_slice())?,
        None => clocks_after(alloc, known, told)?,
    };
    Ok(Board {
        game: told.game,
        pgn: pgn_told(alloc, known, told, clocks.as_slice())?,
        at: told.at,
        clocks,
        is_over: told.is_over(),
    })
}

// The boards of the table's games.
fn boards_told(
    alloc: Global,
    known: &Knowledge<'_>,
    before: &[Board],
    table: &Table,
) -> Result<Vec<Board>> {
    let mut boards = Vec::new(alloc);
    for told in table.games() {
        let board = board_of(alloc, known, before, told)?;
        boards.push(board)?;
    }
    Ok(boards)
}

// What the server told of a board's game, with the clocks after its moves; none where it has left the table.
fn told_beside<'a>(
    table: &'a Table,
    seen: &'a [Board],
    game: u32,
) -> Option<(&'a ToldGame, &'a [Option<u64>])> {
    let told = table.games().iter().find(|told| told.game == game)?;
    let board = seen.iter().find(|board| board.game == game)?;
    Some((told, board.clocks.as_slice()))
}

// A board as spectators are to be told it, where its PGN is told so.
fn game_now<'a>(
    board: &'a Board,
    pgn: &'a [u8],
    told: Option<(&'a ToldGame, &'a [Option<u64>])>,
    notices: Notices<'a>,
    at: u64,
) -> Result<GameNow<'a>> {
    Ok(GameNow {
        game: board.game,
        moves: str::from_utf8(board.pgn.as_slice())?,
        tags: str::from_utf8(pgn)?,
        told,
        notices,
        at,
    })
}

// The file of all games of the archive; none where it is not asked for, or there is no archive.
fn kept_file<'a, R>(rt: &R, living: &Living<'a>) -> Result<Option<KeptFile<'a>>>
where
    R: Files<File = File> + AllocGlobal,
{
    match (living.kept, living.archive) {
        (Some(file), Some(archive)) => Ok(Some(KeptFile::open(rt, file, archive)?)),
        _ => Ok(None),
    }
}

// The files of spectators; none where no folder is named.
fn spectators_of<'a, R>(
    rt: &R,
    living: &Living<'a>,
    all: Option<&'a str>,
) -> Result<Option<Spectators<'a>>>
where
    R: Files<File = File> + AllocGlobal,
{
    match (living.games, all) {
        (Some(folder), Some(all)) => {
            let files = GamesFolder::open(rt, folder, all)?;
            Ok(Some(Spectators::new(rt.alloc(), files)))
        }
        _ => Ok(None),
    }
}

impl<'a, R: Files<File = File> + AllocGlobal + Eprint> Writer<'a, R> {
    // No game was seen yet. `all` is the name of the file of all games for spectators, where there is one. It fails
    // where another writes a file.
    fn new(rt: &'a R, living: &'a Living<'a>, all: Option<&'a str>) -> Result<Self> {
        let alloc = rt.alloc();
        let file = WrittenFile::open(rt, living.file)?;
        let kept = kept_file(rt, living)?;
        let spectators = spectators_of(rt, living, all)?;
        let sources = Sources::open(rt, &living.source)?;
        Ok(Writer {
            rt,
            living,
            file,
            kept,
            spectators,
            sources,
            link: None,
            table: Table::new(alloc),
            seen: Vec::new(alloc),
            was_stopped: false,
            archived: Vec::new(alloc),
            archive: NO_FILE,
            delay: Delay::new(alloc, living.delay),
        })
    }

    // The table's games by the list as it is now, with the players and the log as they are behind it.
    fn read_table(&mut self, link: &mut Link, at: u64) -> Result<()> {
        let alloc = self.rt.alloc();
        let list = link.list()?;
        let rows = rows_of(alloc, list.as_str())?;
        // (behind the list, so that they are all there who play its games)
        self.sources.renew(self.rt, rows.as_slice())?;
        let is_stopped = !self.sources.log.notices(at).stopped.is_empty();
        if is_stopped != self.was_stopped {
            self.table.ask_again(alloc, None);
            self.was_stopped = is_stopped;
        }
        self.table
            .look(alloc, link, list.as_str(), self.sources.log.news(), at)?;
        self.sources.log.clear_news();
        let known = self.sources.known();
        self.seen = boards_told(alloc, &known, self.seen.as_slice(), &self.table)?;
        Ok(())
    }

    // Reads the archive anew where it is another.
    fn read_archive(&mut self) -> Result<()> {
        let Some(path) = self.living.archive else {
            return Ok(());
        };
        let state = state_of(self.rt, path)?;
        if state != self.archive {
            let text = lines_of(self.rt, path)?;
            self.archived = boards_of(self.rt.alloc(), text.as_str(), self.living.since)?;
            self.archive = state;
        }
        Ok(())
    }

    // The PGNs of all boards, with what is told besides; and writes the file of all games of the archive anew, where it
    // is another: whether that was done.
    fn pgns(&mut self) -> Result<(Vec<Vec<u8>>, Result<()>)> {
        let (alloc, form) = (self.rt.alloc(), self.living.names);
        let read = Read::now(self.rt, form, &self.living.besides)?;
        let known = read.known(alloc)?;
        let telling = read.telling(self.sources.known().players, known.as_slice());
        let pgns = pgns_of(
            alloc,
            form,
            self.seen.as_slice(),
            self.archived.as_slice(),
            &telling,
        )?;
        let renewed = match &mut self.kept {
            Some(kept) => kept.renew(self.rt, form, &telling, self.archive),
            None => Ok(()),
        };
        Ok((pgns, renewed))
    }
}

impl<'a, R> Writer<'a, R>
where
    R: Files<File = File> + AllocGlobal + Eprint + Clone + Drop,
{
    // Tells spectators of all boards, whose PGNs are told so. Those games of which a move came between two answers are
    // asked about again.
    fn tell_spectators(&mut self, pgns: Vec<Vec<u8>>, at: u64) -> Result<()> {
        let alloc = self.rt.alloc();
        let boards = in_order(alloc, self.seen.as_slice(), self.archived.as_slice())?;
        let Some(spectators) = &mut self.spectators else {
            return Ok(());
        };
        let notices = self.sources.log.notices(at);
        let mut games = Vec::new(alloc);
        for (board, pgn) in boards.as_slice().iter().zip(pgns.as_slice()) {
            let told = told_beside(&self.table, self.seen.as_slice(), board.game);
            let now = game_now(board, pgn.as_slice(), told, notices, at)?;
            if !spectators.tell(self.rt, &now)? {
                self.table.ask_again(alloc, Some(board.game));
            }
            games.push(board.game)?;
        }
        spectators.end(self.rt, games.as_slice(), &notices, at)
    }
}

impl<R> Writer<'_, R>
where
    R: Files<File = File> + Net<Stream = TcpStream> + AllocGlobal + Eprint,
{
    // The table's games, asked by the connection that there was, or by a new one.
    fn read_told(&mut self, at: u64) -> Result<()> {
        let mut link = match self.link.take() {
            Some(link) => link,
            None => link_to(self.rt, &self.living.source)?,
        };
        self.read_table(&mut link, at)?;
        self.link = Some(link);
        Ok(())
    }

    // Looks at the table and at the archive.
    fn look(&mut self, at: u64) -> Result<()> {
        self.read_archive()?;
        self.read_told(at)?;
        // (once more, as a game may have been kept and dropped meanwhile)
        self.read_archive()
    }
}

impl<R> Work for Writer<'_, R>
where
    R: Files<File = File> + Net<Stream = TcpStream> + AllocGlobal + Eprint + Clock + Clone + Drop,
{
    // (a file is written where it has changed; spectators are told also where there is no room for the others)
    fn work(&mut self, _is_once: bool) -> Result<()> {
        let at = unix_time(self.rt)?.context("the system's clock shows a time before 1970")?;
        self.look(at)?;
        let (pgns, renewed) = self.pgns()?;
        let text = text_of(self.rt.alloc(), pgns.as_slice())?;
        self.tell_spectators(pgns, at)?;
        if let Some(text) = self.delay.due(self.rt, text)? {
            self.file.put(self.rt, text)?;
        }
        renewed
    }
}

// The name of the file of all games for spectators; none where no folder is named.
fn all_games(alloc: Global, living: &Living<'_>) -> Result<Option<String>> {
    match living.games {
        Some(folder) => Ok(Some(GamesFolder::all_of(alloc, folder)?)),
        None => Ok(None),
    }
}

/// Writes all games that are played on the server's table, those that are over, and those of the archive to a file, and
/// where it is asked for all games of the archive to another, and those of the first to a folder for spectators: once,
/// or again and again until it is killed. It fails where another writes one of them, where the players' file is none,
/// and, where it is done once, at whatever goes wrong.
pub fn live<R>(rt: &R, living: &Living<'_>) -> Result<()>
where
    R: Files<File = File> + Net<Stream = TcpStream> + AllocGlobal + Eprint + Clock + Clone + Drop,
{
    let all = all_games(rt.alloc(), living)?;
    let mut writer = Writer::new(rt, living, all.as_ref().map(|all| all.as_str()))?;
    // (for spectators it is looked twice a second)
    let pace = match living.source.every {
        Some(_) if living.games.is_some() => Pace::HalfSeconds,
        every => Pace::every(every),
    };
    let done = go_on(rt, &mut writer, pace, "the file is written again");
    drop(writer);
    done
}
