//! The word that keeps games that are over.
ghost use Rattle.std.specs.Prelude.{IfOk};
ghost use Rattle.night_archive.specs.Files.{contains};
ghost use Rattle.night_archive.specs.Night.{AreAll};
ghost use Rattle.night_keeping.specs.Games.{games_over_in};

use crate::asked::Keeping;
use crate::keeper::{Counts, Done, Keeper, NOTHING, Onlookers};
use crate::rows::{games_over, rows_of};
use crate::sources::{Sources, link_to};
use anyhow::{Context, Result};
use night_archive::{Archive, Opened, in_order, look, open_archive};
use night_files::{DiskFile, HeldFile};
use night_links::{Link, Pace, Watchers, Work, go_on};
use server_answers::Row;
use std::alloc::Global;
use std::fs::File;
use std::net::{Net, TcpStream};
use std::rt::{Clock, Files};

// Those who look at games by a lobby, where one is asked.
#[derive(Drop)]
struct Browsers<'a, R> {
    rt: &'a R,
    watchers: Option<Watchers>,
}

impl<R> Onlookers for Browsers<'_, R>
where
    R: Net<Stream = TcpStream> + AllocGlobal + Clock,
{
    fn are_gone(&mut self, game: u32) -> Result<bool> {
        match &mut self.watchers {
            Some(watchers) => Ok(!watchers.hold(self.rt, game)?),
            None => Ok(true),
        }
    }
}

// What `keep` has of one look to the next.
#[derive(Drop)]
struct Looking<'a, R> {
    rt: &'a R,
    keeping: &'a Keeping<'a>,
    // The archive's file, also between looks: which of two that look first would set the Round of a game. None behind a
    // look that failed at it: a volume may answer nothing more of a file that was open while its machines were gone, and
    // the next look opens it anew.
    held: Option<HeldFile<'a>>,
    sources: Sources<'a, R>,
    watchers: Option<Watchers>,
    // Whether the archive was opened: then it is left alone while no game is over.
    has_looked: bool,
}

impl<'a, R: Files<File = File> + AllocGlobal + Eprint> Looking<'a, R> {
    // Nothing was looked at yet. It fails where another has the archive.
    fn new(rt: &'a R, keeping: &'a Keeping<'a>) -> Result<Self> {
        let path = keeping.archive;
        Ok(Looking {
            rt,
            keeping,
            held: Some(HeldFile::open(rt, path).context(format_args!("opening {path}"))?),
            sources: Sources::open(rt, &keeping.source)?,
            watchers: keeping.lobby.map(|lobby| Watchers::new(rt.alloc(), lobby)),
            has_looked: false,
        })
    }
}

impl<R: Files + AllocGlobal> Looking<'_, R> {
    // Those games of a list that are over, a first half before its second one, which is linked with it. Where one of
    // them was not kept the log is read on before: behind the list, so that it has what is told of the games that are
    // over in it.
    fn games_in_order(&mut self, archive: &Archive<DiskFile>, rows: &[Row]) -> Result<Vec<u32>>
        ensures { IfOk result (λ games. AreAll (λ game. contains game (games_over_in rows.now)) games.items) }
    {
        if is_asked(rows, archive) {
            self.sources.log.read_on(self.rt, rows)?;
        }
        let over = games_over(self.rt.alloc(), rows)?;
        Ok(in_order(self.rt.alloc(), self.sources.log.entries(), over.as_slice())?)
    }
}

impl<R> Looking<'_, R>
where
    R: Net<Stream = TcpStream> + AllocGlobal + Clock,
{
    // Keeps the games of a list that are over, and drops them where that is asked, and where they stay for nobody who
    // looks at them. What is known of these goes in and comes back.
    fn keep_games<'x>(
        &'x self,
        link: Link,
        opened: Opened,
        rows: &'x [Row],
        over: &[u32],
        watchers: Option<Watchers>,
    ) -> (Result<(Counts, Result<()>)>, Option<Watchers>)
        requires { AreAll (λ game. contains game (games_over_in rows.now)) over.now }
    {
        let alloc = self.rt.alloc();
        let mut keeper = Keeper {
            alloc,
            link,
            archive: opened.archive,
            lines: opened.lines,
            kept: Vec::new(alloc),
            known: self.sources.known(),
            rows,
            drops: self.keeping.drops,
            onlookers: Browsers {
                rt: self.rt,
                watchers,
            },
            done: Done::nothing(alloc),
            counts: NOTHING,
            fault: None,
        };
        let done = look(&mut keeper, alloc, over);
        let counted = keeper.end(done);
        let watchers = keeper.onlookers.watchers.take();
        drop(keeper);
        (counted, watchers)
    }
}

impl<R> Looking<'_, R>
where
    R: Files<File = File> + AllocGlobal + Eprint,
{
    // Opens the archive, with the players as they are now; none where no game is over, and it was opened before.
    fn open(&mut self, rows: &[Row]) -> Result<Option<Opened>> {
        if self.has_looked && !rows.iter().any(|row| row.result.is_some()) {
            return Ok(None);
        }
        // (behind the list, so that they are all there who played its games)
        self.sources.players.renew()?;
        let path = self.keeping.archive;
        let mut held = match self.held.take() {
            Some(held) => held,
            None => HeldFile::open(self.rt, path).context(format_args!("opening {path}"))?,
        };
        let file = held.file(self.rt).context(format_args!("opening {path}"))?;
        let opened = open_archive(self.rt, path, file)?;
        self.held = Some(held);
        self.has_looked = true;
        Ok(Some(opened))
    }
}

// Whether the log is asked about games: one is over, and was not kept.
fn is_asked(rows: &[Row], archive: &Archive<DiskFile>) -> bool {
    rows.iter()
        .any(|row| row.result.is_some() && !archive.has(row.game))
}

impl<R> Looking<'_, R>
where
    R: Files<File = File> + Net<Stream = TcpStream> + AllocGlobal + Eprint + Clock,
{
    // Keeps the games of a list that are over, and drops them where that is asked. What went wrong though the work went
    // on comes beside the counts.
    fn look_at(&mut self, link: Link, rows: &[Row]) -> Result<(Counts, Result<()>)> {
        let Some(opened) = self.open(rows)? else {
            return Ok((NOTHING, Ok(())));
        };
        let over = self.games_in_order(&opened.archive, rows)?;
        let mut watchers = self.watchers.take();
        if let Some(watchers) = &mut watchers {
            watchers.forget_others(over.as_slice());
        }
        let (counted, watchers) = self.keep_games(link, opened, rows, over.as_slice(), watchers);
        self.watchers = watchers;
        if !matches!(counted, Ok((_, Ok(())))) {
            self.held = None;
        }
        counted
    }

    // The same of the list as it is now.
    fn look(&mut self) -> Result<(Counts, Result<()>)> {
        let mut link = link_to(self.rt, &self.keeping.source)?;
        let list = link.list()?;
        let rows = rows_of(self.rt.alloc(), list.as_str())?;
        self.look_at(link, rows.as_slice())
    }
}

impl<R> Work for Looking<'_, R>
where
    R: Files<File = File> + Net<Stream = TcpStream> + AllocGlobal + Print + Eprint + Clock,
{
    // (it is told of where games were kept or dropped, or where that is all)
    fn work(&mut self, is_once: bool) -> Result<()> {
        let (counts, done) = self.look()?;
        if is_once || counts.kept > 0 || counts.dropped > 0 {
            tell_counts(self.rt, counts)?;
        }
        done
    }
}

// Tells how many games were kept.
fn tell_counts<R: Print + AllocGlobal>(rt: &R, counts: Counts) -> Result<()> {
    let Counts { kept, dropped, all } = counts;
    println!(rt; "kept {kept}, dropped {dropped}, in the archive {all}")?;
    Ok(())
}

/// Keeps the games of a server that are over, and drops them where that is asked: once, or again and again until it is
/// killed. It fails where another does so in this archive, where the players' file is none, and, where it is done once,
/// at whatever goes wrong.
pub fn keep<R>(rt: &R, keeping: &Keeping<'_>) -> Result<()>
where
    R: Files<File = File> + Net<Stream = TcpStream> + AllocGlobal + Print + Eprint + Clock,
{
    let mut looking = Looking::new(rt, keeping)?;
    let pace = Pace::every(keeping.source.every);
    let done = go_on(rt, &mut looking, pace, "all is well again");
    drop(looking);
    done
}
