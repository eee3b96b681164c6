//! The word that serves browsers.
ghost use Rattle.std.specs.Prelude.{ℕ, ◌≡◌, ◌≢◌, ◌<◌, ◌≤◌, ◌+◌, ◌-◌, ◌^◌, min, true, false, Some, None, Ok};
ghost use Rattle.std.specs.Prelude.{OnOk, IfOk};
ghost use Rattle.lobby_players.specs.declared.halts.Finding.TheVariants as findings;
ghost use Rattle.lobby_loop.specs.Living.{Finds};
ghost use Rattle.lobby_serving.specs.Beside.{TellsFound, LooksAtClocks};

use crate::asked::Serving;
use crate::games_files::GamesFiles;
use crate::health::Health;
use crate::links::{FileLinks, KeepsDecisions};
use crate::log::{FileLog, LookedAfter};
use crate::page::{has_port, site_of};
use crate::players::Players;
use crate::table::Table;
use anyhow::{Context, Result};
use lobby_desk::{Finding, Halts};
use lobby_loop::{Beginning, Comers, Lobby, LobbyListener, NoActLog, Roll, Turned};
use lobby_words::Player;
use sockets::{Moments, ServerAddress};
use std::alloc::AllocError;
use std::fs::File;
use std::hash::RandomState;
use std::net::{Net, SocketAddr};
use std::random::RandomSource;
use std::rt::{Clock, Files};

// So many milliseconds lie between two looks whether all clocks were stopped by hand.
const LOOK_EVERY: u64 = 1_000;

// So many milliseconds lie at least between two lines that tell of one count.
const REST: u64 = 60_000;

// A count as it was told last, and from when on another is told.
#[derive(Clone, Copy)]
struct ToldCount {
    count: u64,
    next_at: u64,
}

// Nothing was told.
const UNTOLD: ToldCount = ToldCount {
    count: 0,
    next_at: 0,
};

impl ToldCount {
    // Whether a count is to be told now: it is another than the last one, which was told a minute ago or before.
    fn is_news(&mut self, count: u64, at: u64) -> bool {
        let is_news = count != self.count && at >= self.next_at;
        if is_news {
            self.count = count;
            self.next_at = at.saturating_add(REST);
        }
        is_news
    }
}

/// What an operator was told on standard error.
#[derive(Drop)]
struct Telling<'a, R> {
    rt: &'a R,
    server: ServerAddress,
    is_here: bool,
    turned_away: ToldCount,
    logins_refused: ToldCount,
}

impl<R: Eprint> Telling<'_, R> {
    // That the server came or went.
    fn tell_server(&mut self, is_here: bool) {
        let server = self.server;
        if is_here != self.is_here {
            self.is_here = is_here;
            let how = if is_here {
                "is there"
            } else {
                "is not there: it is waited for"
            };
            let _ = eprintln!(self.rt; "the server at {server} {how}");
        }
    }

    // How many connections were turned away, and how many logins were refused, since it began.
    fn tell_counts(&mut self, lobby: &Lobby, at: u64) {
        let turned_away = lobby.hall().turned_away();
        if self.turned_away.is_news(turned_away, at) {
            let _ = eprintln!(self.rt;
                "so many connections were turned away or made room by now: {turned_away}"
            );
        }
        let refused = lobby.hall().counts().logins_refused;
        if self.logins_refused.is_news(refused, at) {
            let _ = eprintln!(self.rt;
                "so many logins were refused by now, by links that hold no more or by guesses: {refused}"
            );
        }
    }
}

// What came of a turn, where it is to be looked at something else after so many milliseconds at most.
fn within(turned: Turned, most: Option<u64>) -> Turned {
    match (turned, most) {
        (Turned::Idle(None), Some(_)) => Turned::Idle(most),
        (Turned::Idle(Some(rest)), Some(most)) => Turned::Idle(Some(rest.min(most))),
        (turned, _) => turned,
    }
}

// Has everybody told why all clocks are stopped by hand, or that they have to run, where that was found.
fn tell_clocks(lobby: &mut Lobby, found: Option<String>) -> Result<(), AllocError>
    ensures { OnOk result (TellsFound found lobby.old.hall lobby.new.hall) }
{
    if let Some(reason) = found {
        lobby.found(&Finding::Clocks(reason))?;
    }
    Ok(())
}

// What is looked at and told beside the turns.
#[derive(Drop)]
struct Beside<'a, R, D> {
    rt: &'a R,
    telling: Telling<'a, R>,
    table: Table,
    health: Health,
    games: GamesFiles<'a>,
    links: FileLinks<'a, R, D>,
    // Who was here when the log was told last.
    roll: Roll,
    // The second that goes.
    comers: Comers,
    // Whether it was told last that there is no room for the log.
    is_full: bool,
    // Whether clocks can be stopped, and when it is looked next whether they were by hand.
    can_stop: bool,
    clocks_at: u64,
}

impl<'a, R, D> Beside<'a, R, D>
where
    R: Files<File = File> + AllocGlobal + Clone + Drop + Clock + Eprint + Net + RandomSource,
    D: KeepsDecisions + Drop,
{
    // Nothing was looked at or told.
    fn new(
        rt: &'a R,
        serving: &'a Serving<'a>,
        links: FileLinks<'a, R, D>,
    ) -> Result<Self, AllocError> {
        Ok(Beside {
            rt,
            telling: Telling {
                rt,
                server: serving.server,
                is_here: false,
                turned_away: UNTOLD,
                logins_refused: UNTOLD,
            },
            table: Table::new(rt.alloc(), serving.server),
            health: Health::new(rt.alloc()),
            games: GamesFiles::new(rt.alloc(), serving)?,
            links,
            roll: Roll::new(rt.alloc()),
            comers: Comers::new(),
            is_full: false,
            can_stop: serving.stopped.is_some(),
            clocks_at: 0,
        })
    }

    // Has everybody told whether there is room for the log, where that is news.
    fn tell_room(&mut self, lobby: &mut Lobby, is_full: bool) -> Result<(), AllocError>
        ensures told { OnOk result (self.new.is_full ≡ is_full) }
        ensures news { OnOk result (self.old.is_full ≢ is_full
            → Finds (findings.LogFull is_full) lobby.old.hall lobby.new.hall) }
        ensures same { self.old.is_full ≡ is_full → lobby.new.hall ≡ lobby.old.hall }
    {
        if is_full != self.is_full {
            lobby.found(&Finding::LogFull(is_full))?;
            self.is_full = is_full;
        }
        Ok(())
    }

    // Has everybody told that all clocks were stopped by hand, or have to run, where that is news; it is looked at once
    // in a second. After so many milliseconds it is to be looked at again, where clocks can be stopped.
    fn look_at_clocks(&mut self, lobby: &mut Lobby, at: u64) -> Result<Option<u64>, AllocError>
        ensures never { self.old.can_stop ≡ false
            → (result ≡ Ok None) × (self.new ≡ self.old) × (lobby.new.hall ≡ lobby.old.hall) }
        ensures early { self.old.can_stop ≡ true → at < self.old.clocks_at
            → (result ≡ Ok (Some (self.old.clocks_at - at))) × (self.new ≡ self.old)
            × (lobby.new.hall ≡ lobby.old.hall) }
        ensures next { self.old.can_stop ≡ true → self.old.clocks_at ≤ at
            → self.new.clocks_at ≡ min (at + 1000) (2 ^ 64 - 1) }
        ensures looks { self.old.can_stop ≡ true → self.old.clocks_at ≤ at
            → IfOk result (λ rest. LooksAtClocks rest self.old self.new lobby.old.hall lobby.new.hall) }
        ensures others { self.new ≡ record self.old { clocks_at = self.new.clocks_at; links = self.new.links } }
    {
        if !self.can_stop {
            return Ok(None);
        }
        if at < self.clocks_at {
            return Ok(Some(self.clocks_at - at));
        }
        self.clocks_at = at.saturating_add(LOOK_EVERY);
        let found = self.links.stopped_by_hand()?;
        tell_clocks(lobby, found)?;
        Ok(Some(LOOK_EVERY))
    }

    // Takes turns until something is at fault.
    fn take_turns<L: LookedAfter>(
        &mut self,
        players: &mut Players<'_, R>,
        lobby: &mut Lobby,
        log: &mut L,
    ) -> Result<()> {
        let mut moments = Moments::new(self.rt)?;
        for _ in 0..u64::MAX {
            let at = moments.next();
            match lobby.left(at) {
                Some(left) => lobby.rest(Turned::Idle(Some(left)))?,
                None => {
                    let looked = log.look(at).context("the log of acts")?;
                    players.has_log_from_now_on(looked.is_safe);
                    players.look(lobby, at);
                    self.tell_room(lobby, looked.is_full)?;
                    self.turn(lobby, log, at, looked.rest)?;
                }
            }
        }
        Ok(())
    }

    // Takes a turn of the lobby, behind which the log is to be looked at after so many milliseconds at most.
    fn turn<L: LookedAfter>(
        &mut self,
        lobby: &mut Lobby,
        log: &mut L,
        at: u64,
        log_rest: Option<u64>,
    ) -> Result<()> {
        self.table.look(self.rt, lobby, at)?;
        self.health.look(lobby, &self.table, at)?;
        let games_rest = self.games.look(self.rt, lobby, at)?;
        let clocks_rest = self.look_at_clocks(lobby, at)?;
        lobby.see_comers(&mut self.comers, at);
        let turned = lobby.turn(self.rt, at, log, &mut self.links)?;
        lobby.tell_roll(&mut self.roll, log)?;
        self.telling.tell_server(lobby.hall().has_server());
        self.telling.tell_counts(lobby, at);
        let rested = within(within(turned, self.table.rest(at)), games_rest);
        lobby.rest(within(within(rested, log_rest), clocks_rest))?;
        Ok(())
    }
}

// Prints the addresses by which browsers may come to a port of all addresses of this machine: each host, with the port
// where it names none; without a host that of the machine itself.
fn tell_hosts<R: Print + Eprint>(rt: &R, port: u16, hosts: &[&str]) {
    if hosts.is_empty() {
        let _ = println!(rt; "http://127.0.0.1:{port}/");
        let _ = eprintln!(rt;
            "no --host names an address by which other devices come: their browsers are refused"
        );
    }
    for host in hosts {
        if has_port(host) {
            let _ = println!(rt; "http://{host}/");
        } else {
            let _ = println!(rt; "http://{host}:{port}/");
        }
    }
}

// Prints the page's address, or where all of this machine's are listened at those of its hosts. (A lobby of which
// nobody reads what it tells goes on.)
fn tell_address<R: Print + Eprint>(rt: &R, address: SocketAddr, hosts: &[&str]) {
    if address.ip().is_unspecified() {
        tell_hosts(rt, address.port(), hosts);
    } else {
        let _ = println!(rt; "http://{address}/");
    }
    if !address.ip().is_loopback() {
        let _ = eprintln!(rt;
            "the line is not encrypted: whoever is on the way reads along, links too"
        );
    }
}

// That browsers behind a proxy on this machine cannot be told apart, where a host is named and no proxy.
fn tell_proxy<R: Eprint>(rt: &R, serving: &Serving<'_>) {
    if serving.address.ip().is_loopback() && !serving.hosts.is_empty() && serving.proxy.is_none() {
        let _ = eprintln!(rt;
            "there is --host and no --proxy: browsers that come by a proxy on this machine count as one, without \
            the limit of an address"
        );
    }
}

// The lobby's server, as the command line asks for it.
#[derive(Drop)]
struct Server<'a, R> {
    rt: &'a R,
    serving: &'a Serving<'a>,
}

impl<R> Server<'_, R>
where
    R: Files + AllocGlobal + Clone + Drop + Net + RandomSource,
{
    // The lobby of those who connect there.
    fn lobby(
        &self,
        listener: LobbyListener,
        address: SocketAddr,
        known: Vec<Player>,
        halts: Halts,
    ) -> Result<Lobby> {
        let (rt, serving) = (self.rt, self.serving);
        let keys = RandomState::new(rt)?;
        let site = site_of(rt, serving.page, address, serving.hosts.as_slice())?;
        let beginning = Beginning {
            keys,
            listener,
            server: serving.server,
            site,
            players: known,
            halts,
            limits: serving.limits,
            proxy: serving.proxy,
        };
        Ok(Lobby::new(rt, rt.alloc(), beginning)?)
    }
}

// (What is large goes by a call of `drop`: each way out would let go of all its parts.)
impl<R> Server<'_, R>
where
    R: Files<File = File>
        + AllocGlobal
        + Clone
        + Drop
        + Clock
        + Print
        + Eprint
        + Net
        + RandomSource,
{
    // Prints the page's address, and takes turns until something is at fault.
    fn serve_lobby<L: LookedAfter, D: KeepsDecisions + Drop>(
        &self,
        players: &mut Players<'_, R>,
        links: FileLinks<'_, R, D>,
        address: SocketAddr,
        lobby: &mut Lobby,
        log: &mut L,
    ) -> Result<()> {
        tell_address(self.rt, address, self.serving.hosts.as_slice());
        tell_proxy(self.rt, self.serving);
        let mut beside = Beside::new(self.rt, self.serving, links)?;
        let served = beside.take_turns(players, lobby, log);
        drop(beside);
        served
    }

    // Serves browsers, with a log of acts and who keeps decisions.
    fn serve_with<L: LookedAfter, D: KeepsDecisions + Drop>(
        &self,
        players: &mut Players<'_, R>,
        known: Vec<Player>,
        log: &mut L,
        decisions: D,
    ) -> Result<()> {
        let (rt, serving) = (self.rt, self.serving);
        let asked = serving.address;
        let listener = LobbyListener::bind(rt, asked).context(format_args!(
            "listening on {asked}"
        ))?;
        let address = listener.address()?;
        let links = FileLinks::open(rt, serving, decisions)?;
        let mut lobby = self.lobby(listener, address, known, links.halts()?)?;
        let served = self.serve_lobby(players, links, address, &mut lobby, log);
        drop(lobby);
        served
    }
}

// What a lobby without a log lacks.
const NO_LOG: &str =
    "there is no --log: who said what is recorded nowhere, so nobody acts as an arbiter";

/// Serves browsers, and first prints the page's address; what an arbiter decides is put to these decisions. It ends
/// where something is at fault: at the start the players' file, the page, the log or the address, then a turn.
pub fn serve<R, D>(rt: &R, serving: &Serving<'_>, decisions: D) -> Result<()>
where
    R: Files<File = File>
        + AllocGlobal
        + Clone
        + Drop
        + Clock
        + Print
        + Eprint
        + Net
        + RandomSource,
    D: KeepsDecisions + Drop,
{
    let server = Server { rt, serving };
    let mut players = Players::new(rt, serving.players, serving.log.is_some());
    let known = players.read()?;
    let Some(file) = serving.log else {
        let _ = eprintln!(rt; "{NO_LOG}");
        return server.serve_with(&mut players, known, &mut NoActLog, decisions);
    };
    let mut log = FileLog::open(rt, file).context(format_args!("opening {file}"))?;
    server.serve_with(&mut players, known, &mut log, decisions)
}
