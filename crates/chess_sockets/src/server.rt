//! The server.
ghost use Rattle.std.specs.Prelude.{◌≡◌, ◌<◌, ◌+◌, ◌↔◌, ◌⊎◌, true, false, [], Some, None, Ok, IsTrue, IsSomeAnd, IfOk};
ghost use Rattle.std.specs.Prelude.{IfErr, OnOk, length};
ghost use Rattle.std.specs.Bool.{OnTrue, OnFalse};
ghost use Rattle.chess_hub.specs.Faults.{refusals_after};
ghost use Rattle.chess_hub.specs.Law.{hub_state, hub_store, hub_refusals};
ghost use Rattle.chess_hub.specs.Storing.{StoreMayBeAsked, StoreRefuses, StoreLasts, StoreTried, StoreCounts};
ghost use Rattle.chess_sockets.specs.Rounds.{times};
ghost use Rattle.chess_sockets.specs.Serving.{Welcomes, IsWelcomed, IsAskedFor, HasServed, HasGoneRound, open_in};
ghost use Rattle.chess_sockets.specs.Serving.{served, state_of_server};
ghost use Rattle.chess_sockets.specs.Turns.{EndsServing, IsRefusal, IsTurnRefusal};
ghost use Rattle.sockets.specs.Watches.{calm_waits, is_blind};

use crate::fault::ServerFault;
use crate::{Client, Reading, hand_out_all, take_in_all};
use chess_hub::{Hub, HubFault};
use sector_dev::Device;
use sockets::{
    AcceptOutcome, Connection, Listens, LocalListener, Watch, descriptor, may_wait, next_connection,
};
use std::alloc::Global;
use std::io::{Read, Write};
use std::net::{Net, TcpListener, TcpStream};

/// Whether a turn found something to do.
#[derive(Clone, Copy, PartialEq, Eq)]
pub enum Turned {
    Worked,
    Idle,
}

/// What the rests since the last turn found.
#[derive(Clone, Copy, PartialEq, Eq)]
enum Rested {
    /// There was none.
    Not,
    /// Each was calm: nobody has come, and who was read to the end has sent nothing since.
    Calm,
    /// One was not.
    Woken,
}

/// Serves the clients of a listener, over streams that are made of their connections.
#[derive(Drop)]
pub struct Server<D: Device, S = Connection> {
    alloc: Global,
    listener: LocalListener,
    port: u16,
    hub: Hub<D>,
    clients: Vec<Client<S>>,
    watch: Watch,
    rested: Rested,
    /// For how many milliseconds a client may be silent.
    silence: Option<u64>,
    /// How many connections were dropped for want of a place or of memory.
    turned_away: u64,
}

/// The most lines that a turn takes: one at least of each session that has one.
const LINES: usize = 64;

// Whether a turn asks for a connection: always, but after calm rests only where the last try has not found that none
// waits. So a failure leaves no connection waiting.
fn asks_for_one(rested: Rested, outcome: AcceptOutcome) -> bool
    ensures { result ≡ false ↔ ((rested ≡ Rested.Calm) × (outcome ≡ AcceptOutcome.Nobody)) }
{
    rested != Rested::Calm || may_wait(outcome)
}

// What a turn is told as that found something to do, or did not.
fn told_as(has_worked: bool) -> Turned
    ensures worked { result ≡ Turned.Worked → has_worked ≡ true }
    ensures idle { result ≡ Turned.Idle → has_worked ≡ false }
{
    if has_worked {
        Turned::Worked
    } else {
        Turned::Idle
    }
}

// Begins a session for a connection, and tells whether it did: the connection is dropped where the hub is busy or
// memory is refused.
fn admit<S: Read + Write + From<Connection> + Drop, D: Device>(
    alloc: Global,
    clients: &mut Vec<Client<S>>,
    hub: &mut Hub<D>,
    watch: &mut Watch,
    connection: Connection,
    at: u64,
) -> bool
    ensures welcomes { Welcomes S.from_gives at clients.old.items clients.new.items (hub_state hub.old)
        (hub_state hub.new) }
    ensures store { hub_store hub.new ≡ hub_store hub.old }
    ensures refusals { hub_refusals hub.new ≡ hub_refusals hub.old }
    ensures waits { calm_waits watch.new ≡ calm_waits watch.old }
    ensures blind { is_blind watch.old ≡ true → is_blind watch.new ≡ true }
    ensures came { OnTrue result (length clients.new.items ≡ length clients.old.items + 1) }
    ensures dropped { OnFalse result (clients.new.items ≡ clients.old.items) }
{
    match clients.reserve(1) {
        Ok(()) => {}
        Err(_) => return false,
    }
    let sid = match hub.connect() {
        Ok(sid) => sid,
        Err(_) => return false,
    };
    // One that the system refuses to watch is served too: each rest then ends as though something had come.
    let _ = watch.add(descriptor(&connection));
    clients.push_reserved(Client::new(alloc, S::from(connection), sid, at));
    true
}

/// Reads for each session, has the hub answer lines that wait, and writes; and tells whether there was anything to read
/// or to write.
pub fn serve_clients<S: Read + Write, D: Device>(
    clients: &mut Vec<Client<S>>,
    hub: &mut Hub<D>,
    reading: Reading,
) -> Result<bool, HubFault>
    ensures fault { IfErr result EndsServing }
    // Want of memory ends serving only where a turn of the hub was refused it.
    ensures counts { hub_refusals hub.new ≡ refusals_after result (hub_refusals hub.old) }
    ensures refused { IfErr result (λ fault. IsRefusal S.remaining (times reading.at reading.silence)
        (StoreRefuses (hub_store hub.old) (hub_store hub.new)) fault (served clients.old.items (hub_state hub.old))
        (served clients.new.items (hub_state hub.new))) }
    // Where there are no clients there is nothing to do.
    ensures more { IfOk result (λ more. more ≡ true → 0 < length clients.old.items) }
    // Each session hears what its client's stream gave, and nothing else, but for what comes behind a line that is too
    // long; and what it is given goes to that stream, as far as that takes it, unless the session is closed.
    ensures served { OnOk result (HasServed S.remaining S.contents (times reading.at reading.silence)
        (StoreMayBeAsked (hub_store hub.old)) (served clients.old.items (hub_state hub.old))
        (served clients.new.items (hub_state hub.new))) }
    ensures tried { OnOk result (StoreTried (hub_store hub.old) (hub_store hub.new) (Ok (tt {0}))) }
    ensures cause_err { IfErr result (StoreCounts (hub_store hub.old) (hub_store hub.new)) }
    ensures lasts { StoreLasts (hub_store hub.old) (hub_store hub.new) result }
{
    let has_read = take_in_all(clients, hub, reading);
    if let Err(fault) = hub.turn(reading.at, LINES) {
        return Err(fault);
    }
    let has_written = hand_out_all(clients, hub);
    Ok(has_read | has_written)
}

impl<D: Device, S: Read + Write + From<Connection> + Drop> Server<D, S> {
    /// Listens on a port of 127.0.0.1, of port 0 on one that the system chooses, and serves as `new` does, where no
    /// client is closed for silence. `Socket` where it cannot be bound or watched; the hub is then given up.
    pub fn bind<R: Net<Listener = TcpListener, Stream = TcpStream>>(
        net: &R,
        alloc: Global,
        port: u16,
        hub: Hub<D>,
    ) -> Result<Server<D, S>, ServerFault>
    where
        D: Drop,
        ensures hub { IfOk result (λ server. server.hub ≡ hub) }
        ensures nobody { IfOk result (λ server. server.clients.items ≡ []) }
        ensures silence { IfOk result (λ server. server.silence ≡ None) }
        ensures away { IfOk result (λ server. server.turned_away ≡ 0) }
    {
        let listener = LocalListener::bind(net, port)?;
        Server::new(net, alloc, listener, None, hub)
    }

    /// Serves who connects to this listener. `Socket` where that cannot be watched; the hub is then given up. A client
    /// from which nothing came for `silence` milliseconds, and for which nothing waits, is closed; without that none is
    /// closed for silence.
    pub fn new(
        net: &impl Net,
        alloc: Global,
        listener: LocalListener,
        silence: Option<u64>,
        hub: Hub<D>,
    ) -> Result<Server<D, S>, ServerFault>
    where
        D: Drop,
        ensures hub { IfOk result (λ server. server.hub ≡ hub) }
        ensures nobody { IfOk result (λ server. server.clients.items ≡ []) }
        ensures silence { IfOk result (λ server. server.silence ≡ silence) }
        ensures away { IfOk result (λ server. server.turned_away ≡ 0) }
    {
        let mut watch = Watch::new(net, alloc)?;
        let port = listener.port()?;
        watch.add(listener.socket())?;
        Ok(Server {
            alloc,
            listener,
            port,
            hub,
            clients: Vec::new(alloc),
            watch,
            rested: Rested::Not,
            silence,
            turned_away: 0,
        })
    }

    /// The port that it listens on; 0 where it listens by a Unix socket.
    pub fn port(&self) -> u16
        ensures { result ≡ self.now.port }
    {
        self.port
    }

    /// How many connections were dropped since it began, for want of a place or of memory; at most 2^64 - 1.
    pub fn turned_away(&self) -> u64
        ensures { result ≡ self.now.turned_away }
    {
        self.turned_away
    }

    // Accepts at most one connection, and tells whether one came; after calm rests none, unless one may wait. One that
    // came and is no client is counted. What fails at it ends nothing, and is no turn's work, so that a rest comes
    // before the next.
    fn welcome(&mut self, at: u64) -> bool
        ensures asked { IsAskedFor self.old.rested self.old.listener self.new.listener }
        ensures came { OnTrue result (self.new.listener.given ≡ self.old.listener.given + 1) }
        ensures nobody { OnFalse result (self.new.listener.given ≡ self.old.listener.given) }
        ensures stay { OnFalse result (self.new.clients.items ≡ self.old.clients.items) }
        ensures welcomes { IsWelcomed S.from_gives at (state_of_server self.old) (state_of_server self.new) }
        ensures store { hub_store self.new.hub ≡ hub_store self.old.hub }
        ensures refusals { hub_refusals self.new.hub ≡ hub_refusals self.old.hub }
        ensures silence { self.new.silence ≡ self.old.silence }
        ensures waits { calm_waits self.new.watch ≡ calm_waits self.old.watch }
        ensures blind { is_blind self.old.watch ≡ true → is_blind self.new.watch ≡ true }
    {
        if !asks_for_one(self.rested, self.listener.outcome()) {
            return false;
        }
        match next_connection(&mut self.listener) {
            Some(stream) => {
                if admit(
                    self.alloc,
                    &mut self.clients,
                    &mut self.hub,
                    &mut self.watch,
                    stream,
                    at,
                ) {
                    return true;
                }
                self.turned_away = self.turned_away.saturating_add(1);
                true
            }
            None => false,
        }
    }

    // Lets the connections go whose session is closed.
    fn part(&mut self)
        ensures stay { self.new.clients.items ≡ open_in (hub_state self.old.hub).sessions self.old.clients.items }
        ensures hub { self.new.hub ≡ self.old.hub }
        ensures rested { self.new.rested ≡ self.old.rested }
        ensures listener { self.new.listener ≡ self.old.listener }
        ensures turned_away { self.new.turned_away ≡ self.old.turned_away }
        ensures silence { self.new.silence ≡ self.old.silence }
        ensures waits { calm_waits self.new.watch ≡ calm_waits self.old.watch }
        ensures blind { is_blind self.old.watch ≡ true → is_blind self.new.watch ≡ true }
    {
        let hub = &self.hub;
        self.clients.retain(|client| hub.is_open(client.sid()));
    }

    /// One turn at the moment `at`, in milliseconds. It accepts at most one connection, which it drops where there are
    /// 64 sessions; reads at most one piece for each session of which no line is held back, so that at most 4,096 bytes
    /// are; gives each, once the lines before are answered and their answers are written, up to 16 lines that ask for
    /// little, or one that asks for much, of which a turn gives one; has the hub answer up to 64 lines; and writes what
    /// can be written. After calm rests it accepts none, unless an accept has failed, and reads only for clients that
    /// were not read to their end. It waits for nothing. `Err` is a fault that ends serving: that of a store, or
    /// `NoMemory`, where memory was refused to the hub; what is one client's own trouble, want of memory too, closes
    /// that client alone.
    ///
    /// Where the store was kept, a crash at any moment of the turn leaves what means the table from before or that with
    /// the whole batch; at `Ok` every image means the latter.
    pub fn turn(&mut self, at: u64) -> Result<Turned, HubFault>
        ensures fault { IfErr result EndsServing }
        ensures counts { hub_refusals self.new.hub ≡ refusals_after result (hub_refusals self.old.hub) }
        // The store's own fault tells why it refused what lines ask for.
        ensures refused { IfErr result (λ fault. IsTurnRefusal S.from_gives S.remaining (times at self.old.silence)
            (StoreRefuses (hub_store self.old.hub) (hub_store self.new.hub)) fault (state_of_server self.old)
            (state_of_server self.new)) }
        ensures tried { OnOk result (StoreTried (hub_store self.old.hub) (hub_store self.new.hub) (Ok (tt {0}))) }
        ensures cause_err { IfErr result (StoreCounts (hub_store self.old.hub) (hub_store self.new.hub)) }
        // Whoever may wait is asked for, in each turn, and what comes is work.
        ensures asked { IsAskedFor self.old.rested self.old.listener self.new.listener }
        ensures came { IfOk result (λ turned. turned ≡ Turned.Idle
            → (state_of_server self.new).given ≡ (state_of_server self.old).given) }
        // Work is one that came or clients that were there, so where an accept fails and no client is there it is none.
        ensures worked { IfOk result (λ turned. turned ≡ Turned.Worked
            → ((state_of_server self.new).given ≡ (state_of_server self.old).given + 1)
            ⊎ (0 < length (open_in (hub_state self.old.hub).sessions self.old.clients.items))) }
        // The next turn reads for every client, unless a rest comes first.
        ensures again { OnOk result (self.new.rested ≡ Rested.Not) }
        // Each session hears what its client's stream gave, and what it is given goes to that stream, whatever the
        // streams are. At most one comes, who is a client or is counted as turned away.
        ensures served { OnOk result (HasGoneRound S.from_gives S.remaining S.contents (times at self.old.silence)
            (StoreMayBeAsked (hub_store self.old.hub)) (state_of_server self.old) (state_of_server self.new)) }
        ensures silence { self.new.silence ≡ self.old.silence }
        ensures waits { calm_waits self.new.watch ≡ calm_waits self.old.watch }
        ensures blind { is_blind self.old.watch ≡ true → is_blind self.new.watch ≡ true }
        ensures lasts { StoreLasts (hub_store self.old.hub) (hub_store self.new.hub) result }
    {
        // A number of a session that was closed may be given again.
        self.part();
        let came = self.welcome(at);
        let reading = Reading {
            at,
            is_calm: self.rested == Rested::Calm,
            silence: self.silence,
        };
        self.rested = Rested::Not;
        let has_served = serve_clients(&mut self.clients, &mut self.hub, reading)?;
        self.part();
        Ok(told_as(came | has_served))
    }

    /// Waits until a socket is ready or 10 ms have passed, for use after a turn that found nothing to do. A rest is
    /// calm where no socket was ready, but not each hundredth on end, so that all are asked once a second.
    pub fn rest(&mut self)
        ensures hub { self.new.hub ≡ self.old.hub }
        ensures clients { self.new.clients ≡ self.old.clients }
        // A hundred calm waits on end do not come, so neither do a hundred calm rests.
        ensures calm { self.new.rested ≡ Rested.Calm
            → calm_waits self.new.watch ≡ calm_waits self.old.watch + 1 }
        // None is where the system has refused to watch a socket.
        ensures blind { is_blind self.old.watch ≡ true → (self.new.rested ≡ Rested.Woken)
            × (is_blind self.new.watch ≡ true) }
        ensures woken { self.old.rested ≡ Rested.Woken → self.new.rested ≡ Rested.Woken }
        ensures turned_away { self.new.turned_away ≡ self.old.turned_away }
        ensures silence { self.new.silence ≡ self.old.silence }
    {
        let is_calm = self.watch.rest();
        self.rested = if is_calm && self.rested != Rested::Woken {
            Rested::Calm
        } else {
            Rested::Woken
        };
    }
}
