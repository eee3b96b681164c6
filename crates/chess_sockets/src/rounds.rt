//! What a turn of a server does for all its clients, one after the other.
ghost use Rattle.std.specs.Prelude.{◌≡◌, ◌≤◌, ◌<◌, ◌↔◌, ◌⊎◌, true, Some, None, IsTrue, IsSomeAnd, length};
ghost use Rattle.std.specs.Bool.{OnTrue, OnFalse};
ghost use Rattle.chess_hub.specs.Law.{hub_store, hub_refusals};
ghost use Rattle.chess_hub.specs.Session.{Changes, IsUnchanged};
ghost use Rattle.text_lines.specs.Lines.{IsUnfinished};
ghost use Rattle.chess_sockets.specs.Clients.{standing, IsOpen, IsSilent, IsLongest};
ghost use Rattle.chess_sockets.specs.Incoming.{held};
ghost use Rattle.chess_sockets.specs.Sending.{waiting};
ghost use Rattle.chess_sockets.specs.Rounds.{intake, times, AreRead, IsRead, AreWritten, IsWritten};

use crate::client::Client;
use crate::closing::Closing;
use crate::incoming::PIECE_ROOM;
use crate::room::Room;
use chess_hub::Hub;
use sector_dev::Device;
use std::io::{Read, Write};

/// When clients are read for.
#[derive(Clone, Copy)]
pub struct Reading {
    /// The moment of the turn, in milliseconds.
    pub at: u64,
    /// Whether quiet clients are passed over.
    pub is_calm: bool,
    /// For how many milliseconds a client may be silent.
    pub silence: Option<u64>,
}

// Whether a client has been silent for as long as it may.
fn is_over_silent<S, D: Device>(client: &Client<S>, hub: &Hub<D>, reading: Reading) -> bool
    requires { IsOpen hub.now.sessions client.now.sid }
    ensures { IsTrue result ↔ IsSomeAnd reading.silence (IsSilent client.now hub.now.sessions reading.at) }
{
    match reading.silence {
        Some(most) => client.is_silent(hub, reading.at, most),
        None => false,
    }
}

// Closes the session of a client that has been silent for as long as it may, behind a read that found nothing, and
// tells whether it did.
fn close_silent<S, D: Device>(client: &mut Client<S>, hub: &mut Hub<D>, reading: Reading) -> bool
    requires open { IsOpen hub.old.sessions client.old.sid }
    requires quiet { client.old.is_quiet ≡ true }
    ensures silent { IsTrue result ↔ IsSomeAnd reading.silence (IsSilent client.old hub.old.sessions reading.at) }
    ensures closed { OnTrue result (Changes hub.old.sessions hub.new.sessions client.old.sid None) }
    ensures told { OnTrue result (client.new.closing ≡ Some Closing.Silence) }
    ensures stays { OnFalse result (hub.new.sessions ≡ hub.old.sessions) }
    ensures peer { (client.new.sid ≡ client.old.sid) × (held client.new.incoming ≡ held client.old.incoming)
        × (waiting client.new.outgoing ≡ waiting client.old.outgoing)
        × (client.new.wire.stream ≡ client.old.wire.stream)
        × (client.new.heard_at ≡ client.old.heard_at) × (client.new.has_ended ≡ client.old.has_ended)
        × (standing client.new ≡ standing client.old) }
    ensures store { hub_store hub.new ≡ hub_store hub.old }
    ensures refusals { hub_refusals hub.new ≡ hub_refusals hub.old }
{
    if !is_over_silent(client, hub, reading) {
        return false;
    }
    client.close(hub, Closing::Silence);
    true
}

// Whether a client is passed over: after calm rests one that was read to its end and of which no line is held back,
// unless it has been silent for too long.
fn is_passed_over<S, D: Device>(client: &Client<S>, hub: &Hub<D>, reading: Reading) -> bool
    requires { IsOpen hub.now.sessions client.now.sid }
    ensures { result ≡ true → IsUnfinished (held client.now.incoming) }
{
    reading.is_calm
        && client.is_quiet()
        && client.is_unfinished()
        && !is_over_silent(client, hub, reading)
}

// Reads for a session that is open, but after calm rests not for a quiet client; and where the read finds nothing,
// closes that of a client that has been silent for too long. It tells whether there may be more to do.
fn read_for<S: Read + Write, D: Device>(
    client: &mut Client<S>,
    hub: &mut Hub<D>,
    reading: Reading,
    piece: &mut [u8; PIECE_ROOM],
    room: &mut Room,
) -> bool
    ensures read { IsRead S.remaining (times reading.at reading.silence) room.old.longest client.old client.new
        (intake hub.old.sessions room.old.lines) (intake hub.new.sessions room.new.lines) }
    ensures longest { room.new.longest ≡ room.old.longest }
    ensures store { hub_store hub.new ≡ hub_store hub.old }
    ensures refusals { hub_refusals hub.new ≡ hub_refusals hub.old }
{
    if !hub.is_open(client.sid()) {
        return false;
    }
    if is_passed_over(client, hub, reading) {
        return false;
    }
    let any = client.take_in(hub, reading.at, piece, room);
    if client.is_quiet() {
        return close_silent(client, hub, reading);
    }
    any
}

// The longer of two waits: this, and that of a client with a line that asks for much, if its session is open.
fn longer<S, D: Device>(client: &Client<S>, hub: &Hub<D>, longest: u32) -> u32
    ensures least { longest ≤ result }
    ensures own { IsOpen hub.now.sessions client.now.sid → client.now.waited ≤ result }
    ensures which { (result ≡ longest) ⊎ (IsOpen hub.now.sessions client.now.sid × (client.now.waited ≡ result)) }
{
    let waited = client.waited();
    if waited > longest && hub.is_open(client.sid()) {
        waited
    } else {
        longest
    }
}

// For how many turns a client of an open session has waited that has waited longest with a line that asks for much.
fn longest_wait<S, D: Device>(clients: &[Client<S>], hub: &Hub<D>) -> u32
    ensures { IsLongest hub.now.sessions clients.now result }
{
    let mut longest = 0;
    for client in clients {
        longest = longer(client, hub, longest);
    }
    longest
}

/// Reads for each client, and tells whether there may be more to do: at most one piece of each of which no line is held
/// back and no answer waits to be written; gives each session what it may be given, in all one line that asks for much;
/// and closes the sessions of those that have been silent for too long.
pub fn take_in_all<S: Read + Write, D: Device>(
    clients: &mut Vec<Client<S>>,
    hub: &mut Hub<D>,
    reading: Reading,
) -> bool
    ensures read { AreRead S.remaining (times reading.at reading.silence) clients.old.items clients.new.items
        hub.old.sessions hub.new.sessions }
    ensures all { length clients.new.items ≡ length clients.old.items }
    // Where there are no clients there is nothing to do.
    ensures more { result ≡ true → 0 < length clients.old.items }
    ensures store { hub_store hub.new ≡ hub_store hub.old }
    ensures refusals { hub_refusals hub.new ≡ hub_refusals hub.old }
{
    let mut piece = [0u8; PIECE_ROOM];
    let mut room = Room::new(longest_wait(clients, hub));
    let mut any = false;
    for client in clients.iter_mut() {
        any |= read_for(client, hub, reading, &mut piece, &mut room);
    }
    any
}

// Writes for a session that is open, and tells whether there was anything to do.
fn write_for<S: Read + Write, D: Device>(client: &mut Client<S>, hub: &mut Hub<D>) -> bool
    ensures written { IsWritten S.contents client.old client.new hub.old.sessions hub.new.sessions }
    ensures store { hub_store hub.new ≡ hub_store hub.old }
    ensures refusals { hub_refusals hub.new ≡ hub_refusals hub.old }
{
    if !hub.is_open(client.sid()) {
        return false;
    }
    client.hand_out(hub)
}

/// Writes for each client what can be written, closes the sessions that are over, and tells whether there was anything
/// to do.
pub fn hand_out_all<S: Read + Write, D: Device>(
    clients: &mut Vec<Client<S>>,
    hub: &mut Hub<D>,
) -> bool
    ensures written { AreWritten S.contents clients.old.items clients.new.items hub.old.sessions hub.new.sessions }
    ensures more { result ≡ true → 0 < length clients.old.items }
    ensures store { hub_store hub.new ≡ hub_store hub.old }
    ensures refusals { hub_refusals hub.new ≡ hub_refusals hub.old }
{
    let mut any = false;
    for client in clients.iter_mut() {
        any |= write_for(client, hub);
    }
    any
}
