//! The players as they stand in their file.
ghost use Rattle.std.specs.Prelude.{List, ◌≡◌, ◌≢◌, ◌<◌, ◌≤◌, IfOk, None};
ghost use Rattle.lobby_words.specs.declared.players.Player.{Player};

use crate::mark::{Mark, mark_in};
use anyhow::Result;
use lobby_loop::Lobby;
use lobby_players::{later_players_of, players_of};
use lobby_words::Player;
use std::fs;
use std::rt::{Clock, Files};
use std::time::{Duration, SystemTime};

/// So many milliseconds lie at least between two looks at the file.
const REST: u64 = 500;

// Who has written a file so many milliseconds ago is done with it.
const STILL: u64 = 500;

// How the file stands: its mark; none where it is not there, or is no regular file; and whether nobody has written it
// for a while, by this machine's clock.
#[derive(Clone, Copy)]
struct Sight {
    mark: Option<Mark>,
    is_still: bool,
}

// How a file stands. A time of writing that is still to come tells nothing.
fn sight_of<R: Files + Clock>(rt: &R, file: &str) -> Sight {
    let Ok(found) = fs::metadata(rt, file) else {
        return Sight {
            mark: None,
            is_still: true,
        };
    };
    let age = match (found.modified(), SystemTime::now(rt)) {
        (Ok(written), Ok(now)) => now.duration_since(written).ok(),
        _ => None,
    };
    Sight {
        mark: mark_in(&found),
        is_still: age.is_none_or(|age| age >= Duration::from_millis(STILL)),
    }
}

// The players of a file that has changed; none where it cannot be read, is no players' file, has no player, or its last
// line has no end, and that is told.
fn later_players<R: Files + AllocGlobal + Eprint>(rt: &R, file: &str) -> Option<Vec<Player>> {
    match later_players_of(rt, file) {
        Ok(players) => Some(players),
        Err(error) => {
            let _ = eprintln!(rt; "the players are as they were: {error:#}");
            None
        }
    }
}

/// The players' file, and what was seen of it last.
#[derive(Drop)]
pub struct Players<'a, R> {
    rt: &'a R,
    file: &'a str,
    // Whether a log on the disk has who said what: else nobody is an arbiter.
    has_log: bool,
    seen: Option<Mark>,
    next_at: u64,
}

impl<'a, R: Files + AllocGlobal + Clock + Eprint> Players<'a, R> {
    ghost use Rattle.lobby_serving.specs.Knowing.{known_of, Looks, Takes};

    /// The file, as it stands. Without a log an arbiter's acts would be nobody's: so it has no arbiter then.
    pub fn new(rt: &'a R, file: &'a str, has_log: bool) -> Self
        ensures { result.has_log ≡ has_log }
    {
        Players {
            rt,
            file,
            has_log,
            seen: sight_of(rt, file).mark,
            next_at: 0,
        }
    }

    /// Whether a log on the disk has who said what from now on. Where that is news, the file is read at the next look.
    pub fn has_log_from_now_on(&mut self, has_log: bool)
        ensures log { self.new.has_log ≡ has_log }
        ensures news { self.old.has_log ≢ has_log → (self.new.seen ≡ None) × (self.new.next_at ≡ 0) }
        ensures same { self.old.has_log ≡ has_log → self.new ≡ self.old }
    {
        if has_log != self.has_log {
            self.has_log = has_log;
            self.seen = None;
            self.next_at = 0;
        }
    }

    // These players, without an arbiter where there is no log.
    fn known(&self, mut players: Vec<Player>) -> Vec<Player>
        ensures { result.items ≡ known_of self.now.has_log players.items }
    {
        for player in players.iter_mut() {
            player.is_arbiter = player.is_arbiter && self.has_log;
        }
        players
    }

    /// The players of the file. It fails where it is not there, is no regular file, or is no players' file.
    pub fn read(&self) -> Result<Vec<Player>>
        ensures { IfOk result (λ players. (read : List Player) × (players.items ≡ known_of self.now.has_log read)) }
    {
        Ok(self.known(players_of(self.rt, self.file)?))
    }

    // The lobby has these players from now on, where some were read.
    fn take(&self, lobby: &mut Lobby, read: Option<Vec<Player>>)
        ensures { Takes self.now.has_log read lobby.old.hall lobby.new.hall }
    {
        if let Some(players) = read {
            lobby.renew(self.known(players));
        }
    }

    // A look at the file, where the last one was half a second ago: by how it stands, and by who is in it.
    fn look_by<S: FnOnce() -> Sight + Drop, L: FnOnce() -> Option<Vec<Player>> + Drop>(
        &mut self,
        lobby: &mut Lobby,
        at: u64,
        sight: S,
        later: L,
    )
        requires sight { S.IsAlwaysCallable sight }
        requires later { L.IsAlwaysCallable later }
        ensures early { at < self.old.next_at → (self.new ≡ self.old) × (lobby.new.hall ≡ lobby.old.hall) }
        ensures looks { self.old.next_at ≤ at → Looks (S.post sight) (L.post later) at self.old self.new
            lobby.old.hall lobby.new.hall }
    {
        if at < self.next_at {
            return;
        }
        self.next_at = at.saturating_add(REST);
        let found = sight();
        if found.mark == self.seen || !found.is_still {
            return;
        }
        self.seen = found.mark;
        self.take(lobby, later());
    }

    /// Looks at the file, where the last look was half a second ago. Where it has changed, and nobody has written it
    /// for half a second, the lobby has its players from now on; where it cannot be read, is none, has no player, or
    /// its last line has no end, that is told, and the lobby has the players that it had.
    pub fn look(&mut self, lobby: &mut Lobby, at: u64) {
        let (rt, file) = (self.rt, self.file);
        self.look_by(lobby, at, || sight_of(rt, file), || later_players(rt, file));
    }
}
