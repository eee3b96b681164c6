//! Whether a game is watched, asked of a lobby now and then.
use crate::figures::watched_games;
use anyhow::Result;
use std::alloc::Global;
use std::net::{Net, SocketAddr, TcpStream};
use std::rt::Clock;
use std::time::{Duration, Instant};

// So many seconds what a lobby told counts.
const FRESH: u64 = 1;

// So many seconds a game that is over stays for those who watch it: so neither a page that is left open nor a stranger
// who watches can fill a table with games that are over.
const HELD_MOST: u64 = 600;

// The games that were watched at a moment.
#[derive(Drop)]
struct Seen {
    at: Instant,
    games: Vec<u32>,
}

impl Seen {
    // What a lobby tells now.
    fn of<R>(rt: &R, lobby: SocketAddr) -> Result<Seen>
    where
        R: Net<Stream = TcpStream> + AllocGlobal + Clock,
    {
        let at = Instant::now(rt)?;
        let games = watched_games(rt, lobby)?;
        Ok(Seen { at, games })
    }

    // Whether it counts no more.
    fn is_old<R: Clock>(&self, rt: &R) -> Result<bool> {
        Ok(self.at.elapsed(rt)? >= Duration::from_secs(FRESH))
    }
}

// A game, and when it was first asked whether it stays.
#[derive(Drop)]
struct Asked {
    game: u32,
    at: Instant,
}

/// What browsers of a lobby watch, and for which of them games that are over stay.
#[derive(Drop)]
pub struct Watchers {
    lobby: SocketAddr,
    seen: Option<Seen>,
    asked: Vec<Asked>,
}

impl Watchers {
    /// Of this lobby, which was not asked yet.
    pub fn new(alloc: Global, lobby: SocketAddr) -> Watchers {
        Watchers {
            lobby,
            seen: None,
            asked: Vec::new(alloc),
        }
    }

    /// Forgets since when other games than these stay.
    pub fn forget_others(&mut self, games: &[u32]) {
        self.asked.retain(|asked| games.contains(&asked.game));
    }

    // Whether a game was asked about first so lately that it stays for those who watch it.
    fn is_early<R: Clock>(&mut self, rt: &R, game: u32) -> Result<bool> {
        for asked in &self.asked {
            if asked.game == game {
                return Ok(asked.at.elapsed(rt)? < Duration::from_secs(HELD_MOST));
            }
        }
        let at = Instant::now(rt)?;
        self.asked.push(Asked { game, at })?;
        Ok(true)
    }

    // Asks the lobby again, where what it told counts no more.
    fn look<R>(&mut self, rt: &R) -> Result<()>
    where
        R: Net<Stream = TcpStream> + AllocGlobal + Clock,
    {
        let is_old = match &self.seen {
            Some(seen) => seen.is_old(rt)?,
            None => true,
        };
        if is_old {
            self.seen = None;
            self.seen = Some(Seen::of(rt, self.lobby)?);
        }
        Ok(())
    }

    /// Whether a game that is over stays for those who watch it, as the lobby told within the last second: for ten
    /// minutes at most from when this was first asked. It fails where the lobby cannot be asked, does not tell this,
    /// or began so lately that browsers may not be back.
    pub fn hold<R>(&mut self, rt: &R, game: u32) -> Result<bool>
    where
        R: Net<Stream = TcpStream> + AllocGlobal + Clock,
    {
        self.look(rt)?;
        let is_watched = match &self.seen {
            Some(seen) => seen.games.contains(&game),
            None => true,
        };
        let is_early = self.is_early(rt, game)?;
        Ok(is_watched && is_early)
    }
}
