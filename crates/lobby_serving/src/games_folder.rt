//! The folder of games by which spectators watch.
use crate::games_file::GamesFile;
use crate::mark::Mark;
use lobby_loop::Lobby;
use lobby_web::Kind;
use std::alloc::{AllocError, Global};
use std::collections::HashSet;
use std::fs::{self, File};
use std::rt::Files;
use text_parts::number_of_32_bits;

/// The files of so many games are served at most: the newest.
const GAMES_MOST: usize = 1_024;

/// So many files are looked at in a turn.
const A_TURN: usize = 16;

/// A game's file.
#[derive(Drop)]
struct GameFile {
    game: u32,
    file: GamesFile,
}

/// The folder's file of all games, and those of its games. They are looked at where the first has changed, since who
/// writes one of them writes that behind it.
#[derive(Drop)]
pub struct GamesFolder<'a> {
    alloc: Global,
    folder: &'a str,
    all: GamesFile,
    // How the file of all games stood when the folder was looked through last.
    looked: Option<Mark>,
    games: Vec<GameFile>,
    // How many of the games were looked at since.
    next: usize,
}

// The games whose files a folder has. None where it cannot be looked through.
fn games_in<R>(rt: &R, folder: &str) -> Result<Vec<u32>, AllocError>
where
    R: Files + AllocGlobal + Clone + Drop,
{
    let mut games = Vec::new(rt.alloc());
    let Ok(entries) = fs::read_dir(rt, folder) else {
        return Ok(games);
    };
    for entry in entries {
        let Ok(entry) = entry else {
            return Ok(games);
        };
        if let Some(number) = entry.file_name().strip_suffix(".json")
            && let Some(game) = number_of_32_bits(number)
        {
            games.push(game)?;
        }
    }
    Ok(games)
}

// The set of these games.
fn set_of(alloc: Global, games: &[u32]) -> Result<HashSet<u32>, AllocError> {
    let mut set = HashSet::new(alloc);
    for game in games {
        set.insert(*game)?;
    }
    Ok(set)
}

// The newest of these games, so many as are served at most, in their order.
fn newest(alloc: Global, games: &[u32]) -> Result<Vec<u32>, AllocError> {
    let mut games = games.to_vec(alloc)?;
    games.sort()?;
    let older = games.len().saturating_sub(GAMES_MOST);
    games.as_slice().iter().skip(older).copied().collect(alloc)
}

impl<'a> GamesFolder<'a> {
    /// It was not looked at.
    pub fn new(alloc: Global, folder: &'a str) -> Result<Self, AllocError> {
        let path = String::from_str(alloc, "/games.json")?;
        let file = format!(in alloc; "{folder}/games.json")?;
        Ok(GamesFolder {
            alloc,
            folder,
            all: GamesFile::new(path, Kind::Games, file),
            looked: None,
            games: Vec::new(alloc),
            next: 0,
        })
    }

    // The files of these games are served, and of no others.
    fn put_games(&mut self, lobby: &mut Lobby, games: &[u32]) -> Result<(), AllocError> {
        let served = set_of(self.alloc, games)?;
        for known in self.games.iter() {
            if !served.contains(&known.game) {
                lobby.take_off_file(known.file.path.as_bytes());
            }
        }
        self.games.retain(|known| served.contains(&known.game));
        let mut known = HashSet::new(self.alloc);
        for one in self.games.iter() {
            known.insert(one.game)?;
        }
        let folder = self.folder;
        for game in games {
            if !known.contains(game) {
                let path = format!(in self.alloc; "/games/{game}.json")?;
                let file = format!(in self.alloc; "{folder}/{game}.json")?;
                self.games.push(GameFile {
                    game: *game,
                    file: GamesFile::new(path, Kind::Games, file),
                })?;
            }
        }
        Ok(())
    }

    // Looks through the folder, where its file of all games is another.
    fn look_through<R>(&mut self, rt: &R, lobby: &mut Lobby) -> Result<(), AllocError>
    where
        R: Files<File = File> + AllocGlobal + Clone + Drop,
    {
        let seen = self.all.seen;
        if seen != self.looked {
            self.looked = seen;
            let games = games_in(rt, self.folder)?;
            self.put_games(lobby, newest(self.alloc, games.as_slice())?.as_slice())?;
            self.next = 0;
        }
        Ok(())
    }

    // Looks at some of the games that were not looked at since.
    fn look_on<R>(&mut self, rt: &R, lobby: &mut Lobby, at: u64) -> Result<(), AllocError>
    where
        R: Files<File = File> + AllocGlobal + Eprint,
    {
        for _ in 0..A_TURN {
            let Some(game) = self.games.get_mut(self.next) else {
                return Ok(());
            };
            game.file.next_at = 0;
            game.file.look(rt, lobby, at)?;
            if game.file.is_reading() {
                return Ok(());
            }
            self.next += 1;
        }
        Ok(())
    }

    /// Looks at the folder, where the last look was a second ago, and in each turn at some of its games.
    pub fn look<R>(&mut self, rt: &R, lobby: &mut Lobby, at: u64) -> Result<(), AllocError>
    where
        R: Files<File = File> + AllocGlobal + Clone + Drop + Eprint,
    {
        self.all.look(rt, lobby, at)?;
        self.look_through(rt, lobby)?;
        self.look_on(rt, lobby, at)
    }

    /// Whether files are being read, or to be looked at: it is to be looked at again in the next turn.
    pub fn is_reading(&self) -> bool {
        self.all.is_reading() || self.next < self.games.len()
    }
}
