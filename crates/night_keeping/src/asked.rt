//! What is asked of the archive.
use lobby_words::NameForm;
use night_boards::Round;
use night_games::Evidence;
use std::net::SocketAddr;
use text_pgn::Heading;

/// Whose games are told, what their PGNs are made with, and how often.
#[derive(Clone, Copy)]
pub struct Source<'a> {
    /// Where the server listens, as it was said: an address (`ServerAddress::named`).
    pub server: &'a str,
    pub players: Option<&'a str>,
    pub log: Option<&'a str>,
    /// What the tags are to say; of White and Black nothing yet.
    pub heading: Heading<'a>,
    /// After how many seconds it is done again.
    pub every: Option<u32>,
}

/// What is kept, and where.
#[derive(Clone, Copy)]
pub struct Keeping<'a> {
    pub source: Source<'a>,
    pub archive: &'a str,
    pub drops: bool,
    /// The lobby whose browsers are asked about before a game is dropped.
    pub lobby: Option<SocketAddr>,
}

/// What is told of games besides their PGNs, by files.
#[derive(Drop)]
pub struct Besides<'a> {
    /// The file of the players' particulars.
    pub particulars: Option<&'a str>,
    /// The rounds, the first being round 1.
    pub rounds: Vec<Round<'a>>,
}

/// Which archive's games are written, and how.
#[derive(Drop)]
pub struct Exporting<'a> {
    pub archive: &'a str,
    pub form: Form,
    /// The players' file, by which the archive's full names are known.
    pub players: Option<&'a str>,
    pub besides: Besides<'a>,
}

/// The form in which games are written.
#[derive(Clone, Copy)]
pub enum Form {
    /// Their PGNs.
    Pgn,
    /// A row for each, as CSV.
    Csv,
}

/// What is written where others fetch it.
#[derive(Drop)]
pub struct Living<'a> {
    pub source: Source<'a>,
    pub file: &'a str,
    pub archive: Option<&'a str>,
    /// The first date of which the archive's games are written, where it is given.
    pub since: Option<&'a str>,
    /// The file of all games of the archive.
    pub kept: Option<&'a str>,
    /// The folder of files by which spectators watch.
    pub games: Option<&'a str>,
    /// How full names are told.
    pub names: NameForm,
    pub besides: Besides<'a>,
    /// How many minutes later the file has what there is.
    pub delay: u32,
}

/// What is told of a game by the log, and how.
#[derive(Drop)]
pub struct AskedEvidence<'a> {
    pub evidence: Evidence<'a>,
    /// Whether it is a page to print, which alone tells of the rest.
    pub as_page: bool,
    /// The players' file, for full names.
    pub players: Option<&'a str>,
    pub besides: Besides<'a>,
}
