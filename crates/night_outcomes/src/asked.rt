//! What is asked of rounds that are over.
use night_boards::Round;
use night_report::Tournament;
use night_rounds::Verdict;

/// Where results are looked for.
#[derive(Clone, Copy)]
pub struct Source<'a> {
    pub archive: Option<&'a str>,
    /// Where the server listens, as it was said: an address (`ServerAddress::named`).
    pub server: Option<&'a str>,
}

/// The round whose results are written.
#[derive(Clone, Copy)]
pub struct Asking<'a> {
    pub round: Round<'a>,
    pub source: Source<'a>,
    /// The players' file, by which the archive's full names are known.
    pub players: Option<&'a str>,
}

/// The tournament whose report is written.
#[derive(Drop)]
pub struct Reporting<'a> {
    pub players: &'a str,
    /// The file of the players' particulars.
    pub particulars: Option<&'a str>,
    pub rounds: Vec<Round<'a>>,
    pub source: Source<'a>,
    pub tournament: Tournament<'a>,
    /// The days of the rounds, `YYYY/MM/DD`, where they are told.
    pub days: Vec<&'a str>,
}

/// A decision of an arbiter that is put to a round's decisions.
#[derive(Clone, Copy)]
pub struct Deciding<'a> {
    pub pairings: &'a str,
    /// The file of decisions.
    pub file: &'a str,
    pub board: u32,
    pub verdict: Verdict,
    /// As `6.9`; empty where none is named.
    pub article: &'a str,
    pub arbiter: &'a str,
    pub reason: &'a str,
}
