//! What is asked of standings.
use crate::places::Ranking;
use lobby_words::NameForm;
use night_outcomes::Reporting;

/// As what standings are written.
#[derive(Clone, Copy)]
pub enum Form {
    /// The report, TRF-16, with players by their ranks.
    Report,
    /// Rows of CSV, a row a player, or a team.
    Rows,
    /// The crosstable as CSV.
    Crosstable,
    /// An object of JSON, of the rounds too, which the lobby serves.
    Json,
}

/// The standings that are written.
#[derive(Drop)]
pub struct Standing<'a> {
    pub reporting: Reporting<'a>,
    pub ranking: Ranking,
    pub form: Form,
    /// Whether they are those of the teams, by their matches.
    pub of_teams: bool,
    /// How much of a full name is told.
    pub names: NameForm,
    /// The log, of which the object of JSON tells how far it goes.
    pub log: Option<&'a str>,
}
