//! What stands in the tags.

/// What the server does not know of a game: values of the tags Event, Site, Date and Round, and the players' full
/// names.
#[derive(Clone, Copy)]
pub struct Heading<'a> {
    pub event: &'a str,
    pub site: &'a str,
    /// `YYYY.MM.DD`.
    pub date: &'a str,
    pub round: &'a str,
    pub white: &'a str,
    pub black: &'a str,
}
