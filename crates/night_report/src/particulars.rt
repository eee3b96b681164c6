//! What is known of a player.

/// What is known of a player besides the players' file; what is not known is an empty text.
#[derive(Clone, Copy)]
pub struct Particulars<'a> {
    /// The name of the protocol.
    pub name: &'a str,
    /// As `Lee, Ann`.
    pub full_name: &'a str,
    /// `m` or `w`.
    pub sex: &'a str,
    /// FIDE's title, as `WGM`.
    pub title: &'a str,
    /// At most four digits.
    pub rating: &'a str,
    /// Three capital letters, as `GER`.
    pub federation: &'a str,
    /// FIDE's number, at most eleven digits.
    pub fide_number: &'a str,
    /// The date of birth, `YYYY/MM/DD`.
    pub born: &'a str,
    pub team: &'a str,
    /// The place in the team, at most four digits.
    pub board: &'a str,
}
