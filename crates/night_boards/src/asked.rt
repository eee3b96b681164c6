//! What is asked of a round that is begun.
use std::net::SocketAddr;

/// A round's files.
#[derive(Clone, Copy)]
pub struct Round<'a> {
    pub pairings: &'a str,
    pub games: &'a str,
    /// The file of arbiters' decisions, where one is named.
    pub decisions: Option<&'a str>,
}

/// What the arbiter said of boards.
#[derive(Drop)]
pub struct Said {
    /// Boards, and the games that are theirs.
    pub takes: Vec<(u32, u32)>,
    /// Boards, and games up to which none is theirs.
    pub afters: Vec<(u32, u32)>,
}

/// The round whose games are opened.
#[derive(Drop)]
pub struct Starting<'a> {
    pub round: Round<'a>,
    pub lobby: SocketAddr,
    /// The file of an arbiter's token.
    pub token_file: &'a str,
    /// The players' file, in which all players are to be.
    pub players: Option<&'a str>,
    pub said: Said,
    /// Whether games of less than a minute are meant.
    pub is_short: bool,
}
