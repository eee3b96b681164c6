//! What is asked of the lobby.
use lobby_desk::Limits;
use sockets::ServerAddress;
use std::net::{IpAddr, SocketAddr};

/// What is served, and where.
#[derive(Drop)]
pub struct Serving<'a> {
    pub players: &'a str,
    pub server: ServerAddress,
    pub address: SocketAddr,
    pub page: &'a str,
    /// The names of hosts that are taken besides.
    pub hosts: Vec<&'a str>,
    /// The address of the proxy that is believed who asks.
    pub proxy: Option<IpAddr>,
    /// How many games there may be, and how much of a player's name is told.
    pub limits: Limits,
    pub log: Option<&'a str>,
    /// The file beside the journal by which the server's clocks stand still.
    pub stopped: Option<&'a str>,
    /// The folder of the rounds' files, to whose decisions an arbiter's are put.
    pub decisions: Option<&'a str>,
    /// The file of games that is served as `/live.pgn`.
    pub live: Option<&'a str>,
    /// The one that is served as `/kept.pgn`.
    pub kept: Option<&'a str>,
    /// The one that is served as `/round.json`.
    pub round: Option<&'a str>,
    /// The folder of games that is served as `/games.json` and `/games/G.json`.
    pub games: Option<&'a str>,
}
