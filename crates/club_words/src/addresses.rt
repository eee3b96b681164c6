//! Addresses that options give.
use clap::ArgMatches;
use sockets::ServerAddress;
use std::net::{IpAddr, Ipv4Addr};

/// Where the game server listens, by `--server`; none where that is no address.
pub fn server_address(values: &ArgMatches<'_>) -> Option<ServerAddress> {
    ServerAddress::named(values.get_str("server")?)
}

/// The same, as it was said.
pub fn server_named<'a>(values: &ArgMatches<'a>) -> Option<&'a str> {
    let text = values.get_str("server")?;
    if ServerAddress::named(text).is_some() {
        Some(text)
    } else {
        None
    }
}

/// The address of this machine, by `--address`, 127.0.0.1 without it; none where that is no address.
pub fn own_address(values: &ArgMatches<'_>) -> Option<IpAddr> {
    match values.get_str("address") {
        Some(address) => address.parse().ok(),
        None => Some(IpAddr::V4(Ipv4Addr::LOCALHOST)),
    }
}
