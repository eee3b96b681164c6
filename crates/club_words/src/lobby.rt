//! The words of the lobby, with the texts of their help: it serves browsers, and a player is put into the file.
use crate::addresses::{own_address, server_address};
use crate::limits::limits_of;
use crate::options::{PLAYERS, SERVER};
use clap::ArgMatches;
use command_lines::{OptionText, OptionValue, WordText};
use lobby_players::Adding;
use lobby_serving::Serving;
use std::alloc::{AllocError, Global};
use std::net::{IpAddr, Ipv6Addr, SocketAddr};

const HELP_OF_LOBBY: &str = "\
It listens on an address of this machine, prints the page's address, and serves the page
and its players over the game server that listens at --server. Where that is not there it
waits for it, and browsers are told; it may be ended and started again at any time.

A browser is served where it names a host that is taken: 127.0.0.1, localhost and the
address, each with the port, and what --host names, with the port and without one.

With --log it puts each act that the server took into a file, with its answer, and how the
game stands behind it, before anybody is told; the file is made where there is none.
Besides the page there are /board/G for a screen that shows game G, /boards for one that
shows all, and /health with figures as Prometheus reads them. /live.pgn is the file of
--live, /kept.pgn that of --kept, in which the page looks up games that are over, and
/round.json that of --round, by which it shows pairings and standings; /games.json and
/games/G.json, by which spectators watch, are those of --games-files: each is read anew when
it has changed.

With --stopped an arbiter stops all clocks, and has them run again: name the file beside the
journal of a server with --clock serving, as club.journal.stopped. Nobody else acts meanwhile.

With --decisions an arbiter decides results of boards from the page: name the folder with the
rounds' files. What he decides of round 1 is put into round1.decisions, by round1.csv, as the
word decide puts it.

It goes on until it is ended: kill it, by any signal. Nothing is lost by that.

The line is not encrypted. On an address other than 127.0.0.1 whoever is on the way reads
along, links too: docs/client/LOBBY.md has how to put nginx in front. Name nginx's address by
--proxy then, and have it tell each browser's own by X-Forwarded-For.

Who has shown no link watches by the files of --games-files alone. As for a club with minors
they have initials in place of full names: give --initials to chess-club live.

Limits: 1,000 browsers at a time, of them 600 that have shown no link, and 32 of an address;
they have 20 seconds to show one. Whoever comes when these are reached has another one
closed: of those without a link who came first, and nobody who has shown one.

Exit status: 1 with what is wrong on standard error; 2 for words that the program does not
know.

Example:
  chess-club lobby --players club.players --server 127.0.0.1:5001 --port 8080
prints
  http://127.0.0.1:8080/";

const HELP_OF_PLAYER: &str = "\
It puts a player into the players' file, which it makes where there is none, and prints the
player's personal link. Who opens it plays as this player: give it to nobody else. The file
keeps no more than a sum (SHA-256) of the link's token.

A player who is in the file already gets a new link, and the old one holds no more: standard
error says whether the player is new or renewed, and who has a full name like this one. A
name that differs from another player's in small and capital letters alone is refused. A
lobby that serves has read the file again a second or two later.

Exit status: 0; 1 with what is wrong on standard error; 2 for words that the program does
not know.

Example:
  chess-club player ann --full-name \"Ann Lee\" --players club.players
prints
  http://127.0.0.1:8080/#6f2d..";

const PORT: u16 = 8_080;

const ADDRESS: OptionText = OptionText {
    name: "address",
    value: OptionValue::Text("A"),
    help: "The address of this machine, 127.0.0.1 without it",
    is_required: false,
};

const AT_PORT: OptionText = OptionText {
    name: "port",
    value: OptionValue::Number("P", 0, 65_535),
    help: "The port, 0 to 65535, 8080 without it; 0 leaves the choice to the system",
    is_required: false,
};

const PAGE: OptionText = OptionText {
    name: "page",
    value: OptionValue::Text("FOLDER"),
    help: "The folder of the page's files, page without it",
    is_required: false,
};

const HOST: OptionText = OptionText {
    name: "host",
    value: OptionValue::Texts("NAME"),
    help: "A name or an address by which browsers reach it, with a port or without; it may be given several times",
    is_required: false,
};

const PROXY: OptionText = OptionText {
    name: "proxy",
    value: OptionValue::Text("ADDRESS"),
    help: "The address of a proxy in front, which tells by X-Forwarded-For who asks",
    is_required: false,
};

const WAITING_MOST: OptionText = OptionText {
    name: "waiting-most",
    value: OptionValue::Number("N", 1, 4_294_967_295),
    help: "How many games of a player may wait for a second one, 4 without it",
    is_required: false,
};

const PLAYING_MOST: OptionText = OptionText {
    name: "playing-most",
    help: "How many games of a player may go on, 8 without it",
    ..WAITING_MOST
};

const OVER_MOST: OptionText = OptionText {
    name: "over-most",
    help: "How many games of a player may be over and still on the table, 32 without it",
    ..WAITING_MOST
};

const GAMES: OptionText = OptionText {
    name: "games",
    value: OptionValue::Number("N", 0, 4_294_967_295),
    help: "The server's games at once; an eighth of them is for arbiters then, and none without it",
    is_required: false,
};

const LIVE: OptionText = OptionText {
    name: "live",
    value: OptionValue::Text("FILE"),
    help: "A file of games that is served as /live.pgn, as it stands",
    is_required: false,
};

const KEPT: OptionText = OptionText {
    name: "kept",
    help: "A file of games that is served as /kept.pgn, where the page looks up those that are over",
    ..LIVE
};

const ROUND: OptionText = OptionText {
    name: "round",
    help: "A file of rounds that is served as /round.json, where the page has pairings and standings",
    ..LIVE
};

const GAMES_FILES: OptionText = OptionText {
    name: "games-files",
    help: "The folder of chess-club live --games, served as /games.json and /games/G.json",
    ..PAGE
};

const LOG: OptionText = OptionText {
    name: "log",
    help: "The file of a log of all acts, none without it",
    ..LIVE
};

const STOPPED: OptionText = OptionText {
    name: "stopped",
    help: "The file beside the journal by which a server with --clock serving stops all clocks",
    ..LIVE
};

const NAME: OptionText = OptionText {
    name: "name",
    value: OptionValue::Alone("NAME"),
    help: "1 to 16 of A-Z a-z 0-9 _",
    is_required: true,
};

const FULL_NAME: OptionText = OptionText {
    name: "full-name",
    value: OptionValue::Text("TEXT"),
    help: "The name as it is shown",
    is_required: true,
};

const URL: OptionText = OptionText {
    name: "url",
    value: OptionValue::Text("URL"),
    help: "The page's address, of http or https and without #, http://127.0.0.1:8080/ without it",
    is_required: false,
};

const ARBITER: OptionText = OptionText {
    name: "arbiter",
    value: OptionValue::Nothing,
    help: "An arbiter, who may drop games",
    is_required: false,
};

const DECISIONS: OptionText = OptionText {
    name: "decisions",
    help: "The folder of the rounds' files, to whose decisions an arbiter's are put",
    ..PAGE
};

pub const LOBBY: WordText = WordText {
    name: "lobby",
    about: "Serves the page and its players, over a game server",
    help: HELP_OF_LOBBY,
    options: &[
        PLAYERS,
        SERVER,
        AT_PORT,
        ADDRESS,
        PAGE,
        HOST,
        PROXY,
        LIVE,
        KEPT,
        ROUND,
        GAMES_FILES,
        LOG,
        STOPPED,
        DECISIONS,
        WAITING_MOST,
        PLAYING_MOST,
        OVER_MOST,
        GAMES,
    ],
};

pub const PLAYER: WordText = WordText {
    name: "player",
    about: "Puts a player into the players' file, and prints the personal link",
    help: HELP_OF_PLAYER,
    options: &[NAME, FULL_NAME, PLAYERS, URL, ARBITER],
};

// The address of the proxy, if one is named; none where it is no address.
fn proxy_of(values: &ArgMatches<'_>) -> Option<Option<IpAddr>> {
    match values.get_str("proxy") {
        Some(address) => Some(Some(address.parse::<IpAddr>().ok()?.to_canonical())),
        None => Some(None),
    }
}

// Whether a host's name may be this: letters, digits, `-`, `_` and `.`, as an address of IPv4 is too.
fn is_host_name(name: &str) -> bool {
    !name.is_empty()
        && name.as_bytes().iter().all(|byte| byte.is_ascii_alphanumeric()
            || matches!(*byte, b'-' | b'_' | b'.'))
}

// Whether a host is a name or an address, that of IPv6 in brackets.
fn is_bare_host(host: &str) -> bool {
    match host.strip_prefix('[') {
        None => is_host_name(host),
        Some(rest) => match rest.strip_suffix(']') {
            None => false,
            Some(address) => address.parse::<Ipv6Addr>().is_ok(),
        },
    }
}

// Whether a port is a number from 1 on, in digits alone.
fn is_port(port: &str) -> bool {
    let are_digits = port.as_bytes().iter().all(|byte| byte.is_ascii_digit());
    are_digits && port.parse::<u16>().is_ok_and(|port| port > 0)
}

// Whether a browser may name this host: a name or an address, with a port or without.
fn is_host(host: &str) -> bool {
    is_bare_host(host)
        || match host.rsplit_once(':') {
            None => false,
            Some((host, port)) => is_bare_host(host) && is_port(port),
        }
}

// The hosts that are taken besides; none where one of them is no host.
fn hosts_of<'a>(
    alloc: Global,
    values: &ArgMatches<'a>,
) -> Result<Option<Vec<&'a str>>, AllocError> {
    let mut hosts = Vec::new(alloc);
    for host in values.get_strs("host").unwrap_or(&[]) {
        if !is_host(host) {
            return Ok(None);
        }
        hosts.push(*host)?;
    }
    Ok(Some(hosts))
}

/// What `lobby` asks for; none where an address or a host is none.
pub fn serving_of<'a>(
    alloc: Global,
    values: &ArgMatches<'a>,
) -> Result<Option<Serving<'a>>, AllocError> {
    let (Some(players), Some(server), Some(address), Some(proxy), Some(hosts)) = (
        values.get_str("players"),
        server_address(values),
        own_address(values),
        proxy_of(values),
        hosts_of(alloc, values)?,
    ) else {
        return Ok(None);
    };
    Ok(Some(Serving {
        players,
        server,
        address: SocketAddr::new(address, values.get_one("port").unwrap_or(PORT)),
        page: values.get_str("page").unwrap_or("page"),
        proxy,
        limits: limits_of(values),
        live: values.get_str("live"),
        kept: values.get_str("kept"),
        round: values.get_str("round"),
        games: values.get_str("games-files"),
        log: values.get_str("log"),
        stopped: values.get_str("stopped"),
        decisions: values.get_str("decisions"),
        hosts,
    }))
}

// What stands behind the scheme of an address; none where that is neither http nor https.
fn behind_scheme(address: &str) -> Option<&str> {
    match address.strip_prefix("http://") {
        Some(rest) => Some(rest),
        None => address.strip_prefix("https://"),
    }
}

// Whether a byte may stand in a page's address, behind which a link has `#` and the token.
fn is_address_byte(byte: u8) -> bool {
    byte.is_ascii_graphic() && byte != b'#'
}

// Whether a page has the address: http or https, a host, and no `#`, space, or letter beyond ASCII.
fn is_page_address(address: &str) -> bool {
    match behind_scheme(address) {
        None => false,
        Some(rest) => {
            !rest.is_empty()
                && !rest.starts_with('/')
                && rest.as_bytes().iter().all(|byte| is_address_byte(*byte))
        }
    }
}

/// Who is put into the file; none where the page's address is none.
pub fn adding_of<'a>(values: &ArgMatches<'a>) -> Option<Adding<'a>> {
    let page = values.get_str("url").unwrap_or("http://127.0.0.1:8080/");
    if !is_page_address(page) {
        return None;
    }
    Some(Adding {
        name: values.get_str("name")?,
        full_name: values.get_str("full-name")?,
        is_arbiter: values.get_flag("arbiter"),
        players: values.get_str("players")?,
        page,
    })
}
