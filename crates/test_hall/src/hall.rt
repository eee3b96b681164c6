//! Browsers and a server over streams that give and take little, or fail.
use crate::browser::{file_of, site_of};
use crate::peer::{MANY, PINGS, Peer};
use lobby_desk::{Halts, Limits, Order};
use lobby_loop::{
    Acceptor, ActLog, Comers, Fault, Hall, KeepsLinks, NoActLog, Roll, Welcomed, welcome,
};
use lobby_players::carried_out;
use lobby_web::Kind;
use lobby_words::{Change, Linked, Player};
use player_name::Name;
use sockets::AcceptFault;
use std::alloc::Global;
use std::hash::RandomState;
use std::io::{Error, ErrorKind};
use std::net::{IpAddr, Ipv4Addr};
use std::process::Abort;
use std::{io, mem};

// A peer on this machine.
const NEAR: IpAddr = IpAddr::V4(Ipv4Addr::LOCALHOST);

// The SHA-256 of ann's token, which is `aaaaaaaaaaaaaaaaaaaaaaaaaaaaaaaa`.
const SUM: [u8; 32] = [
    59, 163, 245, 244, 59, 146, 96, 38, 131, 193, 154, 238, 98, 162, 3, 66, 176, 132, 221, 89, 113,
    221, 211, 56, 8, 216, 26, 50, 136, 121, 165, 71,
];

// The SHA-256 of eve's token, which is `eeeeeeeeeeeeeeeeeeeeeeeeeeeeeeee`.
const ARBITERS_SUM: [u8; 32] = [
    223, 180, 23, 69, 77, 116, 50, 113, 94, 207, 170, 51, 216, 154, 189, 171, 164, 69, 124, 59, 44,
    189, 133, 164, 162, 6, 32, 208, 205, 128, 109, 166,
];

// A player ann, whose token has this sum, and an arbiter eve.
fn players(rt: &impl Abort, alloc: Global, sum: [u8; 32]) -> Vec<Player> {
    let mut players = Vec::new(alloc);
    for (name, sum, is_arbiter) in [("ann", sum, false), ("eve", ARBITERS_SUM, true)] {
        let player = Player {
            name: Name::try_new(name).expect(rt, "a name"),
            full_name: String::from_str(alloc, name).expect(rt, "memory"),
            sum,
            is_arbiter,
        };
        players.push(player).expect(rt, "memory");
    }
    players
}

/// A log that keeps what it is given, one text behind the other, or fails.
#[derive(Drop)]
struct Kept {
    fails: bool,
    text: String,
}

impl ActLog for Kept {
    fn put(&mut self, texts: &[String]) -> io::Result<()> {
        if self.fails {
            return Err(Error::from(ErrorKind::StorageFull));
        }
        for text in texts {
            self.text.push_str(text.as_str())?;
        }
        Ok(())
    }
}

/// A players' file that is changed once, and what it was told of entries.
#[derive(Drop)]
struct Once {
    alloc: Global,
    is_done: bool,
    is_paused: bool,
}

// The file of ann and eve.
const FILE: &[u8] =
    b"ann player 3ba3f5f43b92602683c19aee62a20342b084dd5971ddd33808d81a328879a547 ann\n\
    eve arbiter dfb417454d7432715ecfaa33d89abdaba4457c3b2cbd85a4a20620d0cd806da6 eve\n";

impl KeepsLinks for Once {
    fn change(&mut self, order: &Order, full_name: &str, players: &[Player]) -> Option<Linked> {
        if self.is_done || matches!(order.change, Change::NoLink) {
            return None;
        }
        let new = carried_out(self.alloc, players, FILE, order, full_name, &[7; 16]).ok()?;
        self.is_done = true;
        Some(new.linked)
    }

    fn decide(&mut self, arbiter: &str, text: &str, _players: &[Player]) -> bool {
        arbiter == "eve" && text == "decide 1 3 0-1 6.7 white did not come"
    }

    fn keep(&mut self, halts: &Halts) -> io::Result<()> {
        self.is_paused = halts.is_paused;
        Ok(())
    }
}

/// A hall with a log and a players' file.
#[derive(Drop)]
struct Lab {
    alloc: Global,
    keys: RandomState,
    hall: Hall<Peer>,
    log: Kept,
    links: Once,
}

// A hall under the host `a:1`.
fn hall_of(rt: &impl Abort, alloc: Global, keys: RandomState, is_paused: bool) -> Hall<Peer> {
    let site = site_of(rt, alloc);
    let limits = Limits {
        waiting: 4,
        playing: 8,
        over: 32,
        places: None,
    };
    let players = players(rt, alloc, SUM);
    let halts = Halts {
        is_paused,
        can_stop: false,
        reason: String::new(alloc),
        announced: String::new(alloc),
        is_full: false,
    };
    Hall::new(alloc, keys, site, players, halts, limits, None)
}

/// How a script is played.
#[derive(Clone, Copy)]
enum How {
    Plainly,
    /// The browser's socket takes seven bytes at a write, and the server's five.
    Slowly,
    /// Entries are paused at first.
    Paused,
    /// The log fails.
    Unlogged,
}

/// What one browser and the server give, and how it is played.
type Script = (&'static [u8], &'static [u8], How);

impl Lab {
    // Begins a script.
    fn begin(&mut self, rt: &impl Abort, script: &Script) {
        let (browser, server, how) = script;
        // (a call drops the one before: in its place all its fields would be proved to be dropped)
        let hall = hall_of(rt, self.alloc, self.keys, matches!(how, How::Paused));
        drop(mem::replace(&mut self.hall, hall));
        let is_slow = matches!(how, How::Slowly);
        let server = Peer::new(self.alloc, server, if is_slow { 5 } else { 1_000 });
        self.hall.server_came(server).expect(rt, "memory");
        let takes = if is_slow { 7 } else { 1_000 };
        self.hall
            .admit(Peer::new(self.alloc, browser, takes), 2, NEAR, 0);
        self.log.fails = matches!(how, How::Unlogged);
        self.log.text.clear();
        self.links.is_done = false;
        self.links.is_paused = false;
    }

    // So many turns with all sockets awake, so many milliseconds apart, or until the log fails; that entries are paused
    // is kept before it is told. It tells whether it was kept before the turn in which the log failed, if it did.
    fn turn(&mut self, rt: &impl Abort, turns: u64, apart: u64) -> Option<bool> {
        for turn in 0..turns {
            let was_paused = self.links.is_paused;
            let at = turn.saturating_mul(apart);
            if let Err(fault) = self.hall.turn(at, false, &mut self.log, &mut self.links) {
                assert!(rt; matches!(&fault, Fault::NoLog(_)));
                return Some(was_paused);
            }
            assert!(rt; self.links.is_paused || !self.is_told(PAUSED));
            self.hall.wake(2);
            self.hall.wake_server();
        }
        None
    }

    // A turn more, without a log.
    fn turn_alone(&mut self, rt: &impl Abort, at: u64) {
        let turned = self.hall.turn(at, false, &mut NoActLog, &mut self.links);
        assert!(rt; turned.is_ok());
    }

    // Plays a script.
    fn play(&mut self, rt: &impl Abort, script: &Script, turns: u64, apart: u64) -> Option<bool> {
        self.begin(rt, script);
        self.turn(rt, turns, apart)
    }

    // Whether the browser is there, and what was written to it ends so.
    fn is_told(&self, end: &[u8]) -> bool {
        match self.hall.guest_stream() {
            Some(peer) => peer.written.as_slice().ends_with(end),
            None => false,
        }
    }

    // Whether the server is there, and this was written to it.
    fn is_asked(&self, all: &[u8]) -> bool {
        match self.hall.server_stream() {
            Some(peer) => peer.written.as_slice() == all,
            None => false,
        }
    }

    // Whether the server was sent this, and what the browser was sent ends so; each where it is there, and not where it
    // is gone.
    fn is_so(&self, asked: &[u8], told: &[u8]) -> bool {
        let is_asked = self.is_asked(asked) || asked == GONE && !self.hall.has_server();
        let is_told = self.is_told(told) || told == GONE && self.hall.len() == 0;
        is_asked && is_told
    }
}

const GONE: &[u8] = b"GONE";

/// A script, in how many turns and how many milliseconds apart it is played, what the server is sent, and how what the
/// browser is sent ends.
type Case = (Script, (u64, u64), &'static [u8], &'static [u8]);

const PAUSED: &[u8] = b"\x81\x11ok pause entries\n";

// A message with a line feed in it, one of 256 bytes, one that is no ASCII, and one without a byte.
const NONE: &[u8] =
    b"UP~\x81\x86\0\0\0\0show\n7\x81\xfe\x01\0\0\0\0\0show 000000000000000000000000000000000000000000000000000000000\
0000000000000000000000000000000000000000000000000000000000000000000000000000000000000000000000000000\
0000000000000000000000000000000000000000000000000000000000000000000000000000000000000000000001\
\x81\x87\0\0\0\0show \xc3\xa4\x81\x80\0\0\0\0";

// 22 times `leave lobby`
const FLOOD: &[u8] =
    b"UP~\x81\x8b\0\0\0\0leave lobby\x81\x8b\0\0\0\0leave lobby\x81\x8b\0\0\0\0leave lobby\x81\x8b\0\0\0\0leave lobby\
\x81\x8b\0\0\0\0leave lobby\x81\x8b\0\0\0\0leave lobby\x81\x8b\0\0\0\0leave lobby\x81\x8b\0\0\0\0leave lobby\
\x81\x8b\0\0\0\0leave lobby\x81\x8b\0\0\0\0leave lobby\x81\x8b\0\0\0\0leave lobby\x81\x8b\0\0\0\0leave lobby\
\x81\x8b\0\0\0\0leave lobby\x81\x8b\0\0\0\0leave lobby\x81\x8b\0\0\0\0leave lobby\x81\x8b\0\0\0\0leave lobby\
\x81\x8b\0\0\0\0leave lobby\x81\x8b\0\0\0\0leave lobby\x81\x8b\0\0\0\0leave lobby\x81\x8b\0\0\0\0leave lobby\
\x81\x8b\0\0\0\0leave lobby\x81\x8b\0\0\0\0leave lobby";

// A browser that shows ann's token, and some turns later opens a game.
const LATE: &[u8] =
    b"UP~\x81\xa6\0\0\0\0login aaaaaaaaaaaaaaaaaaaaaaaaaaaaaaaa~~~~~~~~~\x81\x90\0\0\0\0open white 300 2";

// Ann shows her token, and is silent then.
const SILENT: &[u8] = b"UP~\x81\xa6\0\0\0\0login aaaaaaaaaaaaaaaaaaaaaaaaaaaaaaaa";

static CASES: [Case; 17] = [
    // three messages, of which the first is not answered; and without a token none of them is passed on
    (
        (
            b"UP~\x81\xa6\0\0\0\0login aaaaaaaaaaaaaaaaaaaaaaaaaaaaaaaa\x81\x85\0\0\0\0fen 1\x81\x85\0\0\0\0fen \
            2\x81\x85\0\0\0\0fen 3",
            b"",
            How::Plainly,
        ),
        (90, 1),
        b"fen 1\n",
        b"\x81\x0cserver here\n\x81\x18ok login ann player ann\n",
    ),
    (
        (
            b"UP~\x81\x85\0\0\0\0fen 1\x81\x85\0\0\0\0lobby\x81\x87\0\0\0\0players",
            b"",
            How::Plainly,
        ),
        (90, 1),
        b"",
        b"\x81\x0cserver here\n\x81\x0eno 31 NoToken\n\x81\x0eno 31 NoToken\n\x81\x0eno 31 NoToken\n",
    ),
    (
        (NONE, b"", How::Plainly),
        (90, 1),
        b"",
        b"\x81\x0cserver here\n\x81\x0dno 1 BadLine\n\x81\x0dno 1 BadLine\n\x81\x0dno 1 BadLine\n\
        \x81\x0dno 1 BadLine\n",
    ),
    (
        (FLOOD, b"", How::Plainly),
        (90, 1),
        b"",
        b"\x81\x0eno 31 NoToken\n\x81\x0eno 34 TooFast\n\x81\x0eno 34 TooFast\n",
    ),
    // who is silent is asked, and then let go
    (
        (SILENT, b"", How::Plainly),
        (40, 1_000),
        b"",
        b"ann player ann\n\x89\0",
    ),
    (
        (SILENT, b"", How::Plainly),
        (74, 1_000),
        b"",
        b"ann player ann\n\x89\0",
    ),
    ((SILENT, b"", How::Plainly), (82, 1_000), b"", GONE),
    // half a head, and then nothing
    (
        (b"GET /ws HTTP/1.1\r\nHost: a:1\r\n", b"", How::Plainly),
        (20, 1_000),
        b"",
        b"",
    ),
    (
        (b"GET /ws HTTP/1.1\r\nHost: a:1\r\n", b"", How::Plainly),
        (22, 1_000),
        b"",
        GONE,
    ),
    // who shows no token, and is silent or asks
    (
        (b"UP", b"", How::Plainly),
        (20, 1_000),
        b"",
        b"\x81\x0cserver here\n",
    ),
    ((b"UP", b"", How::Plainly), (22, 1_000), b"", GONE),
    (
        (b"UP~\x81\x85\0\0\0\0lobby", b"", How::Plainly),
        (22, 1_000),
        b"",
        GONE,
    ),
    // who ends, before the upgrade and behind it, who closes, and who is reset
    ((b"END", b"", How::Plainly), (90, 1), b"", GONE),
    ((b"UP~END", b"", How::Plainly), (90, 1), b"", GONE),
    (
        (b"UP~\x88\x82\0\0\0\0\x03\xe8", b"", How::Plainly),
        (90, 1),
        b"",
        GONE,
    ),
    ((b"UP~~RESET", b"", How::Plainly), (90, 1), b"", GONE),
    // an answer that breaks off
    (
        (
            b"UP~\x81\xa6\0\0\0\0login aaaaaaaaaaaaaaaaaaaaaaaaaaaaaaaa\x81\x84\0\0\0\0list",
            b"~~~~~~~~ok list 2\n1 ann bob 0 *\n~END",
            How::Plainly,
        ),
        (90, 1),
        GONE,
        b"\x81\x05lost\n\x81\x0cserver gone\n",
    ),
];

static ACTS: [Case; 8] = [
    // half a frame, and an answer in two pieces
    (
        (
            b"UP~~\x81\xa6\0\0\0\0login aaaaaaaaaaaaaaaaaaaaaaaaaaaaaaaa\x81\x86\0\0\0\0sho~~w 7",
            b"~~~~~~~~~~~~no 3 ~NoGame\n",
            How::Slowly,
        ),
        (90, 1),
        b"show 7\n",
        b"\x81\x0cserver here\n\x81\x18ok login ann player ann\n\x81\x0cno 3 NoGame\n",
    ),
    // a hall that begins with entries paused
    (
        (LATE, b"", How::Paused),
        (30, 1),
        b"",
        b"\x81\x14no 39 EntriesPaused\n",
    ),
    // an arbiter asks for a link of nobody's and twice for one of ann's: it is told once it is made
    (
        (
            b"UP~\x81\xa6\0\0\0\0login eeeeeeeeeeeeeeeeeeeeeeeeeeeeeeee\x81\x88\0\0\0\0link bob\x81\x88\0\0\0\0link \
            ann~\x81\x88\0\0\0\0link ann\x81\x83\0\0\0\0who",
            b"",
            How::Plainly,
        ),
        (40, 1),
        b"",
        b"ok login eve arbiter eve\n\x81\x0fno 38 NoPlayer\n\x81\x2dok link ann 07070707070707070707070707070707\n\
        \x81\x11no 40 NotWritten\n\x81\x12ok who open 1\neve\n",
    ),
    // an arbiter decides: everybody is told what is put, and nobody what is not
    (
        (
            b"UP~\x81\xa6\0\0\0\0login eeeeeeeeeeeeeeeeeeeeeeeeeeeeeeee\x81\xa5\0\0\0\0decide 1 4 0-1 6.7 white did \
            not come~\x81\xa5\0\0\0\0decide 1 3 0-1 6.7 white did not come",
            b"",
            How::Plainly,
        ),
        (40, 1),
        b"",
        b"ok login eve arbiter eve\n\x81\x11no 48 NotDecided\n\x81\x0aok decide\n\
        \x81\x27decided 1 3 0-1 6.7 white did not come\n",
    ),
    // an arbiter pauses entries
    (
        (
            b"UP~\x81\xa6\0\0\0\0login eeeeeeeeeeeeeeeeeeeeeeeeeeeeeeee\x81\x8d\0\0\0\0pause entries",
            b"",
            How::Plainly,
        ),
        (40, 1),
        b"",
        PAUSED,
    ),
    // an arbiter pairs two players: the game is opened for one, and once that is answered joined for the other
    (
        (
            b"UP~\x81\xa6\0\0\0\0login eeeeeeeeeeeeeeeeeeeeeeeeeeeeeeee\x81\x92\0\0\0\0pair ann eve 300 2",
            b"~~~~~~~~ok name ann\nok open 1\n~~ok name eve\nok join 1 black\n~~ok show 1 ann eve 0 w 1 1 - * -\n\
            ok fen 1 FEN\n",
            How::Plainly,
        ),
        (60, 1),
        b"name ann\nopen white 300 2\nname eve\njoin 1\nshow 1\nfen 1\n",
        b"\x81\x0aok pair 1\n",
    ),
    // where the log fails, nobody is told of the act
    (
        (
            b"UP~\x81\xa6\0\0\0\0login aaaaaaaaaaaaaaaaaaaaaaaaaaaaaaaa\x81\x90\0\0\0\0open white 300 2",
            b"~~~~~~~~ok name ann\nok open 1\n~~ok show 1 ann - 0 w 300000 300000 - * -\nok fen 1 FEN\n",
            How::Unlogged,
        ),
        (40, 1),
        b"name ann\nopen white 300 2\n",
        b"\x81\x18ok login ann player ann\n",
    ),
    // an act is logged and told
    (
        (
            b"UP~\x81\xa6\0\0\0\0login aaaaaaaaaaaaaaaaaaaaaaaaaaaaaaaa\x81\x90\0\0\0\0open white 300 2",
            b"~~~~~~~~ok name ann\nok open 1\n~~ok show 1 ann - 0 w 300000 300000 - * -\nok fen 1 FEN\n",
            How::Plainly,
        ),
        (40, 1),
        b"name ann\nopen white 300 2\nshow 1\nfen 1\n",
        b"\x81\x0aok open 1\n",
    ),
];

// An arbiter adds a player: not where another has the name, and the token is told once that is done.
static ADDS: [Case; 1] = [(
    (
        b"UP~\x81\xa6\0\0\0\0login eeeeeeeeeeeeeeeeeeeeeeeeeeeeeeee\x81\x8a\0\0\0\0player ANN~\x81\x92\0\0\0\0player \
        zoe Zoe Lee",
        b"",
        How::Plainly,
    ),
    (40, 1),
    b"",
    b"ok login eve arbiter eve\n\x81\x14no 50 NameTaken ann\n\x81\x37ok player zoe Zoe Lee \
    07070707070707070707070707070707\n",
)];

// What becomes of scripts; and it is kept that entries are paused where they were at first, or where that was told.
fn check_cases(rt: &impl Abort, lab: &mut Lab, cases: &[Case]) {
    for (script, (turns, apart), asked, told) in cases {
        let stopped = lab.play(rt, script, *turns, *apart);
        assert!(rt; stopped.is_some() == matches!(script.2, How::Unlogged));
        assert!(rt; lab.is_so(asked, told));
        let is_paused = matches!(script.2, How::Paused) || *told == PAUSED;
        assert!(rt; lab.links.is_paused == is_paused);
    }
}

// What the last of these acts has told the log.
const LOGGED: &str =
    "by ann open white 300 2\nok open 1\nok show 1 ann - 0 w 300000 300000 - * -\n";

fn acts_are_logged_and_told(rt: &impl Abort, lab: &mut Lab) {
    check_cases(rt, lab, &ACTS);
    assert!(rt; lab.log.text.as_str() == LOGGED);
    check_cases(rt, lab, &ADDS);
    assert!(rt; lab.log.text.as_str() == "players by eve player zoe Zoe Lee\n");
}

// A browser that shows ann's token and opens a game.
const OPENS: &[u8] =
    b"UP~\x81\xa6\0\0\0\0login aaaaaaaaaaaaaaaaaaaaaaaaaaaaaaaa\x81\x90\0\0\0\0open white 300 2";

// A server that does not take ann's name, one that takes another, and one that leaves the answer to it out.
const MISNAMES: [&[u8]; 3] = [
    b"~~~~~~~~no 23 BadMoment\nok open 1\nok show 1 eve - 0 w 300000 300000 - * -\nok fen 1 FEN\n",
    b"~~~~~~~~ok name eve\n~ok open 1\nok show 1 eve - 0 w 300000 300000 - * -\nok fen 1 FEN\n",
    b"~~~~~~~~ok open 1\nok show 1 eve - 0 w 300000 300000 - * -\nok fen 1 FEN\n",
];

fn an_act_counts_only_under_its_name(rt: &impl Abort, lab: &mut Lab) {
    for answers in MISNAMES {
        assert!(rt;
            lab.play(rt, &(OPENS, answers, How::Plainly), 40, 1)
                .is_none()
        );
        assert!(rt; lab.is_so(GONE, b"ann player ann\n\x81\x05lost\n\x81\x0cserver gone\n"));
        assert!(rt; lab.log.text.is_empty());
    }
}

// (it is not read in the turn behind one in which something was written to it)
const ASKS: &[u8] =
    b"GET /health HTTP/1.1\r\nHost: a:1\r\n\r\n~GET /health HTTP/1.1\r\nHost: a:1\r\n\r\n\
    ~GET /health HTTP/1.1\r\nHost: a:1\r\n\r\n";

fn a_file_changes_between_turns(rt: &impl Abort, lab: &mut Lab) {
    lab.begin(rt, &(ASKS, b"", How::Plainly));
    for bytes in [b"one".as_slice(), b"another"] {
        let file = file_of(rt, lab.alloc, b"/health", Kind::Figures, bytes);
        lab.hall.put_file(file).expect(rt, "memory");
        assert!(rt; lab.turn(rt, 2, 1).is_none());
        assert!(rt; lab.is_told(bytes));
    }
    lab.hall.take_off_file(b"/health");
    assert!(rt; lab.turn(rt, 2, 1).is_none());
    lab.turn_alone(rt, 2);
    assert!(rt; lab.is_told(b"There is no such page here."));
}

// Somebody looks at games.
fn begin_look(rt: &impl Abort, lab: &mut Lab, how: How) {
    lab.begin(
        rt,
        &(b"GET /live.pgn HTTP/1.1\r\nHost: a:1\r\n\r\n", b"", how),
    );
    let file = file_of(rt, lab.alloc, b"/live.pgn", Kind::Pgn, b"one");
    lab.hall.put_file(file).expect(rt, "memory");
}

// Where so many have come by this moment, his answer begins so.
fn check_look(rt: &impl Abort, lab: &mut Lab, came: usize, at: u64, front: &[u8]) {
    begin_look(rt, lab, How::Slowly);
    for _ in 0..came {
        assert!(rt; lab.hall.next_key().is_some());
    }
    lab.hall.see_comers(&mut Comers::new(), at);
    assert!(rt; lab.turn(rt, 4, 1).is_none());
    assert!(rt; lab.is_told(front));
}

fn who_looks_keeps_no_place_or_comes_later(rt: &impl Abort, lab: &mut Lab) {
    begin_look(rt, lab, How::Plainly);
    lab.turn_alone(rt, 1);
    assert!(rt; lab.hall.len() == 0);
    check_look(rt, lab, 2_200, 999, b"HTTP/1.1 200 O");
    check_look(rt, lab, 2_201, 999, b"HTTP/1.1 503 S");
    check_look(rt, lab, 2_201, 1_000, b"HTTP/1.1 200 O");
}

const COUNTED: Script = (
    b"UP~\x81\xa6\0\0\0\0login aaaaaaaaaaaaaaaaaaaaaaaaaaaaaaaa\x81\x85\0\0\0\0fen 1\x81\x8b\0\0\0\0leave \
    lobby\x81\x84\0\0\0\0list",
    b"~~~~~~~~no 3 NoGame\n~~~~~~END",
    How::Plainly,
);

fn what_was_said_is_counted(rt: &impl Abort, lab: &mut Lab) {
    assert!(rt; lab.play(rt, &COUNTED, 90, 1).is_none());
    let counts = lab.hall.counts();
    assert!(rt; [counts.messages, counts.no, counts.ok, counts.lost] == [4, 1, 2, 1]);
    assert!(rt; [counts.timed, counts.within[11]] == [4, 4] && counts.time > 0);
}

// Ann, who leaves, and eve, who asks then who is there.
const LEAVES: Script = (
    b"UP~\x81\xa6\0\0\0\0login aaaaaaaaaaaaaaaaaaaaaaaaaaaaaaaa~~END",
    b"",
    How::Plainly,
);

const ASKS_WHO: &[u8] =
    b"UP~\x81\xa6\0\0\0\0login eeeeeeeeeeeeeeeeeeeeeeeeeeeeeeee~~~~~~~\x81\x83\0\0\0\0who";

// What the log is told of them.
const CAME_AND_WENT: &str = "server here\ncame ann\ncame eve\nwent ann\n";

fn who_left_is_there_no_more(rt: &impl Abort, lab: &mut Lab) {
    lab.begin(rt, &LEAVES);
    let mut roll = Roll::new(lab.alloc);
    lab.hall
        .admit(Peer::new(lab.alloc, ASKS_WHO, 1_000), 3, NEAR, 0);
    for at in 0..30 {
        lab.turn_alone(rt, at);
        assert!(rt; lab.hall.tell_roll(&mut roll, &mut lab.log).is_ok());
        lab.hall.wake(2);
        lab.hall.wake(3);
    }
    assert!(rt; lab.hall.len() == 1 && lab.is_told(b"\x81\x12ok who open 1\neve\n"));
    assert!(rt; lab.log.text.as_str() == CAME_AND_WENT);
}

// So many come, all by one address or each by its own.
fn crowd(lab: &mut Lab, count: u16, is_one: bool) {
    for i in 0..count {
        let [high, low] = i.to_be_bytes();
        let peer = if is_one {
            Ipv4Addr::new(10, 0, 0, 1)
        } else {
            Ipv4Addr::new(10, 1, high, low)
        };
        let key = usize::from(i) + 3;
        lab.hall
            .admit(Peer::new(lab.alloc, b"", 1_000), key, IpAddr::V4(peer), 0);
    }
}

// So many come to one of this machine, and so many are there behind the next turn.
fn check_crowd(rt: &impl Abort, lab: &mut Lab, count: u16, is_one: bool, stay: usize) {
    lab.begin(rt, &(b"UP", b"", How::Plainly));
    crowd(lab, count, is_one);
    lab.turn_alone(rt, 1);
    assert!(rt; lab.hall.len() == stay);
}

fn who_has_no_token_makes_room(rt: &impl Abort, lab: &mut Lab) {
    check_crowd(rt, lab, 32, true, 33);
    check_crowd(rt, lab, 41, true, 33);
    check_crowd(rt, lab, 599, false, 600);
    check_crowd(rt, lab, 700, false, 600);
    assert!(rt; lab.hall.turned_away() == 101);
}

/// An acceptor at which one is lost, then one is refused, and then there is nobody.
#[derive(Clone, Copy)]
struct FaultyAcceptor {
    tries: usize,
}

impl Acceptor for FaultyAcceptor {
    type Stream = Peer;

    fn accept_one(&mut self) -> Result<(Peer, IpAddr), AcceptFault> {
        self.tries = self.tries.saturating_add(1);
        match self.tries {
            1 => Err(AcceptFault::Lost),
            2 => Err(AcceptFault::Refused),
            _ => Err(AcceptFault::Nobody),
        }
    }

    fn watch(&mut self, _stream: &mut Peer, _key: usize) -> bool {
        false
    }
}

fn a_failed_accept_ends_the_turn_of_accepting(rt: &impl Abort, lab: &mut Lab) {
    let mut acceptor = FaultyAcceptor { tries: 0 };
    assert!(rt;
        welcome(&mut acceptor, &mut lab.hall, 0) == Welcomed::Refused && acceptor.tries == 2
    );
    assert!(rt; welcome(&mut acceptor, &mut lab.hall, 0) == Welcomed::All);
}

// Ann, who has come by her link, acts after her token was given this sum: the server is sent this, and she is told so.
fn check_renewed(rt: &impl Abort, lab: &mut Lab, sum: [u8; 32], asked: &[u8], told: &[u8]) {
    assert!(rt; lab.play(rt, &(LATE, b"", How::Plainly), 6, 1).is_none());
    lab.hall.renew(players(rt, lab.alloc, sum));
    assert!(rt; lab.turn(rt, 30, 1).is_none());
    assert!(rt; lab.is_so(asked, told));
}

fn who_has_another_link_acts_no_more(rt: &impl Abort, lab: &mut Lab) {
    let acts = b"name ann\nopen white 300 2\n";
    check_renewed(rt, lab, SUM, acts, b"\x81\x18ok login ann player ann\n");
    check_renewed(rt, lab, [0; 32], b"", b"\x81\x0eno 31 NoToken\n");
}

// An arbiter who acts, and pauses entries some turns later.
const PAUSE_LATER: &[u8] =
    b"UP~\x81\xa6\0\0\0\0login eeeeeeeeeeeeeeeeeeeeeeeeeeeeeeee\x81\x90\0\0\0\0open white 300 \
    2~~~~~~~~~\x81\x8d\0\0\0\0pause entries";

// A server that accepts the act, the sooner the more of this is cut off.
const ACCEPTS: &[u8] = b"~~~~~~~~~~~~~~~~ok name eve\nok open 1\n";

// (in one of these the order and the answer to the act come in one turn)
fn that_entries_are_paused_is_kept_before_the_log_is_told(rt: &impl Abort, lab: &mut Lab) {
    let mut is_kept = false;
    for skipped in 0..17 {
        let server = ACCEPTS.get(skipped..).unwrap_or(b"");
        let was_paused = lab.play(rt, &(PAUSE_LATER, server, How::Unlogged), 40, 1);
        is_kept |= was_paused == Some(false) && lab.links.is_paused;
    }
    assert!(rt; is_kept);
}

// Two who show no token and ask, and one who shows ann's and opens a game when the first of them asks.
const ASKER: &[u8] = b"UP~~~~\x81\x85\0\0\0\0fen 1\x81\x85\0\0\0\0fen 2";

const OTHER_ASKER: &[u8] = b"UP~~~~\x81\x85\0\0\0\0fen 3";

const OPENER: &[u8] =
    b"UP~\x81\xa6\0\0\0\0login aaaaaaaaaaaaaaaaaaaaaaaaaaaaaaaa~~~\x81\x90\0\0\0\0open white 300 2";

// All that came, in so many turns with all sockets awake.
fn turn_three(rt: &impl Abort, lab: &mut Lab, turns: u64) {
    lab.begin(rt, &(ASKER, b"", How::Plainly));
    for (browser, key) in [(OTHER_ASKER, 3), (OPENER, 4)] {
        lab.hall
            .admit(Peer::new(lab.alloc, browser, 1_000), key, NEAR, 0);
    }
    for at in 0..turns {
        lab.turn_alone(rt, at);
        for key in 2..5 {
            lab.hall.wake(key);
        }
        lab.hall.wake_server();
    }
}

// The act goes out, and of who asks without a token nothing.
fn who_has_no_token_asks_the_server_nothing(rt: &impl Abort, lab: &mut Lab) {
    turn_three(rt, lab, 90);
    assert!(rt; lab.is_asked(b"name ann\nopen white 300 2\n"));
    assert!(rt; lab.is_told(b"\x81\x0eno 31 NoToken\n\x81\x0eno 31 NoToken\n"));
}

// One who shows ann's token and asks for a game of 40 plies, and its server.
const LINE_ASKER: &[u8] =
    b"UP~\x81\xa6\0\0\0\0login aaaaaaaaaaaaaaaaaaaaaaaaaaaaaaaa\x81\x86\0\0\0\0line \
    1\x81\x83\0\0\0\0who";

const GAME: &[u8] = b"~~~~~~~~ok pgn 1 2\n\
1. Nf3 Nf6 2. Ng1 Ng8 3. Nf3 Nf6 4. Ng1 Ng8 5. Nf3 Nf6 6. Ng1 Ng8 7. Nf3 Nf6 8. Ng1 Ng8 9. Nf3 Nf6 10. Ng1 Ng8\n\
11. Nf3 Nf6 12. Ng1 Ng8 13. Nf3 Nf6 14. Ng1 Ng8 15. Nf3 Nf6 16. Ng1 Ng8 17. Nf3 Nf6 18. Ng1 Ng8 19. Nf3 Nf6 \
20. Ng1 Ng8\n";

const LAST_ROWS: &[u8] =
    b"\n39 Ng1 f3g1 rnbqkb1r/pppppppp/5n2/8/8/8/PPPPPPPP/RNBQKBNR b KQkq - 39 20\n\
40 Ng8 f6g8 rnbqkbnr/pppppppp/8/8/8/8/PPPPPPPP/RNBQKBNR w KQkq - 40 21\n\x81\x12ok who open 1\nann\n";

// The same of a game of 9,000 plies.
const LONG_GAME: &[u8] = b"~~~~~~~~LONG";

// What comes of the server stands in this piece, and was read.
fn has_said(lab: &Lab, piece: usize) -> bool {
    match lab.hall.server_stream() {
        Some(peer) => peer.reads > piece,
        None => false,
    }
}

// A game is asked for, and ann comes once more, who acts when its first plies are played.
fn ask_for_line(rt: &impl Abort, lab: &mut Lab, server: &'static [u8]) {
    lab.begin(rt, &(LINE_ASKER, server, How::Plainly));
    lab.hall
        .admit(Peer::new(lab.alloc, LATE, 1_000), 3, NEAR, 0);
}

// One more turn of these, with all sockets awake. It tells whether ann's act is on its way.
fn turn_beside_line(rt: &impl Abort, lab: &mut Lab, at: u64) -> bool {
    lab.turn_alone(rt, at);
    let has_acted = lab.is_asked(b"pgn 1\nname ann\nopen white 300 2\n");
    lab.hall.wake(2);
    lab.hall.wake(3);
    lab.hall.wake_server();
    has_acted
}

// A game is asked for, of which 16 plies are played in a turn: an act is on its way before who asks has the answer, and
// his next message is heard behind that.
fn a_line_is_played_in_parts(rt: &impl Abort, lab: &mut Lab) {
    ask_for_line(rt, lab, GAME);
    let mut is_between = false;
    for at in 0..90 {
        let has_acted = turn_beside_line(rt, lab, at);
        is_between |= has_said(lab, 8) && has_acted && !lab.is_told(LAST_ROWS);
    }
    assert!(rt; is_between && lab.is_told(LAST_ROWS));
}

// Of so many turns, the last before an act is on its way beside one who asks for a game, and the last in which he was
// told nothing but that he is logged in.
fn turns_beside_line(
    rt: &impl Abort,
    lab: &mut Lab,
    server: &'static [u8],
    turns: u64,
) -> (u64, u64) {
    ask_for_line(rt, lab, server);
    let (mut last_before_act, mut last_silent) = (0, 0);
    for at in 0..turns {
        if !turn_beside_line(rt, lab, at) {
            last_before_act = at;
        }
        if lab.is_told(b"\x81\x18ok login ann player ann\n") {
            last_silent = at;
        }
    }
    (last_before_act, last_silent)
}

// Where somebody asks for a game of 9,000 plies, which takes 563 turns, the act is on its way in the turn in which it
// is where the server says nothing of that game.
fn a_long_line_holds_up_no_act(rt: &impl Abort, lab: &mut Lab) {
    let (alone, silent) = turns_beside_line(rt, lab, b"", 90);
    assert!(rt; 5 < alone && alone < 40 && silent == 89);
    let (beside, silent) = turns_beside_line(rt, lab, LONG_GAME, 700);
    assert!(rt; beside == alone && 563 < silent && silent < 620);
}

// So many bytes were read of the first browser that had always more.
fn is_read(lab: &Lab, count: usize) -> bool {
    match lab.hall.guest_stream() {
        Some(peer) => peer.read == count,
        None => false,
    }
}

// Of who acts for nobody 1,024 bytes are read at once, each time for 26 ms of its time, which runs one second ahead: of
// one that asks by HTTP, and of one that pings.
fn what_comes_of_strangers_is_paid(rt: &impl Abort, lab: &mut Lab) {
    for browser in [MANY, PINGS] {
        lab.begin(rt, &(browser, b"", How::Plainly));
        lab.turn_alone(rt, 0);
        assert!(rt; is_read(lab, if browser == MANY { 1_024 } else { 0 }));
        for (at, count) in [(0, 39_936), (26, 40_960), (52, 41_984)] {
            for _ in 0..200 {
                lab.turn_alone(rt, at);
                lab.hall.wake(2);
            }
            assert!(rt; is_read(lab, count));
        }
    }
}

// In how many turns a game is opened, where so many strangers beside have always more to say.
fn turns_to_open(rt: &impl Abort, lab: &mut Lab, browser: &'static [u8], count: usize) -> u64 {
    lab.begin(rt, &(OPENER, b"", How::Plainly));
    let mut at = 0;
    for _ in 0..90 {
        if lab.is_asked(b"name ann\nopen white 300 2\n") {
            return at;
        }
        if at == 4 {
            for i in 0..count {
                let peer = Peer::new(lab.alloc, browser, 1_000);
                lab.hall.admit(peer, i.saturating_add(3), NEAR, at);
            }
        }
        lab.turn_alone(rt, at);
        lab.hall.wake(2);
        at = at.saturating_add(1);
    }
    0
}

fn a_move_goes_out_beside_requests_without_end(rt: &impl Abort, lab: &mut Lab) {
    let alone = turns_to_open(rt, lab, MANY, 0);
    assert!(rt; alone > 5);
    assert!(rt; turns_to_open(rt, lab, MANY, 20) == alone);
    assert!(rt; turns_to_open(rt, lab, PINGS, 20) == alone);
}

// Who sent a byte, and was read, keeps nobody out, though it was told nothing; nor does who has a socket, and is
// silent, once it was looked at.
fn who_was_read_keeps_nobody_out(rt: &impl Abort, lab: &mut Lab) {
    for browser in [b"G~E~T".as_slice(), b"UP"] {
        lab.begin(rt, &(browser, b"", How::Plainly));
        for key in 3..23 {
            lab.hall
                .admit(Peer::new(lab.alloc, browser, 1_000), key, NEAR, 0);
        }
        assert!(rt; lab.hall.is_crowded());
        for _ in 0..20 {
            lab.turn_alone(rt, 0);
        }
        assert!(rt; !lab.hall.is_crowded());
        for key in 2..23 {
            lab.hall.wake(key);
        }
        for _ in 0..20 {
            lab.turn_alone(rt, 0);
        }
        assert!(rt; !lab.hall.is_crowded() && lab.hall.len() == 21);
    }
}

// Ann shows her token, and acts then.
const RESIGNER: &[u8] =
    b"UP~\x81\xa6\0\0\0\0login aaaaaaaaaaaaaaaaaaaaaaaaaaaaaaaa~~\x81\x88\0\0\0\0resign 7";

// What the server is sent where she does so five times.
const FIVE_ACTS: &[u8] =
    b"name ann\nresign 7\nshow 7\nfen 7\nresign 7\nshow 7\nfen 7\nresign 7\nshow 7\nfen 7\n\
    resign 7\nshow 7\nfen 7\nresign 7\nshow 7\nfen 7\n";

// Turns of five connections at a moment, with all sockets awake.
fn turn_five(rt: &impl Abort, lab: &mut Lab, at: u64) {
    for _ in 0..40 {
        lab.turn_alone(rt, at);
        for key in 2..7 {
            lab.hall.wake(key);
        }
        lab.hall.wake_server();
    }
}

// Of five connections that act for one player three do so at once, and then one each 50 ms; the hall wakes for that.
fn a_player_acts_at_one_pace_by_all_connections(rt: &impl Abort, lab: &mut Lab) {
    lab.begin(rt, &(RESIGNER, b"", How::Plainly));
    for key in 3..7 {
        lab.hall
            .admit(Peer::new(lab.alloc, RESIGNER, 1_000), key, NEAR, 0);
    }
    let looks = [
        (0, 75, 50),
        (49, 75, 50),
        (50, 97, 100),
        (99, 97, 100),
        (100, 119, 5_000),
    ];
    for (at, count, next) in looks {
        turn_five(rt, lab, at);
        assert!(rt; lab.is_asked(FIVE_ACTS.get(..count).unwrap_or(b"")));
        assert!(rt; lab.hall.look_at(at) == Some(next));
    }
}

#[test]
fn halls(rt: HostRuntime) {
    let alloc = rt.alloc();
    let keys = RandomState::new(&rt).expect(&rt, "keys");
    let mut lab = Lab {
        alloc,
        keys,
        hall: hall_of(&rt, alloc, keys, false),
        log: Kept {
            fails: false,
            text: String::new(alloc),
        },
        links: Once {
            alloc,
            is_done: false,
            is_paused: false,
        },
    };
    check_cases(&rt, &mut lab, &CASES);
    acts_are_logged_and_told(&rt, &mut lab);
    an_act_counts_only_under_its_name(&rt, &mut lab);
    a_file_changes_between_turns(&rt, &mut lab);
    who_looks_keeps_no_place_or_comes_later(&rt, &mut lab);
    what_was_said_is_counted(&rt, &mut lab);
    who_left_is_there_no_more(&rt, &mut lab);
    who_has_no_token_makes_room(&rt, &mut lab);
    a_failed_accept_ends_the_turn_of_accepting(&rt, &mut lab);
    who_has_another_link_acts_no_more(&rt, &mut lab);
    that_entries_are_paused_is_kept_before_the_log_is_told(&rt, &mut lab);
    who_has_no_token_asks_the_server_nothing(&rt, &mut lab);
    a_line_is_played_in_parts(&rt, &mut lab);
    a_long_line_holds_up_no_act(&rt, &mut lab);
    what_comes_of_strangers_is_paid(&rt, &mut lab);
    a_move_goes_out_beside_requests_without_end(&rt, &mut lab);
    who_was_read_keeps_nobody_out(&rt, &mut lab);
    a_player_acts_at_one_pace_by_all_connections(&rt, &mut lab);
    drop(lab);
}
