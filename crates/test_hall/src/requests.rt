//! Requests where more come than are served, and heads that are too long: all else of requests stands in
//! `bench/correct/requests`.
use crate::browser::Lab;
use lobby_web::{Kind, MOST_AT_ONCE};
use std::process::Abort;

/// A request, how its answer begins and ends, and whether the connection is over then.
type Request = (&'static [u8], &'static [u8], &'static [u8], bool);

const GAMES: &[u8] = b"GET /live.pgn HTTP/1.1\r\nHost: a:1\r\n\r\n";

const FIGURES: &[u8] = b"GET /health HTTP/1.1\r\nHost: a:1\r\n\r\n";

const WHOLE: &[u8] = b"HTTP/1.1 200 OK\r\n";

// Where more come than are served: games are to be asked for later, and all else is answered.
static PUT_OFF: [Request; 3] = [
    (
        GAMES,
        b"HTTP/1.1 503 ",
        b"\r\naccess-control-allow-origin: *\r\nconnection: close\r\nretry-after: 10\r\ncontent-length: 50\r\n\r\n\
        More watch than are served here: come again later.",
        true,
    ),
    (FIGURES, WHOLE, b"", false),
    (
        b"GET / HTTP/1.1\r\nHost: a:1\r\n\r\n",
        WHOLE,
        b"the page",
        false,
    ),
];

// Heads of 16,384 bytes, and how a byte more is answered.
static LONG: [(&[u8], &[u8]); 2] = [
    (b"GET / HTTP/1.1\r\nHost: a:1\r\nX: ", b"HTTP/1.1 431 "),
    (b"GET /", b"HTTP/1.1 414 "),
];

fn heads_too_long_are_refused(rt: &impl Abort, lab: &mut Lab) {
    for (front, answer) in &LONG {
        let head = lab.long(rt, front, 16_384);
        lab.whole(rt, &head);
        lab.give(rt, b"a");
        assert!(rt; lab.has(answer, b"", true));
    }
}

// More comes at once than is taken: nothing is answered, and the connection is over at once.
fn check_too_much(rt: &impl Abort, lab: &mut Lab) {
    let much = lab.long(rt, b"GET /", MOST_AT_ONCE + 1);
    lab.whole(rt, &much);
    assert!(rt; lab.has(b"", b"", true));
}

pub fn check_requests(rt: &impl Abort, lab: &mut Lab) {
    lab.put(rt, b"/", Kind::Html, b"the page");
    lab.put(rt, b"/live.pgn", Kind::Pgn, b"one");
    lab.put(rt, b"/health", Kind::Figures, b"one");
    lab.site.is_full = true;
    for (request, front, end, is_over) in &PUT_OFF {
        lab.whole(rt, request);
        assert!(rt; lab.has(front, end, *is_over));
    }
    lab.site.is_full = false;
    heads_too_long_are_refused(rt, lab);
    check_too_much(rt, lab);
}
