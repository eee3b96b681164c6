//! One client that gives and takes little, or fails, beside another.
use crate::peers::{Gives, Takes};
use crate::playing::{Step, Turns, play};
use std::alloc::Global;
use std::process::Abort;

/// 40 times `name a`.
const NAMES: &str = "\
name a\nname a\nname a\nname a\nname a\nname a\nname a\nname a\nname a\nname a\n\
name a\nname a\nname a\nname a\nname a\nname a\nname a\nname a\nname a\nname a\n\
name a\nname a\nname a\nname a\nname a\nname a\nname a\nname a\nname a\nname a\n\
name a\nname a\nname a\nname a\nname a\nname a\nname a\nname a\nname a\nname a\n";

/// Its answer.
pub const NAMED: &str = "ok name a\n";

/// 40 times `list`.
pub const LISTS: &str = "\
list\nlist\nlist\nlist\nlist\nlist\nlist\nlist\nlist\nlist\n\
list\nlist\nlist\nlist\nlist\nlist\nlist\nlist\nlist\nlist\n\
list\nlist\nlist\nlist\nlist\nlist\nlist\nlist\nlist\nlist\n\
list\nlist\nlist\nlist\nlist\nlist\nlist\nlist\nlist\nlist\n";

/// Its answer.
pub const LISTED: &str = "ok list 0\n";

const LONG: &str = "\
xxxxxxxxxxxxxxxxxxxxxxxxxxxxxxxxxxxxxxxxxxxxxxxxxxxxxxxxxxxxxxxxxxxxxxxxxxxxxxxxxxxxxxxxxxxxxxxxxxxx\
xxxxxxxxxxxxxxxxxxxxxxxxxxxxxxxxxxxxxxxxxxxxxxxxxxxxxxxxxxxxxxxxxxxxxxxxxxxxxxxxxxxxxxxxxxxxxxxxxxxx\
xxxxxxxxxxxxxxxxxxxxxxxxxxxxxxxxxxxxxxxxxxxxxxxxxxxxxxxxxxxxxxxxxxxxxxxxxxxxxxxxxxxxxxxxxxxxxxxxxxxx";

const BYE: &str = "bye LineTooLong\n";

const BAD_LINE: &str = "no 1 BadLine\n";

const SPEAKS: &[Gives] = &[Gives::Text("name a\n")];

const ONE: &[Gives] = &[Gives::Text("name a\n"), Gives::Nothing];

const TWO: &[Gives] = &[Gives::Text("name a\nname a\n"), Gives::Nothing];

const ENDS: &[Gives] = &[Gives::Text(NAMES), Gives::Text("li"), Gives::End];

const ASKS: &[Gives] = &[Gives::Text(LISTS), Gives::Nothing];

const FLOODS: &[Gives] = &[Gives::Text(LONG)];

// A line that is not whole, and behind one that is.
const PART: &[Gives] = &[Gives::Text("na"), Gives::Nothing];

const PART_BEHIND: &[Gives] = &[Gives::Text("name a\nna"), Gives::Nothing];

// It speaks twice, and then no more.
const AGAIN: &[Gives] = &[
    Gives::Text("name a\n"),
    Gives::Nothing,
    Gives::Text("name a\n"),
    Gives::Nothing,
];

const PORTIONS: &[Gives] = &[
    Gives::Text(
        "\
show 1\nshow 2\nshow 3\nshow 4\nshow 5\nshow 6\nshow 7\nshow 8\nshow 9\n\
show 1\nshow 2\nshow 3\nshow 4\nshow 5\nshow 6\nshow 7\nshow 8\npgn 1\npgn 1\nsh",
    ),
    Gives::Nothing,
];

const NO_GAME: &str = "no 3 NoGame\n";

/// What a connection gives and takes, and the line of which its answers are; the turns; and what is wanted then of it:
/// whether it is open, how many answers it has, all of them that line, and how often it was read. It is served beside
/// another, which says its name in each turn.
type Row = (
    (&'static [Gives], &'static Takes, &'static str),
    Turns,
    (bool, Option<usize>, usize),
);

fn check_all(rt: &impl Abort, alloc: Global, rows: &[Row]) {
    for ((gives, takes, line), turns, (is_open, lines, reads)) in rows {
        let steps = [
            Step::Come(1, gives, takes),
            Step::Come(1, SPEAKS, &Takes::All),
            Step::Turns(*turns),
            Step::Client(0, *is_open, line, *lines),
            Step::Read(0, *reads),
            Step::Client(1, true, NAMED, Some(turns.0 as usize)),
        ];
        play(rt, alloc, &steps);
    }
}

const ANSWERS_IN_PIECES: [Row; 3] = [
    (
        (TWO, &Takes::Some(3), NAMED),
        (3, 1, false, None),
        (true, None, 1),
    ),
    (
        (TWO, &Takes::Some(3), NAMED),
        (20, 1, false, None),
        (true, Some(2), 14),
    ),
    // Sixteen lines of 255 bytes.
    (
        (&[Gives::Most, Gives::Nothing], &Takes::All, BAD_LINE),
        (3, 1, false, None),
        (true, Some(16), 3),
    ),
];

const BROKEN_CONNECTIONS: [Row; 2] = [
    (
        (&[Gives::Text("name a\n"), Gives::Reset], &Takes::All, NAMED),
        (5, 1, false, None),
        (false, Some(1), 2),
    ),
    (
        (ONE, &Takes::Fails(4), NAMED),
        (5, 1, false, None),
        (false, None, 1),
    ),
];

const LINES_BEFORE_AN_END: [Row; 3] = [
    (
        (ENDS, &Takes::All, NAMED),
        (1, 1, false, None),
        (true, Some(16), 1),
    ),
    (
        (ENDS, &Takes::All, NAMED),
        (9, 1, false, None),
        (false, Some(40), 3),
    ),
    (
        (ENDS, &Takes::Some(7), NAMED),
        (200, 1, false, None),
        (false, Some(40), 3),
    ),
];

const SENDS_ON: [Row; 2] = [
    (
        (SPEAKS, &Takes::All, NAMED),
        (2_000, 1, false, None),
        (true, Some(2_000), 2_000),
    ),
    // Who takes nothing is read no further.
    (
        (&[Gives::Text(NAMES)], &Takes::Nothing, NAMED),
        (50, 1, false, None),
        (true, Some(0), 1),
    ),
];

const LONG_LINES: [Row; 3] = [
    (
        (FLOODS, &Takes::All, BYE),
        (300, 1, false, None),
        (false, Some(1), 255),
    ),
    // Who reads slowly is given its farewell.
    (
        (FLOODS, &Takes::Some(3), BYE),
        (5, 1, false, None),
        (true, None, 1),
    ),
    (
        (FLOODS, &Takes::Some(3), BYE),
        (300, 1, false, None),
        (false, Some(1), 255),
    ),
];

const SILENT_CLIENTS: [Row; 6] = [
    (
        (ONE, &Takes::All, NAMED),
        (100, 1, false, Some(100)),
        (true, Some(1), 100),
    ),
    (
        (ONE, &Takes::All, NAMED),
        (101, 1, false, Some(100)),
        (false, Some(1), 101),
    ),
    // A part of a line makes nobody less silent.
    (
        (PART, &Takes::All, NAMED),
        (101, 1, false, Some(100)),
        (false, Some(0), 101),
    ),
    (
        (PART_BEHIND, &Takes::All, NAMED),
        (101, 1, false, Some(100)),
        (false, Some(1), 101),
    ),
    // Who has answers to take is not, nor is anybody where no limit is set.
    (
        (ONE, &Takes::Nothing, NAMED),
        (200, 1, false, Some(100)),
        (true, Some(0), 1),
    ),
    (
        (ONE, &Takes::All, NAMED),
        (200, 1, false, None),
        (true, Some(1), 200),
    ),
];

const LISTS_ONE_A_TURN: [Row; 2] = [
    (
        (ASKS, &Takes::All, LISTED),
        (7, 1, false, None),
        (true, Some(7), 1),
    ),
    (
        (ASKS, &Takes::All, LISTED),
        (50, 1, false, None),
        (true, Some(40), 11),
    ),
];

// What has come is read before a client counts as silent, also where it is passed over for as long as all is calm. A
// server that was held up for long reads first.
const SENT_AND_NOT_SILENT: [Row; 3] = [
    (
        (AGAIN, &Takes::All, NAMED),
        (4, 100, true, Some(150)),
        (true, Some(2), 4),
    ),
    (
        (AGAIN, &Takes::All, NAMED),
        (6, 100, true, Some(150)),
        (false, Some(2), 5),
    ),
    (
        (SPEAKS, &Takes::All, NAMED),
        (4, 1_000_000, false, Some(150)),
        (true, Some(4), 4),
    ),
];

// Sixteen lines, the one that is left before a line that asks for much, each of those alone, and no part of a line.
const LINES_IN_PORTIONS: [Row; 5] = [
    (
        (PORTIONS, &Takes::All, NO_GAME),
        (1, 1, false, None),
        (true, Some(16), 1),
    ),
    (
        (PORTIONS, &Takes::All, NO_GAME),
        (2, 1, false, None),
        (true, Some(17), 1),
    ),
    (
        (PORTIONS, &Takes::All, NO_GAME),
        (3, 1, false, None),
        (true, Some(18), 1),
    ),
    (
        (PORTIONS, &Takes::All, NO_GAME),
        (4, 1, false, None),
        (true, Some(19), 1),
    ),
    (
        (PORTIONS, &Takes::All, NO_GAME),
        (5, 1, false, None),
        (true, Some(19), 2),
    ),
];

// A request of HTTP, whole and in pieces, and a handshake of TLS are closed unanswered; a request behind another line
// is a line.
const OTHER_PROTOCOLS: [Row; 4] = [
    (
        (
            &[
                Gives::Text("POST / HTTP/1.1\r\n\r\nname a\n"),
                Gives::Nothing,
            ],
            &Takes::All,
            NAMED,
        ),
        (3, 1, false, None),
        (false, Some(0), 1),
    ),
    (
        (
            &[
                Gives::Text("POST / HT"),
                Gives::Text("TP/1.1"),
                Gives::Text("\nname a\n"),
                Gives::Nothing,
            ],
            &Takes::All,
            NAMED,
        ),
        (5, 1, false, None),
        (false, Some(0), 3),
    ),
    (
        (&[Gives::Text("\x16"), Gives::Nothing], &Takes::All, NAMED),
        (3, 1, false, None),
        (false, Some(0), 1),
    ),
    (
        (
            &[Gives::Text("x\nPOST / HTTP/1.1\n"), Gives::Nothing],
            &Takes::All,
            BAD_LINE,
        ),
        (3, 1, false, None),
        (true, Some(2), 3),
    ),
];

static ALL: [&[Row]; 10] = [
    &OTHER_PROTOCOLS,
    &ANSWERS_IN_PIECES,
    &BROKEN_CONNECTIONS,
    &LINES_BEFORE_AN_END,
    &SENDS_ON,
    &LONG_LINES,
    &SILENT_CLIENTS,
    &LISTS_ONE_A_TURN,
    &SENT_AND_NOT_SILENT,
    &LINES_IN_PORTIONS,
];

#[test]
fn each_is_served_so_beside_another(rt: HostRuntime) {
    for rows in &ALL {
        check_all(&rt, rt.alloc(), rows);
    }
}
