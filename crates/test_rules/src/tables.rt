//! A table whose limits are raised while games are played.
use chess_bits::Colour::White;
use chess_entry::{Act, Command, Name, Refusal, Text, Verdict};
use chess_table::{Table, enter, judge};
use rec_codec::{Limits, Version};
use std::process::Abort;

/// What is asked for.
enum Asked {
    Open,
    Join,
    Move(u32, &'static str),
}

fn act_of(rt: &impl Abort, asked: &Asked) -> Act {
    match asked {
        Asked::Open => Act::NewGame {
            colour: White,
            initial: 60,
            increment: 0,
            fen: None,
            period: None,
        },
        Asked::Join => Act::Join { game: 1 },
        Asked::Move(ply, text) => Act::Play {
            game: 1,
            ply: *ply,
            text: Text::from(text).ok().expect(rt, "a text"),
        },
    }
}

// Why an act is refused, if it is; an entry is tested and entered.
fn refusal(rt: &impl Abort, table: &mut Table, who: &str, asked: &Asked) -> Option<Refusal> {
    let command = Command {
        at: 1_000,
        who: Some(Name::try_new(who).expect(rt, "a name")),
        act: act_of(rt, asked),
    };
    match judge(table, &command) {
        Verdict::Refuse(refusal) => Some(refusal),
        Verdict::Read => None,
        Verdict::Enter(entry) => {
            assert!(rt; table.would_enter(&entry) && table.entries() < u64::MAX);
            assert!(rt; enter(table, entry).is_ok());
            None
        }
    }
}

/// Who asks for what, and why it is refused, if it is.
type Row = (&'static str, Asked, Option<Refusal>);

static WITHIN_ONE: [Row; 5] = [
    ("ann", Asked::Open, None),
    ("bob", Asked::Join, None),
    ("ann", Asked::Move(0, "e4"), None),
    ("bob", Asked::Move(1, "e5"), Some(Refusal::TooLong)),
    ("cyd", Asked::Open, Some(Refusal::TooManyGames)),
];

static WIDENED: [Row; 2] = [
    ("bob", Asked::Move(1, "e5"), None),
    ("cyd", Asked::Open, None),
];

// Whether an act was refused as a row says.
fn is_wanted(found: Option<Refusal>, wanted: Option<Refusal>) -> bool {
    matches!(
        (found, wanted),
        (None, None)
            | (Some(Refusal::TooLong), Some(Refusal::TooLong))
            | (Some(Refusal::TooManyGames), Some(Refusal::TooManyGames))
    )
}

fn check_rows(rt: &impl Abort, table: &mut Table, rows: &[Row]) {
    for (who, asked, wanted) in rows {
        assert!(rt; is_wanted(refusal(rt, table, who, asked), *wanted));
    }
}

#[test]
fn limits_hold_until_they_are_widened(rt: HostRuntime) {
    let mut limits = Limits { games: 1, plies: 1 };
    assert!(rt; limits.is_in_range(Version::Two));
    let mut table = Table::new(rt.alloc(), limits);
    check_rows(&rt, &mut table, &WITHIN_ONE);
    limits = table.limits();
    assert!(rt; limits.games <= 2 && limits.plies <= 60);
    table.widen(Limits {
        games: 2,
        plies: 60,
    });
    check_rows(&rt, &mut table, &WIDENED);
    assert!(rt; table.games() == 2);
    drop(table);
}
