//! `chess_table`: a table, what commands meet on it, and the table as records.
use arrayvec::ArrayString;
use chess_bits::Colour;
use chess_entry::{Command, Limits, Name, Verdict};
use chess_hub::{Line, parse};
use chess_table::{
    Game, Reply, Table, TableFault, Times, act_line, answer, enter, entry_record, judge,
    record_entry, refusal_line,
};
use rec_codec::{Record, Version, write_record};
use std::alloc::{AllocError, Global};
use std::process::Abort;

// Both knights go out and back twice; then each side claims wrongly, White with a move.
static ROWS: [(&str, u64, &str, &str); 14] = [
    ("ann", 1_000, "open white 300 0", "ok open 1"),
    ("bob", 1_000, "join 1", "ok join 1 black"),
    ("ann", 1_000, "move 1 0 Nf3", "ok move 1 1 Nf3"),
    ("bob", 1_000, "move 1 1 Nf6", "ok move 1 2 Nf6"),
    ("ann", 1_000, "move 1 2 Ng1", "ok move 1 3 Ng1"),
    ("bob", 1_000, "move 1 3 Ng8", "ok move 1 4 Ng8"),
    ("ann", 1_000, "move 1 4 Nf3", "ok move 1 5 Nf3"),
    ("bob", 1_000, "move 1 5 Nf6", "ok move 1 6 Nf6"),
    ("ann", 1_000, "move 1 6 Ng1", "ok move 1 7 Ng1"),
    ("bob", 1_000, "move 1 7 Ng8", "ok move 1 8 Ng8"),
    ("ann", 5_000, "claim 1 8 fifty e4", "ok claim 1 wrong 9 e4"),
    ("bob", 6_000, "claim 1 9 three", "ok claim 1 wrong"),
    ("bob", 6_000, "claim 1 9 fifty", "no 13 AlreadyClaimed"),
    (
        "bob",
        6_000,
        "show 1",
        "ok show 1 ann bob 9 b 416000 419000 wb * -",
    ),
];

fn command(rt: &impl Abort, who: &str, at: u64, line: &str) -> Command {
    let act = match parse(line.as_bytes()) {
        Some(Line::Act(act)) => act,
        _ => panic!(rt; "no act"),
    };
    Command {
        at,
        who: Name::try_new(who),
        act,
    }
}

// The line that answers a command, which is entered where it becomes an entry.
fn answered(rt: &impl Abort, table: &mut Table, command: &Command) -> ArrayString<160> {
    match judge(table, command) {
        Verdict::Refuse(refusal) => refusal_line(refusal),
        Verdict::Read => {
            let answered: Result<Reply, AllocError> = answer(table, command);
            let reply = answered.expect(rt, "memory");
            assert!(rt; reply.body.is_empty());
            reply.line
        }
        Verdict::Enter(entry) => {
            let line = act_line(table, command, &entry);
            assert!(rt; record_entry(&entry_record(&entry)).is_some());
            assert!(rt; table.entries() < u64::MAX);
            let entered: Result<(), AllocError> = enter(table, entry);
            assert!(rt; entered.is_ok());
            line
        }
    }
}

// Who plays a game, and what was offered and claimed.
fn check_players(rt: &impl Abort, game: &Game) {
    let white = game.player(Colour::White).expect(rt, "a player");
    assert!(rt; white.as_str() == "ann" && game.number().get() == 1);
    let marks = [
        game.offers(Colour::White),
        game.offers(Colour::Black),
        game.claimed(),
    ];
    assert!(rt; marks == [true, true, true] && game.ending().is_none());
}

// Its start, its times, and what each side held as the turn began.
fn check_times(rt: &impl Abort, game: &Game) {
    let times: Times = game.times();
    let period: Option<(u32, u32)> = times.period;
    assert!(rt; times.initial == 300 && times.increment == 0 && period.is_none());
    let held: [u32; 2] = [game.held(Colour::White), game.held(Colour::Black)];
    assert!(rt; held == [416_000, 420_000] && game.start().fullmove() == 1);
}

// What is seen of the one game of a table.
fn check_game(rt: &impl Abort, table: &Table) {
    let counts = (table.games(), table.entries());
    assert!(rt; counts == (1, 12) && table.moment() == 6_000 && table.last() == 1);
    let game = table.game_at(0).expect(rt, "a game");
    assert!(rt; game.moves().len() == 9 && game.moment() == 5_000);
    let left: [u32; 2] = [
        game.left(Colour::White, 6_000),
        game.left(Colour::Black, 6_000),
    ];
    assert!(rt; left == [416_000, 419_000]);
    check_players(rt, game);
    check_times(rt, game);
}

// Of these three records the head has the flags 31.
fn check_records(rt: &impl Abort, records: &[Record]) {
    assert!(rt; records.len() == 3);
    assert!(rt; write_record(&records[1])[1] == 31);
}

// For 8 games.
fn widen(rt: &impl Abort, table: &mut Table) {
    let more = Limits {
        games: 8,
        plies: 60,
    };
    let limits: Limits = table.limits();
    assert!(rt; limits.games <= 8 && limits.plies <= 60 && more.is_in_range(Version::Two));
    table.widen(more);
}

// Why no table is read.
fn place(fault: TableFault) -> u8 {
    match fault {
        TableFault::Damaged => 0,
        TableFault::NoMemory => 1,
    }
}

// The records of a game stand behind one of the table.
fn check_damaged(rt: &impl Abort, alloc: Global, limits: Limits, records: &[Record]) {
    assert!(rt; records.len() == 3 && limits.is_in_range(Version::Two));
    let none: Result<Table, TableFault> = Table::from_records(alloc, limits, &records[1..], &[]);
    assert!(rt; place(none.err().expect(rt, "a fault")) == 0);
}

#[test]
fn a_table_and_its_records(rt: HostRuntime) {
    let limits = Limits {
        games: 4,
        plies: 60,
    };
    assert!(rt; limits.is_in_range(Version::Two));
    let mut table = Table::new(rt.alloc(), limits);
    for (who, at, line, wanted) in &ROWS {
        let asked = command(&rt, who, *at, line);
        assert!(rt; answered(&rt, &mut table, &asked).as_str() == *wanted);
    }
    check_game(&rt, &table);
    widen(&rt, &mut table);
    let written: Result<Vec<Record>, AllocError> = table.to_records();
    let records = written.expect(&rt, "memory");
    check_records(&rt, &records);
    let made: Result<Table, TableFault> = Table::from_records(rt.alloc(), limits, &records, &[]);
    check_game(&rt, &made.ok().expect(&rt, "a table"));
    check_damaged(&rt, rt.alloc(), limits, &records);
}
