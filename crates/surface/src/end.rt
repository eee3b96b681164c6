//! `chess_end`: how games end.
use chess_bits::Colour;
use chess_end::{
    Article, Ending, GameResult, after_move, claim_fifty, claim_three, flag_result, is_listed_dead,
};
use chess_text::fen_read;

/// A position after a move, how often it stood, how long nothing was taken and no pawn moved, and what follows.
type Row = (&'static str, u32, u32, Option<(GameResult, Article)>);

static AFTER: [Row; 6] = [
    (
        "R6k/8/6K1/8/8/8/8/8 b - - 150 90",
        5,
        150,
        Some((GameResult::White, Article::A511)),
    ),
    (
        "7k/5Q2/8/8/8/8/8/K7 b - - 1 1",
        1,
        1,
        Some((GameResult::Draw, Article::A521)),
    ),
    (
        "7k/8/8/8/8/8/1K6/8 b - - 0 1",
        5,
        0,
        Some((GameResult::Draw, Article::A522)),
    ),
    (
        "7k/8/5K2/8/8/8/8/R7 b - - 150 90",
        5,
        150,
        Some((GameResult::Draw, Article::A961)),
    ),
    (
        "7k/8/5K2/8/8/8/8/R7 b - - 150 90",
        4,
        150,
        Some((GameResult::Draw, Article::A962)),
    ),
    ("7k/8/5K2/8/8/8/8/R7 b - - 149 90", 4, 149, None),
];

fn told(ending: Option<Ending>) -> Option<(GameResult, Article)> {
    match ending {
        None => None,
        Some(Ending { result, article }) => Some((result, article)),
    }
}

#[test]
fn endings_after_moves(rt: HostRuntime) {
    for (text, times, quiet, wanted) in &AFTER {
        let board = fen_read(text).expect(&rt, "a FEN");
        assert!(rt; told(after_move(&board, *times, *quiet)) == *wanted);
    }
}

// Whether a game is drawn by its ending.
fn is_drawn(ending: Ending) -> bool {
    match ending.article {
        Article::A511 | Article::A512 => false,
        Article::A521 | Article::A522 | Article::A523 => true,
        Article::A69 => ending.result == GameResult::Draw,
        Article::A92 | Article::A93 | Article::A961 | Article::A962 => true,
    }
}

#[test]
fn claims_material_and_flags(rt: HostRuntime) {
    let claims: [bool; 4] = [
        claim_three(2),
        claim_three(3),
        claim_fifty(99),
        claim_fifty(100),
    ];
    assert!(rt; claims == [false, true, false, true]);
    let dead = fen_read("4kb2/8/8/8/8/8/8/2B1K3 w - - 0 1").expect(&rt, "a FEN");
    let alive = fen_read("2b1k3/8/8/8/8/8/8/2B1K3 w - - 0 1").expect(&rt, "a FEN");
    assert!(rt; is_listed_dead(&dead) && !is_listed_dead(&alive));
    let bare = fen_read("7k/8/8/8/8/8/Q7/K7 w - - 0 1").expect(&rt, "a FEN");
    let ending: Ending = flag_result(&bare, Colour::White);
    assert!(rt; is_drawn(ending) && ending.article == Article::A69);
}
