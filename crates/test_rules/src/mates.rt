//! Whether a side can still mate: what is found of known endings. That a series that is told mates, and that there is
//! none where it is told so, the clauses of `chess_mates` settle.
use chess_bits::Colour;
use chess_fen::fen_read;
use chess_mates::{Answer, Reason, decide};

// What is answered.
fn name_of(answer: &Answer) -> &'static str {
    match answer {
        Answer::Mates(_) => "mates",
        Answer::Cannot(Reason::KingAlone) => "king alone",
        Answer::Cannot(Reason::DeadMaterial) => "dead material",
        Answer::Cannot(Reason::Searched) => "searched",
        Answer::Unknown => "unknown",
    }
}

// Positions, whether it is asked of White, and what is answered: with a queen against a knight, a rook against a
// bishop, a knight against a pawn, a knight against a knight and a pawn alone, of the initial position, of a wall of
// pawns that no king passes, of a stalemate, and of men that never mate.
static DECIDED: [(&str, bool, &str); 12] = [
    ("8/8/8/3K4/8/4k3/6Q1/3n4 b - - 0 1", true, "mates"),
    ("1b6/8/8/6R1/8/8/3k1K2/8 b - - 0 1", true, "mates"),
    ("8/8/8/2N5/6p1/7k/8/7K w - - 0 1", true, "mates"),
    ("8/8/8/7n/8/8/2K5/4kN2 b - - 0 1", true, "mates"),
    ("8/8/8/7P/8/2k1K3/8/8 b - - 0 1", true, "mates"),
    (
        "rnbqkbnr/pppppppp/8/8/8/8/PPPPPPPP/RNBQKBNR w KQkq - 0 1",
        true,
        "mates",
    ),
    (
        "8/4k3/1p1p1p1p/1P1P1P1P/8/3K4/8/8 w - - 0 1",
        true,
        "searched",
    ),
    (
        "8/4k3/1p1p1p1p/1P1P1P1P/8/3K4/8/8 w - - 0 1",
        false,
        "searched",
    ),
    ("7k/7P/7K/8/8/8/8/8 b - - 65535 65535", true, "searched"),
    ("8/8/8/7P/8/2k1K3/8/8 b - - 0 1", false, "king alone"),
    ("8/8/4k3/8/8/3K4/8/1N6 w - - 0 1", true, "dead material"),
    ("8/8/4k3/2b5/8/3K4/1B6/8 w - - 0 1", true, "dead material"),
];

#[test]
fn decides_who_can_mate(rt: HostRuntime) {
    for (text, is_white, answer) in &DECIDED {
        let board = fen_read(text).expect(&rt, "a FEN");
        let side = if *is_white {
            Colour::White
        } else {
            Colour::Black
        };
        let told = decide(rt.alloc(), &board, side).expect(&rt, "memory");
        assert!(rt; name_of(&told) == *answer);
    }
}
