//! Legal moves that no text names, and whether there are any. How many moves known positions have is in the stored run
//! of `perft`, and which moves are refused in that of `test_player`.
use chess_bits::{Kind, Square};
use chess_board::Move;
use chess_fen::fen_read;
use chess_moves::{count_moves, has_legal, legal, legal_moves};

// What a pawn that takes from a7 on b8 becomes, and whether it may.
static PROMOTIONS: [(Option<Kind>, bool); 5] = [
    (None, false),
    (Some(Kind::Queen), true),
    (Some(Kind::Knight), true),
    (Some(Kind::King), false),
    (Some(Kind::Pawn), false),
];

#[test]
fn pawn_on_the_last_rank_becomes_a_piece(rt: HostRuntime) {
    let board = fen_read("1r5k/P7/6K1/8/8/8/8/8 w - - 0 1").expect(&rt, "a FEN");
    for (promotion, may_be) in &PROMOTIONS {
        let takes = Move {
            from: Square::at(1, 7),
            to: Square::at(2, 8),
            promotion: *promotion,
        };
        assert!(rt; legal(&board, takes) == *may_be);
    }
}

// Positions, how many moves they have, and whether the king is in check: nine queens, a mate and a stalemate.
static COUNTED: [(&str, u32, bool); 3] = [
    (
        "R6R/3Q4/1Q4Q1/4Q3/2Q4Q/Q4Q2/pp1Q4/kBNN1KB1 w - - 0 1",
        218,
        false,
    ),
    ("8/8/8/8/8/6k1/6q1/6K1 w - - 0 1", 0, true),
    ("8/8/8/8/8/6q1/5k2/7K w - - 0 1", 0, false),
];

#[test]
fn moves_are_listed_and_counted(rt: HostRuntime) {
    for (text, count, is_check) in &COUNTED {
        let board = fen_read(text).expect(&rt, "a FEN");
        assert!(rt; legal_moves(&board).len() == *count as usize && count_moves(&board) == *count);
        assert!(rt; has_legal(&board) == (*count > 0) && board.in_check() == *is_check);
    }
}
