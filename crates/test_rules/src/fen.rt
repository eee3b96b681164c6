//! FENs that are read and written again. The faults of others are in the stored run of `perft` and in `surface`.
use chess_fen::{fen_read, fen_write};

static TEXTS: [&str; 4] = [
    "rnbqkbnr/pppppppp/8/8/8/8/PPPPPPPP/RNBQKBNR w KQkq - 0 1",
    "rnbqkbnr/pppppppp/8/8/4P3/8/PPPP1PPP/RNBQKBNR b KQkq e3 0 1",
    "r3k2r/p1ppqpb1/bn2pnp1/3PN3/1p2P3/2N2Q1p/PPPBBPPP/R3K2R w Kq - 65535 65535",
    "8/2p5/3p4/KP5r/1R3p1k/8/4P1P1/8 w - - 0 1",
];

#[test]
fn reads_what_it_writes(rt: HostRuntime) {
    for text in &TEXTS {
        assert!(rt; fen_write(&fen_read(text).expect(&rt, "a FEN")).as_str() == *text);
    }
}
