//! `chess_attacks`: the squares that a man attacks.
use chess_attacks::{bishop, king, knight, pawn, queen, ray, rook};
use chess_bits::{Bits, Colour, Square};

// How many squares a man that slides attacks from a square, as a rook, a bishop and a queen.
fn slides(from: Square, occupied: Bits) -> [u32; 3] {
    let attacked: [Bits; 3] = [
        rook(from, occupied),
        bishop(from, occupied),
        queen(from, occupied),
    ];
    [
        attacked[0].count(),
        attacked[1].count(),
        attacked[2].count(),
    ]
}

// From e4, on a board with a man on e6.
#[test]
fn squares_that_men_attack(rt: HostRuntime) {
    let e4 = Square::at(5, 4);
    let mut occupied = Bits::new();
    occupied.insert(Square::at(5, 6));
    assert!(rt; slides(e4, occupied) == [12, 13, 25]);
    assert!(rt; [knight(e4).count(), king(e4).count()] == [8, 8]);
    assert!(rt; [pawn(Colour::White, e4).count(), ray(e4, 0).count()] == [2, 4]);
}
