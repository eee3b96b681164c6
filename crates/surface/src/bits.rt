//! `chess_bits`: squares, colours, kinds and sets of squares.
use chess_bits::{Bits, Colour, Kind, Square};

// Both colours, and the six kinds. (A name that is not there is not compiled, and one too few is a match with a gap.)
fn value_of(kind: Kind) -> u32 {
    match kind {
        Kind::Pawn => 1,
        Kind::Knight | Kind::Bishop => 3,
        Kind::Rook => 5,
        Kind::Queen => 9,
        Kind::King => 0,
    }
}

fn is_first(colour: Colour) -> bool {
    match colour {
        Colour::White => true,
        Colour::Black => false,
    }
}

// a1 is 0, h1 is 7, h8 is 63.
#[test]
fn sets_of_squares(rt: HostRuntime) {
    let (mut ends, mut corners) = (Bits::new(), Bits::new());
    ends.insert(Square::new(63));
    ends.insert(Square::new(0));
    corners.insert(Square::at(8, 1));
    let all: Bits = ends.union(corners);
    let common: Bits = all.meet(ends);
    let counts: [u32; 3] = [all.count(), common.count(), corners.count()];
    assert!(rt; counts == [3, 2, 1]);
    let mut sum = 0_u8;
    for square in all.iter() {
        sum = sum.wrapping_add(square.number());
    }
    assert!(rt; sum == 70);
    ends.remove(Square::new(0));
    let first: Option<Square> = ends.first();
    assert!(rt; first == Some(Square::at(8, 8)));
    assert!(rt; value_of(Kind::Queen) == 9 && is_first(Colour::White));
}
