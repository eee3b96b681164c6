//! Boards of parts. What else breaks the conditions of a board is in the stored run of `perft`. How a game starts is
//! settled by the clauses of `Board::initial`: the stored run of `test_player` has its FEN, and that of `chess_server`
//! the one after 1. e4.
use bitflags::Flags;
use chess_bits::Colour::{Black, White};
use chess_bits::Kind;
use chess_board::{BadBoard, Board, CastlingRights, Parts};

// Kings and rooks at home, and each flag of castling set, also those that mean nothing.
fn at_home(fullmove: u16) -> Parts {
    let mut men = [None; 64];
    men[0] = Some((White, Kind::Rook));
    men[4] = Some((White, Kind::King));
    men[7] = Some((White, Kind::Rook));
    men[56] = Some((Black, Kind::Rook));
    men[60] = Some((Black, Kind::King));
    men[63] = Some((Black, Kind::Rook));
    Parts {
        men,
        side: White,
        rights: CastlingRights::from_bits_retain(255),
        target: None,
        halfmove: 0,
        fullmove,
    }
}

// No game has a move 0, and unknown flags are left out.
#[test]
fn parts_make_a_board_or_not(rt: HostRuntime) {
    let is_refused = matches!(Board::try_new(at_home(0)), Err(BadBoard::Counter));
    assert!(rt; is_refused);
    let board = Board::try_new(at_home(1)).expect(&rt, "a board");
    assert!(rt; board.rights().bits() == 15);
}
