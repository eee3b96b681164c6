//! `chess_board`: boards of parts, and what follows a move.
use chess_bits::{Colour, Kind, Square};
use chess_board::{BadBoard, Board, Move, Parts};
use chess_moves::legal;

// Both kings and a black rook on e8, with White to move from e1.
fn checked(fullmove: u16) -> Parts {
    let mut men: [Option<(Colour, Kind)>; 64] = [None; 64];
    men[4] = Some((Colour::White, Kind::King));
    men[56] = Some((Colour::Black, Kind::King));
    men[60] = Some((Colour::Black, Kind::Rook));
    Parts {
        men,
        side: Colour::White,
        rights: Board::initial().rights(),
        target: None,
        halfmove: 0,
        fullmove,
    }
}

// The order in which a board's faults are looked for.
fn place(fault: BadBoard) -> u8 {
    match fault {
        BadBoard::Kings => 0,
        BadBoard::Pieces => 1,
        BadBoard::Pawns => 2,
        BadBoard::Check => 3,
        BadBoard::Rights => 4,
        BadBoard::Target => 5,
        BadBoard::Counter => 6,
    }
}

#[test]
fn parts_of_no_board(rt: HostRuntime) {
    let made: Result<Board, BadBoard> = Board::try_new(checked(0));
    assert!(rt; place(made.err().expect(&rt, "a fault")) == 4);
}

// 1. e4 from the initial position.
#[test]
fn a_board_after_a_move(rt: HostRuntime) {
    let mv = Move {
        from: Square::at(5, 2),
        to: Square::at(5, 4),
        promotion: None,
    };
    let start = Board::initial();
    assert!(rt; legal(&start, mv) && start.halfmove() < 65_535 && start.fullmove() < 65_535);
    let board: Board = start.apply(mv);
    assert!(rt; board.piece_at(mv.to) == Some((Colour::White, Kind::Pawn)));
    assert!(rt; board.side() == Colour::Black && board.target() == Some(Square::at(5, 3)));
    assert!(rt; [board.halfmove(), board.fullmove()] == [0, 1] && !board.in_check());
}
