ghost use Rattle.std.specs.Prelude.{◌≡◌};
ghost use Rattle.chess_bits.specs.declared.men.Kind.TheVariants as kinds;
ghost use Rattle.chess_bits.specs.Table.{IsSetOf};
ghost use Rattle.chess_bits.specs.Attack.{Attacks};
ghost use Rattle.chess_board.specs.Position.{occupied_of};
ghost use Rattle.chess_board.specs.Legal.{IsPieceMove, Castles};
ghost use Rattle.chess_moves.specs.Targets.{plain as plain_move, GoesTo};

use crate::castling::castles;
use crate::pawns::pawn_targets;
use crate::squares::{men_of, only, plain};
use chess_attacks::{bishop, king, knight, pawn, queen, rook};
use chess_bits::{Bits, Kind, Square};
use chess_board::{Board, Wing, castled_king};

// The squares that a man of the side to move attacks.
pub fn attacked(board: &Board, from: Square, kind: Kind) -> Bits
    ensures { IsSetOf result (Attacks (occupied_of board.now.placement) board.now.side kind from) }
{
    let occupied = board.men().occupied();
    match kind {
        Kind::Pawn => pawn(board.side(), from),
        Kind::Knight => knight(from),
        Kind::Bishop => bishop(from, occupied),
        Kind::Rook => rook(from, occupied),
        Kind::Queen => queen(from, occupied),
        Kind::King => king(from),
    }
}

// The squares that a man attacks and that no own man holds (FIDE articles 3.1 to 3.6).
fn piece_targets(board: &Board, from: Square, kind: Kind) -> Bits
    ensures { IsSetOf result (λ to. IsPieceMove board.now (plain_move from to) kind) }
{
    attacked(board, from, kind).without(men_of(board, board.side()))
}

// The square that a king reaches by castling to the wing, if it may (FIDE article 3.8.2).
fn castling_target(board: &Board, from: Square, wing: Wing) -> Bits
    ensures { IsSetOf result (λ to. Castles board.now (plain_move from to) wing) }
{
    let to = castled_king(board.side(), wing);
    only(to, castles(board, &plain(from, to), wing))
}

// Where a king goes (FIDE article 3.8).
fn king_targets(board: &Board, from: Square) -> Bits
    ensures { IsSetOf result (GoesTo board.now kinds.King from) }
{
    let castled = castling_target(board, from, Wing::King).union(castling_target(
        board,
        from,
        Wing::Queen,
    ));
    piece_targets(board, from, Kind::King).union(castled)
}

// The squares to which a man of the kind may go, before the safety of its king is asked.
pub fn targets(board: &Board, from: Square, kind: Kind) -> Bits
    ensures { IsSetOf result (GoesTo board.now kind from) }
{
    match kind {
        Kind::Pawn => pawn_targets(board, from),
        Kind::King => king_targets(board, from),
        Kind::Knight | Kind::Bishop | Kind::Rook | Kind::Queen => piece_targets(board, from, kind),
    }
}
