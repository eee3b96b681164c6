ghost use Rattle.std.specs.Prelude.{◌≡◌, ◌≢◌, ◌↔◌, IsTrue, Some, None, true};
ghost use Rattle.chess_bits.specs.declared.men.Kind.TheVariants as kinds;
ghost use Rattle.chess_bits.specs.Square.{Square, IsOnBoard};
ghost use Rattle.chess_bits.specs.Table.{has};
ghost use Rattle.chess_board.specs.declared.moves.Move.{Move};
ghost use Rattle.chess_board.specs.Position.{man_at};
ghost use Rattle.chess_board.specs.Legal.{IsLegal};
ghost use Rattle.chess_moves.specs.Targets.{plain};
ghost use Rattle.chess_notation.specs.San.{IsRival, IsOn, HasRival, Disambiguates};

use chess_attacks::{bishop, knight, queen, rook};
use chess_bits::{Bits, Kind, Square};
use chess_board::{Board, Move};
use chess_moves::legal;
use chess_notation::{Among, Origin};

/// Squares with men of the side to move and the kind, among them all from which a legal move goes to the square. It
/// looks outward from that square: a piece attacks it from where a piece of that kind on it would attack.
pub fn sources(board: &Board, kind: Kind, to: Square) -> Bits
    ensures own { (s : Square) → has result s ≡ true →
        man_at board.now.placement s ≡ Some (board.now.side, kind) }
    ensures all { (m : Move) → IsLegal board.now m →
        man_at board.now.placement m.from ≡ Some (board.now.side, kind) → m.to ≡ to →
        has result m.from ≡ true }
{
    let _on_board = to.number();
    let own = board.men().of_man(board.side(), kind);
    let occupied = board.men().occupied();
    match kind {
        Kind::Pawn | Kind::King => own,
        Kind::Knight => own.meet(knight(to)),
        Kind::Bishop => own.meet(bishop(to, occupied)),
        Kind::Rook => own.meet(rook(to, occupied)),
        Kind::Queen => own.meet(queen(to, occupied)),
    }
}

// Whether the second square is on the board, or on the file or the rank of the first.
fn is_on(among: Among, a: Square, b: Square) -> bool
    ensures { IsTrue result ↔ IsOn among a b }
{
    match among {
        Among::Board => true,
        Among::File => b.file() == a.file(),
        Among::Rank => b.rank() == a.rank(),
    }
}

// Whether a man of the moving piece's kind, on a square that is looked at, may go where the piece goes.
fn is_rival(board: &Board, mv: &Move, among: Among, from: Square) -> bool
    requires { man_at board.now.placement from ≡ man_at board.now.placement mv.now.from }
    ensures { IsTrue result ↔
        (IsRival board.now mv.now (plain from mv.now.to) × IsOn among mv.now.from from) }
{
    let left = mv.from;
    let rival = Move {
        from,
        to: mv.to,
        promotion: None,
    };
    from.number() != left.number() && is_on(among, left, from) && legal(board, rival)
}

// Whether another piece of the kind, of those that are looked at, may go to the same square.
fn has_rival(board: &Board, mv: &Move, kind: Kind, among: Among) -> bool
    requires piece { kind ≢ kinds.Pawn }
    requires own { man_at board.now.placement mv.now.from ≡ Some (board.now.side, kind) }
    ensures { IsTrue result ↔ HasRival board.now mv.now among }
{
    for from in sources(board, kind, mv.to).iter() {
        if is_rival(board, mv, among, from) {
            return true;
        }
    }
    false
}

/// What tells a piece's move from those of other pieces of its kind to the same square (PGN Standard, section 8.2.3.4).
pub fn origin_of(board: &Board, mv: &Move, kind: Kind) -> Origin
    requires piece { kind ≢ kinds.Pawn }
    requires own { man_at board.now.placement mv.now.from ≡ Some (board.now.side, kind) }
    ensures { Disambiguates board.now mv.now result }
{
    if !has_rival(board, mv, kind, Among::Board) {
        Origin::Nothing
    } else if !has_rival(board, mv, kind, Among::File) {
        Origin::File
    } else if !has_rival(board, mv, kind, Among::Rank) {
        Origin::Rank
    } else {
        Origin::Square
    }
}
