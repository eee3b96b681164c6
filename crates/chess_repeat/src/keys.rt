ghost use Rattle.std.specs.Prelude.{◌≡◌, ◌+◌, ◌*◌, ◌<◌, ◌↔◌, IsTrue, Some, slice_index};
ghost use Rattle.chess_bits.specs.declared.men.Kind.TheVariants as kinds;
ghost use Rattle.chess_bits.specs.Square.{IsOnBoard, square_at, number_of};
ghost use Rattle.chess_bits.specs.Table.{IsSetOf};
ghost use Rattle.chess_bits.specs.Attack.{Reaches, pawn_attacks};
ghost use Rattle.chess_board.specs.declared.moves.Move.{Move};
ghost use Rattle.chess_board.specs.Position.{man_at, IsValid};
ghost use Rattle.chess_moves.specs.Targets.{plain as plain_move};
ghost use Rattle.chess_repeat.specs.SamePosition.{IsLegalEnPassant, HasLegalEnPassant, IsSamePosition};
ghost use Rattle.chess_repeat.specs.Key.{squares_of_kinds, code_at, men_byte, men_bytes, state_byte};
ghost use Rattle.chess_repeat.specs.Key.{side_bit, target_byte, is_live, key_of};

use chess_attacks::pawn;
use chess_bits::{Bits, Colour, Kind, Square};
use chess_board::{Board, Men, Move, Wing};
use chess_moves::legal;

// The squares with men of three kinds.
fn of_kinds(men: &Men, first: Kind, second: Kind, third: Kind) -> Bits
    ensures { result ≡ squares_of_kinds first second third men.now }
{
    let others = men.of_kind(second).union(men.of_kind(third));
    men.of_kind(first).union(others)
}

// The code of what stands on the square of a number: 0 for no man, 1 to 6 for a white one, 9 to 14 for a black one.
// Each bit is looked up in a set, since a processor seldom foresees which kind of man stands there.
fn code_at(board: &Board, number: u8) -> u8
    requires { number < 64 }
    ensures code { result ≡ code_at board.now.placement number }
    ensures below { result < 16 }
{
    let square = Square::new(number);
    let men = board.men();
    let ones = of_kinds(men, Kind::Pawn, Kind::Bishop, Kind::Queen).contains(square);
    let twos = of_kinds(men, Kind::Knight, Kind::Bishop, Kind::King).contains(square);
    let fours = of_kinds(men, Kind::Rook, Kind::Queen, Kind::King).contains(square);
    let black = men.of(Colour::Black).contains(square);
    u8::from(ones) + 2 * u8::from(twos) + 4 * u8::from(fours) + 8 * u8::from(black)
}

// The byte of two squares.
fn men_byte(board: &Board, pair: u8) -> u8
    requires { pair < 32 }
    ensures { result ≡ men_byte board.now.placement pair }
{
    code_at(board, 2 * pair) + 16 * code_at(board, 2 * pair + 1)
}

// The byte of the side to move and the castling rights.
fn state_byte(board: &Board) -> u8
    ensures { result ≡ state_byte board.now.side board.now.rights }
{
    let rights = board.rights();
    let side_bit = match board.side() {
        Colour::White => 0,
        Colour::Black => 1,
    };
    side_bit
        + 2 * u8::from(rights.allows(Colour::White, Wing::King))
        + 4 * u8::from(rights.allows(Colour::White, Wing::Queen))
        + 8 * u8::from(rights.allows(Colour::Black, Wing::King))
        + 16 * u8::from(rights.allows(Colour::Black, Wing::Queen))
}

// Whether a pawn of the side to move can legally take on the target: those that can are on the squares that a pawn of
// the opponent on the target attacks.
fn is_live(board: &Board, target: Square) -> bool
    requires { board.now.target ≡ Some target }
    ensures { result ≡ is_live board.now target }
{
    let _on_board = target.number();
    let side = board.side();
    let pawns = board.men().of_man(side, Kind::Pawn);
    for from in pawn(side.other(), target).meet(pawns).iter() {
        let mv = Move {
            from,
            to: target,
            promotion: None,
        };
        if legal(board, mv) {
            return true;
        }
    }
    false
}

// The byte of the target.
fn target_byte(board: &Board) -> u8
    ensures { result ≡ target_byte board.now }
{
    match board.target() {
        Some(target) if is_live(board, target) => target.number(),
        _ => 64,
    }
}

/// The key of a position, equal exactly for the same positions (FIDE article 9.2.3). Byte k, from 0 to 31, holds square
/// 2k in its low four bits and square 2k + 1 in its high four: 0 is no man, 1 to 6 are a white pawn, knight, bishop,
/// rook, queen and king, and 9 to 14 the black ones. Byte 32 has bit 0 for Black to move and bits 1 to 4 for the rights
/// K, Q, k and q. Byte 33 is the number of the en passant target where a capture there is legal, and else 64.
pub fn key(board: &Board) -> [u8; 34]
    ensures key { result ≡ key_of board.now }
    ensures live_target { (m : Move) → IsLegalEnPassant board.now m → slice_index result 33 ≡ number_of m.to }
    ensures dead_target { ¬ HasLegalEnPassant board.now → slice_index result 33 ≡ 64 }
{
    let _valid = board.rights();
    let mut bytes = [0; 34];
    for pair in 0..32_u8 {
        bytes[usize::from(pair)] = men_byte(board, pair);
    }
    bytes[32] = state_byte(board);
    bytes[33] = target_byte(board);
    bytes
}

/// The key of a position, by that of another: only where not the same stands the bytes are made anew, so that it is
/// soon done after a move.
pub fn key_from(before: &Board, known: &[u8; 34], board: &Board) -> [u8; 34]
    requires { known.now ≡ key_of before.now }
    ensures { result ≡ key_of board.now }
{
    let mut bytes = *known;
    for square in before.men().changes(board.men()).iter() {
        let pair = square.number() / 2;
        bytes[usize::from(pair)] = men_byte(board, pair);
    }
    bytes[32] = state_byte(board);
    bytes[33] = target_byte(board);
    bytes
}

/// Whether two positions are the same (FIDE article 9.2.3): equal sides to move, men, castling rights and legal
/// captures en passant. It compares their keys, which are equal exactly for the same positions.
pub fn is_same(first: &Board, second: &Board) -> bool
    ensures same { IsTrue result ↔ IsSamePosition first.now second.now }
    ensures keys { (key_of first.now ≡ key_of second.now) ↔ IsSamePosition first.now second.now }
{
    let _valid = (first.rights(), second.rights());
    key(first) == key(second)
}
