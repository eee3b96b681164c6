ghost use Rattle.std.specs.Prelude.{◌≡◌, ◌==◌, nat_lt, ◌≤◌, ◌<◌, ◌+◌, ◌*◌, ◌^◌, ℕ, List, Some, None, IfSome, IfNone};
ghost use Rattle.std.specs.Prelude.{length, slice_index_or};
ghost use Rattle.std.specs.List.{flat_map, list_all, AllByRecursion};
ghost use Rattle.byteorder.specs.Endian.{little_bytes};
ghost use Rattle.chess_bits.specs.Square.{IsOnBoard};
ghost use Rattle.chess_board.specs.declared.moves.Move.{Move};
ghost use Rattle.rec_codec.specs.Moves.{CanBecome, IsStorable, IsMoveList, promotion_number, promotion_of, move_code};
ghost use Rattle.rec_codec.specs.Moves.{move_of, codes_of, are_codes};

use byteorder::{ByteOrder, LittleEndian};
use chess_bits::{Kind, Square};
use chess_board::Move;
use std::marker::Model;

/// A move as records keep it: any two squares and, for a promotion, a knight, bishop, rook or queen
/// (FIDE article 3.7.3.3). Castling is the king's move.
#[derive(Clone, Copy)]
pub struct StoredMove {
    code: u16,
}

impl Model for StoredMove {
    ghost use Rattle.chess_board.specs.declared.moves.Move.{Move};

    ghost Value = { Move };

    ghost use Rattle.std.proofs.Common.{ap, ℕ};
    ghost use Rattle.rec_codec.specs.Moves.{move_code, move_of, IsMoveCode, move_code-move_of};
    ghost use Rattle.rec_codec.specs.declared.moves.StoredMove.TheInside.{Inside};

    ghost view = { λ s. move_of s.code };

    ghost invariant = { λ s. IsMoveCode s.code };

    ghost inverse = { λ m. record { code = move_code m } };

    ghost inverse_ok = { λ a h. ap (λ (n : ℕ). let i : Inside = record { code = n } in i)
        (move_code-move_of a.code h) };
}

// The number of a promotion.
fn promotion_number(promotion: Option<Kind>) -> u16
    ensures number { result ≡ promotion_number promotion }
    ensures few { result ≤ 4 }
{
    match promotion {
        Some(Kind::Knight) => 1,
        Some(Kind::Bishop) => 2,
        Some(Kind::Rook) => 3,
        Some(Kind::Queen) => 4,
        _ => 0,
    }
}

// What a pawn becomes by its number.
fn promotion_of(number: u16) -> Option<Kind>
    ensures { result ≡ promotion_of number }
{
    match number {
        1 => Some(Kind::Knight),
        2 => Some(Kind::Bishop),
        3 => Some(Kind::Rook),
        4 => Some(Kind::Queen),
        _ => None,
    }
}

// The number of a move.
fn move_code(mv: Move) -> u16
    ensures code { result ≡ move_code mv }
    ensures few { result < 20480 }
    ensures from { IsOnBoard mv.from }
    ensures to { IsOnBoard mv.to }
{
    let from = u16::from(mv.from.number());
    let to = u16::from(mv.to.number());
    from + 64 * to + 4096 * promotion_number(mv.promotion)
}

impl StoredMove {
    /// The move as it is kept; it may make no pawn a king or a pawn.
    pub fn new(mv: Move) -> StoredMove
        requires { CanBecome mv.promotion }
        ensures { result ≡ mv }
    {
        StoredMove {
            code: move_code(mv),
        }
    }

    /// The move.
    pub fn get(self) -> Move
        ensures mv { result ≡ self }
        ensures storable { IsStorable self }
    {
        Move {
            from: Square::new((self.code % 64) as u8),
            to: Square::new((self.code / 64 % 64) as u8),
            promotion: promotion_of(self.code / 4096),
        }
    }

    /// The move of a number; `None` of a number that is no move's.
    pub fn from_code(code: u16) -> Option<StoredMove>
        ensures read { (m : Move) → IsStorable m → code ≡ move_code m → result ≡ Some m }
        ensures own { (m : Move) → result ≡ Some m → code ≡ move_code m }
    {
        if code < 20_480 {
            Some(StoredMove { code })
        } else {
            None
        }
    }

    /// The move's number.
    pub fn code(self) -> u16
        ensures code { result ≡ move_code self }
        ensures storable { IsStorable self }
    {
        self.code
    }
}

/// A list of 1 to 60 moves, as a record of a snapshot keeps it.
#[derive(Clone, Copy)]
pub struct MoveList {
    count: u8,
    codes: [u16; 60],
}

impl Model for MoveList {
    ghost use Rattle.std.specs.Prelude.{List};
    ghost use Rattle.chess_board.specs.declared.moves.Move.{Move};

    ghost Value = { List Move };

    ghost use Rattle.rec_codec.specs.MovesInside.{moves_of, inside_of, IsSound};

    ghost view = { moves_of };

    ghost invariant = { IsSound };

    ghost inverse = { inside_of };

    ghost inverse_ok = { λ _ sound. sound.same };
}

// The numbers of moves in 60 places, with zeros after the last.
fn codes_of(moves: &[Move]) -> [u16; 60]
    requires few { length moves.now ≤ 60 }
    ensures codes { result ≡ codes_of moves.now }
    ensures on_board { AllByRecursion (λ m. IsOnBoard m.from × IsOnBoard m.to) moves.now }
{
    let mut codes = [0; 60];
    for (i, mv) in moves.iter().enumerate() {
        codes[i] = move_code(*mv);
    }
    codes
}

// Whether each number is a move's.
fn are_move_codes(codes: &[u16]) -> bool
    ensures { result ≡ list_all (λ code. nat_lt code 20480) codes.now }
{
    codes.iter().all(|code| *code < 20_480)
}

// Whether each number is 0.
fn are_zeros(codes: &[u16]) -> bool
    ensures { result ≡ list_all (λ code. code == 0) codes.now }
{
    codes.iter().all(|code| *code == 0)
}

// Whether the numbers are those of so many moves, with zeros after the last.
fn are_codes(count: u8, codes: &[u16; 60]) -> bool
    requires { count ≤ 60 }
    ensures { result ≡ are_codes count codes.now }
{
    let (front, rest) = codes.split_at(count as usize);
    are_move_codes(front) && are_zeros(rest)
}

impl MoveList {
    /// The list of 1 to 60 moves; none may make a pawn a king or a pawn.
    pub fn new(moves: &[Move]) -> MoveList
        requires some { 1 ≤ length moves.now }
        requires few { length moves.now ≤ 60 }
        requires promotions { AllByRecursion (λ m. CanBecome m.promotion) moves.now }
        ensures { result ≡ moves.now }
    {
        MoveList {
            count: moves.len() as u8,
            codes: codes_of(moves),
        }
    }

    /// How many moves there are, 1 to 60.
    pub fn len(&self) -> u8
        ensures len { result ≡ length self.now }
        ensures list { IsMoveList self.now }
    {
        self.count
    }

    /// The move at a place, from 0.
    pub fn get(&self, place: usize) -> Move
        requires { place < length self.now }
        ensures { result ≡ slice_index_or self.now place result }
    {
        let codes = &self.codes;
        let code = codes[place];
        Move {
            from: Square::new((code % 64) as u8),
            to: Square::new((code / 64 % 64) as u8),
            promotion: promotion_of(code / 4096),
        }
    }

    /// The list of so many moves that a field's 120 bytes hold, if they hold one.
    pub fn from_field(count: u8, field: &[u8]) -> Option<MoveList>
        requires { length field.now ≡ 120 }
        ensures { (list : List Move) → IsMoveList list → count ≡ length list →
            field.now ≡ flat_map (little_bytes 2) (codes_of list) → result ≡ Some list }
    {
        let mut codes = [0; 60];
        LittleEndian::read_u16_into(field, &mut codes);
        if 1 <= count && count <= 60 && are_codes(count, &codes) {
            Some(MoveList { count, codes })
        } else {
            None
        }
    }

    /// Writes the field's 120 bytes.
    pub fn write(&self, field: &mut [u8])
        requires { length field.old ≡ 120 }
        ensures bytes { field.new ≡ flat_map (little_bytes 2) (codes_of self.now) }
        ensures list { IsMoveList self.now }
    {
        LittleEndian::write_u16_into(&self.codes, field);
    }
}
