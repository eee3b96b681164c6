ghost use Rattle.std.specs.Prelude.{◌≡◌, ℕ, List, ◌+◌, ◌≤◌, ◌<◌, [], ◌∷◌, ◌++◌, length, decimal};
ghost use Rattle.arrayvec.specs.ArrayString.{array_string_len};
ghost use Rattle.chess_bits.specs.Square.{IsOnBoard};
ghost use Rattle.chess_board.specs.RightsOf.{rights_of};
ghost use Rattle.chess_notation.specs.Name.{square_name};
ghost use Rattle.chess_notation.specs.Fen.{rank_of, row_text, run_text, placement_text, side_letter, letter_if};
ghost use Rattle.chess_notation.specs.Fen.{rights_text, target_text, fen_of, IsFenOf, AreLetters};

use crate::letters::letters_of;
use arrayvec::ArrayString;
use bitflags::Flags;
use chess_bits::{Colour, Square};
use chess_board::{Board, CastlingRights, Men};
use itoa::Buffer;

/// Room for a FEN, which has at most 93 bytes: 64 men, 7 strokes, 17 bytes of other fields and 5 spaces.
pub type FenText = ArrayString<96>;

/// Appends an ASCII character.
pub fn push(text: &mut FenText, character: char)
    requires ascii { character < 128 }
    requires room { array_string_len text.old < 96 }
    ensures bytes { text.new.bytes ≡ text.old.bytes ++ character ∷ [] }
    ensures len { array_string_len text.new ≡ array_string_len text.old + 1 }
{
    text.push(character);
}

// Appends the digit of a run of empty squares, if there is one.
fn push_run(text: &mut FenText, empty: u8)
    requires run { empty ≤ 8 }
    requires room { array_string_len text.old < 96 }
    ensures bytes { text.new.bytes ≡ text.old.bytes ++ run_text empty }
    ensures len { array_string_len text.new ≤ array_string_len text.old + empty }
    ensures one { array_string_len text.new ≤ array_string_len text.old + 1 }
{
    if empty > 0 {
        // The bound lets the compiler see one byte of text.
        push(text, char::from(b'0' + empty.min(8)));
    }
}

/// Appends the text of a rank, from the letters on its squares. The men stand in the contract alone.
pub fn push_rank(text: &mut FenText, _men: &Men, letters: &[u8; 64], rank: u8)
    requires letters { AreLetters letters.now _men.now }
    requires from { 1 ≤ rank }
    requires to { rank ≤ 8 }
    requires room { array_string_len text.old + 8 < 96 }
    ensures bytes { text.new.bytes ≡ text.old.bytes ++ row_text (rank_of _men.now rank) }
    ensures len { array_string_len text.new ≤ array_string_len text.old + 8 }
{
    let mut empty = 0;
    for file in 1..9 {
        let letter = letters[usize::from(Square::at(file, rank).number())];
        if letter == 0 {
            empty += 1;
        } else {
            push_run(text, empty);
            // The bound lets the compiler see one byte of text.
            push(text, char::from(letter.min(127)));
            empty = 0;
        }
    }
    push_run(text, empty);
}

/// The text of the ranks from 8 down to 1.
pub fn placement(men: &Men) -> FenText
    ensures bytes { result.bytes ≡ placement_text men.now }
    ensures len { array_string_len result ≤ 71 }
{
    let letters = letters_of(men);
    let mut text = ArrayString::new();
    push_rank(&mut text, men, &letters, 8);
    for rank in (1..8).rev() {
        push(&mut text, '/');
        push_rank(&mut text, men, &letters, rank);
    }
    text
}

// Appends `w` or `b`.
fn push_side(text: &mut FenText, side: Colour)
    requires room { array_string_len text.old < 96 }
    ensures bytes { text.new.bytes ≡ text.old.bytes ++ side_letter side ∷ [] }
    ensures len { array_string_len text.new ≡ array_string_len text.old + 1 }
{
    match side {
        Colour::White => push(text, 'w'),
        Colour::Black => push(text, 'b'),
    }
}

// Appends a right's letter, if there is the right.
fn push_right(text: &mut FenText, right: bool, letter: char)
    requires ascii { letter < 128 }
    requires room { array_string_len text.old < 96 }
    ensures bytes { text.new.bytes ≡ text.old.bytes ++ letter_if right letter }
    ensures len { array_string_len text.new ≤ array_string_len text.old + 1 }
{
    if right {
        push(text, letter);
    }
}

// Appends the letters of the rights that are left.
fn push_letters(text: &mut FenText, rights: CastlingRights)
    requires room { array_string_len text.old + 4 ≤ 96 }
    ensures bytes { text.new.bytes ≡ text.old.bytes ++ (letter_if (rights_of rights).white_king 75
        ++ (letter_if (rights_of rights).white_queen 81 ++ (letter_if (rights_of rights).black_king 107
        ++ letter_if (rights_of rights).black_queen 113))) }
    ensures len { array_string_len text.new ≤ array_string_len text.old + 4 }
{
    push_right(text, rights.contains(CastlingRights::WHITE_KING), 'K');
    push_right(text, rights.contains(CastlingRights::WHITE_QUEEN), 'Q');
    push_right(text, rights.contains(CastlingRights::BLACK_KING), 'k');
    push_right(text, rights.contains(CastlingRights::BLACK_QUEEN), 'q');
}

/// Appends the letters of the rights that are left, or `-`.
pub fn push_rights(text: &mut FenText, rights: CastlingRights)
    requires room { array_string_len text.old + 4 ≤ 96 }
    ensures bytes { text.new.bytes ≡ text.old.bytes ++ rights_text (rights_of rights) }
    ensures len { array_string_len text.new ≤ array_string_len text.old + 4 }
{
    let start = text.len();
    push_letters(text, rights);
    if text.len() == start {
        push(text, '-');
    }
}

// Appends the target's name, or `-`.
fn push_target(text: &mut FenText, target: Option<Square>)
    requires room { array_string_len text.old + 2 ≤ 96 }
    ensures bytes { text.new.bytes ≡ text.old.bytes ++ target_text target }
    ensures len { array_string_len text.new ≤ array_string_len text.old + 2 }
{
    match target {
        Some(square) => {
            push(text, char::from(b'`' + square.file()));
            push(text, char::from(b'0' + square.rank()));
        }
        None => push(text, '-'),
    }
}

// Appends a space and a number.
fn push_number(text: &mut FenText, number: u16)
    requires room { array_string_len text.old + 6 ≤ 96 }
    ensures bytes { text.new.bytes ≡ text.old.bytes ++ 32 ∷ decimal number }
    ensures len { array_string_len text.new ≤ array_string_len text.old + 6 }
{
    push(text, ' ');
    let mut buffer = Buffer::new();
    text.push_str(buffer.format(number));
}

/// Appends the other five fields to a placement.
pub fn push_fields(text: &mut FenText, board: &Board)
    requires placement { text.old.bytes ≡ placement_text board.now.placement }
    requires room { array_string_len text.old ≤ 71 }
    ensures { text.new.bytes ≡ fen_of board.now }
{
    push(text, ' ');
    push_side(text, board.side());
    push(text, ' ');
    push_rights(text, board.rights());
    push(text, ' ');
    push_target(text, board.target());
    push_number(text, board.halfmove());
    push_number(text, board.fullmove());
}

/// The board's position in Forsyth-Edwards notation (PGN Standard, section 16.1), in its one spelling. It never fails.
pub fn fen_write(board: &Board) -> ArrayString<96>
    ensures fen { IsFenOf result.bytes board.now }
    ensures text { result.bytes ≡ fen_of board.now }
    ensures one_text { (text : List ℕ) → IsFenOf text board.now → text ≡ result.bytes }
{
    let mut text = placement(board.men());
    push_fields(&mut text, board);
    text
}
