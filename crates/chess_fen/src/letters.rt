ghost use Rattle.std.specs.Prelude.{◌≡◌, ◌≤◌, if◌then◌else◌, slice_index};
ghost use Rattle.chess_bits.specs.Square.{Square, IsOnBoard, number_of};
ghost use Rattle.chess_bits.specs.Table.{has};
ghost use Rattle.chess_board.specs.Position.{man_at};
ghost use Rattle.chess_notation.specs.Name.{capital_of};
ghost use Rattle.chess_notation.specs.Fen.{AreLetters, letter_or_zero};

use chess_bits::{Bits, Colour, Kind, Square};
use chess_board::Men;

// Puts a letter on each square of a set.
fn mark(letters: &mut [u8; 64], squares: Bits, letter: u8)
    ensures { (s : Square) → IsOnBoard s → slice_index letters.new (number_of s) ≡
        (if has squares s then letter else slice_index letters.old (number_of s)) }
{
    for square in squares.iter() {
        letters[usize::from(square.number())] = letter;
    }
}

/// The letters of the men by the numbers of their squares, and 0 on empty squares (PGN Standard, section 16.1.3.1).
pub fn letters_of(men: &Men) -> [u8; 64]
    ensures { AreLetters result men.now }
{
    let mut letters = [0; 64];
    mark(&mut letters, men.of_man(Colour::White, Kind::Pawn), b'P');
    mark(&mut letters, men.of_man(Colour::White, Kind::Knight), b'N');
    mark(&mut letters, men.of_man(Colour::White, Kind::Bishop), b'B');
    mark(&mut letters, men.of_man(Colour::White, Kind::Rook), b'R');
    mark(&mut letters, men.of_man(Colour::White, Kind::Queen), b'Q');
    mark(&mut letters, men.of_man(Colour::White, Kind::King), b'K');
    mark(&mut letters, men.of_man(Colour::Black, Kind::Pawn), b'p');
    mark(&mut letters, men.of_man(Colour::Black, Kind::Knight), b'n');
    mark(&mut letters, men.of_man(Colour::Black, Kind::Bishop), b'b');
    mark(&mut letters, men.of_man(Colour::Black, Kind::Rook), b'r');
    mark(&mut letters, men.of_man(Colour::Black, Kind::Queen), b'q');
    mark(&mut letters, men.of_man(Colour::Black, Kind::King), b'k');
    letters
}

/// The letter of the man on a square, and 0 for none.
pub fn letter_at(men: &Men, square: Square) -> u8
    ensures { result ≡ letter_or_zero (man_at men.now square) }
{
    match men.man_at(square) {
        None => 0,
        Some((Colour::White, kind)) => capital(kind),
        Some((Colour::Black, kind)) => capital(kind) + 32,
    }
}

// The letter of a white man.
fn capital(kind: Kind) -> u8
    ensures letter { result ≡ capital_of kind }
    ensures short { result ≤ 82 }
{
    match kind {
        Kind::Pawn => b'P',
        Kind::Knight => b'N',
        Kind::Bishop => b'B',
        Kind::Rook => b'R',
        Kind::Queen => b'Q',
        Kind::King => b'K',
    }
}
