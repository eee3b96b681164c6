//! A board with its FEN at hand.
ghost use Rattle.std.specs.Prelude.{◌≡◌, ◌≤◌, ◌+◌, ◌++◌, ◌∷◌, ℕ, [], false, length};
ghost use Rattle.arrayvec.specs.ArrayString.{array_string_len};
ghost use Rattle.chess_bits.specs.Square.{Square, IsOnBoard};
ghost use Rattle.chess_bits.specs.Table.{has};
ghost use Rattle.chess_board.specs.Position.{man_at};
ghost use Rattle.chess_notation.specs.Fen.{rank_of, placement_text, fen_of, IsFenOf, AreLetters};
ghost use Rattle.chess_fen.specs.Shown.{IsFilled, filled_up, shown_part, IsRankText, AreRankTexts, TellsRanks};

use crate::fen::{FenText, push, push_fields, push_rank};
use crate::letters::{letter_at, letters_of};
use chess_bits::Bits;
use chess_board::{Board, Men};
use std::marker::Model;

// The text of a rank, filled up to eight bytes. So many are copied at once, and then cut.
#[derive(Clone, Copy)]
struct RankText {
    filled: FenText,
    end: usize,
}

/// A board and its FEN. It keeps the texts of its ranks, so that after a move only those are written anew on which a
/// man came or went.
#[derive(Drop)]
pub struct ShownBoard {
    board: Board,
    letters: [u8; 64],
    ranks: [RankText; 8],
    shown: FenText,
}

impl Model for ShownBoard {
    ghost use Rattle.chess_board.specs.Position.{Position};
    ghost use Rattle.std.specs.Prelude.{◌≡◌};
    ghost use Rattle.chess_notation.specs.Fen.{AreLetters, fen_of};
    ghost use Rattle.chess_fen.specs.Shown.{AreRankTexts};

    ghost Value = { Position };

    ghost view = { λ b. b.board };

    ghost invariant = { λ b. AreLetters b.letters b.board.placement × AreRankTexts b.ranks b.board.placement
        × (b.shown.bytes ≡ fen_of b.board) };
}

impl ShownBoard {
    /// The board, with the texts of its ranks.
    pub fn new(board: Board) -> ShownBoard
        ensures { result ≡ board }
    {
        let letters = letters_of(board.men());
        let ranks = rank_texts(board.men(), &letters);
        let mut shown = FenText::new();
        write_fen(&mut shown, &board, &ranks);
        ShownBoard {
            board,
            letters,
            ranks,
            shown,
        }
    }

    /// The board.
    pub fn board(&self) -> &Board
        ensures { result.now ≡ self.now }
    {
        &self.board
    }

    /// Takes another board in place of this one.
    pub fn set(&mut self, board: Board)
        ensures { self.new ≡ board }
    {
        let changed = self.board.men().changes(board.men());
        let touched = reletter(&mut self.letters, self.board.men(), board.men(), changed);
        renew_all(
            &mut self.ranks,
            self.board.men(),
            board.men(),
            &self.letters,
            &touched,
        );
        write_fen(&mut self.shown, &board, &self.ranks);
        self.board = board;
    }

    /// Its position in Forsyth-Edwards notation, as `fen_write` writes it.
    pub fn fen(&self) -> &str
        ensures fen { IsFenOf result.now self.now }
        ensures text { result.now ≡ fen_of self.now }
        ensures short { length result.now ≤ 96 }
    {
        self.shown.as_str()
    }
}

// Fills the text of a rank up, and tells where it ended.
fn fill(text: &mut FenText) -> usize
    requires { array_string_len text.old ≤ 8 }
    ensures end { result ≡ array_string_len text.old }
    ensures filled { text.new.bytes ≡ filled_up text.old.bytes }
{
    let end = text.len();
    text.push_str("////////");
    text.truncate(8);
    end
}

// The text of a rank.
fn rank_text(men: &Men, letters: &[u8; 64], rank: u8) -> RankText
    requires letters { AreLetters letters.now men.now }
    requires from { 1 ≤ rank }
    requires to { rank ≤ 8 }
    ensures { IsRankText result men.now rank }
{
    let mut filled = FenText::new();
    push_rank(&mut filled, men, letters, rank);
    let end = fill(&mut filled);
    RankText { filled, end }
}

// The texts of all ranks.
fn rank_texts(men: &Men, letters: &[u8; 64]) -> [RankText; 8]
    requires { AreLetters letters.now men.now }
    ensures { AreRankTexts result men.now }
{
    let mut texts = [rank_text(men, letters, 1); 8];
    for rank in 2..9 {
        texts[usize::from(rank) - 1] = rank_text(men, letters, rank);
    }
    texts
}

// Writes the letters on the squares that changed, and tells the ranks of these. The men before stand in the contract
// alone.
fn reletter(letters: &mut [u8; 64], _old: &Men, men: &Men, changed: Bits) -> [bool; 9]
    requires letters { AreLetters letters.old _old.now }
    requires changed { (s : Square) → has changed s ≡ false → man_at _old.now s ≡ man_at men.now s }
    ensures letters { AreLetters letters.new men.now }
    ensures touched { TellsRanks _old.now men.now result }
{
    let mut touched = [false; 9];
    for square in changed.iter() {
        letters[usize::from(square.number())] = letter_at(men, square);
        touched[usize::from(square.rank())] = true;
    }
    touched
}

// Writes the text of a rank anew, if something changed on it.
fn renew(
    text: &mut RankText,
    _old: &Men,
    men: &Men,
    letters: &[u8; 64],
    touched: &[bool; 9],
    rank: u8,
)
    requires text { IsRankText text.old _old.now rank }
    requires letters { AreLetters letters.now men.now }
    requires touched { TellsRanks _old.now men.now touched.now }
    requires from { 1 ≤ rank }
    requires to { rank ≤ 8 }
    ensures { IsRankText text.new men.now rank }
{
    if touched[usize::from(rank)] {
        text.filled.clear();
        push_rank(&mut text.filled, men, letters, rank);
        text.end = fill(&mut text.filled);
    }
}

// The same of all ranks.
fn renew_all(
    texts: &mut [RankText; 8],
    old: &Men,
    men: &Men,
    letters: &[u8; 64],
    touched: &[bool; 9],
)
    requires texts { AreRankTexts texts.old old.now }
    requires letters { AreLetters letters.now men.now }
    requires touched { TellsRanks old.now men.now touched.now }
    ensures { AreRankTexts texts.new men.now }
{
    for rank in 1..9 {
        renew(
            &mut texts[usize::from(rank) - 1],
            old,
            men,
            letters,
            touched,
            rank,
        );
    }
}

// Appends the text of a rank.
fn push_filled(text: &mut FenText, rank: &RankText)
    requires filled { IsFilled rank.now }
    requires room { array_string_len text.old + 8 ≤ 96 }
    ensures bytes { text.new.bytes ≡ text.old.bytes ++ shown_part rank.now }
    ensures len { array_string_len text.new ≤ array_string_len text.old + 8 }
{
    let end = text.len() + rank.end;
    // So many bytes are one word for the compiler.
    text.push_str(&rank.filled.as_str()[..8]);
    text.truncate(end);
}

// Writes the texts of the ranks from 8 down to 1, where nothing was.
fn push_ranks(text: &mut FenText, _men: &Men, texts: &[RankText; 8])
    requires nothing { text.old.bytes ≡ [] }
    requires texts { AreRankTexts texts.now _men.now }
    ensures bytes { text.new.bytes ≡ placement_text _men.now }
    ensures len { array_string_len text.new ≤ 71 }
{
    push_filled(text, &texts[7]);
    for rank in (1..8).rev() {
        push(text, '/');
        push_filled(text, &texts[rank - 1]);
    }
}

// Writes the FEN in place of what was.
fn write_fen(text: &mut FenText, board: &Board, ranks: &[RankText; 8])
    requires { AreRankTexts ranks.now board.now.placement }
    ensures { text.new.bytes ≡ fen_of board.now }
{
    text.clear();
    push_ranks(text, board.men(), ranks);
    push_fields(text, board);
}
