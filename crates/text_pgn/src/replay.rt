//! A replay of a game, by which `line G` is answered: a part at a time.
ghost use Rattle.std.specs.Prelude.{ℕ, suc, ◌≡◌, ◌+◌, ◌<◌, List, length, map, IfOk, OnOk, IfSome, IfNone};
ghost use Rattle.std.specs.Bool.{OnTrue, OnFalse};
ghost use Rattle.std.specs.String.{string_bytes};
ghost use Rattle.chess_board.specs.declared.moves.Move.{Move};
ghost use Rattle.chess_board.specs.Position.{Position};
ghost use Rattle.text_pgn.specs.Game.{Plays, NoStart, TellsNone};
ghost use Rattle.text_pgn.specs.Replaying.{left, IsUnderWay, IsUnplayed, Goes, StopsWithin, IsPart};

use crate::game_words::{start_of, words_of};
use crate::rows::{head_text, push_row};
use chess_board::{Board, Move};
use chess_san::read;
use std::alloc::{AllocError, Global};
use text_parts::parts;

/// What a part of a replay brings.
#[derive(Drop)]
pub enum Part {
    /// More moves are left.
    More(Replay),
    /// The whole answer.
    Whole(String),
    /// A word names no move: the text tells no game.
    NoGame,
}

/// A replay of a game: the position so far, the words of its PGN, how many of them were played, and the answer so far.
#[derive(Drop)]
pub struct Replay {
    board: Board,
    words: Vec<String>,
    at: usize,
    text: String,
}

// The legal move that a word names, where both counters have room for it.
fn named(board: &Board, word: &str) -> Option<Move>
    ensures some { IfSome result (Plays board.now word.now) }
    ensures one { IfSome result (λ m. (other : Move) → Plays board.now word.now other → other ≡ m) }
    ensures none { IfNone result ((m : Move) → ¬ Plays board.now word.now m) }
{
    if board.halfmove() < u16::MAX && board.fullmove() < u16::MAX {
        read(board, word)
    } else {
        None
    }
}

// These words, each in memory of its own.
fn owned(alloc: Global, words: &[&str]) -> Result<Vec<String>, AllocError>
    ensures { IfOk result (λ all. map string_bytes all.items ≡ map (λ word. word.now) words.now) }
{
    let mut all = Vec::new(alloc);
    for word in words {
        all.push(String::from_str(alloc, word)?)?;
    }
    Ok(all)
}

impl Replay {
    /// Begins with the start of a game of this number, by the lines of its PGN, each with its line feed, without the
    /// server's line `ok pgn G K` in front, and plays nothing yet. `None` just where its start is no valid position. It
    /// fails where memory is refused.
    pub fn begin(alloc: Global, game: u32, pgn: &str) -> Result<Option<Replay>, AllocError>
        ensures some { IfOk result (λ begun. IfSome begun (IsUnderWay game pgn.now)) }
        ensures unplayed { IfOk result (λ begun. IfSome begun IsUnplayed) }
        ensures none { IfOk result (λ begun. IfNone begun (NoStart pgn.now)) }
    {
        let lines = parts(alloc, pgn, '\n')?;
        let Some(board) = start_of(lines.as_slice()) else {
            return Ok(None);
        };
        let named = words_of(alloc, lines.as_slice())?;
        let words = owned(alloc, named.as_slice())?;
        let text = head_text(alloc, game, words.len(), &board)?;
        Ok(Some(Replay {
            board,
            words,
            at: 0,
            text,
        }))
    }

    /// How many words are left.
    pub fn left(&self) -> usize
        ensures { result ≡ left self.now }
    {
        self.words.len().saturating_sub(self.at)
    }

    // Plays the next word and puts its row, and tells whether it names a move.
    fn step(&mut self) -> Result<bool, AllocError>
        requires { self.old.at < length self.old.words.items }
        ensures goes { IfOk result (λ moved. OnTrue moved (Goes self.old self.new)) }
        ensures stops { IfOk result (λ moved. OnFalse moved ((game : ℕ) (pgn : List ℕ) →
            IsUnderWay game pgn self.old → TellsNone pgn)) }
        ensures stuck { IfOk result (λ moved. OnFalse moved ((n : ℕ) → StopsWithin (suc n) self.old)) }
    {
        let Some(mv) = named(&self.board, self.words[self.at].as_str()) else {
            return Ok(false);
        };
        let after = self.board.apply(mv);
        self.at += 1;
        push_row(&mut self.text, self.at, &self.board, &mv, &after)?;
        self.board = after;
        Ok(true)
    }

    /// Plays so many words at most, as many as are left. Whatever the parts, the answer is that of the whole game:
    /// `ok line G K`, and K + 1 lines `N SAN MOVE FEN`, each with its line feed. It fails where memory is refused.
    pub fn play(self, most: usize) -> Result<Part, AllocError>
        ensures { (game : ℕ) (pgn : List ℕ) → IsUnderWay game pgn self → IfOk result (IsPart game pgn most self) }
    {
        let mut replay = self;
        let count = replay.left().min(most);
        for _ in 0..count {
            if !replay.step()? {
                return Ok(Part::NoGame);
            }
        }
        if replay.left() > 0 {
            Ok(Part::More(replay))
        } else {
            Ok(Part::Whole(replay.text))
        }
    }
}
