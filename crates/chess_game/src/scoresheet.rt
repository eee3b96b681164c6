ghost use Rattle.std.specs.Prelude.{◌≡◌, ◌<◌, [], ◌∷◌, ◌++◌, List, length, IfOk, OnOk, OnErr, IfSome, IfNone, ◌≤◌};
ghost use Rattle.chess_board.specs.declared.moves.Move.{Move};
ghost use Rattle.chess_board.specs.Next.{next};
ghost use Rattle.chess_board.specs.Legal.{IsLegal};
ghost use Rattle.chess_moves.specs.Moves.{HasLegal};
ghost use Rattle.chess_end.specs.declared.ending.GameResult.TheVariants as results;
ghost use Rattle.chess_end.specs.Ending.{IsEnding, IsRunning};
ghost use Rattle.chess_entry.specs.Outcome.{ending_after, is_granted};
ghost use Rattle.chess_entry.specs.Verdict.{is_finished_at};
ghost use Rattle.chess_entry.specs.Bounds.{IsStart, IsScoresheet, ending_by_last};
ghost use Rattle.chess_game.specs.Restored.{IsReplayed};
ghost use Rattle.chess_game.specs.Scoresheet.{ScoresheetState, last_of, times_of, HasRoom, with_move};

use chess_board::{Board, Move};
use chess_end::{
    Article, Ending, GameResult, after_move, claim_fifty, claim_three, is_listed_dead,
};
use chess_moves::after_legal;
use chess_repeat::History;
use std::alloc::{AllocError, Global};
use std::marker::Model;

/// Whether a game would be over at its start: by checkmate, stalemate, listed dead material, or 75 moves of each side
/// without a capture or a pawn move (FIDE articles 5.1.1, 5.2.1, 5.2.2 and 9.6.2).
pub fn is_finished(board: &Board) -> bool
    ensures { result ≡ is_finished_at board.now }
{
    after_move(board, 1, u32::from(board.halfmove())).is_some()
}

// A draw by an article.
fn drawn_by(article: Article) -> Ending
    ensures result { result.result ≡ results.Draw }
    ensures article { result.article ≡ article }
{
    Ending {
        result: GameResult::Draw,
        article,
    }
}

// What `after_move` tells of a board on which the side to move is known to have a legal move.
#[tactic(auto, using(crate::proofs::EndingLemmas::no_mate, crate::proofs::EndingLemmas::no_stalemate))]
fn after_move_in_play(board: &Board, times: u32) -> Option<Ending>
    requires { HasLegal board.now }
    ensures some { IfSome result (IsEnding board.now times board.now.halfmove) }
    ensures none { IfNone result (IsRunning board.now times board.now.halfmove) }
{
    if is_listed_dead(board) {
        Some(drawn_by(Article::A522))
    } else if times >= 5 {
        Some(drawn_by(Article::A961))
    } else if board.halfmove() >= 150 {
        Some(drawn_by(Article::A962))
    } else {
        None
    }
}

/// The start of a game and the moves made from it, with the position that they lead to and the history of all.
#[derive(Drop)]
pub struct Scoresheet {
    start: Board,
    board: Board,
    moves: Vec<Move>,
    history: History,
}

impl Model for Scoresheet {
    ghost use Rattle.chess_game.specs.Scoresheet.{ScoresheetState};
    ghost use Rattle.chess_game.specs.ScoresheetInside.{scoresheet_of, IsSoundScoresheet};

    ghost Value = { ScoresheetState };

    ghost view = { scoresheet_of };

    ghost invariant = { IsSoundScoresheet };
}

/// A line of moves that were handed in, and the ending that the last of them gives.
#[derive(Drop)]
pub struct Replayed {
    pub line: Scoresheet,
    pub by_line: Option<Ending>,
}

impl Scoresheet {
    /// The line of a start without a move. It fails where memory is refused.
    pub fn new(alloc: Global, start: &Board) -> Result<Scoresheet, AllocError>
        ensures { IfOk result (λ line. line ≡ record { start = start.now; moves = [] }) }
    {
        Ok(Scoresheet {
            start: *start,
            board: *start,
            moves: Vec::new(alloc),
            history: History::new(alloc, start)?,
        })
    }

    /// The line of these moves, and the ending that the last of them gives; `None` where a move is not legal or comes
    /// after one that ends the game. It fails where memory is refused. (Whether there is a legal move is asked behind
    /// the last move alone: behind each other one stands the next.)
    pub fn replay(
        alloc: Global,
        start: &Board,
        moves: &[Move],
    ) -> Result<Option<Replayed>, AllocError>
        requires start { IsStart start.now }
        requires short { length moves.now ≤ 20000 }
        ensures made { IfOk result (λ told. IfSome told
            (λ made. IsReplayed start.now moves.now made.line made.by_line)) }
        ensures none { IfOk result (λ told. IfNone told (¬ IsScoresheet start.now moves.now)) }
    {
        let mut line = Scoresheet::new(alloc, start)?;
        line.reserve(moves.len())?;
        let mut times = line.times();
        for mv in moves {
            let Some(board) = after_legal(line.board(), *mv) else {
                return Ok(None);
            };
            if line.ending_in_play(times).is_some() {
                return Ok(None);
            }
            times = line.place(mv, board)?;
        }
        let by_line = line.ending(times);
        Ok(Some(Replayed { line, by_line }))
    }

    // Makes room for so many more moves. It fails where memory is refused; all is as it was either way.
    fn reserve(&mut self, more: usize) -> Result<(), AllocError>
        ensures { self.new ≡ self.old }
    {
        self.moves.reserve(more)?;
        self.history.reserve(more)
    }

    // How often the last position has come.
    fn times(&self) -> u32
        ensures { result ≡ times_of self.now }
    {
        self.history.times(&self.board)
    }

    // The ending that the last move gave, behind which a legal one can follow.
    fn ending_in_play(&self, times: u32) -> Option<Ending>
        requires legal { HasLegal (last_of self.now) }
        requires times { times ≡ times_of self.now }
        ensures { result ≡ ending_by_last self.now.start self.now.moves }
    {
        if self.moves().is_empty() {
            None
        } else {
            after_move_in_play(&self.board, times)
        }
    }

    // The ending that the last move gave.
    fn ending(&self, times: u32) -> Option<Ending>
        requires { times ≡ times_of self.now }
        ensures { result ≡ ending_by_last self.now.start self.now.moves }
    {
        if self.moves().is_empty() {
            None
        } else {
            after_move(&self.board, times, u32::from(self.board.halfmove()))
        }
    }

    /// The position that the line starts from.
    pub fn start(&self) -> &Board
        ensures { result.now ≡ self.now.start }
    {
        &self.start
    }

    /// The position after all moves.
    pub fn board(&self) -> &Board
        ensures { result.now ≡ last_of self.now }
    {
        &self.board
    }

    /// The moves.
    pub fn moves(&self) -> &[Move]
        ensures { result.now ≡ self.now.moves }
    {
        &self.moves
    }

    /// Makes a legal move, and tells the ending that it gives, if it gives one. It fails where memory is refused, and
    /// then all is as it was.
    pub fn push(&mut self, mv: &Move) -> Result<Option<Ending>, AllocError>
        requires legal { IsLegal (last_of self.old) mv.now }
        requires room { HasRoom self.old }
        ensures pushed { OnOk result (self.new ≡ with_move self.old mv.now) }
        ensures ending { IfOk result (λ by_line. by_line ≡ ending_after self.new.start self.new.moves) }
        ensures refused { OnErr result (self.new ≡ self.old) }
    {
        let board = self.board.apply(*mv);
        self.push_with(mv, board)
    }

    // The same, where the board after the move is at hand.
    fn push_with(&mut self, mv: &Move, board: Board) -> Result<Option<Ending>, AllocError>
        requires made { board ≡ next (last_of self.old) mv.now }
        requires room { HasRoom self.old }
        ensures pushed { OnOk result (self.new ≡ with_move self.old mv.now) }
        ensures ending { IfOk result (λ by_line. by_line ≡ ending_after self.new.start self.new.moves) }
        ensures refused { OnErr result (self.new ≡ self.old) }
    {
        let times = self.place(mv, board)?;
        Ok(after_move(&board, times, u32::from(board.halfmove())))
    }

    // Makes a move, where the board after it is at hand, and tells how often that position has come.
    fn place(&mut self, mv: &Move, board: Board) -> Result<u32, AllocError>
        requires made { board ≡ next (last_of self.old) mv.now }
        requires room { HasRoom self.old }
        ensures pushed { OnOk result (self.new ≡ with_move self.old mv.now) }
        ensures times { IfOk result (λ n. n ≡ times_of self.new) }
        ensures refused { OnErr result (self.new ≡ self.old) }
    {
        self.moves.reserve(1)?;
        let times = self.history.push(&board)?;
        self.moves.push_reserved(*mv);
        self.board = board;
        Ok(times)
    }

    /// The ending that a legal move would give, if it would give one. The move is not made.
    pub fn ending_with(&self, mv: &Move) -> Option<Ending>
        requires legal { IsLegal (last_of self.now) mv.now }
        requires room { HasRoom self.now }
        ensures { result ≡ ending_after self.now.start (self.now.moves ++ mv.now ∷ []) }
    {
        let board = self.board.apply(*mv);
        after_move(
            &board,
            self.history.times(&board) + 1,
            u32::from(board.halfmove()),
        )
    }

    /// Whether a claim for the position that stands is correct: by the fifty-move rule (FIDE article 9.3), or else by a
    /// third occurrence (9.2).
    pub fn is_granted(&self, fifty: bool) -> bool
        ensures { result ≡ is_granted fifty self.now.start self.now.moves }
    {
        if fifty {
            claim_fifty(u32::from(self.board.halfmove()))
        } else {
            claim_three(self.history.times(&self.board))
        }
    }

    /// Whether a claim is correct for the position that a legal move would bring. The move is not made.
    pub fn is_granted_with(&self, fifty: bool, mv: Move) -> bool
        requires legal { IsLegal (last_of self.now) mv }
        requires room { HasRoom self.now }
        ensures { result ≡ is_granted fifty self.now.start (self.now.moves ++ mv ∷ []) }
    {
        let board = self.board.apply(mv);
        if fifty {
            claim_fifty(u32::from(board.halfmove()))
        } else {
            claim_three(self.history.times(&board) + 1)
        }
    }
}
