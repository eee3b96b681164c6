//! What the Laws of Chess say of a result on which no legal move may bear: a flag that fell, or a resignation, where
//! the opponent cannot mate (FIDE articles 6.9 and 5.1.2), and a position in which nobody can mate (5.2.2). It decides
//! nothing: an arbiter does.
use crate::outcomes::Ended;
use crate::tags::tags_in;
use chess_bits::Colour;
use chess_board::{Board, Move};
use chess_fen::fen_read;
use chess_mates::{Answer, Reason, decide};
use chess_moves::after_legal;
use chess_san::{rewound, write};
use std::alloc::{AllocError, Global};
use text_pgn::line_answer;

/// Whether a side can mate.
#[derive(Drop)]
pub enum FoundOut {
    /// By these legal moves of both sides, in SAN.
    Mates(String),
    Cannot(Reason),
    /// It was not found out.
    Unknown,
}

/// What the Laws ask of a game, and what was found out.
#[derive(Drop)]
pub struct Law {
    pub game: u32,
    /// `6.9` or `5.1.2`, by which it was won; `5.2.2` of one that goes on.
    pub article: &'static str,
    /// Who has won, and would have to be able to mate; none of one that goes on, in which neither side can.
    pub side: Option<Colour>,
    pub found: FoundOut,
}

// The board behind the last move of a game, by the last line `N SAN MOVE FEN` of its positions.
fn board_in(lines: &str) -> Option<Board> {
    let last = match lines.rsplit_once('\n') {
        Some((_, last)) => last,
        None => lines,
    };
    let (_, rest) = last.split_once(' ')?;
    let (_, rest) = rest.split_once(' ')?;
    let (_, fen) = rest.split_once(' ')?;
    fen_read(fen).ok()
}

// The board behind the last move of a PGN. None where not both sides made a move, from the initial position on: whoever
// could mate, such a game is lost by who did not come (6.7), or is not rated, and one that goes on is not dead.
fn last_board(alloc: Global, pgn: &str) -> Result<Option<Board>, AllocError> {
    if !tags_in(alloc, pgn)?.is_played() {
        return Ok(None);
    }
    match line_answer(alloc, 0, pgn)? {
        Some(answer) => Ok(board_in(answer.as_str().trim_end())),
        None => Ok(None),
    }
}

// Moves in SAN, up to one that is not legal.
fn line_text(alloc: Global, board: &Board, moves: &[Move]) -> Result<String, AllocError> {
    let mut text = String::new(alloc);
    let mut at = *board;
    for mv in moves {
        if at.halfmove() >= u16::MAX {
            return Ok(text);
        }
        if at.fullmove() >= u16::MAX {
            return Ok(text);
        }
        let Some(after) = after_legal(&at, *mv) else {
            return Ok(text);
        };
        if !text.is_empty() {
            text.push(' ')?;
        }
        text.push_str(write(&at, *mv).as_str())?;
        at = after;
    }
    Ok(text)
}

// Why a side cannot mate.
fn reason_text(reason: Reason) -> &'static str {
    match reason {
        Reason::KingAlone => "it has its king alone",
        Reason::DeadMaterial => "no such men ever mate",
        Reason::Searched => "each position that can still come was looked at",
    }
}

// What was found out of a win of a side by this article, on time or since the other resigned.
fn of_win(
    alloc: Global,
    game: u32,
    board: &Board,
    side: Colour,
    article: &'static str,
) -> Result<Law, AllocError> {
    let found = match decide(alloc, board, side)? {
        Answer::Mates(moves) => {
            FoundOut::Mates(line_text(alloc, &rewound(board), moves.as_slice())?)
        }
        Answer::Cannot(reason) => FoundOut::Cannot(reason),
        Answer::Unknown => FoundOut::Unknown,
    };
    Ok(Law {
        game,
        article,
        side: Some(side),
        found,
    })
}

// That nobody can mate in a position, where it was found out.
fn dead(alloc: Global, game: u32, board: &Board) -> Result<Option<Law>, AllocError> {
    if let Answer::Cannot(_) = decide(alloc, board, Colour::White)?
        && let Answer::Cannot(reason) = decide(alloc, board, Colour::Black)?
    {
        return Ok(Some(Law {
            game,
            article: "5.2.2",
            side: None,
            found: FoundOut::Cannot(reason),
        }));
    }
    Ok(None)
}

/// Whether the Laws may say something of what came of a game: it was won on time or by a resignation, or goes on.
pub fn is_asked(ended: &Ended) -> bool {
    matches!(ended.article.as_str(), "6.9" | "5.1.2" | "")
}

/// What the Laws ask of a game that was won on time or by a resignation, and what was found out; of one that goes on,
/// where neither side can mate. None else, where not both sides made a move in it, and where the PGN has no game.
pub fn law_of(
    alloc: Global,
    game: u32,
    pgn: &str,
    ended: &Ended,
) -> Result<Option<Law>, AllocError> {
    let Some(board) = last_board(alloc, pgn)? else {
        return Ok(None);
    };
    let law = match (ended.article.as_str(), ended.result.as_str()) {
        ("6.9", "1-0") => of_win(alloc, game, &board, Colour::White, "6.9")?,
        ("6.9", "0-1") => of_win(alloc, game, &board, Colour::Black, "6.9")?,
        ("5.1.2", "1-0") => of_win(alloc, game, &board, Colour::White, "5.1.2")?,
        ("5.1.2", "0-1") => of_win(alloc, game, &board, Colour::Black, "5.1.2")?,
        ("", "*") => return dead(alloc, game, &board),
        _ => return Ok(None),
    };
    Ok(Some(law))
}

/// What is said of it; nothing where the result stands.
pub fn said_by_law(alloc: Global, law: &Law) -> Result<Option<String>, AllocError> {
    let article = law.article;
    let Some(side) = law.side else {
        let told = "by the Laws a draw (5.2.2): neither side can mate by any legal moves";
        return Ok(Some(String::from_str(alloc, told)?));
    };
    let name = match side {
        Colour::White => "White",
        Colour::Black => "Black",
    };
    match &law.found {
        FoundOut::Mates(_) => Ok(None),
        FoundOut::Cannot(reason) => {
            let why = reason_text(*reason);
            Ok(Some(format!(in alloc;
                "by the Laws a draw ({article}): {name} cannot mate by any legal moves, since {why}"
            )?))
        }
        FoundOut::Unknown => Ok(Some(format!(in alloc;
            "whether {name} could still mate by any legal moves ({article}) was not found out"
        )?)),
    }
}
