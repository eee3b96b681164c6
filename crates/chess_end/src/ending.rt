/// What a game gives: a side wins, or it is drawn (FIDE articles 5.1 and 5.2).
#[derive(Clone, Copy, PartialEq, Eq)]
pub enum GameResult {
    White,
    Black,
    Draw,
}

/// The article of the FIDE Laws of Chess (2023) by which a game ends.
#[derive(Clone, Copy, PartialEq, Eq)]
pub enum Article {
    /// 5.1.1: checkmate.
    A511,
    /// 5.1.2: a player resigns. The opponent wins, also with the king alone.
    A512,
    /// 5.2.1: stalemate.
    A521,
    /// 5.2.2: a dead position. Only listed material is found (`docs/design/LAWS.md`).
    A522,
    /// 5.2.3: the players agree on a draw.
    A523,
    /// 6.9: a player's time is over. It is a draw just where the opponent has the king alone.
    A69,
    /// 9.2: a player claims that the position has come at least three times.
    A92,
    /// 9.3: a player claims at least fifty moves of each side without a capture or a pawn move.
    A93,
    /// 9.6.1: the position has come at least five times, without a claim.
    A961,
    /// 9.6.2: at least 75 moves of each side without a capture or a pawn move, without a claim.
    A962,
}

/// How a game has ended: its result, and the article that gives it.
#[derive(Clone, Copy, PartialEq, Eq)]
pub struct Ending {
    pub result: GameResult,
    pub article: Article,
}
