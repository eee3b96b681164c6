/// Why a command is refused. After any refusal nothing has changed.
#[derive(Clone, Copy)]
pub enum Refusal {
    /// 1: the line has none of the forms of the protocol.
    BadLine,
    /// 2: the session has no name.
    NoName,
    /// 3: no game of the table has the number.
    NoGame,
    /// 4: who asks plays neither side.
    NotSeated,
    /// 5: a seat is empty.
    NotStarted,
    /// 6: the game is over.
    Over,
    /// 7: the game has another number of moves, which is told.
    WrongPly(u32),
    /// 8: the other side is to move.
    NotYourMove,
    /// 9: the text names no legal move.
    BadMove,
    /// 10: an offer stands.
    OfferStands,
    /// 11: no offer of the opponent stands.
    NoOffer,
    /// 12: not both sides have made a move (FIDE article 5.2.3).
    TooEarly,
    /// 13: who asks has claimed in this turn.
    AlreadyClaimed,
    /// 14: the flag has not fallen.
    FlagUp,
    /// 15: both seats are taken.
    Taken,
    /// 16: nobody plays against himself.
    SamePlayer,
    /// 17: the text is no FEN of a valid position, or its fullmove number is over 9,999.
    BadFen,
    /// 18: the times are out of range.
    BadTime,
    /// 19: the table has as many games as it may, or no number is left.
    TooManyGames,
    /// 20: the game has as many moves as it may.
    TooLong,
    /// 21: the game is joined and not over.
    NotOver,
    /// 22: memory was refused.
    NoMemory,
    /// 23: the moment is over 4,611,686,018,427,387,903.
    BadMoment,
    /// 24: the game would be over at its start.
    Finished,
}
