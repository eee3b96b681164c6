ghost use Rattle.chess_answer.specs.Acts.{LawOfComing};

/// The law that what `game_line` asks can be met: of every entry that may come on a table, an opening is of no game
/// that stands there, and each other entry is of one, in which a move that it tells may be made. It does nothing when
/// it runs.
pub fn law_of_coming()
    ensures { LawOfComing }
{}
