//! A law of the definitions that the contracts cite.
ghost use Rattle.chess_sockets.specs.Laws.{LawOfShortAnswers};

/// The law that a line which does not ask for much, as a turn tells such lines apart, is answered by one line: so a
/// portion of 16 brings 16 lines at most. It does nothing when it runs.
pub fn law_of_short_answers()
    ensures { LawOfShortAnswers }
{}
