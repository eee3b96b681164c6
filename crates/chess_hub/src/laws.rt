//! A law of the definitions that the contracts cite.
ghost use Rattle.chess_hub.specs.Law.{LawOfSessions};

/// The law that ties what the calls of a hub do, one by one, to the text of each session: whatever the calls, in any
/// order, there are a merged list of the lines that the turns took and answers to it, each by the verdict on the table
/// before; what an open session was given, with what it is given next, is its text, and one that was closed was given
/// the beginning of its own. It does nothing when it runs.
pub fn law_of_sessions()
    ensures { LawOfSessions }
{}
