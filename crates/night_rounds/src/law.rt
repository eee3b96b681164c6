//! What is promised of texts.
ghost use Rattle.std.specs.Prelude.{◌≡◌, List, ℕ, true, Some, IfSome};
ghost use Rattle.night_rounds.specs.Times.{times_text, times_in, are_taken};
ghost use Rattle.night_rounds.specs.Notes.{NoteState, IsNote, note_text, note_in};
ghost use Rattle.night_rounds.specs.Runs.{Board, Standing, RunStep, IsBeginning, AreAllowed, HasOneGame, after_all};
ghost use Rattle.night_rounds.specs.declared.times.Times.{Times as GameTimes};

/// The text of times that the server takes is read as these times, and what is read as times is their text.
pub fn law_of_times()
    ensures back { (t : GameTimes) → are_taken t ≡ true → times_in (times_text t) ≡ Some t }
    ensures spelled { (text : List ℕ) → IfSome (times_in text) (λ t. (text ≡ times_text t) × (are_taken t ≡ true)) }
{}

/// The line of a note is read as that note.
pub fn law_of_notes()
    ensures { (n : NoteState) → IsNote n → note_in (note_text n) ≡ Some n }
{}

/// Whenever `start` is killed and given again, and whatever others do, `start` has one game at most opened for a board,
/// and where a game is noted as the board's, no other. The premises, all in `specs/Runs`:
///
/// - At first nothing is noted, no `start` runs, and none has opened a game for the board (`IsBeginning`).
/// - The board's players and times stay the same, and so do a game's times and first position (`Board`). The arbiter
///   says nothing.
/// - One `start` runs at a time, and what it says to have a game paired is done before anything else happens, or never
///   (`Acts`).
/// - A look has all games of the table (`looked`).
/// - What is noted as older is no newer than the games that were seen: what is newer than these is newer than it
///   (`IsDone`).
/// - A game that `start` opens has the board's times and the initial position, and is newer than all before it
///   (`IsDone`); and the table never has a game that is newer than all that were given (`IsBeginning`, `IsAllowed`).
/// - While `opening` is the last note, a game that `start` opened for the board stays on the table, and White in it
///   (`Stays`).
pub fn law_of_runs()
    ensures { (b : Board) (s : Standing) (events : List RunStep) → IsBeginning s → AreAllowed b events s
        → HasOneGame (after_all b events s) }
{}
