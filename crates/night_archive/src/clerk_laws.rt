//! What is promised of each run.
ghost use Rattle.std.specs.Prelude.{◌≡◌, ◌⊎◌, ◌++◌, ℕ, List, true};
ghost use Rattle.night_archive.specs.Steps.{Step};
ghost use Rattle.night_files.specs.File.{IsFront};
ghost use Rattle.night_archive.specs.Files.{contains, archive_in, safe_in, IsHonest};
ghost use Rattle.night_archive.specs.Clerk.{View, IsRun};
ghost use Rattle.night_archive.specs.Laws.{IsOnce, is_seen, is_waiting, is_dropped, was_over, AllRight, AllDrops};
ghost use Rattle.night_archive.specs.Laws.{AllHanded};

/// Each decision is the one that follows from what happened before, and no other.
pub fn law_of_decisions()
    ensures { (steps : List Step) (now : View) → IsRun steps now → AllRight steps }
{}

/// Whatever happens, and wherever a clerk's process is killed: a drop is sent only for a game that was seen to be over,
/// whose PGN on the table was handed to the archive or is the one that stands there, and that stands in the archive as
/// the last sync which answered has left it; so behind its PGN's being handed to the archive, and a sync that has
/// answered since. A game for which a drop was sent stands there ever after.
pub fn law_of_drops()
    ensures sent { (steps : List Step) (now : View) → IsRun steps now → AllDrops steps }
    ensures handed { (steps : List Step) (now : View) → IsRun steps now → IsHonest steps → AllHanded steps }
    ensures kept { (steps : List Step) (now : View) → IsRun steps now → IsHonest steps → (game : ℕ)
        → is_dropped steps game ≡ true → contains game (safe_in steps) ≡ true }
{}

/// In each such run no game stands in the archive twice, and none that was never seen to be over; and each game that
/// was seen to be over, since the clerk began, stands in the archive, or its PGN was asked for and has not come yet.
pub fn law_of_games()
    ensures once { (steps : List Step) (now : View) → IsRun steps now → IsHonest steps → IsOnce (archive_in steps) }
    ensures finished { (steps : List Step) (now : View) → IsRun steps now → IsHonest steps → (game : ℕ) →
        contains game (archive_in steps) ≡ true → was_over steps game ≡ true }
    ensures none_out { (steps : List Step) (now : View) → IsRun steps now → (game : ℕ) → is_seen steps game ≡ true →
        (contains game (archive_in steps) ≡ true) ⊎ (is_waiting steps game ≡ true) }
{}

/// What was safe once stands in the archive at each later moment, in its place.
pub fn law_of_safety()
    ensures { (later earlier : List Step) → IsHonest (later ++ earlier)
        → IsFront (safe_in earlier) (archive_in (later ++ earlier)) }
{}
