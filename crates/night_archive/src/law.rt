//! What is promised of lines.
ghost use Rattle.std.specs.Prelude.{◌≡◌, ◌<◌, ◌^◌, ℕ, List, true, Some};
ghost use Rattle.night_archive.specs.Line.{line_of, game_in, pgn_in, is_text};

/// The line of a game names it, and has its PGN as it was; and a line that names a game is the one that is made for it
/// with the PGN in it, which has no control character but line feeds.
pub fn law_of_lines()
    ensures game { (game : ℕ) (pgn : List ℕ) → game < 2 ^ 32 → is_text pgn ≡ true
        → game_in (line_of game pgn) ≡ Some game }
    ensures pgn { (game : ℕ) (pgn : List ℕ) → game < 2 ^ 32 → pgn_in (line_of game pgn) ≡ pgn }
    ensures only { (game : ℕ) (line : List ℕ) → game_in line ≡ Some game → line ≡ line_of game (pgn_in line) }
    ensures text { (game : ℕ) (line : List ℕ) → game_in line ≡ Some game → is_text (pgn_in line) ≡ true }
{}
