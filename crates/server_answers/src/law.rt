//! What is promised of readers: a line is read exactly where it has the form, and to the fields that it spells.
ghost use Rattle.std.specs.Prelude.{◌≡◌, ◌<◌, ◌^◌, ℕ, List, Some};
ghost use Rattle.server_answers.specs.declared.games.Shown.{Shown};
ghost use Rattle.server_answers.specs.declared.games.Row.{Row};
ghost use Rattle.server_answers.specs.declared.refusals.Refusal.{Refusal};
ghost use Rattle.server_answers.specs.Refusals.{refusal_line, IsRefusal, refusal_in};
ghost use Rattle.server_answers.specs.declared.heads.PgnHead.{PgnHead};
ghost use Rattle.server_answers.specs.Heads.{list_line, list_in, IsPgnHead, pgn_line, pgn_in};
ghost use Rattle.server_answers.specs.Entered.{Entered, IsEntered, entered_line, entered_in};
ghost use Rattle.server_answers.specs.Games.{IsShown, shown_line, shown_in, IsRow, row_line, row_in};

/// The answer to `show` of every game that there may be is read to the game's fields, and what is read so is that
/// answer.
pub fn law_of_shown()
    ensures read { (shown : Shown) → IsShown shown → shown_in (shown_line shown) ≡ Some shown }
    ensures only { (line : List ℕ) (shown : Shown) → shown_in line ≡ Some shown →
        (line ≡ shown_line shown) × IsShown shown }
{}

/// The row of every game that there may be is read to the game's fields, and what is read so is that row.
pub fn law_of_rows()
    ensures read { (row : Row) → IsRow row → row_in (row_line row) ≡ Some row }
    ensures only { (line : List ℕ) (row : Row) → row_in line ≡ Some row → (line ≡ row_line row) × IsRow row }
{}

/// Each refusal is read as what it refuses, and what is read so is that refusal.
pub fn law_of_refusals()
    ensures read { (refusal : Refusal) → IsRefusal refusal → refusal_in (refusal_line refusal) ≡ Some refusal }
    ensures only { (line : List ℕ) (refusal : Refusal) → refusal_in line ≡ Some refusal → line ≡ refusal_line refusal }
{}

/// The first line of each answer to `list` and to `pgn` is read to its numbers, and what is read so is that line.
pub fn law_of_heads()
    ensures list { (count : ℕ) → count < 2 ^ 32 → list_in (list_line count) ≡ Some count }
    ensures list_only { (line : List ℕ) (count : ℕ) → list_in line ≡ Some count →
        (line ≡ list_line count) × (count < 2 ^ 32) }
    ensures pgn { (head : PgnHead) → IsPgnHead head → pgn_in (pgn_line head) ≡ Some head }
    ensures pgn_only { (line : List ℕ) (head : PgnHead) → pgn_in line ≡ Some head →
        (line ≡ pgn_line head) × IsPgnHead head }
{}

/// The answer to each act that was entered is read to the game and what was done there, and what is read so is that
/// answer.
pub fn law_of_entered()
    ensures read { (entered : Entered) → IsEntered entered → entered_in (entered_line entered) ≡ Some entered }
    ensures only { (line : List ℕ) (entered : Entered) → entered_in line ≡ Some entered →
        (line ≡ entered_line entered) × IsEntered entered }
{}
