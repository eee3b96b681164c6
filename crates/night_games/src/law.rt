//! What is promised of texts in a page.
ghost use Rattle.std.specs.Prelude.{◌≡◌, ℕ, List, true, false};
ghost use Rattle.std.specs.List.{list_any};
ghost use Rattle.night_games.specs.Html.{escaped, is_markup, has_references};

/// Whatever a text has, as it stands in a page no sign of it opens or closes a tag or ends an attribute's quotes, and
/// each ampersand begins one of five character references.
pub fn law_of_texts()
    ensures markup { (text : List ℕ) → list_any is_markup (escaped text) ≡ false }
    ensures references { (text : List ℕ) → has_references (escaped text) ≡ true }
{}
