//! What is promised of strings.
ghost use Rattle.std.specs.Prelude.{◌≡◌, ◌++◌, ◌∷◌, ℕ, List, false};
ghost use Rattle.text_parts.specs.Strings.{escaped, unescaped_from, behind_from};

/// A text that was put into a string is found there as it was, and behind it what stands behind its quote.
pub fn law_of_strings()
    ensures text { (text rest : List ℕ) → unescaped_from false (escaped text ++ (34 ∷ rest)) ≡ text }
    ensures rest { (text rest : List ℕ) → behind_from false (escaped text ++ (34 ∷ rest)) ≡ rest }
{}
