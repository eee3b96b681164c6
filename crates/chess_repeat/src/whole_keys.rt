ghost use Rattle.std.specs.Prelude.{◌≡◌, [], ◌∷◌, nat_eq};
ghost use Rattle.std.specs.Cmp.{partial_equiv_from_equiv};
ghost use Rattle.std.specs.Cmp.Lexicographic.{pointwise, nat_list_eq_equiv};
ghost use Rattle.std.specs.Cmp.Rules.{hashing};
ghost use Rattle.std.proofs.Common.{rules};

use std::hash::{Hash, Hasher};
use std::marker::Model;

// The key of a position as that of a map. A contract sees it as its bytes. They are hashed by one write, of which the
// map's hasher takes 16 at a time; an array is hashed by a write of its length and one of each byte.
#[derive(Drop)]
pub(crate) struct WholeKey {
    bytes: [u8; 34],
}

impl Model for WholeKey {
    ghost use Rattle.std.specs.Prelude.{ℕ, List};

    ghost Value = { List ℕ };

    ghost view = { λ k. k.bytes };
}

impl WholeKey {
    // The key of these bytes.
    pub(crate) fn new(bytes: [u8; 34]) -> WholeKey
        ensures { result ≡ bytes }
    {
        WholeKey { bytes }
    }
}

impl PartialEq for WholeKey {
    ghost eq = { pointwise nat_eq };

    ghost laws = { partial_equiv_from_equiv nat_list_eq_equiv };

    fn eq(&self, other: &WholeKey) -> bool {
        self.bytes == other.bytes
    }
}

impl Eq for WholeKey {
    ghost laws = { nat_list_eq_equiv };
}

impl Hash for WholeKey {
    ghost hash_input = { λ bytes. bytes ∷ [] };

    ghost respects_eq = { Prim.search (hashing, rules) };

    fn hash<H: Hasher>(&self, state: &mut H) {
        state.write(&self.bytes);
    }
}
