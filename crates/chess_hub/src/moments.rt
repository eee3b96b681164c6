//! Moments for the turns of a run.
ghost use Rattle.std.specs.Prelude.{ℕ, ◌≡◌};

/// Gives moments in milliseconds, one after the other.
pub trait Moments {
    /// From this state that moment is given, and that state comes.
    ghost gives: { Self → ℕ → Self → Type 0 };

    /// The next moment.
    fn next(&mut self) -> u64
        ensures { gives self.old result self.new };
}

/// Gives the moments of a list, then the last of them again and again; 0 where there is none.
#[derive(Clone, Copy)]
pub struct ListMoments<'a> {
    left: &'a [u64],
    last: u64,
}

impl<'a> ListMoments<'a> {
    /// The moments of this list.
    pub fn new(moments: &'a [u64]) -> Self
        ensures left { result.left.now ≡ moments.now }
        ensures last { result.last ≡ 0 }
    {
        ListMoments {
            left: moments,
            last: 0,
        }
    }
}

impl<'a> Moments for ListMoments<'a> {
    ghost use Rattle.std.specs.Prelude.{◌≡◌, ◌∷◌, List, ℕ};
    ghost use Rattle.chess_hub.specs.Moments.{IsNext};

    ghost gives = { λ old at new. IsNext old.left.now old.last at new.left.now new.last };

    fn next(&mut self) -> u64 {
        if let Some((first, rest)) = self.left.split_first() {
            self.last = *first;
            self.left = rest;
        }
        self.last
    }
}
