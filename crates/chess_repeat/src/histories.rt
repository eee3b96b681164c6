ghost use Rattle.std.specs.Prelude.{◌≡◌, ◌+◌, ◌-◌, ◌<◌, [], ◌∷◌, ◌++◌, List, length, slice_index, IfOk, OnOk, OnErr};
ghost use Rattle.chess_board.specs.Position.{Position};
ghost use Rattle.chess_repeat.specs.Key.{key_of};
ghost use Rattle.chess_repeat.specs.SamePosition.{IsTimes};
ghost use Rattle.chess_repeat.specs.QuietRun.{quiet_run};
ghost use Rattle.chess_repeat.specs.History.{count_in, IsGivenCount, IsHistoryOf};

use crate::keys::{key, key_from};
use crate::whole_keys::WholeKey;
use chess_board::Board;
use indexmap::IndexMap;
use std::alloc::{AllocError, Global};
use std::marker::Model;

// Counts a key once more, and tells how often it stood then. One that is new, as most are, is looked up once. It fails
// where memory is refused, and then the counts are as they were.
fn count_more(counts: &mut IndexMap<WholeKey, u32>, key: [u8; 34]) -> Result<u32, AllocError>
    requires few { count_in counts.old.entries key < 65535 }
    ensures counted { IfOk result (IsGivenCount key counts.old.entries counts.new.entries) }
    ensures more { IfOk result (λ n. n ≡ count_in counts.old.entries key + 1) }
    ensures refused { OnErr result (counts.new.entries ≡ counts.old.entries) }
{
    match counts.insert(WholeKey::new(key), 1)? {
        None => Ok(1),
        Some(before) => {
            let times = before + 1;
            counts.insert(WholeKey::new(key), times).unwrap();
            Ok(times)
        }
    }
}

/// The positions of a game in their order: of each its halfmove clock, and how often its key stood; and the last of
/// them with its key, from which that of the next is made.
#[derive(Drop)]
pub struct History {
    clocks: Vec<u16>,
    counts: IndexMap<WholeKey, u32>,
    last: Board,
    key: [u8; 34],
}

impl Model for History {
    ghost use Rattle.std.specs.Prelude.{◌≡◌};
    ghost use Rattle.chess_repeat.specs.Key.{key_of};
    ghost use Rattle.chess_repeat.specs.History.{HistoryState, IsBounded};

    ghost Value = { HistoryState };

    ghost view = { λ h. record { clocks = h.clocks.items; counts = h.counts.entries } };

    ghost invariant = { λ h. IsBounded h.clocks.items h.counts.entries × (h.key ≡ key_of h.last) };
}

impl History {
    /// The history of one position. It fails where memory is refused.
    pub fn new(alloc: Global, board: &Board) -> Result<History, AllocError>
        ensures { IfOk result (λ history. IsHistoryOf history (board.now ∷ [])) }
    {
        let _valid = board.rights();
        let mut clocks = Vec::new(alloc);
        clocks.push(board.halfmove())?;
        let mut counts = IndexMap::new(alloc);
        let key = key(board);
        counts.insert(WholeKey::new(key), 1)?;
        Ok(History {
            clocks,
            counts,
            last: *board,
            key,
        })
    }

    /// Makes room for so many more positions. It fails where memory is refused; all is as it was either way.
    pub fn reserve(&mut self, more: usize) -> Result<(), AllocError>
        ensures { self.new ≡ self.old }
    {
        self.clocks.reserve(more)?;
        self.counts.reserve(more)
    }

    /// How many positions there are, 1 to 65,535.
    pub fn len(&self) -> u32
        ensures clocks { result ≡ length self.now.clocks }
        ensures len { (list : List Position) → IsHistoryOf self.now list → result ≡ length list }
    {
        self.clocks.len() as u32
    }

    /// Appends a position, and tells how many members are the same position then (FIDE articles 9.2 and 9.6.1). It
    /// fails where memory is refused, and then all is as it was.
    pub fn push(&mut self, board: &Board) -> Result<u32, AllocError>
        requires { length self.old.clocks < 65535 }
        ensures clocks { OnOk result (self.new.clocks ≡ self.old.clocks ++ board.now.halfmove ∷ []) }
        ensures pushed { (list : List Position) → IsHistoryOf self.old list →
            OnOk result (IsHistoryOf self.new (list ++ board.now ∷ [])) }
        ensures count { IfOk result (λ n. n ≡ count_in self.new.counts (key_of board.now)) }
        ensures times { IfOk result (λ n. (list : List Position) → IsHistoryOf self.new list
            → IsTimes board.now list n) }
        ensures refused { OnErr result (self.new ≡ self.old) }
    {
        let _valid = board.rights();
        let key = key_from(&self.last, &self.key, board);
        self.clocks.reserve(1)?;
        let times = count_more(&mut self.counts, key)?;
        self.clocks.push(board.halfmove()).unwrap();
        self.last = *board;
        self.key = key;
        Ok(times)
    }

    /// How many members of the history are the same position (FIDE articles 9.2 and 9.6.1). It is one look-up, and
    /// takes no memory.
    pub fn times(&self, board: &Board) -> u32
        ensures count { result ≡ count_in self.now.counts (key_of board.now) }
        ensures times { (list : List Position) → IsHistoryOf self.now list → IsTimes board.now list result }
    {
        let _valid = board.rights();
        self.count(&WholeKey::new(key_from(&self.last, &self.key, board)))
    }

    /// The quiet run: the halfmove clock of the last position, 0 to 65,535 (FIDE articles 9.3 and 9.6.2).
    pub fn quiet(&self) -> u32
        ensures clock { result ≡ slice_index self.now.clocks (length self.now.clocks - 1) }
        ensures quiet { (list : List Position) → IsHistoryOf self.now list → result ≡ quiet_run list }
    {
        u32::from(self.clocks[self.clocks.len() - 1])
    }

    // How often a key stood.
    fn count(&self, key: &WholeKey) -> u32
        ensures { result ≡ count_in self.now.counts key.now }
    {
        self.counts.get(key).copied().unwrap_or(0)
    }
}
