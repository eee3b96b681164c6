//! Commits in a journal, one after the other.
ghost use Rattle.std.specs.Prelude.{◌≡◌, ◌≤◌, ◌+◌, length, OnOk};
ghost use Rattle.sector_journal.specs.Compactions.{IsUnderWay};

use chess_bits::Square;
use chess_board::Move;
use rec_codec::{
    Entry, Event, GameNumber, Made, MoveList, Moves, Record, StoredMove, snapshot_records,
};
use sector_dev::Device;
use sector_journal::{Journal, JournalFault};
use std::alloc::{AllocError, Global};

/// Why no commits are made, or fewer.
#[derive(Debug, Drop)]
pub enum CommitFault {
    /// The journal's.
    Journal(JournalFault),
    /// A half of the journal has no room for a commit.
    NoRoom,
    /// A snapshot has one record at least, and at most as many as the limits allow.
    Snapshot,
    NoMemory,
}

impl From<JournalFault> for CommitFault {
    fn from(fault: JournalFault) -> CommitFault {
        CommitFault::Journal(fault)
    }
}

impl From<AllocError> for CommitFault {
    fn from(_: AllocError) -> CommitFault {
        CommitFault::NoMemory
    }
}

// White's e2e4 in game 1.
fn one_move() -> Record {
    Record::Entry(Entry {
        game: GameNumber::new(1),
        moment: 1_000,
        event: Event::Move(Made {
            mv: StoredMove::new(Move {
                from: Square::new(12),
                to: Square::new(28),
                promotion: None,
            }),
            ply: 0,
        }),
    })
}

/// What each commit is: so many records, 1 to 64, and beside them a compaction to a snapshot of so many, if any.
#[derive(Clone, Copy)]
pub struct Plan {
    pub records: usize,
    pub snapshot: Option<usize>,
}

// Sixty of the move, as a snapshot keeps them.
fn sixty_moves() -> Record {
    let mv = Move {
        from: Square::new(12),
        to: Square::new(28),
        promotion: None,
    };
    Record::Moves(Moves {
        game: GameNumber::new(1),
        moves: MoveList::new(&[mv; 60]),
    })
}

// A snapshot of so many records.
fn snapshot_of(alloc: Global, count: usize) -> Result<Vec<Record>, AllocError> {
    let one = [sixty_moves()];
    let mut records = Vec::new(alloc);
    for _ in 0..count {
        records.extend_from_slice(&one)?;
    }
    Ok(records)
}

// Begins a compaction to a snapshot of so many records.
fn begin<D: Device>(
    alloc: Global,
    journal: &mut Journal<D>,
    count: usize,
) -> Result<(), CommitFault>
    requires { ¬ IsUnderWay journal.old.compaction }
    ensures { OnOk result (journal.new.header ≡ journal.old.header) }
{
    let most = snapshot_records(journal.limits()) as usize;
    let base = snapshot_of(alloc, count)?;
    if base.is_empty() || base.len() > most {
        return Err(CommitFault::Snapshot);
    }
    journal.begin(base)?;
    Ok(())
}

// Begins a compaction where none is under way but one is to be, and takes the memory that a commit wants beside it.
fn prepare<D: Device>(
    alloc: Global,
    journal: &mut Journal<D>,
    plan: &Plan,
) -> Result<(), CommitFault>
    ensures { OnOk result (journal.new.header ≡ journal.old.header) }
{
    let Some(count) = plan.snapshot else {
        return Ok(());
    };
    if !journal.under_way() {
        begin(alloc, journal, count)?;
    }
    journal.ready(plan.records)?;
    Ok(())
}

// One commit: the end of a compaction whose snapshot is written, else an append. A half without room for that is left
// by a switch with a snapshot of one record.
fn commit<D: Device>(journal: &mut Journal<D>, records: &[Record]) -> Result<(), CommitFault>
    requires some { 1 ≤ length records.now }
    requires few { length records.now ≤ 64 }
    ensures { OnOk result (journal.new.header.seq ≡ journal.old.header.seq + 1) }
{
    if journal.whole() {
        journal.finish(records)?;
        return Ok(());
    }
    if journal.fits(records.len()) {
        journal.append(records)?;
        return Ok(());
    }
    if !journal.fits_switch(1, records.len()) {
        return Err(CommitFault::NoRoom);
    }
    journal.switch(&[Record::default()], records)?;
    Ok(())
}

/// So many commits of this plan.
pub fn make_commits<D: Device>(
    alloc: Global,
    journal: &mut Journal<D>,
    plan: &Plan,
    commits: u32,
) -> Result<(), CommitFault>
    requires some { 1 ≤ plan.now.records }
    requires few { plan.now.records ≤ 64 }
    ensures { OnOk result (journal.new.header.seq ≡ journal.old.header.seq + commits) }
{
    let all = [one_move(); 64];
    for _ in 0..commits {
        prepare(alloc, journal, plan)?;
        commit(journal, &all[..plan.records])?;
    }
    Ok(())
}
