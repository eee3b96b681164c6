use chess_table::TableFault;
use sector_journal::JournalFault;
use std::alloc::AllocError;
use thiserror::Error;

/// Why a store refuses a call.
#[derive(Clone, Copy, Debug, Error)]
pub enum StoreFault {
    /// A header slot starts with the eight bytes of a header: the device may hold a journal.
    #[error("the device holds a journal already, or what begins like one")]
    Exists,
    /// The device has fewer sectors than its limits need.
    #[error("the device has fewer sectors than the limits of its table need")]
    TooSmall,
    /// No header slot starts with the eight bytes of a header.
    #[error("the device holds no journal")]
    NotOurs,
    /// No header is valid, a sector that it names does not hold records, or the records mean no table.
    #[error("the journal is damaged: no header is valid, a sector that it names does not hold records, or they mean no \
        table")]
    Damaged,
    /// The device failed, and has counted it; so many entries may last or not, all of them or none.
    #[error("the device failed, and {pending} entries may last or not, all of them or none")]
    Device { pending: u64 },
    /// Memory was refused.
    #[error("memory was refused")]
    NoMemory,
    /// The number of the header, or the count of entries, would pass 2^64 - 1.
    #[error("the journal is worn out: its commits or its entries have no further number")]
    Worn,
    /// The device has failed in an earlier call.
    #[error("the device failed in an earlier call; the store is to be opened again")]
    Failed,
}

impl From<JournalFault> for StoreFault {
    ghost use Rattle.std.specs.Prelude.{◌≡◌};
    ghost use Rattle.chess_store.specs.Faults.{of_journal};

    ghost from_gives = { λ fault made. made ≡ of_journal fault };

    // Nothing is pending.
    fn from(fault: JournalFault) -> StoreFault {
        match fault {
            JournalFault::Exists => StoreFault::Exists,
            JournalFault::TooSmall => StoreFault::TooSmall,
            JournalFault::NotOurs => StoreFault::NotOurs,
            JournalFault::Damaged => StoreFault::Damaged,
            JournalFault::DeviceFault => StoreFault::Device { pending: 0 },
            JournalFault::NoMemory => StoreFault::NoMemory,
            JournalFault::Worn => StoreFault::Worn,
            JournalFault::Failed => StoreFault::Failed,
        }
    }
}

impl From<TableFault> for StoreFault {
    ghost use Rattle.std.specs.Prelude.{◌≡◌};
    ghost use Rattle.chess_store.specs.Faults.{of_table};

    ghost from_gives = { λ fault made. made ≡ of_table fault };

    fn from(fault: TableFault) -> StoreFault {
        match fault {
            TableFault::Damaged => StoreFault::Damaged,
            TableFault::NoMemory => StoreFault::NoMemory,
        }
    }
}

impl From<AllocError> for StoreFault {
    ghost use Rattle.std.specs.Prelude.{◌≡◌};
    ghost use Rattle.chess_store.specs.declared.fault.StoreFault.TheVariants.{NoMemory};

    ghost from_gives = { λ _ fault. fault ≡ NoMemory };

    fn from(_: AllocError) -> StoreFault {
        StoreFault::NoMemory
    }
}
