//! Why a hub refuses a call.

use crate::sessions::ConnectFault;
use chess_store::StoreFault;
use std::alloc::AllocError;
use text_lines::FeedFault;
use thiserror::Error;

/// Why a hub refuses a call.
#[derive(Clone, Copy, Debug, Error)]
pub enum HubFault {
    /// There are as many sessions as there may be.
    #[error("all 64 places are taken")]
    Busy,
    /// Memory was refused.
    #[error("memory was refused to a session")]
    NoMemory,
    /// A line of the session was too long.
    #[error("a line has more than 255 bytes")]
    LineTooLong,
    /// The store refused a batch.
    #[error("the store refused what the lines of a turn ask")]
    Store(#[source] StoreFault),
}

impl HubFault {
    ghost use Rattle.std.specs.Prelude.{◌≡◌};
    ghost use Rattle.chess_hub.specs.Faults.{is_for_memory};

    /// Whether memory was refused, to the sessions or to the store.
    pub fn is_for_memory(self) -> bool
        ensures { result ≡ is_for_memory self }
    {
        match self {
            HubFault::NoMemory | HubFault::Store(StoreFault::NoMemory) => true,
            HubFault::Busy | HubFault::LineTooLong => false,
            HubFault::Store(StoreFault::Exists) | HubFault::Store(StoreFault::TooSmall) => false,
            HubFault::Store(StoreFault::NotOurs) | HubFault::Store(StoreFault::Damaged) => false,
            HubFault::Store(StoreFault::Device { .. }) | HubFault::Store(StoreFault::Worn) => false,
            HubFault::Store(StoreFault::Failed) => false,
        }
    }
}

impl From<AllocError> for HubFault {
    ghost use Rattle.std.specs.Prelude.{◌≡◌};
    ghost use Rattle.chess_hub.specs.declared.fault.HubFault.TheVariants.{NoMemory};

    ghost from_gives = { λ _ fault. fault ≡ NoMemory };

    fn from(_: AllocError) -> HubFault {
        HubFault::NoMemory
    }
}

impl From<ConnectFault> for HubFault {
    ghost use Rattle.std.specs.Prelude.{◌≡◌};
    ghost use Rattle.chess_hub.specs.Faults.{of_connect};

    ghost from_gives = { λ fault made. made ≡ of_connect fault };

    fn from(fault: ConnectFault) -> HubFault {
        match fault {
            ConnectFault::Busy => HubFault::Busy,
            ConnectFault::NoMemory => HubFault::NoMemory,
        }
    }
}

impl From<FeedFault> for HubFault {
    ghost use Rattle.std.specs.Prelude.{◌≡◌};
    ghost use Rattle.chess_hub.specs.Faults.{of_feed};

    ghost from_gives = { λ fault made. made ≡ of_feed fault };

    fn from(fault: FeedFault) -> HubFault {
        match fault {
            FeedFault::NoMemory => HubFault::NoMemory,
            FeedFault::LineTooLong => HubFault::LineTooLong,
        }
    }
}

impl From<StoreFault> for HubFault {
    ghost use Rattle.std.specs.Prelude.{◌≡◌};
    ghost use Rattle.chess_hub.specs.declared.fault.HubFault.TheVariants.{Store};

    ghost from_gives = { λ fault made. made ≡ Store fault };

    fn from(fault: StoreFault) -> HubFault {
        HubFault::Store(fault)
    }
}
