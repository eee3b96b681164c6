//! Why a fault came, in words, where the system has not said it.
ghost use Rattle.std.specs.Prelude.{◌≡◌, ◌↔◌, IsNone, IfSome};
ghost use Rattle.server_words.specs.Causes.{IsOfDevice, IsOfHubsDevice, IsOfSystem, reason_of, reason_of_hub};
ghost use Rattle.server_words.specs.Causes.{reason_of_store};

use crate::ends::Fault;
use chess_hub::HubFault;
use chess_store::StoreFault;

// Of a fault of the store.
fn store_reason(fault: StoreFault) -> Option<&'static str>
    ensures none { IsNone result ↔ IsOfDevice fault }
    ensures said { IfSome result (λ said. said.now ≡ reason_of_store fault) }
{
    match fault {
        StoreFault::Exists => {
            Some(
                "it is not made a journal: one stands in it, or other bytes than zeros at its front",
            )
        }
        StoreFault::TooSmall => Some("it is shorter than the limits of its journal need"),
        StoreFault::NotOurs => Some("no journal stands in it"),
        StoreFault::Damaged => Some("it begins as a journal, and what it holds is none"),
        StoreFault::Device { .. } => None,
        StoreFault::NoMemory => Some("memory was refused for what it holds"),
        StoreFault::Worn => Some("its count of commits, or of entries, is 2^64 - 1"),
        StoreFault::Failed => Some("an earlier call of its device failed"),
    }
}

// Of a fault of the hub.
fn hub_reason(fault: HubFault) -> Option<&'static str>
    ensures none { IsNone result ↔ IsOfHubsDevice fault }
    ensures said { IfSome result (λ said. said.now ≡ reason_of_hub fault) }
{
    match fault {
        HubFault::Busy => Some("a session sends lines faster than they are answered"),
        HubFault::NoMemory => Some("memory was refused to a session"),
        HubFault::LineTooLong => Some("a line has more than 255 bytes"),
        HubFault::Store(refused) => store_reason(refused),
    }
}

/// Why a fault came, to be told of the file or the stream that a word works on; `None` exactly where a call of the
/// system failed, whose own error says it.
pub(crate) fn reason(fault: Fault) -> Option<&'static str>
    ensures none { IsNone result ↔ IsOfSystem fault }
    ensures said { IfSome result (λ said. said.now ≡ reason_of fault) }
{
    match fault {
        Fault::File => None,
        Fault::Read => None,
        Fault::Write => None,
        Fault::Socket => None,
        Fault::Limits => Some("a limit of its journal is above the one asked for"),
        Fault::LineTooLong => Some("a line has more than 255 bytes"),
        Fault::Changing => Some("it changed too fast to be read"),
        Fault::NoMemory => Some("memory was refused for what it has to hold"),
        Fault::Store(fault) => store_reason(fault),
        Fault::Hub(fault) => hub_reason(fault),
    }
}
