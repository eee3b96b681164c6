//! How a run of the program ends: its exit status, and what is told of a fault.
ghost use Rattle.std.specs.Prelude.{◌≡◌, ◌≢◌};
ghost use Rattle.clap.specs.Values.{kind_of};
ghost use Rattle.server_words.specs.End.{end_of, name_of, name_of_hub, name_of_store, of_board, status_of};

use crate::board_loop::BoardFault;
use chess_hub::HubFault;
use chess_store::StoreFault;
use clap::error::ErrorKind;

/// What can break a run off.
#[derive(Clone, Copy)]
pub enum Fault {
    /// The journal's file cannot be opened, made or lengthened, or another program has it open.
    File,
    /// A read of the input failed, or reads did not come to an end.
    Read,
    /// A write of the output failed.
    Write,
    /// The table's limits are above those that are asked for.
    Limits,
    /// The port cannot be bound.
    Socket,
    /// A line of the input was too long, and its farewell is written.
    LineTooLong,
    /// The journal that is read without a lock changed too fast.
    Changing,
    /// Memory was refused while the words of the command line were read, or for a text.
    NoMemory,
    /// The store refused.
    Store(StoreFault),
    /// The hub refused.
    Hub(HubFault),
}

/// How a run ends.
#[derive(Clone, Copy)]
pub enum End {
    /// The work is done, or the help that was asked for is printed.
    Done,
    /// A fault broke the work off.
    Fault(Fault),
    /// The words of the command line ask for nothing that the program does.
    Usage,
}

/// The exit status: 0, or 1 after a fault, or 2 for a usage fault.
pub fn status(end: End) -> u8
    ensures { result ≡ status_of end }
{
    match end {
        End::Done => 0,
        End::Fault(_) => 1,
        End::Usage => 2,
    }
}

fn store_name(fault: StoreFault) -> &'static str
    ensures { result.now ≡ name_of_store fault }
{
    match fault {
        StoreFault::Exists => "Exists",
        StoreFault::TooSmall => "TooSmall",
        StoreFault::NotOurs => "NotOurs",
        StoreFault::Damaged => "Damaged",
        StoreFault::Device { .. } => "Device",
        StoreFault::NoMemory => "NoMemory",
        StoreFault::Worn => "Worn",
        StoreFault::Failed => "Failed",
    }
}

fn hub_name(fault: HubFault) -> &'static str
    ensures { result.now ≡ name_of_hub fault }
{
    match fault {
        HubFault::Busy => "Busy",
        HubFault::NoMemory => "NoMemory",
        HubFault::LineTooLong => "LineTooLong",
        HubFault::Store(refused) => store_name(refused),
    }
}

/// The name of a fault, which stands after `fault ` on standard error: that of the innermost.
pub fn fault_name(fault: Fault) -> &'static str
    ensures { result.now ≡ name_of fault }
{
    match fault {
        Fault::File => "File",
        Fault::Read => "Read",
        Fault::Write => "Write",
        Fault::Limits => "Limits",
        Fault::Socket => "Socket",
        Fault::LineTooLong => "LineTooLong",
        Fault::Changing => "Changing",
        Fault::NoMemory => "NoMemory",
        Fault::Store(fault) => store_name(fault),
        Fault::Hub(fault) => hub_name(fault),
    }
}

/// What a fault of `board` is to the program.
pub fn fault_of_board(fault: BoardFault) -> Fault
    ensures { result ≡ of_board fault }
{
    match fault {
        BoardFault::Read => Fault::Read,
        BoardFault::Write => Fault::Write,
    }
}

/// The end of a word's work.
pub fn end_of_work(ended: Result<(), Fault>) -> End
    ensures { result ≡ end_of ended }
{
    match ended {
        Ok(()) => End::Done,
        Err(fault) => End::Fault(fault),
    }
}

/// The end of a run that only prints a text of the command line: help or the version that was asked for is no fault,
/// want of memory is one, and anything else is usage.
pub fn end_of_words(error: &clap::Error) -> End
    ensures help { kind_of error.now ≡ ErrorKind.DisplayHelp → result ≡ End.Done }
    ensures version { kind_of error.now ≡ ErrorKind.DisplayVersion → result ≡ End.Done }
    ensures memory { kind_of error.now ≡ ErrorKind.OutOfMemory → result ≡ End.Fault Fault.NoMemory }
    ensures usage { kind_of error.now ≢ ErrorKind.DisplayHelp → kind_of error.now ≢ ErrorKind.DisplayVersion →
        kind_of error.now ≢ ErrorKind.OutOfMemory → result ≡ End.Usage }
{
    match error.kind() {
        ErrorKind::DisplayHelp | ErrorKind::DisplayVersion => End::Done,
        ErrorKind::OutOfMemory => End::Fault(Fault::NoMemory),
        _ => End::Usage,
    }
}
