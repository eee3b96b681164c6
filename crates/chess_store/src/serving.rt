//! The batches of one life.
ghost use Rattle.std.specs.Prelude.{◌≡◌, ◌≤◌, ◌+◌, ◌-◌, ◌↔◌, false, map, count_by, None, IfSome, IsSome};
ghost use Rattle.chess_board.specs.Legal.{EachOf};
ghost use Rattle.sector_dev.specs.Image.{Sectors};
ghost use Rattle.sector_journal.specs.Calls.{TakesAnOpening};
ghost use Rattle.chess_entry.specs.State.{TableState};
ghost use Rattle.chess_store.specs.Means.{AllMean};
ghost use Rattle.chess_store.specs.Kept.{IsStoreKept};
ghost use Rattle.chess_store.specs.Courses.{IsSubmittable, is_unsent};
ghost use Rattle.chess_store.specs.Devices.{HasGoneOn};
ghost use Rattle.chess_store.specs.Stops.{IsLivesFault};
ghost use Rattle.chess_store.specs.Serving.{IsTallied, HasRoomForPending, IsServed, CountsEnd, pending_of};

use crate::plan::LifeReport;
use crate::{Store, StoreFault};
use chess_answer::{Reply, refusal_line};
use chess_entry::{Command, Refusal};
use sector_dev::{CrashDevice, Device};
use std::alloc::Global;

// What came of the batches of a life: the number of entries that the store has shown last, for how many commands memory
// was refused, and why they came to an end before the last, if they did.
#[derive(Drop)]
struct Submitted {
    shown: u64,
    unsent: u64,
    fault: Option<StoreFault>,
}

// The number of entries that a store shows.
fn shown<D: Device>(store: &Store<D>) -> u64
    requires { store.now.failed ≡ false }
    ensures { result ≡ store.now.table.entries }
{
    match store.table() {
        Ok(table) => table.entries(),
        Err(_) => unreachable!(),
    }
}

// For how many commands memory was refused, by their replies.
fn unsent(replies: &[Reply]) -> usize
    ensures { result ≡ count_by is_unsent replies.now }
{
    let refused = refusal_line(Refusal::NoMemory);
    replies
        .iter()
        .filter(|reply| reply.line.as_str() == refused.as_str())
        .count()
}

// Submits the batches in their order, until one is not answered.
fn submit_all<D: Device>(store: &mut Store<D>, batches: &[Vec<Command>]) -> Submitted
    requires works { store.old.failed ≡ false }
    requires batches { EachOf IsSubmittable (map (λ b. b.items) batches.now) }
    ensures tallied { IsTallied store.old.table (map (λ b. b.items) batches.now) result
        (D.failures store.old.journal.device) (IsStoreKept store.old) (D.state store.new.journal.device)
        (D.failures store.new.journal.device) }
    ensures room { HasRoomForPending result }
    ensures on { IsStoreKept store.old
        → HasGoneOn (D.state store.old.journal.device) (D.state store.new.journal.device) }
    ensures fault { IfSome result.fault IsLivesFault }
    ensures counts { CountsEnd result.fault (D.failures store.old.journal.device)
        (D.failures store.new.journal.device) }
    ensures model { (D.state store.new.journal.device).keeps_model ↔ (D.state store.old.journal.device).keeps_model }
    ensures sectors { D.sector_count store.new.journal.device ≡ D.sector_count store.old.journal.device }
{
    let mut count = shown(store);
    let mut refused: u64 = 0;
    for batch in batches {
        match store.submit(batch) {
            Ok(replies) => {
                refused = refused.saturating_add(unsent(&replies) as u64);
                count = shown(store);
            }
            Err(fault) => {
                return Submitted {
                    shown: count,
                    unsent: refused,
                    fault: Some(fault),
                };
            }
        }
    }
    Submitted {
        shown: count,
        unsent: refused,
        fault: None,
    }
}

// How many entries may last or not.
fn pending(fault: &Option<StoreFault>) -> u64
    ensures { result ≡ pending_of fault.now }
{
    match fault {
        Some(StoreFault::Device { pending }) => *pending,
        _ => 0,
    }
}

// The report of a life that opened with so many entries, and after which the device has so many failures.
fn report_of(begun: u64, submitted: &Submitted, failures: u64) -> LifeReport
    requires begun { begun ≤ submitted.now.shown }
    requires room { HasRoomForPending submitted.now }
    ensures opened { result.opened ≡ Some begun }
    ensures acknowledged { result.acknowledged ≡ submitted.now.shown - begun }
    ensures accepted { result.accepted ≡ submitted.now.shown - begun + pending_of submitted.now.fault }
    ensures unsent { result.unsent ≡ submitted.now.unsent }
    ensures failures { result.failures ≡ failures }
{
    let acknowledged = submitted.shown - begun;
    LifeReport {
        opened: Some(begun),
        acknowledged,
        accepted: acknowledged + pending(&submitted.fault),
        unsent: submitted.unsent,
        failures,
    }
}

// What became of a device in one life, before its stop: why it came to an end, if not all batches were answered.
#[derive(Drop)]
pub(crate) struct Served<D> {
    pub(crate) device: D,
    pub(crate) report: LifeReport,
    pub(crate) fault: Option<StoreFault>,
}

// Opens the store on a device and submits the batches, until one is not answered.
pub(crate) fn serve<D: CrashDevice>(alloc: Global, device: D, batches: &[Vec<Command>]) -> Served<D>
    requires { EachOf IsSubmittable (map (λ b. b.items) batches.now) }
    ensures served { (D.state device).keeps_model → (table : TableState) → AllMean (D.state device) table
        → IsServed table (map (λ b. b.items) batches.now) (D.failures device) result.report result.fault
        (D.state result.device) (D.failures result.device) }
    ensures on { (D.state device).keeps_model → HasGoneOn (D.state device) (D.state result.device) }
    ensures told { result.report.failures ≡ D.failures result.device }
    ensures unopened { result.report.opened ≡ None → IsSome result.fault }
    ensures unwritten { (D.state device).keeps_model → result.report.opened ≡ None → (image : Sectors)
        → (D.state result.device).image image → (D.state device).image image }
    ensures taken { (D.state device).keeps_model → result.report.opened ≡ None
        → TakesAnOpening (D.state device).reads (D.calls_left device) (D.calls_left result.device) }
    ensures fault { IfSome result.fault IsLivesFault }
    ensures counts { CountsEnd result.fault (D.failures device) (D.failures result.device) }
    ensures model { (D.state result.device).keeps_model ↔ (D.state device).keeps_model }
    ensures sectors { D.sector_count result.device ≡ D.sector_count device }
{
    match Store::open(alloc, device) {
        Ok(opened) => {
            let mut store = opened;
            // With it, the table is known to be one that there may be.
            let _limits = store.limits();
            let begun = shown(&store);
            let submitted = submit_all(&mut store, batches);
            let left = store.into_device();
            Served {
                report: report_of(begun, &submitted, left.failure_count()),
                device: left,
                fault: submitted.fault,
            }
        }
        Err(refused) => Served {
            report: LifeReport {
                opened: None,
                acknowledged: 0,
                accepted: 0,
                unsent: 0,
                failures: refused.dev.failure_count(),
            },
            device: refused.dev,
            fault: Some(refused.fault),
        },
    }
}
