//! Lives, one after the other.
ghost use Rattle.std.specs.Prelude.{◌≡◌, ◌≤◌, ◌↔◌, List, [], ◌∷◌, map, length, Some, IsSome, IfOk, IfErr};
ghost use Rattle.chess_board.specs.Legal.{EachOf};
ghost use Rattle.rec_codec.specs.declared.limits.Limits.{Limits};
ghost use Rattle.rec_codec.specs.declared.record.Entry.{Entry};
ghost use Rattle.sector_dev.specs.Device.{HasRisen};
ghost use Rattle.sector_dev.specs.Image.{Sectors};
ghost use Rattle.chess_entry.specs.State.{TableState};
ghost use Rattle.chess_entry.specs.Table.{IsTable};
ghost use Rattle.chess_store.specs.Means.{AllMean};
ghost use Rattle.chess_store.specs.Faults.{IsDevice, CountsFault};
ghost use Rattle.chess_store.specs.Courses.{IsSubmittable};
ghost use Rattle.chess_store.specs.Devices.{HasGoneOn, IsLivedOn, AreTold};
ghost use Rattle.chess_store.specs.Lives.{AreSubmittable, IsBegun, IsLifeThen, IsReport, batches_of};
ghost use Rattle.chess_store.specs.Stops.{IsStopped, IsCutShort, IsLivesFault};
ghost use Rattle.chess_store.specs.Serving.{IsShown, EndsUnopened, returned};

use crate::plan::{Life, LifeReport, Lived, Plan, Report};
use crate::serving::{Served, serve};
use crate::{Parts, Store, StoreFault};
use sector_dev::{CrashDevice, Device};
use std::alloc::Global;

// What is returned of the fault that ended a life: a device's ends a life whose calls are limited, and no more.
fn returned(calls: Option<u64>, fault: Option<StoreFault>) -> Option<StoreFault>
    ensures { result ≡ returned calls fault }
{
    match fault {
        Some(StoreFault::Device { .. }) if calls.is_some() => None,
        fault => fault,
    }
}

// Limits the calls of a device, where a number of them is given.
fn limit<D: CrashDevice>(device: &mut D, calls: Option<u64>)
    ensures images { (D.state device.old).keeps_model → (c : Sectors)
        → (D.state device.new).image c → (D.state device.old).image c }
    ensures on { (D.state device.old).keeps_model → HasGoneOn (D.state device.old) (D.state device.new) }
    ensures reads { (D.state device.old).keeps_model → (D.state device.new).reads ≡ (D.state device.old).reads }
    ensures calls { IsSome calls → D.calls_left device.new ≡ calls }
    ensures failures { D.failures device.new ≡ D.failures device.old }
    ensures model { (D.state device.new).keeps_model ↔ (D.state device.old).keeps_model }
    ensures sectors { D.sector_count device.new ≡ D.sector_count device.old }
{
    if let Some(calls) = calls {
        device.arm(calls);
    }
}

// The device after a life, and its report.
#[derive(Drop)]
struct Ended<D> {
    device: D,
    report: Result<LifeReport, StoreFault>,
}

// One life.
fn live<D: CrashDevice>(alloc: Global, device: D, life: &Life) -> Ended<D>
    requires { EachOf IsSubmittable (batches_of life.now) }
    ensures lived { (limits : Limits) (k : List Entry) → IsBegun limits k (D.state device)
        → IfOk result.report (λ report. IsLifeThen limits (λ next after. IsBegun limits next (D.state result.device)
        × (after ≡ D.failures result.device)) k (D.failures device) life.now report) }
    ensures told { (D.state device).keeps_model → IfOk result.report (λ report.
        IsLivedOn D.state D.failures D.calls_left D.stable D.pending life.now report device result.device) }
    ensures stopped { (limits : Limits) (k : List Entry) → IsBegun limits k (D.state device)
        → IfErr result.report (λ fault. IsStopped limits k (D.failures device) (life.now ∷ []) fault
        (D.state result.device) (D.failures result.device)) }
    ensures fault { IfErr result.report IsLivesFault }
    ensures cause { IfErr result.report (λ fault.
        CountsFault fault (D.failures device) (D.failures result.device)) }
    ensures counted { D.failures device ≤ D.failures result.device }
    ensures model { (D.state result.device).keeps_model ↔ (D.state device).keeps_model }
    ensures sectors { D.sector_count result.device ≡ D.sector_count device }
{
    let mut armed = device;
    limit(&mut armed, life.calls);
    let Served {
        device: mut left,
        report,
        fault,
    } = serve(alloc, armed, &life.batches);
    match returned(life.calls, fault) {
        Some(fault) => Ended {
            device: left,
            report: Err(fault),
        },
        None => {
            left.crash_as(&life.fates);
            Ended {
                device: left,
                report: Ok(report),
            }
        }
    }
}

// What the last opening shows, after lives with these reports.
fn show<D: Device>(alloc: Global, device: D, reports: Vec<LifeReport>) -> Lived<D>
    ensures shown { (D.state device).keeps_model → (table : TableState) → AllMean (D.state device) table
        → IfOk result.report (λ report. IsShown table (D.failures device) report.table report.kept
        (D.failures result.dev)) }
    ensures reports { IfOk result.report (λ report. report.lives.items ≡ reports.items) }
    ensures on { (D.state device).keeps_model → HasGoneOn (D.state device) (D.state result.dev) }
    ensures unfailed { IfOk result.report (λ report. D.failures result.dev ≡ D.failures device) }
    ensures count { IfOk result.report (λ report. report.kept ≡ report.table.entries) }
    ensures bounds { IfOk result.report (λ report. IsTable report.table) }
    ensures refused { (D.state device).keeps_model → (table : TableState) → AllMean (D.state device) table
        → IfErr result.report (λ fault.
        EndsUnopened (Some fault) (D.failures device) (D.failures result.dev)) }
    ensures fault { IfErr result.report IsLivesFault }
    ensures cause { IfErr result.report (λ fault.
        CountsFault fault (D.failures device) (D.failures result.dev)) }
    ensures counted { D.failures device ≤ D.failures result.dev }
    ensures images { (D.state device).keeps_model → (table : TableState) → AllMean (D.state device) table
        → AllMean (D.state result.dev) table }
    ensures model { (D.state result.dev).keeps_model ↔ (D.state device).keeps_model }
    ensures sectors { D.sector_count result.dev ≡ D.sector_count device }
{
    match Store::open(alloc, device) {
        Ok(store) => {
            // With it, the table is known to be one that there may be.
            let _limits = store.limits();
            let Parts { device, table } = store.into_parts();
            Lived {
                dev: device,
                report: Ok(Report {
                    lives: reports,
                    kept: table.entries(),
                    table,
                }),
            }
        }
        Err(refused) => Lived {
            dev: refused.dev,
            report: Err(refused.fault),
        },
    }
}

/// Lives the lives of a plan, one after the other, on a device that holds a store. In each the store is opened and the
/// batches are submitted in their order, until one is answered that the device failed; then the device stops, and each
/// pending write has its fate. A life that names calls has only so many served before the device fails. At the end the
/// store is opened once more.
///
/// For every lawful list of entries of which every image means the table: each opening shows the table of the entries
/// that are kept then, a lawful list of legal moves; the next are these with the acknowledged entries, or with all
/// accepted ones; and the last opening shows the table of the last. The store's opening or a batch fails only where the
/// device did, and counted it.
///
/// A fault of the device in a life that names calls ends that life. Any other fault, and any of the last opening, is
/// returned at once, without a stop: `Device`, with the count of the entries that may last or not; `NoMemory`; or
/// `Worn`, where the next batch would need a header's number, or a count of entries, over 2^64 - 1. Every image then
/// means the table of a list that a stop would have left. Where not every image means one such table, also `NotOurs`,
/// `Damaged` and `TooSmall`, as an opening says it. On any device `Device` comes only where the count of its failures
/// rose.
///
/// What is reported of a life is of that life (`told`): the device goes from life to life, each of which has one stop,
/// its last, and at the stop the device has failed as often as is reported. Where an opening is told as failed, the
/// life names calls, and since the stop before it the device has failed, with nothing written, and with no more of
/// those calls gone than an opening takes that goes well: a sync, a read of each header slot, and one of each sector
/// that the header names (of a journal of version 1, one for each record).
pub fn lives<D: CrashDevice>(alloc: Global, device: D, plan: &Plan) -> Lived<D>
    requires { AreSubmittable plan.now.lives.items }
    ensures reported { (limits : Limits) (k : List Entry) → IsBegun limits k (D.state device)
        → IfOk result.report (λ report. IsReport limits k (D.failures device) plan.now.lives.items report
        (D.failures result.dev)) }
    ensures images { (limits : Limits) (k : List Entry) → IsBegun limits k (D.state device)
        → IfOk result.report (λ report. AllMean (D.state result.dev) report.table) }
    ensures told { (D.state device).keeps_model → IfOk result.report (λ report.
        AreTold D.state D.failures D.calls_left D.stable D.pending plan.now.lives.items report.lives.items device
        result.dev) }
    ensures returned { (limits : Limits) (k : List Entry) → IsBegun limits k (D.state device)
        → IfErr result.report (λ fault. IsCutShort limits k (D.failures device) plan.now.lives.items fault
        (D.state result.dev) (D.failures result.dev)) }
    ensures each { IfOk result.report (λ report. length report.lives.items ≡ length plan.now.lives.items) }
    ensures count { IfOk result.report (λ report. report.kept ≡ report.table.entries) }
    ensures bounds { IfOk result.report (λ report. IsTable report.table) }
    ensures fault { IfErr result.report IsLivesFault }
    ensures cause { IfErr result.report (λ fault.
        IsDevice fault → HasRisen (D.failures device) (D.failures result.dev)) }
    ensures counted { D.failures device ≤ D.failures result.dev }
    ensures model { (D.state result.dev).keeps_model ↔ (D.state device).keeps_model }
    ensures sectors { D.sector_count result.dev ≡ D.sector_count device }
{
    let mut left = device;
    let Ok(room) = Vec::with_capacity(alloc, plan.lives.len()) else {
        return Lived {
            dev: left,
            report: Err(StoreFault::NoMemory),
        };
    };
    let mut reports: Vec<LifeReport> = room;
    for life in &plan.lives {
        let Ended { device, report } = live(alloc, left, life);
        left = device;
        match report {
            Ok(report) => reports.push_reserved(report),
            Err(fault) => {
                return Lived {
                    dev: left,
                    report: Err(fault),
                };
            }
        }
    }
    show(alloc, left, reports)
}
