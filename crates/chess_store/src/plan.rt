use crate::StoreFault;
use chess_entry::Command;
use chess_table::Table;
use sector_dev::Fate;

/// The lives of a store, one after the other.
#[derive(Drop)]
pub struct Plan {
    pub lives: Vec<Life>,
}

/// One life: an opening, batches, and a stop.
#[derive(Drop)]
pub struct Life {
    /// How many calls the device serves before it fails, if it is to fail.
    pub calls: Option<u64>,
    /// The batches that are submitted, of 1 to 64 commands each.
    pub batches: Vec<Vec<Command>>,
    /// What becomes of each pending write at the stop, by place; a missing place is `Lost`.
    pub fates: Vec<Fate>,
}

/// What came of a life.
#[derive(Clone, Copy, Drop)]
pub struct LifeReport {
    /// The number of entries that the opening showed; `None` where it failed by the device.
    pub opened: Option<u64>,
    /// The number of entries of the batches that were answered in this life.
    pub acknowledged: u64,
    /// That number and the entries of the batch at which the device failed.
    pub accepted: u64,
    /// For how many commands of the answered batches memory was refused, so that they count as not sent; at most
    /// 2^64 - 1, also where there are more.
    pub unsent: u64,
    /// How often the device has failed until the end of this life, as the device counts it: at 2^64 - 1 it stays.
    pub failures: u64,
}

/// What came of all lives, and what the last opening showed.
#[derive(Drop)]
pub struct Report {
    pub lives: Vec<LifeReport>,
    /// The number of entries that the last opening showed.
    pub kept: u64,
    pub table: Table,
}

/// The device that the lives leave, and what came of them, or the fault at which they ended.
#[derive(Drop)]
pub struct Lived<D> {
    pub dev: D,
    pub report: Result<Report, StoreFault>,
}
