//! Journals and stores on files, for `bench/speed/journal` and `bench/speed/store`. FILE, without spaces, is made where
//! it isn't there, and a journal or a store on it where it holds none.
//!
//! - `commits FILE RECORDS COMMITS SNAPSHOT` makes so many commits of so many records, 1 to 64, in a journal, and
//!   writes how many; a compaction to a snapshot of so many records is always under way beside them, `-` for none;
//! - `MOMENT NAME LINE`: one command more, NAME `-` for a session without a name;
//! - `batches FILE BATCH BATCHES GAMES PLIES`: of the commands since the last such line the first so many batches of so
//!   many, 1 to 64, are submitted to a store of these limits, and it is written how many entries its table has then.
ghost use Rattle.std.specs.Prelude.{◌≤◌, IfOk};
ghost use Rattle.rec_codec.specs.declared.limits.Version.TheVariants.{Two};
ghost use Rattle.rec_codec.specs.Limits.{IsInRange};

use chess_entry::Command;
use chess_store::{Store, StoreFault};
use rec_codec::{Limits, need};
use sector_dev::FileDevice;
use sector_journal::{Journal, JournalFault, format, open};
use test_lines::commits::{CommitFault, Plan, make_commits};
use test_lines::{Fault, LIMITS, read_command, read_limits, split};

/// The commands that came since the last batches.
#[derive(Drop)]
pub struct FilePlayer<'a> {
    rt: &'a HostRuntime,
    commands: Vec<Command>,
}

// `RECORDS SNAPSHOT`.
fn read_plan(records: &str, snapshot: &str) -> Result<Plan, Fault>
    ensures some { IfOk result (λ plan. 1 ≤ plan.records) }
    ensures few { IfOk result (λ plan. plan.records ≤ 64) }
{
    let records = records.parse::<usize>()?;
    if records < 1 || records > 64 {
        return Err(Fault::Input);
    }
    let snapshot = match snapshot {
        "-" => None,
        _ => Some(snapshot.parse::<usize>()?),
    };
    Ok(Plan { records, snapshot })
}

impl<'a> FilePlayer<'a> {
    /// No commands yet.
    pub fn new(rt: &'a HostRuntime) -> FilePlayer<'a> {
        FilePlayer {
            rt,
            commands: Vec::new(rt.alloc()),
        }
    }

    /// What a line answers.
    pub fn play(&mut self, line: &str) -> Result<String, Fault> {
        let (word, rest) = split(line);
        match word {
            "commits" => self.commit(rest),
            "batches" => self.submit(rest),
            _ => {
                self.commands.extend_from_slice(&[read_command(line)?])?;
                Ok(String::new(self.rt.alloc()))
            }
        }
    }

    // `FILE RECORDS COMMITS SNAPSHOT`.
    fn commit(&self, text: &str) -> Result<String, Fault> {
        let alloc = self.rt.alloc();
        let (file, rest) = split(text);
        let (records, rest) = split(rest);
        let (commits, snapshot) = split(rest);
        let commits = commits.parse::<u32>()?;
        let plan = read_plan(records, snapshot)?;
        let device = FileDevice::create(self.rt, file, need(LIMITS))?;
        let made = match self.journal_on(device) {
            Ok(mut journal) => make_commits(alloc, &mut journal, &plan, commits),
            Err(fault) => Err(CommitFault::Journal(fault)),
        };
        match made {
            Ok(()) => Ok(format!(in alloc; "commits {commits}\n")?),
            Err(fault) => Err(Fault::of(alloc, &fault)),
        }
    }

    // The journal that a device holds, or a new one.
    fn journal_on(&self, device: FileDevice) -> Result<Journal<FileDevice>, JournalFault> {
        let refused = match format(self.rt.alloc(), device, LIMITS) {
            Ok(journal) => return Ok(journal),
            Err(refused) => refused,
        };
        if refused.fault != JournalFault::Exists {
            return Err(refused.fault);
        }
        match open(self.rt.alloc(), refused.dev) {
            Ok(opened) => Ok(opened.journal),
            Err(refused) => Err(refused.fault),
        }
    }

    // `FILE BATCH BATCHES GAMES PLIES`.
    fn submit(&mut self, text: &str) -> Result<String, Fault> {
        let alloc = self.rt.alloc();
        let (file, rest) = split(text);
        let (batch, rest) = split(rest);
        let (batches, rest) = split(rest);
        let (batch, batches) = (batch.parse::<usize>()?, batches.parse::<usize>()?);
        let limits = read_limits(rest)?;
        if batch < 1 || batch > 64 {
            return Err(Fault::Input);
        }
        let device = FileDevice::create(self.rt, file, need(limits))?;
        let entries = match self.store_on(device, limits) {
            Ok(mut store) => submit_batches(&mut store, &self.commands, batch, batches),
            Err(fault) => Err(fault),
        };
        self.commands.clear();
        match entries {
            Ok(entries) => Ok(format!(in alloc; "entries {entries}\n")?),
            Err(fault) => Err(Fault::of(alloc, &fault)),
        }
    }

    // The store that a device holds, or a new one.
    fn store_on(&self, device: FileDevice, limits: Limits) -> Result<Store<FileDevice>, StoreFault>
        requires { IsInRange Two limits }
    {
        let refused = match Store::create(self.rt.alloc(), device, limits) {
            Ok(store) => return Ok(store),
            Err(refused) => refused,
        };
        if !matches!(refused.fault, StoreFault::Exists) {
            return Err(refused.fault);
        }
        match Store::open(self.rt.alloc(), refused.dev) {
            Ok(store) => Ok(store),
            Err(refused) => Err(refused.fault),
        }
    }
}

// Submits the first so many batches of so many commands, 1 to 64; the last batch may have fewer. How many entries the
// table has then.
fn submit_batches(
    store: &mut Store<FileDevice>,
    commands: &[Command],
    size: usize,
    batches: usize,
) -> Result<u64, StoreFault>
    requires some { 1 ≤ size }
{
    for batch in commands.chunks(size).take(batches) {
        if batch.is_empty() || batch.len() > 64 {
            break;
        }
        store.submit(batch)?;
    }
    Ok(store.table()?.entries())
}
