//! Batches of commands on a store in memory, whose device is stopped, crashed and opened again: tests of whole lives by
//! their lines.
//!
//! - `# TEXT`: a note, which is written again;
//! - `create SECTORS GAMES PLIES`: a new device, and a store on it;
//! - `say MOMENT NAME LINE`: one command more of the next batch, NAME `-` for a session without a name;
//! - `submit`: the batch;
//! - `widen GAMES PLIES`;
//! - `table`: how many entries the table has, and its limits;
//! - `open CALLS`: the store is opened again, on a device that serves so many calls more, `-` for all;
//! - `once CALL pending`, `once CALL lost`: the same, on a device of which that call fails, counted from 1, and no
//!   other; a write that fails so is pending or not;
//! - `crash FATES`: a crash that gives the pending writes their fates, `L` lost, `K` kept, `U` unreadable, and then an
//!   opening.
//!
//! These are of the device, and close the store on it:
//!
//! - `device SECTORS`: a new one, of zeros;
//! - `make CALLS GAMES PLIES`: a store on it, while it serves so many calls more;
//! - `put AT FROM DIGITS`: bytes of a sector from one on, in digits to base 16, and a sync; `bytes AT FROM COUNT`
//!   writes them; `lose AT`: the sector cannot be read any more;
//! - `journal`: what the journal holds;
//! - `keep`: its sectors are noted; `again`: a new device of the sectors that were noted last.
ghost use Rattle.rec_codec.specs.declared.limits.Version.TheVariants.{Two};
ghost use Rattle.rec_codec.specs.Limits.{IsInRange};

mod texts;

use chess_entry::Command;
use chess_store::{Refused, Store};
use rec_codec::Limits;
use sector_dev::{CrashDevice, MemoryDevice, OnceDevice};
use sector_journal::open;
use std::alloc::Global;
use std::mem;
use test_lines::sectors::{device_of, digits, lose, put, sectors_of};
use test_lines::{
    Fault, Size, fates_of, fault_text, read_calls, read_command, read_limits, read_size, split,
};
use texts::{done_text, journal_text, replies_text, unread_text};

// A device in memory, of which one call can be made to fail.
type Device = OnceDevice<MemoryDevice>;

// What comes of making or opening a store.
type Opened = Result<Store<Device>, Refused<Device>>;

// What lines are played on.
#[derive(Drop)]
enum Ground {
    Nothing,
    Device(MemoryDevice),
    Store(Store<Device>),
}

/// A device in memory, alone or with the store that is open on it, the sectors that were noted, and the commands of the
/// next batch.
#[derive(Drop)]
pub struct StorePlayer {
    alloc: Global,
    ground: Ground,
    noted: Vec<[u8; 512]>,
    batch: Vec<Command>,
}

impl StorePlayer {
    /// Without a device.
    pub fn new(alloc: Global) -> StorePlayer {
        StorePlayer {
            alloc,
            ground: Ground::Nothing,
            noted: Vec::new(alloc),
            batch: Vec::new(alloc),
        }
    }

    /// What a line answers.
    pub fn play(&mut self, line: &str) -> Result<String, Fault> {
        let (word, rest) = split(line);
        match word {
            "#" => Ok(format!(in self.alloc; "# {rest}\n")?),
            "create" => self.create(read_size(rest)?),
            "say" => self.say(&read_command(rest)?),
            "submit" => self.submit(),
            "widen" => self.widen(read_limits(rest)?),
            "table" => self.table(),
            "open" => self.open(read_calls(rest)?),
            "once" => self.open_once(rest),
            "crash" => self.crash(rest),
            _ => self.play_on_device(word, rest),
        }
    }

    // What a line of the device answers.
    fn play_on_device(&mut self, word: &str, rest: &str) -> Result<String, Fault> {
        match word {
            "device" => self.lay(rest.parse::<u32>()?),
            "make" => self.make_while(rest),
            "put" => self.put(rest),
            "bytes" => self.bytes(rest),
            "lose" => self.lose(rest.parse::<u32>()?),
            "journal" => self.journal(),
            "keep" => self.keep(),
            "again" => self.again(),
            _ => Err(Fault::Input),
        }
    }

    fn nothing(&self) -> Result<String, Fault> {
        Ok(String::new(self.alloc))
    }

    // ---- the device

    // Puts this in the place of what lines were played on. (It goes by a call: an assignment lets go of each part.)
    fn put_ground(&mut self, ground: Ground) {
        drop(mem::replace(&mut self.ground, ground));
    }

    fn lay(&mut self, sectors: u32) -> Result<String, Fault> {
        self.put_ground(Ground::Nothing);
        let device = MemoryDevice::new(self.alloc, sectors)?;
        self.put_ground(Ground::Device(device));
        self.nothing()
    }

    // The device, which is to be put back; a store on it is closed.
    fn taken(&mut self) -> Result<MemoryDevice, Fault> {
        match mem::replace(&mut self.ground, Ground::Nothing) {
            Ground::Nothing => Err(Fault::Input),
            Ground::Device(device) => Ok(device),
            Ground::Store(store) => Ok(store.into_device().into_device()),
        }
    }

    // The device; a store on it is closed.
    fn closed(&mut self) -> Result<&mut MemoryDevice, Fault> {
        let device = self.taken()?;
        self.put_ground(Ground::Device(device));
        match &mut self.ground {
            Ground::Device(device) => Ok(device),
            _ => Err(Fault::Input),
        }
    }

    // `AT FROM DIGITS`.
    fn put(&mut self, text: &str) -> Result<String, Fault> {
        let (at, rest) = split(text);
        let (from, digits) = split(rest);
        let (at, from) = (at.parse::<u32>()?, from.parse::<usize>()?);
        put(self.alloc, self.closed()?, at, from, digits)?;
        self.nothing()
    }

    // `AT FROM COUNT`.
    fn bytes(&mut self, text: &str) -> Result<String, Fault> {
        let (at, rest) = split(text);
        let (from, count) = split(rest);
        let (at, from, count) = (
            at.parse::<u32>()?,
            from.parse::<usize>()?,
            count.parse::<usize>()?,
        );
        digits(self.alloc, self.closed()?, at, from, count)
    }

    fn lose(&mut self, at: u32) -> Result<String, Fault> {
        lose(self.closed()?, at)?;
        self.nothing()
    }

    fn keep(&mut self) -> Result<String, Fault> {
        let alloc = self.alloc;
        self.noted = sectors_of(alloc, self.closed()?)?;
        self.nothing()
    }

    fn again(&mut self) -> Result<String, Fault> {
        self.put_ground(Ground::Nothing);
        let device = device_of(self.alloc, &self.noted)?;
        self.put_ground(Ground::Device(device));
        self.nothing()
    }

    fn journal(&mut self) -> Result<String, Fault> {
        let device = self.taken()?;
        let (text, device) = match open(self.alloc, device) {
            Ok(opened) => {
                let text = journal_text(self.alloc, &opened);
                (text, opened.journal.into_device())
            }
            Err(refused) => (unread_text(self.alloc, refused.fault), refused.dev),
        };
        self.put_ground(Ground::Device(device));
        text
    }

    // ---- making and opening a store

    // The device, which serves so many calls more.
    fn armed(&mut self, calls: Option<u64>) -> Result<Device, Fault> {
        let mut device = self.taken()?;
        if let Some(calls) = calls {
            device.arm(calls);
        }
        Ok(OnceDevice::new(device))
    }

    fn create(&mut self, size: Size) -> Result<String, Fault>
        requires { IsInRange Two size.limits }
    {
        self.lay(size.sectors)?;
        self.make(None, size.limits)
    }

    // `CALLS GAMES PLIES`.
    fn make_while(&mut self, text: &str) -> Result<String, Fault> {
        let (calls, limits) = split(text);
        self.make(read_calls(calls)?, read_limits(limits)?)
    }

    fn make(&mut self, calls: Option<u64>, limits: Limits) -> Result<String, Fault>
        requires { IsInRange Two limits }
    {
        let device = self.armed(calls)?;
        let made = Store::create(self.alloc, device, limits);
        self.take(made, "created")
    }

    // Takes the store that was made or opened, which this word tells; else the device is back.
    fn take(&mut self, opened: Opened, word: &str) -> Result<String, Fault> {
        let (ground, text) = match opened {
            Ok(store) => (Ground::Store(store), done_text(self.alloc, word)),
            Err(refused) => (
                Ground::Device(refused.dev.into_device()),
                fault_text(self.alloc, &refused.fault),
            ),
        };
        self.put_ground(ground);
        text
    }

    // The store that a device holds.
    fn open_on(&mut self, device: Device) -> Result<String, Fault> {
        let opened = Store::open(self.alloc, device);
        self.take(opened, "opened")
    }

    fn open(&mut self, calls: Option<u64>) -> Result<String, Fault> {
        let device = self.armed(calls)?;
        self.open_on(device)
    }

    // `CALL pending` or `CALL lost`.
    fn open_once(&mut self, text: &str) -> Result<String, Fault> {
        let (call, fate) = split(text);
        let call = call.parse::<u64>()?;
        let pending = match fate {
            "pending" => true,
            "lost" => false,
            _ => return Err(Fault::Input),
        };
        let mut device = self.armed(None)?;
        device.fail_at(call, pending);
        self.open_on(device)
    }

    fn crash(&mut self, letters: &str) -> Result<String, Fault> {
        let fates = fates_of(self.alloc, letters)?;
        self.closed()?.crash_as(&fates);
        self.open(None)
    }

    // ---- the store

    fn say(&mut self, command: &Command) -> Result<String, Fault> {
        self.batch.extend_from_slice(&[*command])?;
        self.nothing()
    }

    fn submit(&mut self) -> Result<String, Fault> {
        let Ground::Store(store) = &mut self.ground else {
            return Err(Fault::Input);
        };
        if self.batch.is_empty() || self.batch.len() > 64 {
            return Err(Fault::Input);
        }
        let answer = match store.submit(&self.batch) {
            Ok(replies) => replies_text(self.alloc, &replies),
            Err(fault) => fault_text(self.alloc, &fault),
        };
        self.batch.clear();
        answer
    }

    fn widen(&mut self, limits: Limits) -> Result<String, Fault>
        requires { IsInRange Two limits }
    {
        let Ground::Store(store) = &mut self.ground else {
            return Err(Fault::Input);
        };
        let present = store.limits();
        if limits.games < present.games || limits.plies < present.plies {
            return Err(Fault::Input);
        }
        match store.widen(limits) {
            Ok(()) => done_text(self.alloc, "widened"),
            Err(fault) => fault_text(self.alloc, &fault),
        }
    }

    fn table(&self) -> Result<String, Fault> {
        let Ground::Store(store) = &self.ground else {
            return Err(Fault::Input);
        };
        let limits = store.limits();
        match store.table() {
            Ok(table) => Ok(format!(in self.alloc;
                "entries {} limits {} {}\n",
                table.entries(),
                limits.games,
                limits.plies
            )?),
            Err(fault) => fault_text(self.alloc, &fault),
        }
    }
}
