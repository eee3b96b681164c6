//! Devices on files that stand for the system's: on one of which nothing but a place is known, and on sectors in
//! memory.
use crate::files::{Call, last_kind, make};
use crate::sectors::{byte_at, check_first, fill};
use sector_dev::{
    CrashDevice, Device, FileDevice, MemoryDevice, OnceDevice, PositionedFile, SectorFile, Standing,
};
use std::io::{self, ErrorKind};
use std::process::Abort;

// A file that notes where it was last read or written, and of which this is known.
#[derive(Drop)]
struct FakeFile {
    offset: u64,
    standing: Option<Standing>,
}

impl PositionedFile for FakeFile {
    ghost use Rattle.std.specs.Prelude.{None};
    ghost use Rattle.sector_dev.specs.Unknown.{unknown, unknown_is_coherent};

    ghost state = { λ _. unknown };

    ghost sector_count = { λ _. 0 };

    ghost known_standing = { λ _. None };

    ghost coherent = { λ _. unknown_is_coherent 0 };

    fn read_at(&mut self, into: &mut [u8; 512], offset: u64) -> io::Result<()> {
        self.offset = offset;
        *into = [6; 512];
        Ok(())
    }

    fn write_at(&mut self, _from: &[u8; 512], offset: u64) -> io::Result<()> {
        self.offset = offset;
        Ok(())
    }

    fn sync(&mut self) -> io::Result<()> {
        Ok(())
    }

    fn standing(&self) -> io::Result<Standing> {
        self.standing.ok_or(io::Error::from(ErrorKind::Other))
    }
}

// What is known of a file; its sectors; the calls of its device; and where it was last read or written.
type Row<'a> = (Option<Standing>, u32, &'a [Call], u64);

// What a sync says of files that were cut or lost, files.rt shows of the system's.
static ROWS: [Row<'static>; 4] = [
    // The last sector stands before two tebibytes.
    (
        None,
        u32::MAX,
        &[Call::Fill(4_294_967_294, 1)],
        2_199_023_254_528,
    ),
    (None, u32::MAX, &[Call::Filled(8_388_608, 6)], 4_294_967_296),
    // A sync finds a file that is long enough, and one of which nothing is known.
    (Some(Standing::Named(u64::MAX)), 2, &[Call::Sync(None)], 0),
    (None, 2, &[Call::Sync(Some(ErrorKind::Other))], 0),
];

#[test]
fn a_device_asks_its_file(rt: HostRuntime) {
    for (standing, sectors, calls, offset) in &ROWS {
        let file = FakeFile {
            offset: 0,
            standing: *standing,
        };
        let mut device = FileDevice::over(file, *sectors);
        for call in *calls {
            assert!(rt; make(&rt, &mut device, call));
        }
        assert!(rt; device.into_file().offset == *offset);
    }
}

// A device on a file whose bytes are the sectors of a device of which the call with this number fails.
fn failing(memory: MemoryDevice, call: u64) -> FileDevice<SectorFile<OnceDevice<MemoryDevice>>> {
    let mut once = OnceDevice::new(memory);
    once.fail_at(call, false);
    let sectors = once.sectors();
    FileDevice::over(SectorFile::new(once), sectors)
}

// The call that fails, what is seen then, and what a crash leaves of it.
static FAILURES: [(u64, [u8; 2], [u8; 2]); 4] = [
    (1, [0, 2], [0, 2]),
    (2, [1, 2], [1, 2]),
    (3, [1, 0], [1, 0]),
    (4, [1, 2], [0, 0]),
];

// Of four calls this one fails.
fn check_calls(
    rt: &impl Abort,
    device: &mut FileDevice<SectorFile<OnceDevice<MemoryDevice>>>,
    call: u64,
) {
    let failed = [
        fill(rt, device, 0, 1).is_err(),
        byte_at(rt, device, 0).is_err(),
        fill(rt, device, 1, 2).is_err(),
        device.sync().is_err(),
    ];
    assert!(rt; failed == [call == 1, call == 2, call == 3, call == 4]);
    assert!(rt; last_kind(device) == Some(ErrorKind::Other));
    assert!(rt; device.sync().is_err() == (call == 4));
}

// The calls after one that failed are served, but for a sync after a sync that failed.
#[test]
fn one_call_of_the_file_fails(rt: HostRuntime) {
    for (call, seen, left) in &FAILURES {
        let memory = MemoryDevice::new(rt.alloc(), 2).expect(&rt, "memory");
        let mut device = failing(memory, *call);
        check_calls(&rt, &mut device, *call);
        check_first(&rt, &mut device, seen);
        let mut memory = device.into_file().into_device().into_device();
        memory.crash(&[]);
        check_first(&rt, &mut memory, left);
    }
}

// How a call failed.
fn failure(answer: io::Result<()>) -> Option<ErrorKind> {
    Some(answer.err()?.kind())
}

// A call past the sectors, or between two of them, is refused.
#[test]
fn a_file_of_sectors_has_no_other_bytes(rt: HostRuntime) {
    let memory = MemoryDevice::new(rt.alloc(), 2).expect(&rt, "memory");
    let mut file = SectorFile::new(memory);
    let past = Some(ErrorKind::UnexpectedEof);
    for offset in [1, 511, 513, 1024, 2_199_023_255_552] {
        assert!(rt; failure(file.read_at(&mut [0; 512], offset)) == past);
        assert!(rt; failure(file.write_at(&[1; 512], offset)) == past);
    }
}
