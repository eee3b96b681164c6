//! `rec_codec`: records, sectors and headers as bytes.
use arrayvec::ArrayVec;
use rec_codec::{
    Entry, Event, GameNumber, Half, Header, Limits, Made, Name, Record, StoredMove, Version, need,
    read_header, read_record, read_sector, write_header, write_record, write_sector,
};
use std::process::Abort;

static NEEDS: [(u32, u32, u32); 5] = [
    (1, 1, 208),
    (4, 60, 212),
    (8, 60, 216),
    (256, 1_024, 3_932),
    (4_096, 20_000, 1_050_768),
];

#[test]
fn needs_and_names(rt: HostRuntime) {
    for (games, plies, sectors) in &NEEDS {
        let limits = Limits {
            games: *games,
            plies: *plies,
        };
        assert!(rt; limits.is_in_range(Version::Two));
        assert!(rt; need(limits) == *sectors);
    }
    let name: Option<Name> = Name::try_new("a-b");
    assert!(rt; name.is_none());
}

fn are_zeros(bytes: &[u8]) -> bool {
    for byte in bytes {
        if *byte != 0 {
            return false;
        }
    }
    true
}

// Whether bytes start with these, and are zeros behind them.
fn starts_so(bytes: &[u8], front: &[u8]) -> bool {
    match bytes.strip_prefix(front) {
        Some(rest) => are_zeros(rest),
        None => false,
    }
}

const HEADER: [u8; 44] = *b"FIDEJRN1\
    \x02\0\0\0\xd4\0\0\0\x01\0\0\0\0\0\0\0\0\0\0\0\0\0\0\0\0\0\0\0\x04\0\0\0\x3c\0\0\0";

// That of a device that has just been formatted for 4 games of 60 moves.
#[test]
fn a_header(rt: HostRuntime) {
    let header = Header {
        version: Version::Two,
        sectors: 212,
        seq: 1,
        half: Half::Zero,
        snapshot: 0,
        journal: 0,
        limits: Limits {
            games: 4,
            plies: 60,
        },
    };
    let bytes: [u8; 512] = write_header(&header);
    assert!(rt; starts_so(&bytes, &HEADER));
    let found: Option<Header> = read_header(&bytes, 1);
    assert!(rt; found.is_some() && read_header(&bytes, 0).is_none());
}

// White's e2e4 as the first move of game 1, at 1,000; zeros follow.
const MOVED: [u8; 20] = *b"\x03\0\x0c\x07\x01\0\0\0\xe8\x03\0\0\0\0\0\0\0\0\0\0";

fn moved(rt: &impl Abort) -> Record {
    let made = Made {
        mv: StoredMove::from_code(1_804).expect(rt, "a move"),
        ply: 0,
    };
    Record::Entry(Entry {
        game: GameNumber::new(1),
        moment: 1_000,
        event: Event::Move(made),
    })
}

#[test]
fn a_record_and_a_sector(rt: HostRuntime) {
    let bytes: [u8; 128] = write_record(&moved(&rt));
    assert!(rt; starts_so(&bytes, &MOVED));
    let found: Option<Record> = read_record(&bytes);
    let sector: [u8; 512] = write_sector(&[found.expect(&rt, "a record")]);
    assert!(rt; starts_so(&sector, &MOVED));
    let records: Option<ArrayVec<Record, 4>> = read_sector(&sector);
    assert!(rt; records.expect(&rt, "records").len() == 1);
}
