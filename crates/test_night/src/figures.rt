//! How many games a list of the server tells.
use lobby_serving::{Games, Listing, Told};
use std::alloc::Global;
use std::process::Abort;

// What bytes tell that come in two pieces.
fn told_of(rt: &impl Abort, alloc: Global, bytes: &[u8], cut: usize) -> Told {
    let (front, rest) = bytes.split_at(cut.min(bytes.len()));
    let mut listing = Listing::new(alloc);
    let first = listing.take(front).expect(rt, "memory");
    if first != Told::Nothing {
        return first;
    }
    listing.take(rest).expect(rt, "memory")
}

// What is told of a list, however it comes, and of nothing else.
static CASES: [(&[u8], Told); 6] = [
    (
        b"ok list 4\n1 ann bob 12 1-0\n2 - bob 0 *\n7 ann - 0 *\n12 eve bob 3 *\nok show 1\n",
        Told::Games(Games { all: 4, waiting: 2 }),
    ),
    (b"ok list 0\n", Told::Games(Games { all: 0, waiting: 0 })),
    (b"ok list 2\n1 ann bob 12 *\n2 - b", Told::Nothing),
    (b"no 36 NoServer\n", Told::NoList),
    (b"ok list 1\n\xff\n", Told::NoList),
    (&[b'1'; 300], Told::NoList),
];

#[test]
fn tells_how_many_games_wait_however_they_come(rt: HostRuntime) {
    for (bytes, wanted) in &CASES {
        for cut in 0..bytes.len() {
            assert!(rt; told_of(&rt, rt.alloc(), bytes, cut) == *wanted);
        }
    }
}
