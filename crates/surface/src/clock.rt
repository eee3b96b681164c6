//! `chess_clock`: the time that a game's sides hold.
use chess_bits::Colour::{Black, White};
use chess_clock::Clock;

// 60 s, 2 s a move and 30 s more after the first, from 0 on. White moves after 10 s; then Black's time runs out.
#[test]
fn a_second_period(rt: HostRuntime) {
    let mut clock = Clock::new(60, 2, White, 0, Some((1, 30)));
    clock.finish_turn(10_000);
    let held: [u32; 2] = [clock.held(White), clock.held(Black)];
    assert!(rt; held == [82_000, 60_000] && clock.since() == 10_000);
    assert!(rt; !clock.fallen(69_999) && clock.left(Black, 69_999) == 1);
    assert!(rt; clock.fallen(70_000));
}

// A wrong claim of White's, a time set, and a stop.
#[test]
fn times_set_and_stopped(rt: HostRuntime) {
    let mut clock = Clock::new(300, 0, White, 1_000, None);
    clock.penalty(Black);
    clock.set_held(White, 5_000, 0);
    clock.stop(3_000);
    let left: [u32; 2] = [clock.left(White, 9_000), clock.left(Black, 9_000)];
    assert!(rt; left == [3_000, 420_000] && clock.since() == 3_000);
}
