//! A clock that is made of events, which no program asks for. What it shows, clauses settle.
use chess_bits::Colour::{Black, White};
use chess_clock::{Clock, ClockEvent};

// 300 s, and 2 s a move, from 1,000 on: White moves after 4 s and Black after 60, and then White claims wrongly.
#[test]
fn a_clock_has_the_sums_of_a_game(rt: HostRuntime) {
    let clock = Clock::of_game(
        300,
        2,
        White,
        1_000,
        None,
        &[
            ClockEvent::Turn(White, 4_000),
            ClockEvent::Turn(Black, 60_000),
            ClockEvent::WrongClaim(White),
        ],
    );
    assert!(rt; [clock.held(White), clock.held(Black)] == [298_000, 362_000]);
    assert!(rt; clock.since() == 65_000);
}
