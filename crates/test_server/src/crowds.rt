//! Many clients beside one another.
use crate::clients::{LISTED, LISTS, NAMED};
use crate::peers::{Gives, Takes};
use crate::playing::{Step, play};

const SIXTEEN: &str = "\
name a\nname a\nname a\nname a\nname a\nname a\nname a\nname a\n\
name a\nname a\nname a\nname a\nname a\nname a\nname a\nname a\n";

const ENDS: &[Gives] = &[Gives::Text(SIXTEEN), Gives::End];

const FOUR_STAY: Step = Step::Come(4, &[Gives::Text(SIXTEEN), Gives::Nothing], &Takes::All);

const ASKS: &[Gives] = &[Gives::Text(LISTS)];

// Each of five sends 16 lines at once, more than a turn answers, and the first then ends.
const LINES_THAT_WAIT_AT_AN_END: [Step; 12] = [
    Step::Come(1, ENDS, &Takes::All),
    FOUR_STAY,
    Step::Turns((1, 1, false, None)),
    Step::Lines(NAMED, 12, 13, 64),
    Step::Client(0, true, NAMED, Some(13)),
    Step::Client(4, true, NAMED, Some(12)),
    Step::Turns((1, 1, false, None)),
    Step::Client(0, true, NAMED, Some(16)),
    Step::Lines(NAMED, 16, 16, 80),
    Step::Turns((1, 1, false, None)),
    Step::Client(0, false, NAMED, Some(16)),
    Step::Lines(NAMED, 16, 16, 80),
];

// The end is heard in the second turn, when three answers are to come.
const LINES_AT_AN_END_READ_SLOWLY: [Step; 11] = [
    Step::Come(1, ENDS, &Takes::SlowsAt(130)),
    FOUR_STAY,
    Step::Turns((4, 1, false, None)),
    Step::Client(0, true, NAMED, None),
    Step::Client(1, true, NAMED, Some(16)),
    Step::Client(2, true, NAMED, Some(16)),
    Step::Client(3, true, NAMED, Some(16)),
    Step::Client(4, true, NAMED, Some(16)),
    Step::Turns((16, 1, false, None)),
    Step::Client(0, false, NAMED, Some(16)),
    Step::Lines(NAMED, 16, 16, 80),
];

// 64 clients ask for the list again and again.
const LISTS_IN_TURN: [Step; 7] = [
    Step::Come(64, ASKS, &Takes::All),
    Step::Turns((63, 1, false, None)),
    Step::Lines(LISTED, 0, 1, 63),
    Step::Turns((1, 1, false, None)),
    Step::Lines(LISTED, 1, 1, 64),
    Step::Turns((1_936, 1, false, None)),
    Step::Lines(LISTED, 31, 32, 2_000),
];

// Two clients were given 40 lists each and are idle. A third comes and asks for the list.
const BEHIND_TWO: [Step; 5] = [
    Step::Come(2, &[Gives::Text(LISTS), Gives::Nothing], &Takes::All),
    Step::Turns((80, 1, false, None)),
    Step::Come(1, &[Gives::Text("list\n"), Gives::Nothing], &Takes::All),
    Step::Turns((1, 1, false, None)),
    Step::Client(2, true, LISTED, Some(1)),
];

// A game is opened, and its position is asked for: 16 answers of 66 bytes.
const FENS: &[Gives] = &[
    Gives::Text("name a\nopen white 300 0\n"),
    Gives::Text(
        "\
fen 1\nfen 1\nfen 1\nfen 1\nfen 1\nfen 1\nfen 1\nfen 1\n\
fen 1\nfen 1\nfen 1\nfen 1\nfen 1\nfen 1\nfen 1\nfen 1\n",
    ),
    Gives::Nothing,
];

const MUCH_TO_TAKE: [Step; 4] = [
    Step::Come(1, FENS, &Takes::Some(100)),
    Step::Turns((40, 1, false, None)),
    Step::Written(0, 1_076, " w KQkq - 0 1\n"),
    Step::Client(0, true, NAMED, None),
];

static SCRIPTS: [&[Step]; 5] = [
    &LINES_THAT_WAIT_AT_AN_END,
    &LINES_AT_AN_END_READ_SLOWLY,
    &LISTS_IN_TURN,
    &BEHIND_TWO,
    &MUCH_TO_TAKE,
];

#[test]
fn a_crowd_is_served_so(rt: HostRuntime) {
    for steps in &SCRIPTS {
        play(&rt, rt.alloc(), steps);
    }
}
