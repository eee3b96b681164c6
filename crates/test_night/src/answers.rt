//! Answers of the server as its protocol's page has them, and lines that are near to one.
use server_answers::{entered_of, list_head_of, pgn_head_of, refusal_of, row_of, shown_of};

// Each has a form, and no other.
static ANSWERS: [&str; 24] = [
    "ok open 1",
    "ok join 1 white",
    "ok join 4294967295 black",
    "ok move 1 4 Qh4# 0-1 5.1.1",
    "ok move 1 1 e4",
    "ok offer 1",
    "ok decline 1",
    "ok drop 1",
    "ok accept 1 1/2-1/2 5.2.3",
    "ok resign 1 1-0 5.1.2",
    "ok claim 1 1/2-1/2 9.2",
    "ok claim 1 wrong",
    "ok claim 1 wrong 9 Nf3",
    "ok claim 1 wrong 9 Qh5# 1-0 5.1.1",
    "fallen 1 0-1 6.9",
    "ok show 1 ann bob 1 b 299000 300000 wb * -",
    "ok show 1 ann - 0 w 300000 300000 - * -",
    "ok show 1 ann bob 4 w 0 291000 - 0-1 9.6.1",
    "ok pgn 1 13",
    "ok list 0",
    "1 ann bob 4 0-1",
    "2 - eve 0 *",
    "no 3 NoGame",
    "no 7 WrongPly 4",
];

// None of them has a form.
static OTHERS: [&str; 20] = [
    "",
    "ok",
    "ok name ann",
    "ok open 01",
    "ok open 1 ",
    "ok  open 1",
    "ok open 4294967296",
    "ok join 1",
    "ok move 1 4 Qh4# 0-1",
    "ok move 1 4 ",
    "ok accept 1",
    "ok show 1 ann bob 1 b 299000 300000 - *",
    "ok show 1 ann bob 1 b 299000 300000 - * - -",
    "ok show 1 ann bob 1 b 299000 300000 - * 5.1.1",
    "ok show 1 ann b-b 1 b 299000 300000 - * -",
    "1 ann bob 4 0-1 5.1.1",
    "no 3 NoName",
    "no 7 WrongPly",
    "no 25 Finished",
    "bye LineTooLong",
];

// How many readers take a line.
fn readers(line: &str) -> usize {
    let reads = [
        entered_of(line).is_some(),
        shown_of(line).is_some(),
        row_of(line).is_some(),
        list_head_of(line).is_some(),
        pgn_head_of(line).is_some(),
        refusal_of(line).is_some(),
    ];
    reads.iter().filter(|reads| **reads).count()
}

#[test]
fn an_answer_is_read_in_one_way_and_no_other_line(rt: HostRuntime) {
    for (lines, wanted) in [(ANSWERS.as_slice(), 1), (&OTHERS, 0)] {
        for line in lines {
            assert!(rt; readers(line) == wanted);
        }
    }
}
