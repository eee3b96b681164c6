//! What no stored run shows of the lines of clients.
use chess_entry::Act;
use chess_line::{Line, parse};
use text_lines::Lines;

// A line of 255 bytes is read, and one of 256 is not: `move 1 0 ` has nine.
#[test]
fn refuses_lines_over_255_bytes(rt: HostRuntime) {
    let mut line = [b'x'; 256];
    line[..9].copy_from_slice(b"move 1 0 ");
    assert!(rt; parse(&line[..255]).is_some() && parse(&line).is_none());
}

// Seven bytes were taken, fewer than wait; then the others.
#[test]
fn lines_that_were_taken_are_given_up(rt: HostRuntime) {
    let mut lines = Lines::new(rt.alloc());
    assert!(rt; lines.feed(b"hello\r\nname bob\n").is_ok());
    lines.drop_line();
    assert!(rt; [lines.held(), lines.waiting()] == [16, 9]);
    lines.drop_line();
    assert!(rt; [lines.held(), lines.waiting()] == [0, 0]);
}

// The act of a line.
fn act_of(line: &str) -> Option<Act> {
    match parse(line.as_bytes()) {
        Some(Line::Act(act)) => Some(act),
        _ => None,
    }
}

// Whether a line asks for this move.
fn is_move_line(line: &str, of_game: u32, at_ply: u32, of_text: &str) -> bool {
    let Some(act) = act_of(line) else {
        return false;
    };
    match act {
        Act::Play { game, ply, text } => {
            game == of_game && ply == at_ply && text.as_str() == of_text
        }
        _ => false,
    }
}

#[test]
fn reads_moves_and_claims(rt: HostRuntime) {
    assert!(rt; is_move_line("move 1 23 e2e4", 1, 23, "e2e4"));
    assert!(rt; is_move_line("move 4294967295 0 !~", 4294967295, 0, "!~"));
    let fifty = match act_of("claim 2 8 fifty e4") {
        Some(
            Act::Claim {
                game: 2,
                ply: 8,
                fifty: true,
                text: Some(text),
            },
        ) => text.as_str() == "e4",
        _ => false,
    };
    assert!(rt; fifty);
    let three = match act_of("claim 1 9 three") {
        Some(
            Act::Claim {
                game: 1,
                ply: 9,
                fifty: false,
                text: None,
            },
        ) => true,
        _ => false,
    };
    assert!(rt; three);
}
