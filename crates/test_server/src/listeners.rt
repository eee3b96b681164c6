//! Listeners whose tries fail.
use sockets::{AcceptOutcome, Listens, next_connection, outcome_of};
use std::io::Error;

/// A listener that answers tries by these error numbers of Linux, 0 being a connection, and then that none waits.
#[derive(Drop)]
struct Queue {
    codes: &'static [i32],
    tries: usize,
    outcome: AcceptOutcome,
    given: u8,
}

/// None waits.
const EAGAIN: i32 = 11;

impl Listens for Queue {
    type Stream = usize;

    ghost last_outcome = { λ queue. queue.outcome };

    ghost given_so_far = { λ queue. queue.given };

    ghost tried_so_far = { λ queue. queue.tries };

    fn accept_one(&mut self) -> Option<usize> {
        let code = match self.codes.get(self.tries) {
            Some(code) => *code,
            None => EAGAIN,
        };
        self.tries = self.tries.saturating_add(1);
        if code == 0 && self.given < u8::MAX {
            self.outcome = AcceptOutcome::Connection;
            self.given += 1;
            return Some(self.tries);
        }
        self.outcome = outcome_of(Error::from_raw_os_error(code).kind());
        None
    }

    fn outcome(&self) -> AcceptOutcome {
        self.outcome
    }
}

// The tries of a listener; which connection comes of it, after how many, and what came of the last of them.
static ROWS: [(&[i32], Option<usize>, usize, AcceptOutcome); 10] = [
    // Only a listener without connections has nobody.
    (&[], None, 1, AcceptOutcome::Nobody),
    (&[103], None, 2, AcceptOutcome::Nobody),
    (&[103; 100], None, 64, AcceptOutcome::Lost),
    // A connection comes behind lost ones: ECONNABORTED, ECONNRESET and EINTR are passed over.
    (&[0], Some(1), 1, AcceptOutcome::Connection),
    (&[103, 104, 4, 0], Some(4), 4, AcceptOutcome::Connection),
    // At EMFILE, ENFILE, ENOMEM, ENOBUFS and EINVAL one may wait that is tried again in a later turn.
    (&[24, 0], None, 1, AcceptOutcome::Refused),
    (&[23, 0], None, 1, AcceptOutcome::Refused),
    (&[12, 0], None, 1, AcceptOutcome::Refused),
    (&[105, 0], None, 1, AcceptOutcome::Refused),
    (&[103, 22, 0], None, 2, AcceptOutcome::Refused),
];

#[test]
fn tries_come_to_a_connection_or_not(rt: HostRuntime) {
    for (codes, connection, tries, outcome) in &ROWS {
        let mut queue = Queue {
            codes,
            tries: 0,
            outcome: AcceptOutcome::Lost,
            given: 0,
        };
        assert!(rt; next_connection(&mut queue) == *connection);
        assert!(rt; queue.tries == *tries && queue.outcome == *outcome);
    }
}
