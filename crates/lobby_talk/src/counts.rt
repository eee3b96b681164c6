//! What is counted for who looks after a lobby. Nothing else goes by it.
ghost use Rattle.std.specs.Prelude.{◌≡◌};
ghost use Rattle.lobby_talk.specs.Counting.{counted_up, is_answer, one_if, refuses_login};

use text_parts::behind;

/// The acts: the second words of their answers.
pub const ACTS: [&str; 11] = [
    "open", "join", "pair", "move", "offer", "accept", "decline", "resign", "claim", "flag", "drop",
];

// How a request for figures begins, as who asks for them by HTTP sends it.
const FIGURES: &[u8] = b"GET /health ";

/// The bounds of answers' times, in milliseconds.
pub const BOUNDS: [u64; 12] = [1, 2, 5, 10, 20, 50, 100, 200, 500, 1_000, 2_000, 5_000];

/// What was counted since a lobby began. No number goes beyond 2^64 - 1.
#[derive(Clone, Copy)]
pub struct Counts {
    /// The moment of the turn.
    pub at: u64,
    /// Pieces of browsers' bytes that began with a request for figures.
    pub figures: u64,
    /// Messages that were taken.
    pub messages: u64,
    /// Answers by their first words: `ok`, `no`, `fallen` and `lost`.
    pub ok: u64,
    pub no: u64,
    pub fallen: u64,
    pub lost: u64,
    /// Logins that were refused: no player has the token.
    pub logins_refused: u64,
    /// Acts that were accepted by `ok`, as `ACTS` has them.
    pub acts: [u64; 11],
    /// Answers whose time is known, their times together, and how many of them are within each of `BOUNDS`.
    pub timed: u64,
    pub time: u64,
    pub within: [u64; 12],
}

/// Whether an answer refuses a login.
pub fn is_refused_login(text: &str) -> bool
    ensures { result ≡ refuses_login text.now }
{
    text.starts_with("no 32 ")
}

/// Whether a text answers a message, and is no notice.
pub fn is_answer(text: &str) -> bool
    ensures { result ≡ is_answer text.now }
{
    text.starts_with("ok ")
        || text.starts_with("no ")
        || text.starts_with("fallen ")
        || text.starts_with("lost\n")
}

// One more is counted.
fn count(number: &mut u64)
    ensures { number.new ≡ counted_up number.old 1 }
{
    *number = number.saturating_add(1);
}

// The word in front of a text.
fn first_word(text: &str) -> &str {
    text.split_once(' ')
        .map_or_else(|| text.trim_end(), |(word, _)| word)
}

// An act was accepted, if it is one.
fn count_act(acts: &mut [u64; 11], word: &str) {
    for (act, number) in ACTS.iter().zip(acts.iter_mut()) {
        if *act == word {
            count(number);
        }
    }
}

// An answer came so many milliseconds behind its message.
fn count_within(within: &mut [u64; 12], time: u64) {
    for (bound, number) in BOUNDS.iter().zip(within.iter_mut()) {
        if time <= *bound {
            count(number);
        }
    }
}

/// What came in a turn and is counted: pieces that began with a request for figures, and messages.
#[derive(Clone, Copy)]
pub struct Coming {
    figures: u64,
    messages: u64,
}

/// Nothing came.
pub const NOTHING_CAME: Coming = Coming {
    figures: 0,
    messages: 0,
};

impl Coming {
    /// A piece came of a browser.
    pub fn take(&mut self, piece: &[u8]) {
        if piece.starts_with(FIGURES) {
            count(&mut self.figures);
        }
    }

    /// A message was taken.
    pub fn said(&mut self) {
        count(&mut self.messages);
    }
}

/// Nothing was counted.
pub const NOTHING_COUNTED: Counts = Counts {
    at: 0,
    figures: 0,
    messages: 0,
    ok: 0,
    no: 0,
    fallen: 0,
    lost: 0,
    logins_refused: 0,
    acts: [0; 11],
    timed: 0,
    time: 0,
    within: [0; 12],
};

impl Counts {
    /// What came is counted too.
    pub fn add(&mut self, coming: &Coming)
        ensures logins { self.new.logins_refused ≡ self.old.logins_refused }
        ensures at { self.new.at ≡ self.old.at }
    {
        self.figures = self.figures.saturating_add(coming.figures);
        self.messages = self.messages.saturating_add(coming.messages);
    }

    // An answer goes out to the earliest message that has none, where that is known.
    fn answered(&mut self, asked: &mut Asked)
        ensures logins { self.new.logins_refused ≡ self.old.logins_refused }
        ensures at { self.new.at ≡ self.old.at }
    {
        if let Some(asked_at) = asked.take() {
            let time = self.at.saturating_sub(asked_at);
            count(&mut self.timed);
            self.time = self.time.saturating_add(time);
            count_within(&mut self.within, time);
        }
    }

    /// A text is for a browser: a login that it refuses is counted.
    pub fn note_login(&mut self, text: &str)
        ensures logins { self.new.logins_refused
            ≡ counted_up self.old.logins_refused (one_if (refuses_login text.now)) }
        ensures at { self.new.at ≡ self.old.at }
    {
        if is_refused_login(text) {
            count(&mut self.logins_refused);
        }
    }

    /// A browser that asked at these moments is told a text: an answer, or a notice, which is not counted.
    pub fn told(&mut self, text: &str, asked: &mut Asked)
        ensures logins { self.new.logins_refused ≡ self.old.logins_refused }
        ensures at { self.new.at ≡ self.old.at }
    {
        match first_word(text) {
            "ok" => {
                count(&mut self.ok);
                count_act(&mut self.acts, first_word(behind(text, ' ')));
            }
            "no" => count(&mut self.no),
            "fallen" => count(&mut self.fallen),
            "lost" => count(&mut self.lost),
            _ => return,
        }
        self.answered(asked);
    }
}

/// When the messages were taken that are not answered yet: one whose answer is on its way, and one behind it.
#[derive(Clone, Copy)]
pub struct Asked {
    first: Option<u64>,
    second: Option<u64>,
}

/// Nothing was asked.
pub const NOTHING_ASKED: Asked = Asked {
    first: None,
    second: None,
};

impl Asked {
    /// A message was taken at a moment.
    pub fn push(&mut self, at: u64) {
        if self.first.is_none() {
            self.first = Some(at);
        } else {
            self.second = Some(at);
        }
    }

    // The moment of the earliest that is not answered: it is now.
    fn take(&mut self) -> Option<u64> {
        let asked_at = self.first;
        self.first = self.second;
        self.second = None;
        asked_at
    }
}
