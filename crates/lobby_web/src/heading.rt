//! Where the heads of requests end, as their bytes come: a head that comes byte by byte is looked through once, and not
//! parsed anew at each of them.
ghost use Rattle.std.specs.Prelude.{◌≡◌, ◌||◌};
ghost use Rattle.lobby_web.specs.Heading.{is_foreign};

/// What stands at the end of what came.
#[derive(Clone, Copy)]
pub enum Line {
    /// Empty lines alone since a head's end, or since the first byte.
    Blank,
    /// A line that is not empty, and has no end yet.
    Within,
    /// A line that is not empty, and its end.
    Whole,
    /// A line that is not empty, its end, and a carriage return.
    Returned,
}

impl Line {
    ghost use Rattle.lobby_web.specs.Heading.{line_after, ends_head};

    // What stands at the end of what came, once this byte has.
    fn after(self, byte: u8) -> Line
        ensures { result ≡ line_after self byte }
    {
        match self {
            Line::Blank if byte == b'\n' || byte == b'\r' => Line::Blank,
            Line::Blank => Line::Within,
            Line::Within if byte == b'\n' => Line::Whole,
            Line::Within => Line::Within,
            Line::Whole if byte == b'\n' => Line::Blank,
            Line::Whole if byte == b'\r' => Line::Returned,
            Line::Whole => Line::Within,
            Line::Returned if byte == b'\n' => Line::Blank,
            Line::Returned => Line::Within,
        }
    }

    // Whether this byte ends a head.
    fn ends(self, byte: u8) -> bool
        ensures { result ≡ ends_head self byte }
    {
        match self {
            Line::Blank | Line::Within => false,
            Line::Whole | Line::Returned => byte == b'\n',
        }
    }
}

// Whether no head has this byte: a control that is neither a tab nor of the end of a line.
fn is_foreign(byte: u8) -> bool
    ensures { result ≡ is_foreign byte }
{
    byte < b' ' && !(byte == b'\t' || byte == b'\n' || byte == b'\r')
}

/// How far the head of a request is.
#[derive(Clone, Copy)]
pub struct Heading {
    line: Line,
    /// So many bytes came since the last end; not counted further than a head may have.
    pub(crate) length: usize,
}

/// So many bytes a head has at most.
pub const MOST_IN_HEAD: usize = 16_384;

impl Heading {
    ghost use Rattle.lobby_web.specs.Heading.{fresh, further, heading_after, has_end, is_read, ends_head};

    /// Nothing has come.
    pub fn new() -> Heading
        ensures { result ≡ fresh }
    {
        Heading {
            line: Line::Blank,
            length: 0,
        }
    }

    // A byte has come. It tells whether that ends a head, or is none of a head.
    fn step(&mut self, byte: u8) -> bool
        ensures end { result ≡ (ends_head self.old.line byte || is_foreign byte) }
        ensures heading { self.new ≡ further self.old byte }
    {
        let is_end = self.line.ends(byte);
        self.line = self.line.after(byte);
        self.length = if is_end {
            0
        } else {
            self.length.saturating_add(1).min(MOST_IN_HEAD)
        };
        is_end || is_foreign(byte)
    }

    // These bytes have come. It tells whether one of them ends a head, or is none of a head.
    fn run(&mut self, bytes: &[u8]) -> bool
        ensures end { result ≡ has_end self.old bytes.now }
        ensures heading { self.new ≡ heading_after self.old bytes.now }
    {
        let mut has_end = false;
        for byte in bytes {
            let is_end = self.step(*byte);
            has_end |= is_end;
        }
        has_end
    }

    /// These bytes have come; none says that the peer sends no more. It tells whether what came is to be read now: one
    /// of them ends a head, or is none of a head, or no more come, or so many came without an end as no head may have.
    pub fn is_read(&mut self, bytes: &[u8]) -> bool
        ensures read { result ≡ is_read self.old bytes.now }
        ensures heading { self.new ≡ heading_after self.old bytes.now }
    {
        let has_end = self.run(bytes);
        bytes.is_empty() || has_end || self.length >= MOST_IN_HEAD
    }
}
