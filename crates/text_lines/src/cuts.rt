//! Where lines end.
ghost use Rattle.std.specs.Prelude.{◌≡◌, ◌<◌, IfSome, IfNone, length, take, slice_index};
ghost use Rattle.std.specs.Io.BufRead.{strip_last};
ghost use Rattle.text_lines.specs.Lines.{HasNoFeed};

/// The most bytes of a line, without the line feed that ends it; a carriage return before that counts.
pub const LINE_ROOM: usize = 255;

/// The most bytes of a line of a server, for those who read such lines. It binds no session.
pub const SERVER_LINE_ROOM: usize = 65_536;

/// The place of the first line feed, and `None` just where there is none.
pub fn first_feed(bytes: &[u8]) -> Option<usize>
    ensures found { IfSome result (λ at. (at < length bytes.now) × (slice_index bytes.now at ≡ 10)) }
    ensures first { IfSome result (λ at. HasNoFeed (take at bytes.now)) }
    ensures none { IfNone result (HasNoFeed bytes.now) }
{
    bytes.iter().position(|byte| *byte == b'\n')
}

/// The bytes without the one carriage return at their end, if there is one.
pub fn without_return(part: &[u8]) -> &[u8]
    ensures { result.now ≡ strip_last 13 part.now }
{
    match part.split_last() {
        Some((b'\r', line)) => line,
        _ => part,
    }
}
