//! What stands in front of a line, and names that are alike.
ghost use Rattle.std.specs.Prelude.{◌≡◌};
ghost use Rattle.std.specs.Str.{str_eq_ignore_ascii_case};
ghost use Rattle.lobby_players.specs.File.{is_silent};
ghost use Rattle.lobby_words.specs.Words.{word_of};

use text_parts::before;

/// Whether a line tells of no player.
pub fn is_silent(line: &str) -> bool
    ensures { result ≡ is_silent line.now }
{
    match line.as_bytes() {
        [] => true,
        [first, ..] => *first == b'#',
    }
}

/// What stands before the first space of a line, or all of it.
pub fn word(line: &str) -> &str
    ensures { result.now ≡ word_of line.entry.now }
{
    before(line, ' ')
}

/// Whether two names are one, or differ in small and capital letters alone.
pub fn is_alike(one: &str, other: &str) -> bool
    ensures { result ≡ str_eq_ignore_ascii_case one.now other.now }
{
    one.eq_ignore_ascii_case(other)
}
