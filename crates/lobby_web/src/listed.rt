//! The elements of a field's value that is a list.
ghost use Rattle.std.specs.Prelude.{◌≡◌, ◌≤◌, length, reverse};
ghost use Rattle.httparse.specs.Grammar.{skip_ows, trim_ows};
ghost use Rattle.http1.specs.Fields.{elements};
ghost use Rattle.lobby_web.specs.Listed.{elements_left};
ghost use Rattle.lobby_web.specs.Requests.{before_last, last_element};
ghost use Rattle.std.specs.Iterator.{YieldsFirstRef, item_count};

use httparse::is_space_or_tab;

// A text without the white space in front of it.
fn trimmed_front(mut text: &[u8]) -> &[u8]
    ensures { result.now ≡ skip_ows text.now }
{
    while let [first, rest @ ..] = text
        && is_space_or_tab(*first)
    {
        text = rest;
    }
    text
}

// A text without the white space behind it.
fn trimmed_end(mut text: &[u8]) -> &[u8]
    ensures { result.now ≡ reverse (skip_ows (reverse text.now)) }
{
    while let [rest @ .., last] = text
        && is_space_or_tab(*last)
    {
        text = rest;
    }
    text
}

// A text without the white space around it.
fn trimmed(text: &[u8]) -> &[u8]
    ensures { result.now ≡ trim_ows text.now }
{
    trimmed_end(trimmed_front(text))
}

// A list without what stands behind its last comma.
fn before_last(mut text: &[u8]) -> &[u8]
    ensures front { result.now ≡ before_last text.now }
    ensures within { length result.now ≤ length text.now }
{
    while let [rest @ .., last] = text
        && *last != b','
    {
        text = rest;
    }
    text
}

/// The last element of a list, without the white space around it (RFC 9110, 5.6.1).
pub(crate) fn last_element(value: &[u8]) -> &[u8]
    ensures { result.now ≡ last_element value.now }
{
    let front = before_last(value).len();
    trimmed(&value[front..])
}

/// The elements of a list, without the white space around each (RFC 9110, 5.6.1).
#[derive(Drop)]
pub(crate) struct Elements<'a> {
    rest: Option<&'a [u8]>,
}

impl<'a> Elements<'a> {
    /// None was given yet.
    pub(crate) fn new(value: &'a [u8]) -> Elements<'a>
        ensures { elements_left result ≡ elements value.now }
    {
        Elements { rest: Some(value) }
    }
}

impl<'a> Iterator for Elements<'a> {
    type Item = &'a [u8];

    ghost next_gives = { YieldsFirstRef elements_left };

    ghost remaining = { item_count elements_left };

    fn next(&mut self) -> Option<&'a [u8]> {
        let rest = self.rest?;
        match rest.iter().position(|byte| *byte == b',') {
            Some(comma) => {
                self.rest = Some(&rest[comma + 1..]);
                Some(trimmed(&rest[..comma]))
            }
            None => {
                self.rest = None;
                Some(trimmed(rest))
            }
        }
    }
}
