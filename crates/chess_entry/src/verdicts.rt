use crate::refusals::Refusal;
use rec_codec::Entry;

/// What a command meets: it is refused, becomes an entry, or is a read, which the table answers.
#[derive(Clone, Copy)]
pub enum Verdict {
    Refuse(Refusal),
    Enter(Entry),
    Read,
}
