//! Lines: what comes of a stream and where its lines end, what a session has sent of them, and the loop that answers
//! the lines of a reader on a writer.
//!
//! Modules: `cuts` finds where a line ends, `pieces` has the bytes that come of a stream a piece at a time, `heard` the
//! lines that a session has sent and that were not taken. `loops` answers lines, whoever is the `answerer`; `source` is
//! the reader, `outlet` the writer.
#![tactic(auto)]

mod answerer;
mod cuts;
mod heard;
mod loops;
mod outlet;
mod pieces;
mod source;

pub use answerer::{Answer, Answerer, LoopFault};
pub use cuts::{LINE_ROOM, SERVER_LINE_ROOM, first_feed, without_return};
pub use heard::{Ahead, FeedFault, Lines};
pub use loops::answer_lines;
pub use pieces::{Came, give_up, read_piece};
pub use source::Reads;
