//! The lines that a client sends, read into acts. Nothing here takes memory from an allocator.
//!
//! Modules: `lines` reads a line, `acts` what follows its word, `fields` the fields one by one. `specs/Line` has the
//! forms of the lines.
#![tactic(auto)]

mod acts;
mod fields;
mod lines;

pub use lines::{Line, parse};
