//! Copies of a journal, also of one in which somebody writes: what the header in force names is read, and the header
//! again.
//!
//! Modules: `source` has the trait `Source`, sectors that somebody else may write while they are read; `file` a file as
//! one, `still` a device as one. `slots` finds the header in force, `copying` copies. `specs/Source` say what is read
//! of such sectors and by what rule a journal is written (`IsStep`), `specs/Faults` why no header in force is read,
//! `specs/Copying` what a copy is; `proofs/Steps` has that what a header names stands still while it, or the next
//! commit in the same half, is in force.
#![tactic(auto)]

mod copying;
mod fault;
mod file;
mod slots;
mod source;
mod still;

pub use copying::{Copied, copy, follows};
pub use fault::CopyFault;
pub use file::FileSource;
pub use slots::header_in_force;
pub use source::{Slots, Source};
pub use still::Still;
