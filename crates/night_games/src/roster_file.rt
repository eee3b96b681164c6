//! The file of particulars is read.
use crate::roster::{Roster, roster_of};
use anyhow::{Context, Result};
use std::fs;
use std::rt::Files;

/// The particulars of a file, where one is named. It fails where it cannot be read, or something is wrong with it.
pub fn roster_in<R: Files + AllocGlobal>(rt: &R, file: Option<&str>) -> Result<Roster> {
    let Some(file) = file else {
        return Ok(Roster::nothing(rt.alloc()));
    };
    let text = fs::read(rt, file).context(format_args!("reading {file}"))?;
    roster_of(rt.alloc(), text.as_slice()).context(file)
}
