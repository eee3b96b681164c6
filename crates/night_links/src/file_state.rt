//! How a file stands, by which it is seen that it is another.
use crate::reading::found;
use anyhow::Result;
use std::fs;
use std::rt::Files;
use std::time::SystemTime;

/// How long a file is, and when it was written and made, as far as the system tells that.
#[derive(Clone, Copy, PartialEq)]
pub struct FileState {
    pub length: u64,
    written: Option<SystemTime>,
    made: Option<SystemTime>,
}

/// Of no file.
pub const NO_FILE: FileState = FileState {
    length: 0,
    written: None,
    made: None,
};

/// How a file stands now.
pub fn state_of<R: Files>(rt: &R, path: &str) -> Result<FileState> {
    if !fs::exists(rt, path)? {
        return Ok(NO_FILE);
    }
    let found = found(rt, path)?;
    Ok(FileState {
        length: found.len(),
        written: found.modified().ok(),
        made: found.created().ok(),
    })
}
