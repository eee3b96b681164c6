//! Whether a file has changed.
ghost use Rattle.std.specs.Prelude.{◌≡◌, IfOk};

use std::alloc::{AllocError, Global};
use std::fs::{self, Metadata};
use std::os::unix::fs::MetadataExt;
use std::rt::Files;

/// By what it is seen that a file has changed: which file it is, how long it is, and when it was written.
#[derive(Clone, Copy, PartialEq, Eq)]
pub struct Mark {
    node: u64,
    size: u64,
    seconds: i64,
    nanoseconds: i64,
}

impl Mark {
    ghost use Rattle.lobby_serving.specs.Marks.{mark_bytes};

    /// The bytes of its four numbers, by which a tag is made: another mark has others.
    pub fn to_bytes(&self, alloc: Global) -> Result<Vec<u8>, AllocError>
        ensures { IfOk result (λ bytes. bytes.items ≡ mark_bytes self.now) }
    {
        let mut bytes = Vec::new(alloc);
        bytes.extend_from_slice(&self.node.to_be_bytes())?;
        bytes.extend_from_slice(&self.size.to_be_bytes())?;
        bytes.extend_from_slice(&self.seconds.to_be_bytes())?;
        bytes.extend_from_slice(&self.nanoseconds.to_be_bytes())?;
        Ok(bytes)
    }
}

/// How a file stands that was looked at; none where it is no regular file: to read of a pipe may last for ever.
pub fn mark_in(found: &Metadata) -> Option<Mark> {
    if found.is_file() {
        Some(Mark {
            node: found.ino(),
            size: found.size(),
            seconds: found.mtime(),
            nanoseconds: found.mtime_nsec(),
        })
    } else {
        None
    }
}

/// How a file of this name stands; none where it is not there, or is no regular file.
pub fn mark_of<R: Files>(rt: &R, file: &str) -> Option<Mark> {
    let found = fs::metadata(rt, file).ok()?;
    mark_in(&found)
}
