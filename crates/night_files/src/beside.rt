//! Files that are made beside another: a link of their name is not followed.
use std::fs::{self, File, Metadata, OpenFile, OpenOptions};
use std::io::{self, ErrorKind};
use std::os::unix::fs::{MetadataExt, OpenOptionsExt};
use std::rt::Files;

// What is told of a link that has the name of a file which is made beside another.
fn link_error() -> io::Error {
    io::Error::new(
        ErrorKind::InvalidInput,
        "a link stands there, and is not followed",
    )
}

/// Makes a file to write it, of this mode but for what the process's mask takes away. What has the name, as what a stop
/// has left behind or a link, is taken away before: a link's file stays as it is. It fails with `AlreadyExists` where
/// something has the name again by then, and where the system refuses a call, as it does for a folder of that name.
pub fn new_file<R: Files>(files: &R, path: &str, mode: u32) -> io::Result<R::File> {
    match fs::remove_file(files, path) {
        Err(error) if error.kind() != ErrorKind::NotFound => return Err(error),
        _ => {}
    }
    let mut options = OpenOptions::new();
    options.write(true).create_new(true).mode(mode);
    options.open(files, path)
}

// Whether something has this name. It fails where that is a link.
fn is_there<R: Files>(files: &R, path: &str) -> io::Result<bool> {
    match fs::symlink_metadata(files, path) {
        Ok(found) if found.is_symlink() => Err(link_error()),
        Ok(_) => Ok(true),
        Err(error) if error.kind() == ErrorKind::NotFound => Ok(false),
        Err(error) => Err(error),
    }
}

// Whether these are of one file.
fn are_one(first: &Metadata, second: &Metadata) -> bool {
    first.ino() == second.ino() && first.dev() == second.dev()
}

/// Whether a file that was opened is the one that has this name now.
pub(crate) fn is_at<R: Files<File = File>>(files: &R, path: &str, file: &File) -> io::Result<bool> {
    match fs::metadata(files, path) {
        Ok(found) => Ok(are_one(&file.metadata()?, &found)),
        Err(error) if error.kind() == ErrorKind::NotFound => Ok(false),
        Err(error) => Err(error),
    }
}

/// Opens a file to read and write it, or makes one of this mode. It fails with `InvalidInput` where a link has the
/// name.
pub(crate) fn open_beside<R: Files<File = File>>(
    files: &R,
    path: &str,
    mode: u32,
) -> io::Result<File> {
    let is_new = !is_there(files, path)?;
    let mut options = OpenOptions::new();
    options.read(true).write(true).create_new(is_new).mode(mode);
    let file = options.open(files, path)?;
    // (a link may have been put there since it was looked at)
    if !are_one(&file.metadata()?, &fs::symlink_metadata(files, path)?) {
        return Err(link_error());
    }
    Ok(file)
}
