//! What no clause says of files of the system: of a link that has the name of a file which is made beside another, the
//! file that it names stays as it is; what is cut off stands behind what stood there; and one has a file at a time.
use night_files::{HeldFile, OWNERS_MODE, TornFile, TornPlace, new_file};
use std::fs::{self, File};
use std::io::{ErrorKind, Write};
use std::os::unix::fs::{PermissionsExt, symlink};
use std::process::Abort;
use std::rt::Files;

const FOLDER: &str = "beside_test";

const THEIRS: &str = "beside_test/theirs";

const NEW: &str = "beside_test/file.new";

const FILE: &str = "beside_test/file";

const TORN: &str = "beside_test/file.torn";

// Makes a file of this name, and tells whether it is one of its owner's alone, and the other file as it was.
fn is_made<R: Files<File = File> + AllocGlobal + Abort>(rt: &R) -> bool {
    let mut file = new_file(rt, NEW, OWNERS_MODE).expect(rt, "a file");
    let is_written = file.write_all(b"ours").is_ok();
    let found = fs::symlink_metadata(rt, NEW).expect(rt, "a file");
    let theirs = fs::read_to_string(rt, THEIRS).expect(rt, "theirs");
    is_written
        && found.is_file()
        && found.permissions().mode() & 0o777 == OWNERS_MODE
        && theirs.as_str() == "theirs"
}

// Cuts off a text, and tells whether that is refused for a link.
fn cut_off<R: Files<File = File> + AllocGlobal + Eprint>(rt: &R, text: &[u8]) -> Option<ErrorKind> {
    let kept = TornFile::beside(rt, FILE).keep(5, text);
    kept.err().map(|error| error.kind())
}

// One has a file at a time, also where it put another in its place.
fn check_held<R: Files<File = File> + AllocGlobal + Abort>(rt: &R) {
    let mut held = HeldFile::open(rt, FILE).expect(rt, "a file");
    assert!(rt; HeldFile::open(rt, FILE).is_err());
    assert!(rt; held.replace(rt, b"first").is_ok() && HeldFile::open(rt, FILE).is_err());
    assert!(rt; fs::remove_file(rt, FILE).is_ok() && held.replace(rt, b"second").is_ok());
    assert!(rt; HeldFile::open(rt, FILE).is_err());
    let text = fs::read_to_string(rt, FILE).expect(rt, "a file");
    assert!(rt; text.as_str() == "second");
    drop(held);
    assert!(rt; HeldFile::open(rt, FILE).is_ok());
}

#[test]
fn files_are_made_and_had(rt: HostRuntime) {
    let _ = fs::remove_dir_all(&rt, FOLDER);
    assert!(rt; fs::create_dir(&rt, FOLDER).is_ok());
    assert!(rt; fs::write(&rt, THEIRS, "theirs").is_ok());
    assert!(rt; is_made(&rt) && is_made(&rt));
    assert!(rt; fs::remove_file(&rt, NEW).is_ok());
    assert!(rt; symlink(&rt, "theirs", NEW).is_ok() && is_made(&rt));
    assert!(rt; cut_off(&rt, b"one").is_none() && cut_off(&rt, b"two").is_none());
    let torn = fs::read_to_string(&rt, TORN).expect(&rt, "what was cut off");
    assert!(rt; torn.as_str() == "onetwo");
    assert!(rt; fs::remove_file(&rt, TORN).is_ok() && symlink(&rt, "theirs", TORN).is_ok());
    assert!(rt; cut_off(&rt, b"three") == Some(ErrorKind::InvalidInput));
    check_held(&rt);
    assert!(rt; fs::remove_dir_all(&rt, FOLDER).is_ok());
}
