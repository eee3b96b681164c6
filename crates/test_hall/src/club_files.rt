//! What no clause says: who may read the players' file, who may change it, and what is kept beside it.
use lobby_players::{Hold, PauseFile, StopFile, put_file};
use std::fs;
use std::fs::File;
use std::os::unix::fs::{PermissionsExt, symlink};
use std::process::Abort;
use std::rt::Files;

const FOLDER: &str = "players_file_test";

const FILE: &str = "players_file_test/club.players";

const NEW: &str = "players_file_test/club.players.new";

const OTHER: &str = "players_file_test/other";

const PAUSED: &str = "players_file_test/club.players.paused";

const PAUSED_NEW: &str = "players_file_test/club.players.paused.new";

const STOPPED: &str = "players_file_test/club.journal.stopped";

/// What is done with the players' file and beside it, and what is seen then.
enum Step {
    /// A file was left behind by a stop, or a symbolic link to `OTHER` by somebody else.
    Leave(&'static str),
    Link(&'static str),
    Put(&'static str),
    SetMode(u32),
    /// The permission bits of the file.
    Mode(u32),
    Text(&'static str),
    /// Whether a file is there.
    There(&'static str, bool),
    /// A lobby pauses entries or not, and the next one finds them so.
    Pause(bool),
    /// What stands in the place of that file is none, so that no lobby begins.
    Unclear,
    /// A lobby stops all clocks for this reason, or has them run, and the next one finds them so.
    Stop(&'static str),
    NoClocks,
    /// All clocks are stopped by a file of this text that is put there by hand, for this reason, and run once it is
    /// taken away: the lobby sees both once.
    Hand(&'static str, &'static str),
    /// A file is taken away.
    Gone(&'static str),
    /// `OTHER` is as it was left.
    Untouched,
}

static STEPS: [Step; 48] = [
    // A new file is its owner's, and another keeps its mode.
    Step::Leave(NEW),
    Step::Put("one\n"),
    Step::Mode(0o600),
    Step::SetMode(0o640),
    Step::Put("two\n"),
    Step::Mode(0o640),
    Step::SetMode(0o664),
    Step::Put("two\n"),
    Step::Mode(0o664),
    Step::Text("two\n"),
    Step::There(NEW, false),
    Step::Pause(true),
    Step::There(PAUSED, true),
    Step::Pause(true),
    Step::There(PAUSED, true),
    Step::Pause(false),
    Step::There(PAUSED, false),
    Step::Pause(false),
    Step::There(PAUSED, false),
    Step::Pause(true),
    Step::There(PAUSED, true),
    Step::Pause(false),
    Step::There(PAUSED, false),
    Step::Stop("the fire alarm"),
    Step::There(STOPPED, true),
    Step::Stop("and still"),
    Step::Stop(""),
    Step::There(STOPPED, false),
    Step::Hand("the fire alarm\nOut by the back door\n", "the fire alarm"),
    Step::Hand("still", "still"),
    Step::Hand("", "no reason is given"),
    Step::Hand("na\u{ef}ve\n", "no reason is given"),
    Step::There(STOPPED, false),
    // No symbolic link is followed, and none is taken for the file.
    Step::Leave(OTHER),
    Step::Link(STOPPED),
    Step::NoClocks,
    Step::Gone(STOPPED),
    Step::Link(NEW),
    Step::Put("three\n"),
    Step::Text("three\n"),
    Step::There(NEW, false),
    Step::Link(PAUSED),
    Step::Unclear,
    Step::Gone(PAUSED),
    Step::Link(PAUSED_NEW),
    Step::Pause(true),
    Step::Pause(false),
    Step::Untouched,
];

// The permission bits of the file.
fn mode<R: Files + Abort>(rt: &R) -> u32 {
    let found = fs::metadata(rt, FILE).expect(rt, "a file");
    found.permissions().mode() & 0o777
}

fn entries<'a, R: Files<File = File> + AllocGlobal + Eprint + Abort>(
    rt: &'a R,
    file: &str,
) -> PauseFile<'a, R> {
    PauseFile::new(rt, file).ok().expect(rt, "entries")
}

// Whether entries are paused for the lobby that keeps this, and for the next one.
fn paused<R: Files<File = File> + AllocGlobal + Eprint + Abort>(
    rt: &R,
    file: &str,
    is_paused: bool,
) -> [bool; 2] {
    let mut now = entries(rt, file);
    now.keep(is_paused);
    [now.is_paused(), entries(rt, file).is_paused()]
}

// Whether all clocks are stopped for this reason for the lobby that keeps it, and for the next one.
fn is_stopped<R: Files<File = File> + AllocGlobal + Eprint + Abort>(rt: &R, reason: &str) -> bool {
    let mut now = StopFile::new(rt, STOPPED).ok().expect(rt, "clocks");
    let is_kept = now.keep(reason).is_ok();
    let next = StopFile::new(rt, STOPPED).ok().expect(rt, "clocks");
    is_kept && now.reason() == reason && next.reason() == reason
}

// Whether a look finds that all clocks are stopped for this reason, or nothing.
fn finds<R: Files<File = File> + AllocGlobal + Eprint + Abort>(
    now: &mut StopFile<'_, R>,
    rt: &R,
    reason: Option<&str>,
) -> bool {
    let found = now.look().expect(rt, "memory");
    found.as_ref().map(|found| found.as_str()) == reason
}

// Whether a lobby sees that the file is put there by hand with this text, for this reason, and taken away, each once.
fn is_seen<R: Files<File = File> + AllocGlobal + Eprint + Abort>(
    rt: &R,
    text: &str,
    reason: &str,
) -> bool {
    let mut now = StopFile::new(rt, STOPPED).ok().expect(rt, "clocks");
    let is_put = finds(&mut now, rt, None) && fs::write(rt, STOPPED, text).is_ok();
    let is_stopped = finds(&mut now, rt, Some(reason)) && finds(&mut now, rt, None);
    let is_gone = now.reason() == reason && fs::remove_file(rt, STOPPED).is_ok();
    is_put && is_stopped && is_gone && finds(&mut now, rt, Some("")) && finds(&mut now, rt, None)
}

// Whether what is done succeeds, and what is seen is so.
fn is_so<R: Files<File = File> + AllocGlobal + Eprint + Abort>(rt: &R, step: &Step) -> bool {
    match step {
        Step::Leave(file) => fs::write(rt, file, "x").is_ok(),
        Step::Put(text) => put_file(rt, rt.alloc(), FILE, text).is_ok(),
        Step::SetMode(mode) => {
            fs::set_permissions(rt, FILE, fs::Permissions::from_mode(*mode)).is_ok()
        }
        Step::Mode(wanted) => mode(rt) == *wanted,
        Step::Text(text) => fs::read_to_string(rt, FILE).expect(rt, "a file").as_str() == *text,
        Step::There(file, is_there) => fs::exists(rt, file).expect(rt, "an answer") == *is_there,
        Step::Link(file) => symlink(rt, "other", file).is_ok(),
        Step::Unclear => PauseFile::new(rt, FILE).is_err(),
        Step::Stop(reason) => is_stopped(rt, reason),
        Step::NoClocks => StopFile::new(rt, STOPPED).is_err(),
        Step::Hand(text, reason) => is_seen(rt, text, reason),
        Step::Gone(file) => fs::remove_file(rt, file).is_ok(),
        Step::Untouched => fs::read_to_string(rt, OTHER).expect(rt, "a file").as_str() == "x",
        Step::Pause(is_paused) => paused(rt, FILE, *is_paused) == [*is_paused; 2],
    }
}

// One at a time may change it.
fn check_hold<R: Files<File = File> + Abort>(rt: &R) {
    let held = Hold::wait(rt, FILE).expect(rt, "a hold");
    assert!(rt; Hold::at_once(rt, FILE).is_err());
    drop(held);
    assert!(rt; Hold::at_once(rt, FILE).is_ok());
}

#[test]
fn a_players_file_is_kept_so(rt: HostRuntime) {
    let _ = fs::remove_dir_all(&rt, FOLDER);
    assert!(rt; fs::create_dir(&rt, FOLDER).is_ok());
    for step in &STEPS {
        assert!(rt; is_so(&rt, step));
    }
    check_hold(&rt);
    assert!(rt; fs::remove_dir_all(&rt, FOLDER).is_ok());
    // What cannot be kept holds for the lobby that runs.
    assert!(rt; paused(&rt, "players_file_nowhere/club.players", true) == [true, false]);
}
