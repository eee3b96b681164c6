//! A browser that is tried before a site.
use crate::frames::check_frames;
use crate::requests::check_requests;
use bytes::Bytes;
use lobby_web::{Browser, File, Heard, Kind, Site};
use std::alloc::Global;
use std::hash::RandomState;
use std::mem;
use std::process::Abort;

/// So many things at most are heard of a browser, and written to it, at once.
pub const MOST: usize = 64;

/// A browser before a page at `/` under the host `a:1`, what it said, and what was written to it.
#[derive(Drop)]
pub struct Lab {
    pub alloc: Global,
    keys: RandomState,
    pub site: Site,
    pub browser: Browser,
    /// `open`, and each text, each with a line feed behind it.
    pub said: Vec<u8>,
    pub written: Vec<u8>,
}

pub fn file_of(
    rt: &impl Abort,
    alloc: Global,
    path: &[u8],
    kind: Kind,
    bytes: &'static [u8],
) -> File {
    let path = path.to_vec(alloc).expect(rt, "memory");
    File::new(alloc, path, kind, Bytes::from_static(bytes)).expect(rt, "memory")
}

/// No file under the hosts `a:1` and `c`.
pub fn site_of(rt: &impl Abort, alloc: Global) -> Site {
    let mut hosts = Vec::new(alloc);
    let host = b"a:1".to_vec(alloc).expect(rt, "memory");
    hosts.push(host).expect(rt, "memory");
    let host = b"c".to_vec(alloc).expect(rt, "memory");
    hosts.push(host).expect(rt, "memory");
    Site::new(hosts, Vec::new(alloc))
}

/// One behind the other.
fn add(rt: &impl Abort, all: &mut Vec<u8>, more: &[u8]) {
    all.extend_from_slice(more).expect(rt, "memory");
}

impl Lab {
    /// From now on a path has these bytes.
    pub fn put(&mut self, rt: &impl Abort, path: &[u8], kind: Kind, bytes: &'static [u8]) {
        let file = file_of(rt, self.alloc, path, kind, bytes);
        self.site.put(file).expect(rt, "memory");
    }

    // Another browser comes. (A call drops the one before: in its place all its fields would be proved to be dropped.)
    fn begin(&mut self) {
        let browser = Browser::new(self.alloc, self.keys);
        drop(mem::replace(&mut self.browser, browser));
        self.said.clear();
        self.written.clear();
    }

    /// What the browser says is heard.
    pub fn hear(&mut self, rt: &impl Abort) {
        for _ in 0..MOST {
            match self.browser.hear() {
                None => return,
                Some(Heard::Opened) => add(rt, &mut self.said, b"open\n"),
                Some(Heard::Text(text)) => {
                    add(rt, &mut self.said, text.as_slice());
                    add(rt, &mut self.said, b"\n");
                }
            }
        }
    }

    /// What waits is written.
    pub fn write(&mut self, rt: &impl Abort) {
        for _ in 0..MOST {
            let count = self.browser.out().len();
            if count == 0 {
                return;
            }
            add(rt, &mut self.written, self.browser.out());
            self.browser.written(&self.site, count);
        }
    }

    /// A piece comes, where bytes are wanted; none says that no more come.
    pub fn give(&mut self, rt: &impl Abort, piece: &[u8]) {
        if self.browser.wants_read() {
            self.browser.take(&self.site, piece);
        }
        self.hear(rt);
        self.write(rt);
    }

    /// Another browser comes, and these bytes of it at once.
    pub fn whole(&mut self, rt: &impl Abort, bytes: &[u8]) {
        self.begin();
        self.give(rt, bytes);
    }

    /// Whether what was written to the browser begins and ends so; all of it, where it is to begin with nothing.
    pub fn has(&self, front: &[u8], end: &[u8], is_over: bool) -> bool {
        let written = self.written.as_slice();
        written.starts_with(front)
            && written.ends_with(end)
            && (!front.is_empty() || written.len() == end.len())
            && self.browser.is_over() == is_over
    }

    /// These bytes, and behind them so many letters that there are so many.
    pub fn long(&self, rt: &impl Abort, front: &[u8], count: usize) -> Vec<u8> {
        let mut bytes = front.to_vec(self.alloc).expect(rt, "memory");
        bytes.resize(count, b'a').expect(rt, "memory");
        bytes
    }
}

#[test]
fn browsers_are_answered(rt: HostRuntime) {
    let alloc = rt.alloc();
    let keys = RandomState::new(&rt).expect(&rt, "keys");
    let mut lab = Lab {
        alloc,
        keys,
        site: site_of(&rt, alloc),
        browser: Browser::new(alloc, keys),
        said: Vec::new(alloc),
        written: Vec::new(alloc),
    };
    check_requests(&rt, &mut lab);
    check_frames(&rt, &mut lab);
    drop(lab);
}
