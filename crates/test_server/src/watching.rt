//! What the system refuses to watch.
use sockets::Watch;
use std::os::fd::RawFd;

// What is watched, and whether all of it can be. No file has the number -1.
static SOCKETS: [(&[RawFd], bool); 2] = [(&[], true), (&[-1], false)];

#[test]
fn a_socket_that_cannot_be_watched_is_told_and_no_wait_is_calm(rt: HostRuntime) {
    for (sockets, can_be) in &SOCKETS {
        let mut watch = Watch::new(&rt, rt.alloc()).expect(&rt, "a watch");
        for socket in *sockets {
            assert!(rt; watch.add(*socket).is_ok() == *can_be);
        }
        assert!(rt; watch.rest() == *can_be);
    }
}
