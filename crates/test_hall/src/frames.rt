//! Browsers that say more than is taken, or take less than they are told: all else of frames stands in
//! `bench/correct/requests`.
use crate::browser::Lab;
use lobby_web::Unsaid;
use std::process::Abort;

pub const UPGRADE: &[u8] =
    b"GET /ws HTTP/1.1\r\nHost: a:1\r\nOrigin: http://a:1\r\nConnection: Upgrade\r\nUpgrade: websocket\r\n\
    Sec-WebSocket-Version: 13\r\nSec-WebSocket-Key: dGhlIHNhbXBsZSBub25jZQ==\r\n\r\n";

// (the key and its answer stand in RFC 6455, section 1.3)
const SWITCH: &[u8] =
    b"HTTP/1.1 101 Switching Protocols\r\nconnection: Upgrade\r\nupgrade: websocket\r\n\
    sec-websocket-accept: s3pPLMBiTxaQ9kYGzzhZRbK+xOo=\r\n\r\n";

// It is told so many texts of 65,536 bytes, and then answers so.
fn who_takes_nothing_is_closed(
    rt: &impl Abort,
    lab: &mut Lab,
    count: usize,
    said: Result<(), Unsaid>,
) {
    let text = lab.long(rt, b"", 65_536);
    lab.whole(rt, UPGRADE);
    for _ in 0..count {
        assert!(rt; lab.browser.say(&text).is_ok());
    }
    assert!(rt; lab.browser.say(b"more") == said && lab.browser.is_over() == said.is_err());
}

// So often these bytes come, with letters behind them up to so many, and nothing is heard or written. It tells whether
// more are wanted.
fn takes(rt: &impl Abort, lab: &mut Lab, front: &[u8], count: usize, times: usize) -> bool {
    let one = lab.long(rt, front, count);
    let all = one.as_slice().repeat(lab.alloc, times).expect(rt, "memory");
    lab.browser.take(&lab.site, &all);
    lab.browser.wants_read()
}

// (a frame that is said to have 4,096 bytes)
const FLOOD: &[u8] = b"\x81\x84\0\0\0\0list\x81\xfe\x10\0\0\0\0\0";

fn a_flood_is_not_taken(rt: &impl Abort, lab: &mut Lab) {
    lab.whole(rt, UPGRADE);
    assert!(rt; takes(rt, lab, FLOOD, 8_191, 1) && !takes(rt, lab, b"a", 1, 1));
    lab.hear(rt);
    assert!(rt; lab.browser.is_over() && lab.said.as_slice().starts_with(b"open\nlist\naaaa"));
}

// Pings of 125 bytes: 100 pongs have 12,700 bytes, so that six pieces bring more than 65,536.
fn who_pings_and_takes_nothing_is_not_read(rt: &impl Abort, lab: &mut Lab) {
    lab.whole(rt, UPGRADE);
    for wants_more in [true, true, true, true, true, false] {
        takes(rt, lab, b"\x89\xfd\0\0\0\0", 131, 100);
        lab.hear(rt);
        assert!(rt; lab.browser.wants_read() == wants_more && !lab.browser.is_over());
    }
    lab.write(rt);
    assert!(rt; lab.written.len() == SWITCH.len() + 76_200 && lab.browser.wants_read());
}

pub fn check_frames(rt: &impl Abort, lab: &mut Lab) {
    // 16 frames of 65,546 bytes are more than 1,048,576.
    who_takes_nothing_is_closed(rt, lab, 15, Ok(()));
    who_takes_nothing_is_closed(rt, lab, 16, Err(Unsaid::Slow));
    a_flood_is_not_taken(rt, lab);
    who_pings_and_takes_nothing_is_not_read(rt, lab);
}
