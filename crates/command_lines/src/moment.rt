//! The moment by the system's clock, which may be set.
use std::io;
use std::rt::Clock;
use std::time::SystemTime;

/// The milliseconds since 1970, as far as 64 bits count them; none where the clock shows a time before. It fails where
/// the system does not tell it.
pub fn unix_time<R: Clock>(clock: &R) -> io::Result<Option<u64>> {
    match SystemTime::now(clock)?.duration_since(SystemTime::UNIX_EPOCH) {
        Ok(since) => Ok(Some(u64::try_from(since.as_millis()).unwrap_or(u64::MAX))),
        Err(_) => Ok(None),
    }
}
