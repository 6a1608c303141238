//! The time of the system.
use std::rt::Clock;
use std::time::{SystemTime, UNIX_EPOCH};

/// The seconds since 1970. They are 0 if the clock cannot be read or shows an earlier time.
pub fn seconds(clock: &impl Clock) -> u64 {
    match SystemTime::now(clock) {
        Ok(now) => now
            .duration_since(UNIX_EPOCH)
            .map_or(0, |time| time.as_secs()),
        Err(_) => 0,
    }
}
