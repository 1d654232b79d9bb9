//! The time of a record.
use std::time::Clock;

// Milliseconds since 1970-01-01 00:00 UTC, and 0 where the clock gives no time.
pub(crate) fn milliseconds<C: Clock>(clock: &C) -> i64 {
    match clock.since_1970() {
        Ok(time) => i64::try_from(time.as_millis()).unwrap_or(i64::MAX),
        Err(_) => 0,
    }
}
