//! Rates.
use std::time::Duration;

/// How many of these fall on one second, rounded down. A time of 0 counts as one nanosecond.
pub fn a_second(count: u64, time: Duration) -> u128 {
    u128::from(count) * 1_000_000_000 / time.as_nanos().max(1)
}

/// How many thousands of these bytes fall on one second, rounded down. A time of 0 counts as one nanosecond.
pub fn kilobytes_a_second(bytes: usize, time: Duration) -> u128 {
    a_second(bytes as u64, time) / 1_000
}
