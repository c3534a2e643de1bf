// How a thread waits for another one.
use std::sync::atomic::{AtomicU64, Ordering};
use std::thread;

/// How often a held thread looks, where what it waits for comes.
pub(crate) const LOOKS: u32 = 20_000_000;

/// Waits until so many were told, but looks at most so often, and says whether they were.
pub(crate) fn hold(told: &AtomicU64, count: u64, looks: u32) -> bool {
    for _ in 0..looks {
        if told.load(Ordering::SeqCst) >= count {
            return true;
        }
        thread::yield_now();
    }
    false
}
