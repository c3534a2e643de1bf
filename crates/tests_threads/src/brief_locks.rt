// What threads do under one lock is done by one after the other, whether they wait briefly or long.
use crate::assertions::equal;
use pace::acquire;
use std::sync::atomic::{AtomicBool, Ordering};
use std::sync::{Mutex, Wait};
use std::thread;

/// How often each thread adds 1.
const ADDITIONS: u64 = 10_000;

fn add_often(rt: &impl Wait, sum: &Mutex<u64>) {
    for _ in 0..ADDITIONS {
        let mut sum = acquire(rt, sum);
        *sum = sum.wrapping_add(1);
    }
}

#[test]
fn no_addition_is_lost(rt: HostRuntime) {
    let sum = Mutex::new(0);
    thread::join(&rt, || add_often(&rt, &sum), || add_often(&rt, &sum));
    equal(&rt, &"additions", &sum.into_inner(), &(2 * ADDITIONS));
}

/// How often a thread that holds the lock yields: for much longer than others look at the lock before they sleep.
const YIELDS: u32 = 2_000;

/// Writes under the lock, which it holds for long.
fn write_late(rt: &impl Wait, written: &Mutex<bool>, is_held: &AtomicBool) {
    let mut written = acquire(rt, written);
    is_held.store(true, Ordering::SeqCst);
    for _ in 0..YIELDS {
        thread::yield_now();
    }
    *written = true;
}

/// What was written, read as soon as the lock is held by the other thread. `None` where it never was.
fn read_after(rt: &impl Wait, written: &Mutex<bool>, is_held: &AtomicBool) -> Option<bool> {
    for _ in 0..1_000_000 {
        if is_held.load(Ordering::SeqCst) {
            return Some(*acquire(rt, written));
        }
        thread::yield_now();
    }
    None
}

#[test]
fn who_waits_long_finds_what_was_written(rt: HostRuntime) {
    let written = Mutex::new(false);
    let is_held = AtomicBool::new(false);
    let (_, read) = thread::join(
        &rt,
        || write_late(&rt, &written, &is_held),
        || read_after(&rt, &written, &is_held),
    );
    equal(&rt, &"what was read", &read, &Some(true));
}
