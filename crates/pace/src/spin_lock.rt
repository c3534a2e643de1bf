//! Locks that are held briefly, taken without falling asleep where that can be had.

use std::hint::spin_loop;
use std::sync::{Mutex, MutexGuard, Wait};

/// How often a lock that is held is looked at before the thread sleeps: some twenty to a hundred microseconds.
const LOOKS: u32 = 2_000;

/// Takes a lock that each thread holds for a few microseconds at most. While another holds it, it is looked at for a while, and only then does the thread
/// sleep: to fall asleep and be woken takes longer than what is done under the lock, and a thread that is woken to a lock keeps all others from it until it
/// runs. What lies under the lock is as the thread that held it last left it.
pub fn acquire<'m, T>(rt: &impl Wait, mutex: &'m Mutex<T>) -> MutexGuard<'m, T> {
    for _ in 0..LOOKS {
        if let Some(guard) = mutex.try_lock() {
            return guard;
        }
        spin_loop();
    }
    mutex.lock(rt)
}
