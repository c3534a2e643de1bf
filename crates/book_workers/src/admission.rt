// A limit on attempts that meet one another. Before it begins an attempt, where it holds no lock, a worker looks at a guess of how
// many may run at once, and waits while as many run. It looks a bounded number of times and then goes on all the same, so that
// nobody waits for ever, and no fact rests on the guess.

use std::sync::atomic::{AtomicU64, Ordering};
use std::thread;

/// How often a worker looks at most.
const LOOKS: u32 = 2_000;

/// After how many commits in a row one attempt more may run.
const ROW: u64 = 8;

/// How many attempts run, and how many may. A refusal halves what may run, down to one; commits in a row add to it, up to the
/// number of workers.
#[derive(Drop)]
pub struct AdmissionLimit {
    workers: u64,
    // (what all workers change stands on other cache lines than what they read)
    _before: [u64; 8],
    running: AtomicU64,
    most: AtomicU64,
    row: AtomicU64,
    _behind: [u64; 8],
}

impl AdmissionLimit {
    /// All workers may run.
    pub fn new(workers: u32) -> AdmissionLimit {
        let workers = u64::from(workers);
        AdmissionLimit {
            workers,
            _before: [0; 8],
            running: AtomicU64::new(0),
            most: AtomicU64::new(workers),
            row: AtomicU64::new(0),
            _behind: [0; 8],
        }
    }

    /// Waits until one attempt more may run, or until it has looked often enough.
    pub(crate) fn begin(&self) {
        for _ in 0..LOOKS {
            if self.running.load(Ordering::SeqCst) < self.most.load(Ordering::SeqCst) {
                break;
            }
            thread::yield_now();
        }
        self.running.fetch_add(1, Ordering::SeqCst);
    }

    /// An attempt was committed.
    pub(crate) fn commit(&self) {
        self.running.fetch_sub(1, Ordering::SeqCst);
        let most = self.most.load(Ordering::SeqCst);
        if most < self.workers && self.row.fetch_add(1, Ordering::SeqCst) >= ROW {
            self.row.store(0, Ordering::SeqCst);
            self.most.store(most + 1, Ordering::SeqCst);
        }
    }

    /// An attempt was undone.
    pub(crate) fn undo(&self) {
        self.running.fetch_sub(1, Ordering::SeqCst);
        let most = self.most.load(Ordering::SeqCst);
        self.most.store((most / 2).max(1), Ordering::SeqCst);
        self.row.store(0, Ordering::SeqCst);
    }
}
