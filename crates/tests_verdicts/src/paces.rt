// A pace that stops workers, lets others go first, and counts what it is told.
use pace::{Pace, Step, Watched};
use std::sync::atomic::{AtomicU64, Ordering};
use std::thread;

/// At which steps workers stop. Steps are counted from 0 as they are asked about, over all workers.
#[derive(Clone, Copy, Debug)]
pub(crate) enum Stopping {
    /// At none.
    Never,
    /// At this one alone.
    At(u64),
    /// At this one and all later ones.
    From(u64),
    /// At the beginning of each attempt.
    Attempts,
}

/// Watches workers, stops them, lets others go first now and then, and counts.
#[derive(Drop)]
pub(crate) struct Stops {
    stopping: Stopping,
    asked: AtomicU64,
    stopped: AtomicU64,
    attempts: AtomicU64,
}

impl Stops {
    /// Stops workers at these steps.
    pub(crate) fn new(stopping: Stopping) -> Stops {
        Stops {
            stopping,
            asked: AtomicU64::new(0),
            stopped: AtomicU64::new(0),
            attempts: AtomicU64::new(0),
        }
    }

    /// How many workers it stopped.
    pub(crate) fn stopped(&self) -> u64 {
        self.stopped.load(Ordering::SeqCst)
    }

    /// The same, but it does not watch.
    pub(crate) fn unwatched(&self) -> Watched<'_, Stops> {
        Watched {
            pace: self,
            watches: false,
        }
    }

    /// How many attempts it was told of.
    pub(crate) fn attempts(&self) -> u64 {
        self.attempts.load(Ordering::SeqCst)
    }
}

impl Pace for Stops {
    fn watches(&self) -> bool {
        true
    }

    fn at(&self, step: Step) {
        if matches!(step, Step::Attempt { .. }) {
            self.attempts.fetch_add(1, Ordering::SeqCst);
        }
        if self.asked.load(Ordering::SeqCst) % 3 == 0 {
            thread::yield_now();
        }
    }

    fn stops(&self, step: Step) -> bool {
        let number = self.asked.fetch_add(1, Ordering::SeqCst);
        let stops = match self.stopping {
            Stopping::Never => false,
            Stopping::At(at) => number == at,
            Stopping::From(from) => number >= from,
            Stopping::Attempts => matches!(step, Step::Attempt { .. }),
        };
        if stops {
            self.stopped.fetch_add(1, Ordering::SeqCst);
        }
        stops
    }
}
