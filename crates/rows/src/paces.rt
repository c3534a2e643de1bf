//! Paces that hold the threads of a line, to count them and how often one is refused, one that lets others go first, and one that hears how much runs ahead of a call.

use pace::{Pace, Step};
use std::sync::atomic::{AtomicBool, AtomicU64, Ordering};
use std::thread;

/// How often a held thread looks, where what it waits for comes.
const LOOKS: u32 = 5_000_000;

/// How often it then looks for one more, which must not come.
const FEW_LOOKS: u32 = 20_000;

/// Counts what comes: as many as are wanted, and one more where it comes.
#[derive(Drop)]
struct Count {
    wanted: u64,
    come: AtomicU64,
    over: AtomicBool,
}

impl Count {
    /// Nothing has come.
    fn of(wanted: u64) -> Count {
        Count {
            wanted,
            come: AtomicU64::new(0),
            over: AtomicBool::new(false),
        }
    }

    /// One more has come.
    fn tell(&self) {
        self.come.fetch_add(1, Ordering::SeqCst);
    }

    fn look(&self, count: u64, looks: u32) {
        for _ in 0..looks {
            if self.come.load(Ordering::SeqCst) >= count || self.over.load(Ordering::SeqCst) {
                return;
            }
            thread::yield_now();
        }
    }

    /// Holds the thread until as many have come as are wanted, and then a little longer.
    fn hold(&self) {
        self.look(self.wanted, LOOKS);
        self.look(self.wanted.saturating_add(1), FEW_LOOKS);
        self.over.store(true, Ordering::SeqCst);
    }

    /// Whether a thread was held, and no other is to be held.
    fn is_over(&self) -> bool {
        self.over.load(Ordering::SeqCst)
    }

    /// How many have come.
    fn total(&self) -> u64 {
        self.come.load(Ordering::SeqCst)
    }
}

/// Holds each thread at its first attempt until as many are held as are wanted.
#[derive(Drop)]
pub(crate) struct Gather(Count);

impl Gather {
    /// As many are wanted.
    pub(crate) fn of(wanted: u64) -> Gather {
        Gather(Count::of(wanted))
    }

    /// How many were held.
    pub(crate) fn total(&self) -> u64 {
        self.0.total()
    }
}

impl Pace for Gather {
    fn watches(&self) -> bool {
        true
    }

    fn at(&self, step: Step) {
        if matches!(step, Step::Attempt { nth: 0, .. }) && !self.0.is_over() {
            self.0.tell();
            self.0.hold();
        }
    }
}

/// Holds call 0 before its second operation until call 1 has acted, and call 1 at its commit until call 0 was refused as often as is wanted.
#[derive(Drop)]
pub(crate) struct Clash {
    acted: Count,
    refused: Count,
}

impl Clash {
    /// So many refusals are wanted.
    pub(crate) fn of(refusals: u64) -> Clash {
        Clash {
            acted: Count::of(1),
            refused: Count::of(refusals),
        }
    }

    /// How often it was refused.
    pub(crate) fn total(&self) -> u64 {
        self.refused.total()
    }
}

impl Pace for Clash {
    fn watches(&self) -> bool {
        true
    }

    fn at(&self, step: Step) {
        match step {
            Step::Op { call: 0, n: 1 } => self.acted.look(1, LOOKS),
            Step::Commit { call: 1 } => {
                self.acted.tell();
                self.refused.hold();
            }
            Step::Refused { .. } => self.refused.tell(),
            _ => {}
        }
    }
}

/// Lets other threads go first now and then.
#[derive(Drop)]
pub(crate) struct Uneven {
    steps: AtomicU64,
}

impl Uneven {
    /// No step was told.
    pub(crate) fn new() -> Uneven {
        Uneven {
            steps: AtomicU64::new(0),
        }
    }
}

impl Pace for Uneven {
    ghost use Rattle.std.specs.Prelude.{false};

    ghost watching = { λ _. false };

    fn watches(&self) -> bool {
        false
    }

    fn at(&self, _step: Step) {
        if self.steps.fetch_add(1, Ordering::SeqCst) % 3 == 0 {
            thread::yield_now();
        }
    }
}

/// Notes how often it is told that calls run ahead of one that is debugged, and the fuel that they may use.
#[derive(Drop)]
pub(crate) struct Ahead {
    times: AtomicU64,
    fuel: AtomicU64,
}

impl Ahead {
    /// Nothing was told.
    pub(crate) fn new() -> Ahead {
        Ahead {
            times: AtomicU64::new(0),
            fuel: AtomicU64::new(0),
        }
    }

    /// How often it was told.
    pub(crate) fn times(&self) -> u64 {
        self.times.load(Ordering::SeqCst)
    }

    /// The fuel that was told last.
    pub(crate) fn fuel(&self) -> u64 {
        self.fuel.load(Ordering::SeqCst)
    }
}

impl Pace for Ahead {
    ghost use Rattle.std.specs.Prelude.{false};

    ghost watching = { λ _. false };

    fn watches(&self) -> bool {
        false
    }

    fn at(&self, _step: Step) {}

    fn runs_alone(&self, fuel: u64) {
        self.times.fetch_add(1, Ordering::SeqCst);
        self.fuel.store(fuel, Ordering::SeqCst);
    }
}
