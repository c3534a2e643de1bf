// What a pace is told.
use crate::assertions::equal;
use pace::{NoPace, Pace, Step};
use std::sync::atomic::{AtomicU64, Ordering};

/// Counts the steps that it is told, and keeps the call of the last commit.
#[derive(Drop)]
struct Log {
    told: AtomicU64,
    committed: AtomicU64,
}

impl Pace for Log {
    fn watches(&self) -> bool {
        true
    }

    fn at(&self, step: Step) {
        self.told.fetch_add(1, Ordering::SeqCst);
        if let Step::Committed { call } = step {
            self.committed.store(u64::from(call), Ordering::SeqCst);
        }
    }
}

/// A call that is refused at its second operation, and then committed.
fn walk(pace: &impl Pace) {
    pace.at(Step::Attempt { call: 3, nth: 0 });
    pace.at(Step::Op { call: 3, n: 0 });
    pace.at(Step::Op { call: 3, n: 1 });
    pace.at(Step::Refused { call: 3 });
    pace.at(Step::Attempt { call: 3, nth: 1 });
    pace.at(Step::Commit { call: 3 });
    pace.at(Step::Committed { call: 3 });
}

#[test]
fn each_step_is_told(rt: HostRuntime) {
    let log = Log {
        told: AtomicU64::new(0),
        committed: AtomicU64::new(0),
    };
    walk(&log);
    walk(&NoPace);
    equal(&rt, &"steps told", &log.told.load(Ordering::SeqCst), &7);
    equal(
        &rt,
        &"the call committed",
        &log.committed.load(Ordering::SeqCst),
        &3,
    );
}
