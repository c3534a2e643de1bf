// A worker that is stopped in an attempt takes it back before it ends: the other worker, whose call meets that attempt, commits its own.
use crate::assertions::equal;
use crate::given::{Calls, give, order_of, world_of};
use crate::meetings::LOOKS;
use miner::{Mined, mine_in};
use pace::{Pace, Step};
use std::alloc::Global;
use std::process::Abort;
use std::sync::Wait;
use std::sync::atomic::{AtomicBool, AtomicU64, Ordering};
use std::test::Fail;
use std::thread;
use std::thread::Threads;
use test_support::{EXAMPLE, Ration};

/// Stops the worker of call 0 at one step. It waits for call 1 before its first attempt; the worker of call 1 is held at its own until the other one
/// has set its call aside, which takes memory. Nobody else takes memory meanwhile.
#[derive(Drop)]
struct StopAt<'r> {
    ration: &'r Ration,
    step: Step,
    /// Whether call 1 is at its first attempt.
    arrived: AtomicBool,
    /// How many blocks of memory were left when the worker was stopped, and 0 before.
    left: AtomicU64,
    /// Whether a held thread went on without what it waited for.
    failed: AtomicBool,
}

impl<'r> StopAt<'r> {
    /// Stops at this step, over this memory.
    fn new(ration: &'r Ration, step: Step) -> StopAt<'r> {
        StopAt {
            ration,
            step,
            arrived: AtomicBool::new(false),
            left: AtomicU64::new(0),
            failed: AtomicBool::new(false),
        }
    }

    /// Whether call 1 is at its first attempt.
    fn has_arrived(&self) -> bool {
        self.arrived.load(Ordering::SeqCst)
    }

    /// Whether memory was taken since the worker was stopped.
    fn has_set_aside(&self) -> bool {
        self.ration.left() < self.left.load(Ordering::SeqCst)
    }

    /// Whether what the step waits for has come.
    fn may_go_on(&self, step: Step) -> bool {
        match step {
            Step::Attempt { call: 0, .. } => self.has_arrived(),
            Step::Attempt { call: 1, .. } => self.has_set_aside(),
            _ => true,
        }
    }
}

impl Pace for StopAt<'_> {
    fn watches(&self) -> bool {
        true
    }

    fn at(&self, step: Step) {
        if matches!(step, Step::Attempt { call: 1, .. }) {
            self.arrived.store(true, Ordering::SeqCst);
        }
        for _ in 0..LOOKS {
            if self.may_go_on(step) {
                return;
            }
            thread::yield_now();
        }
        self.failed.store(true, Ordering::SeqCst);
    }

    fn stops(&self, step: Step) -> bool {
        let stops = step == self.step;
        if stops {
            self.left.store(self.ration.left(), Ordering::SeqCst);
        }
        stops
    }
}

/// Calls of which the first holds a cell that the second writes, where the first one's worker is stopped.
const ROWS: &[(&'static str, Step)] = &[
    // it has written the cell, and is about to be committed
    (
        "0 100 set i64:1 i64:20\n0 100 set i64:1 i64:30\n",
        Step::Commit { call: 0 },
    ),
    // it has read the cell, and is about to write another one
    (
        "0 100 move i64:1 i64:2\n0 100 set i64:1 i64:30\n",
        Step::Op { call: 0, n: 1 },
    ),
];

/// More blocks of memory than mining two calls takes.
const AMPLE: u64 = 1_000_000;

/// What is mined of two calls by two workers, of which the first one's is stopped at this step: how many calls the workers committed, and the order.
fn stopped_at<R: Threads + Wait + Sync>(
    rt: &R,
    alloc: Global,
    lines: &'static str,
    step: Step,
) -> Result<(u32, Vec<u32>), Fail> {
    let given = give(alloc, &[EXAMPLE], &[], Calls::These(lines), 1_000)?;
    let calls = given.calls.as_slice();
    if calls.len() > 65_535 {
        return Err(Fail::from("too many calls"));
    }
    let ration = Ration::new(alloc, AMPLE);
    let world = world_of(&ration, &[EXAMPLE], &[])?;
    let pace = StopAt::new(&ration, step);
    let Ok(mined) = mine_in(rt, &ration, &world, calls, 1_000, 2, 3, &pace) else {
        return Err(Fail::from("refused"));
    };
    if pace.failed.load(Ordering::SeqCst) {
        return Err(Fail::from("the calls did not meet"));
    }
    let Mined {
        block,
        by_workers,
        ..
    } = mined;
    Ok((by_workers, order_of(alloc, &block)?))
}

/// The worker of the first call, which is stopped at this step, takes its attempt back: the second call stands first, and it alone is committed by a worker.
fn takes_its_attempt_back<R: Threads + Wait + Sync + Abort>(
    rt: &R,
    alloc: Global,
    lines: &'static str,
    step: Step,
) -> Result<(), Fail> {
    let (by_workers, order) = stopped_at(rt, alloc, lines, step)?;
    equal(rt, &("by workers", step), &by_workers, &1);
    equal(
        rt,
        &("the order", step),
        &order.as_slice(),
        &[1u32, 0].as_slice(),
    );
    Ok(())
}

#[test]
fn a_stopped_worker_takes_its_attempt_back(rt: HostRuntime) -> Result<(), Fail> {
    for (lines, step) in ROWS {
        takes_its_attempt_back(&rt, rt.alloc(), *lines, *step)?;
    }
    Ok(())
}
