// An operation that is held inside its shard keeps no other shard closed.
use crate::assertions::holds;
use crate::books::{RETURNED, adding, at, cell};
use boost::book::Run;
use shards::{Gate, Shards};
use spec_ledger::{Kind, Op};
use std::alloc::Global;
use std::sync::Wait;
use std::sync::atomic::{AtomicBool, AtomicU64, Ordering};
use std::test::Fail;
use std::thread;
use std::thread::Threads;
use storage::Cells;

/// How often a held thread looks, where what it waits for comes.
const LOOKS: u32 = 1_000_000;

/// Waits until so many were told, but looks at most so often, and says whether they were.
fn hold(told: &AtomicU64, count: u64) -> bool {
    for _ in 0..LOOKS {
        if told.load(Ordering::SeqCst) >= count {
            return true;
        }
        thread::yield_now();
    }
    false
}

/// Holds what is inside shard 0 until the other shard's operation was answered.
#[derive(Drop)]
struct Held {
    inside: AtomicU64,
    answered: AtomicU64,
    failed: AtomicBool,
}

impl Gate for Held {
    fn inside(&self, shard: u32) {
        if shard != 0 {
            return;
        }
        self.inside.fetch_add(1, Ordering::SeqCst);
        if !hold(&self.answered, 1) {
            self.failed.store(true, Ordering::SeqCst);
        }
    }
}

/// A call that adds to one counter.
fn add<R: Wait>(
    rt: &R,
    book: &Shards<'_, Held>,
    call: u32,
    key: u64,
    answered: &AtomicU64,
) -> bool {
    let Ok(mut ticket) = book.begin(rt, call) else {
        return false;
    };
    if book.op(rt, &mut ticket, Op::Add(at(key), 5)).is_err() {
        return false;
    }
    answered.fetch_add(1, Ordering::SeqCst);
    let trace = [adding(key, 5)];
    let run = Run {
        trace: &trace,
        outcome: RETURNED,
    };
    book.commit(rt, ticket, &run).is_ok()
}

/// Whether key 7, of shard 1, was answered while key 8, of shard 0, was held inside its shard.
fn both_are_inside<R: Threads + Wait + Sync>(rt: &R, alloc: Global) -> Result<bool, Fail> {
    let gate = Held {
        inside: AtomicU64::new(0),
        answered: AtomicU64::new(0),
        failed: AtomicBool::new(false),
    };
    let own = AtomicU64::new(0);
    let book = Shards::open(alloc, Cells::new(alloc), 2, 2, &gate)?;
    let (first, second) = thread::join(
        rt,
        || add(rt, &book, 0, 8, &own),
        || hold(&gate.inside, 1) && add(rt, &book, 1, 7, &gate.answered),
    );
    let closed = book.close()?;
    let failed = gate.failed.load(Ordering::SeqCst);
    Ok(
        first
            && second
            && !failed
            && closed.cells.get(cell(Kind::Counter, 8)) == Some(5)
            && closed.cells.get(cell(Kind::Counter, 7)) == Some(5),
    )
}

#[test]
fn one_shard_is_held_and_the_other_answers(rt: HostRuntime) -> Result<(), Fail> {
    let are_inside = both_are_inside(&rt, rt.alloc())?;
    holds(&rt, &"both are inside", are_inside);
    Ok(())
}
