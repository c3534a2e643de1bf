// Blocks whose order may not be published with their fuel: they are rejected before anybody begins a call of theirs. What is said of forged ones stands in
// `crates/rows/data/forged_blocks.rows`.
use crate::assertions::equal;
use crate::given::{Calls, Given, block_of, first_fit, give, judged};
use crate::paces::{Stopping, Stops};
use crate::road::{SPIN, flipped};
use block_judge::Reason;
use spec_ledger::Version;
use std::alloc::Global;
use std::process::Abort;
use std::sync::Wait;
use std::test::Fail;
use std::thread::Threads;

/// The limit of each call.
const LIMIT: u64 = 10_000;

/// So many calls, and fuel for one less.
fn given_of(alloc: Global, count: u32) -> Result<Given, Fail> {
    let fuel = LIMIT.wrapping_mul(u64::from(count).saturating_sub(1));
    give(alloc, &[SPIN], &[], Calls::Idles(count), fuel)
}

/// So many workers, watched and not, reject the bytes for this reason, and begin no call.
fn nobody_runs<R: Threads + Wait + Sync + Abort>(
    rt: &R,
    alloc: Global,
    given: &Given,
    bytes: &[u8],
    workers: u32,
    reason: Reason,
) -> Result<(), Fail> {
    let watched = Stops::new(Stopping::Never);
    let found = judged(rt, alloc, given, bytes, workers, &watched)?.err();
    equal(
        rt,
        &("watched", workers),
        &(found, watched.attempts()),
        &(Some(reason), 0),
    );
    let pace = Stops::new(Stopping::Never);
    let found = judged(rt, alloc, given, bytes, workers, &pace.unwatched())?.err();
    equal(rt, &workers, &(found, pace.attempts()), &(Some(reason), 0));
    Ok(())
}

/// The block of all calls but the last one is rejected for one unit of fuel less, and where there is fuel for the last one, too.
fn is_run_by_nobody<R: Threads + Wait + Sync + Abort>(
    rt: &R,
    alloc: Global,
    count: u32,
) -> Result<(), Fail> {
    let mut given = given_of(alloc, count)?;
    let order = first_fit(alloc, &given)?;
    let bytes = block_of(alloc, &given, &order, Version::Two)?;
    let fuel = given.fuel;
    for workers in [1, 2, 4] {
        given.fuel = fuel.wrapping_sub(1);
        nobody_runs(rt, alloc, &given, &bytes, workers, Reason::OverBudget)?;
        given.fuel = fuel.wrapping_add(LIMIT);
        let left = Reason::RoomLeft(count.wrapping_sub(1));
        nobody_runs(rt, alloc, &given, &bytes, workers, left)?;
    }
    Ok(())
}

/// A byte of a block of which a bit is flipped, and the reason that holds then.
const FLIPPED: &[(usize, Reason)] = &[
    (0, Reason::Malformed),
    (8, Reason::WrongWorld),
    (9, Reason::WrongWorld),
    (40, Reason::WrongCalls),
    (71, Reason::WrongCalls),
    (79, Reason::BadOrder(0)),
];

/// One worker begins no call of a block before it has judged it.
#[test]
fn one_worker_judges_before_it_runs(rt: HostRuntime) -> Result<(), Fail> {
    let alloc = rt.alloc();
    let given = given_of(alloc, 512)?;
    let order = first_fit(alloc, &given)?;
    let bytes = block_of(alloc, &given, &order, Version::Two)?;
    for (place, reason) in FLIPPED {
        let other = flipped(alloc, &bytes, *place)?;
        nobody_runs(&rt, alloc, &given, &other, 1, *reason)?;
    }
    Ok(())
}

#[test]
fn a_block_beyond_its_fuel_makes_nobody_run_a_call(rt: HostRuntime) -> Result<(), Fail> {
    for count in [40, 513, 65_535] {
        is_run_by_nobody(&rt, rt.alloc(), count)?;
    }
    Ok(())
}
