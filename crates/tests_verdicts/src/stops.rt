// Workers that are stopped: at each step of the book and of the board, in the midst of calls that ask, and at each attempt where nobody watches. What they leave
// is done by the calling thread.
use crate::assertions::{equal, holds};
use crate::given::{Calls, Given, block_of, first_fit, give, judged};
use crate::paces::{Stopping, Stops};
use crate::road::{Seen, given_of, is_accepted, is_mined, list_of, wanted_of, watched};
use pace::NoPace;
use spec_ledger::Version;
use std::alloc::Global;
use std::process::Abort;
use std::sync::Wait;
use std::test::Fail;
use std::thread::Threads;
use test_support::{EXAMPLE, PROBING};

/// Two bumps of one counter.
fn bumps(alloc: Global) -> Result<Given, Fail> {
    let calls = Calls::These("0 100 bump i64:7 i64:5\n0 100 bump i64:7 i64:-5\n");
    give(alloc, &[EXAMPLE], &[], calls, 1_000_000)
}

/// Calls of a contract that asks whom their arguments say, with key 7: `both` of `fall`, which is dropped, and of `count`, which is kept; `probe` of `probe` of
/// `spoil` of `store`, where the third level is dropped and the fourth is kept in it; and `probe` of `spoil` of `fall`, where one is dropped in another.
fn asking(alloc: Global) -> Result<Given, Fail> {
    let calls = "0 100 both i64:115728\n0 100 probe i64:2081554432\n0 100 probe i64:116808\n";
    give(alloc, &[PROBING], &[], Calls::These(calls), 1_000_000)
}

/// What so many workers come to that are stopped so and watched. Their block is right.
fn stopped<R: Threads + Wait + Sync + Abort>(
    rt: &R,
    alloc: Global,
    given: &Given,
    workers: u32,
    stopping: Stopping,
) -> Result<Seen, Fail> {
    let watched = watched(rt, alloc, given, workers, stopping)?;
    holds(rt, &(workers, "workers", stopping), watched.is_right);
    Ok(watched)
}

// a bump has four steps: its attempt, its operation, its commit, and that it was committed
#[test]
fn a_stop_at_each_step_of_two_bumps(rt: HostRuntime) -> Result<(), Fail> {
    let given = bumps(rt.alloc())?;
    for workers in [1, 2] {
        for step in 0..=8 {
            let one = stopped(&rt, rt.alloc(), &given, workers, Stopping::At(step))?;
            let all = stopped(&rt, rt.alloc(), &given, workers, Stopping::From(step))?;
            let stops = (one.stopped.0, all.stopped.0 > 0);
            equal(
                &rt,
                &(workers, step),
                &stops,
                &(u64::from(step < 8), step < 8),
            );
        }
    }
    Ok(())
}

#[test]
fn a_stop_at_each_step_of_calls_that_ask(rt: HostRuntime) -> Result<(), Fail> {
    let given = asking(rt.alloc())?;
    for workers in [1, 2] {
        let mut stops = 0u64;
        for step in 0..40 {
            let one = stopped(&rt, rt.alloc(), &given, workers, Stopping::At(step))?;
            let all = stopped(&rt, rt.alloc(), &given, workers, Stopping::From(step))?;
            for more in [one.stopped.0, one.stopped.1, all.stopped.0, all.stopped.1] {
                stops = stops.wrapping_add(more);
            }
        }
        holds(&rt, &(workers, "workers, stops", stops), stops > 30);
    }
    Ok(())
}

#[test]
fn workers_that_stop_at_once_leave_all_to_the_caller(rt: HostRuntime) -> Result<(), Fail> {
    let given = bumps(rt.alloc())?;
    for workers in 1..=4 {
        let came = stopped(&rt, rt.alloc(), &given, workers, Stopping::Attempts)?;
        equal(
            &rt,
            &workers,
            &(came.by_workers, came.is_rising),
            &(0, true),
        );
    }
    Ok(())
}

#[test]
fn random_lists_with_stops_are_serial(rt: HostRuntime) -> Result<(), Fail> {
    for seed in 0..50u64 {
        let given = given_of(rt.alloc(), list_of(12, 5, 1, seed))?;
        let step = seed.wrapping_mul(7) % 60;
        let stopping = if seed % 2 == 0 {
            Stopping::At(step)
        } else {
            Stopping::From(step)
        };
        stopped(&rt, rt.alloc(), &given, 3, stopping)?;
    }
    Ok(())
}

/// A list under a pace that does not watch comes to the block of the first fit by so many workers that are stopped so, and its block is accepted.
fn road_is_right<R: Threads + Wait + Sync + Abort>(
    rt: &R,
    alloc: Global,
    given: &Given,
    workers: u32,
    stopping: Stopping,
) -> Result<(), Fail> {
    let wanted = wanted_of(alloc, given)?;
    let mined = is_mined(rt, alloc, given, &wanted, workers, stopping)?;
    let accepted = is_accepted(rt, alloc, given, &wanted, workers, stopping)?;
    equal(rt, &(workers, stopping), &(mined, accepted), &(true, true));
    Ok(())
}

/// Where nobody watches, workers are stopped at each attempt of a list.
#[test]
fn a_stop_at_each_attempt_of_a_list(rt: HostRuntime) -> Result<(), Fail> {
    let given = given_of(rt.alloc(), list_of(40, 5, 5_000, 200))?;
    for workers in [1, 3] {
        for step in 0..42 {
            road_is_right(&rt, rt.alloc(), &given, workers, Stopping::At(step))?;
            road_is_right(&rt, rt.alloc(), &given, workers, Stopping::From(step))?;
        }
        road_is_right(&rt, rt.alloc(), &given, workers, Stopping::Attempts)?;
    }
    Ok(())
}

/// The same of a list of 600 calls, at some of its attempts.
#[test]
fn a_stop_at_some_attempts_of_a_long_list(rt: HostRuntime) -> Result<(), Fail> {
    let given = given_of(rt.alloc(), list_of(600, 5, 200, 201))?;
    for step in 0..12 {
        let step = u64::wrapping_mul(step, 53);
        road_is_right(&rt, rt.alloc(), &given, 4, Stopping::At(step))?;
        road_is_right(&rt, rt.alloc(), &given, 4, Stopping::From(step))?;
    }
    road_is_right(&rt, rt.alloc(), &given, 4, Stopping::Attempts)
}

/// What is said of these bytes by so many workers that are stopped so, watched and not, is what one says that nobody stops.
fn is_judged_alike<R: Threads + Wait + Sync + Abort>(
    rt: &R,
    alloc: Global,
    given: &Given,
    bytes: &[u8],
    workers: u32,
    stopping: Stopping,
) -> Result<(), Fail> {
    let plain = judged(rt, alloc, given, bytes, 1, &NoPace)?.err();
    let watched = judged(rt, alloc, given, bytes, workers, &Stops::new(stopping))?.err();
    let pace = Stops::new(stopping);
    let unwatched = judged(rt, alloc, given, bytes, workers, &pace.unwatched())?.err();
    equal(
        rt,
        &(workers, stopping),
        &(watched, unwatched),
        &(plain, plain),
    );
    Ok(())
}

/// One worker and two that are stopped at each of their steps say of these bytes what comes without a stop.
fn are_judged_alike<R: Threads + Wait + Sync + Abort>(
    rt: &R,
    alloc: Global,
    given: &Given,
    bytes: &[u8],
) -> Result<(), Fail> {
    for workers in [1, 2] {
        for step in 0..=4 {
            is_judged_alike(rt, alloc, given, bytes, workers, Stopping::At(step))?;
            is_judged_alike(rt, alloc, given, bytes, workers, Stopping::From(step))?;
        }
    }
    Ok(())
}

// of a bump a validator's worker has two steps: its attempt and its operation
#[test]
fn a_stopped_validator_gives_the_same_verdict(rt: HostRuntime) -> Result<(), Fail> {
    let alloc = rt.alloc();
    let given = bumps(alloc)?;
    let order = first_fit(alloc, &given)?;
    let mut bytes = block_of(alloc, &given, &order, Version::Two)?;
    are_judged_alike(&rt, alloc, &given, &bytes)?;
    // and with another end
    if let Some(last) = bytes.last_mut() {
        *last = last.wrapping_add(1);
    }
    are_judged_alike(&rt, alloc, &given, &bytes)
}
