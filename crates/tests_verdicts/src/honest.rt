// Blocks that are as they were made, which workers validate by the board, the lanes and the cells ahead: a verdict is proved to be right whatever the workers
// do; that they run each call as soon as it may start, and that no call of an honest block is run again, is shown here.
use crate::assertions::holds;
use crate::given::{Calls, CellRow, Given, block_of, give, judged};
use crate::meetings::{LOOKS, Meet, Meeting};
use spec_ledger::Kind::Map;
use spec_ledger::Version;
use std::alloc::Global;
use std::process::Abort;
use std::sync::Wait;
use std::test::Fail;
use std::thread::Threads;
use test_support::EXAMPLE;

/// The fuel of a block.
const FUEL: u64 = 1_000_000;

/// A module whose `look` gives the total of the counter of its key, and whose `bump` adds its second argument to that of its first.
const COUNTER: &[u8] = &[
    0x00, 0x61, 0x73, 0x6D, 0x01, 0x00, 0x00, 0x00, 0x01, 0x0B, 0x02, 0x60, 0x02, 0x7E, 0x7E, 0x00,
    0x60, 0x01, 0x7E, 0x01, 0x7E, 0x02, 0x1B, 0x02, 0x05, 0x62, 0x6F, 0x6F, 0x73, 0x74, 0x03, 0x61,
    0x64, 0x64, 0x00, 0x00, 0x05, 0x62, 0x6F, 0x6F, 0x73, 0x74, 0x05, 0x74, 0x6F, 0x74, 0x61, 0x6C,
    0x00, 0x01, 0x03, 0x03, 0x02, 0x00, 0x01, 0x07, 0x0F, 0x02, 0x04, 0x62, 0x75, 0x6D, 0x70, 0x00,
    0x02, 0x04, 0x6C, 0x6F, 0x6F, 0x6B, 0x00, 0x03, 0x0A, 0x11, 0x02, 0x08, 0x00, 0x20, 0x00, 0x20,
    0x01, 0x10, 0x00, 0x0B, 0x06, 0x00, 0x20, 0x00, 0x10, 0x01, 0x0B,
];

/// The modules of the contracts, and the cells before.
const MODULES: &[&[u8]] = &[EXAMPLE];

const CELLS: &[CellRow] = &[(0, Map, 1, 10), (0, Map, 2, 20)];

/// Calls, in rising number in their block or the other way round, and by how many workers it is validated.
type Row = (&'static str, &'static str, bool, u32);

const ROWS: &[Row] = &[
    ("no calls", "", false, 2),
    ("two bumps", BUMPS, false, 2),
    (
        "a trapped reader and a writer",
        "0 100 peek i64:1\n0 100 set i64:1 i64:9\n",
        false,
        2,
    ),
    ("two movers", MOVERS, false, 2),
    ("two movers in the other order", MOVERS, true, 2),
    ("two counters", COUNTERS, false, 2),
    ("two counters in the other order", COUNTERS, true, 2),
    (
        "a chain of waves",
        "0 100 move i64:1 i64:2\n0 100 move i64:2 i64:3\n",
        false,
        2,
    ),
    ("one worker", THREE, false, 1),
    ("more workers than calls", THREE, false, 64),
    (
        "what a trapped call did is taken back before the next one starts",
        TRAPPED,
        false,
        2,
    ),
    (
        "a call without fuel, and one that is not known",
        NOT_RUN,
        false,
        2,
    ),
];

const BUMPS: &str = "0 100 bump i64:7 i64:5\n0 100 bump i64:7 i64:-5\n";

const MOVERS: &str = "0 100 move i64:1 i64:2\n0 100 move i64:2 i64:1\n";

const COUNTERS: &str = "0 100 bump i64:7 i64:1\n0 100 bump i64:8 i64:1\n";

/// Two writers, and a call that reads what the first one wrote.
const THREE: &str = "0 100 set i64:1 i64:1\n0 100 set i64:2 i64:2\n0 100 move i64:1 i64:3\n";

const TRAPPED: &str =
    "0 100 fail i64:7 i64:5\n0 100 both i64:7 i64:1\n0 100 fail i64:7 i64:9\n0 100 both i64:7 i64:2\n";

const NOT_RUN: &str = "0 4 set i64:1 i64:1\n0 100 nope i64:1 i64:1\n0 100 set i64:1 i64:2\n";

/// The order of so many calls.
fn order_of(alloc: Global, count: usize, is_swapped: bool) -> Result<Vec<u32>, Fail> {
    let mut order = Vec::new(alloc);
    for number in 0..u32::try_from(count).unwrap_or(0) {
        order.push(number)?;
    }
    if is_swapped {
        order.reverse();
    }
    Ok(order)
}

/// So many workers accept the block of this version of an order, where its calls meet, and no position of it is run again.
fn is_accepted<R: Threads + Wait + Sync + Abort>(
    rt: &R,
    alloc: Global,
    given: &Given,
    order: &[u32],
    version: Version,
    workers: u32,
    meeting: Option<Meeting>,
) -> Result<bool, Fail> {
    let bytes = block_of(alloc, given, order, version)?;
    let pace = Meet::new(meeting, LOOKS);
    let judged = judged(rt, alloc, given, &bytes, workers, &pace)?;
    Ok(judged == Ok(0) && pace.was_met())
}

/// The blocks of both versions of these calls are accepted.
fn are_accepted<R: Threads + Wait + Sync + Abort>(
    rt: &R,
    alloc: Global,
    name: &str,
    given: &Given,
    is_swapped: bool,
    workers: u32,
    meeting: Option<Meeting>,
) -> Result<(), Fail> {
    let order = order_of(alloc, given.calls.len(), is_swapped)?;
    for version in [Version::One, Version::Two] {
        let is_accepted = is_accepted(rt, alloc, given, &order, version, workers, meeting)?;
        holds(rt, &(name, version, workers), is_accepted);
    }
    Ok(())
}

#[test]
fn no_call_of_an_honest_block_is_run_again(rt: HostRuntime) -> Result<(), Fail> {
    for (name, calls, is_swapped, workers) in ROWS {
        let given = give(rt.alloc(), MODULES, CELLS, Calls::These(*calls), FUEL)?;
        are_accepted(&rt, rt.alloc(), name, &given, *is_swapped, *workers, None)?;
    }
    Ok(())
}

#[test]
fn calls_of_one_wave_run_at_once(rt: HostRuntime) -> Result<(), Fail> {
    let given = give(rt.alloc(), MODULES, CELLS, Calls::These(BUMPS), FUEL)?;
    let meeting = Some(Meeting::BothAsk);
    are_accepted(&rt, rt.alloc(), "two bumps", &given, false, 2, meeting)
}

#[test]
fn a_call_starts_though_another_one_is_held(rt: HostRuntime) -> Result<(), Fail> {
    let given = give(rt.alloc(), MODULES, CELLS, Calls::These(THREE), FUEL)?;
    let meeting = Some(Meeting::PastAnother);
    are_accepted(&rt, rt.alloc(), "three calls", &given, false, 2, meeting)
}

#[test]
fn one_long_chain(rt: HostRuntime) -> Result<(), Fail> {
    let given = give(rt.alloc(), MODULES, CELLS, Calls::Chain(500), FUEL)?;
    for workers in [1, 2, 64] {
        are_accepted(&rt, rt.alloc(), "a chain", &given, false, workers, None)?;
    }
    Ok(())
}

#[test]
fn each_adder_waits_for_each_reader(rt: HostRuntime) -> Result<(), Fail> {
    let given = give(rt.alloc(), &[COUNTER], &[], Calls::LooksAndBumps(250), FUEL)?;
    are_accepted(&rt, rt.alloc(), "looks and bumps", &given, false, 4, None)
}
