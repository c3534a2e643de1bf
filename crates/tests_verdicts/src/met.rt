// Calls that workers mine over the book in shards, which really meet there: the order in which they are published, and that they come in it to what they come to
// one after another. What that is stands in `crates/rows/data/mined_blocks.rows`.
ghost use Rattle.std.specs.Prelude.{◌<◌};

use crate::assertions::holds;
use crate::given::{Calls, CellRow, Given, block_of, give, judged, mined, order_of, written};
use crate::meetings::{LOOKS, Meet, Meeting};
use miner::{MinedCore, mine_core};
use serial::{Core, serial_core};
use spec_ledger::Kind::{Counter, Map};
use spec_ledger::Version;
use std::alloc::Global;
use std::sync::Wait;
use std::test::Fail;
use std::thread::Threads;
use test_support::{ASKING, EXAMPLE, FIRST_MODULE, PROBING};

/// The module of whose export `run` each call adds 5 to the counter of its argument and returns the counter's total.
const FIRST: &[&[u8]] = &[FIRST_MODULE];

const OF_EXAMPLE: &[&[u8]] = &[EXAMPLE];

/// Contract 0 asks itself, contract 1 whom its argument says.
const THAT_ASK: &[&[u8]] = &[ASKING, PROBING];

/// Calls that are mined, and what they come to.
#[derive(Clone, Copy)]
struct Row {
    name: &'static str,
    /// The modules of the contracts.
    modules: &'static [&'static [u8]],
    cells: &'static [CellRow],
    calls: Calls,
    fuel: u64,
    workers: u32,
    tries: u32,
    /// How the calls are made to meet. None: no thread is held.
    meeting: Option<Meeting>,
    /// The orders in which they may be published. Where there is none: any.
    orders: &'static [&'static [u32]],
    /// How many calls are published.
    published: usize,
    /// How many of them the workers committed, where this is said.
    by_workers: Option<u32>,
}

/// Two calls that are mined by two workers, who try each once.
const TWO: Row = Row {
    name: "two bumps commute",
    modules: OF_EXAMPLE,
    cells: &[],
    calls: Calls::These("0 100 bump i64:7 i64:5\n0 100 bump i64:7 i64:-5\n"),
    fuel: 10_000,
    workers: 2,
    tries: 1,
    meeting: Some(Meeting::BothActed),
    orders: &[&[0, 1], &[1, 0]],
    published: 2,
    by_workers: Some(2),
};

/// Calls of which one worker commits the first and the third.
const ALONE: Row = Row {
    workers: 1,
    meeting: None,
    orders: &[&[0, 2]],
    ..TWO
};

const NO_CALLS: Row = Row {
    name: "no calls change nothing",
    calls: Calls::These(""),
    fuel: 0,
    orders: &[&[]],
    published: 0,
    by_workers: Some(0),
    ..ALONE
};

const ROWS: &[Row] = &[
    TWO,
    Row {
        name: "two attempts are live at once",
        modules: FIRST,
        calls: Calls::These("0 10 run i64:7\n0 10 run i64:8\n"),
        tries: 3,
        ..TWO
    },
    Row {
        name: "a refused call is tried again",
        modules: FIRST,
        calls: Calls::These("0 10 run i64:7\n0 10 run i64:7\n"),
        tries: 2,
        meeting: Some(Meeting::Clash),
        orders: &[&[0, 1]],
        ..TWO
    },
    Row {
        name: "a call that was tried in vain runs alone",
        modules: FIRST,
        calls: Calls::These("0 10 run i64:7\n0 10 run i64:7\n0 10 run i64:8\n"),
        meeting: Some(Meeting::Clash),
        orders: &[&[0, 2, 1]],
        published: 3,
        ..TWO
    },
    Row {
        name: "a refused call is tried again after the other",
        calls: Calls::These("0 100 both i64:7 i64:1\n0 100 bump i64:7 i64:2\n"),
        tries: 2,
        meeting: Some(Meeting::RefusedOnce),
        orders: &[&[1, 0]],
        ..TWO
    },
    Row {
        name: "two movers that were refused run alone",
        cells: &[(0, Map, 1, 10), (0, Map, 2, 20)],
        calls: Calls::These("0 100 move i64:1 i64:2\n0 100 move i64:2 i64:1\n"),
        meeting: Some(Meeting::BothRefused),
        orders: &[&[0, 1]],
        by_workers: Some(0),
        ..TWO
    },
    Row {
        name: "a failed adder is overtaken",
        calls: Calls::These("0 100 fail i64:7 i64:5\n0 100 bump i64:7 i64:3\n"),
        meeting: Some(Meeting::OvertakenAdder),
        orders: &[&[1, 0]],
        ..TWO
    },
    Row {
        name: "a level that is dropped and one that is kept, on one counter",
        modules: THAT_ASK,
        calls: Calls::These("0 1000 try i32:1 i64:7\n0 1000 try i32:0 i64:7\n"),
        ..TWO
    },
    // `probe` of `fall` with 5, and `count` with 5
    Row {
        name: "a level is dropped while another call has added to its counter",
        modules: THAT_ASK,
        cells: &[(1, Counter, 5, 3)],
        calls: Calls::These("1 1000 probe i64:657\n1 1000 count i64:5\n"),
        meeting: Some(Meeting::AddedMeanwhile),
        ..TWO
    },
    // `probe` of `fall` with 9, and `probe` of `spoil` of `store` with 63: the second operation of the first call asks for what the dropped
    // level of the other one read
    Row {
        name: "the locks of a dropped level are held to the end",
        modules: THAT_ASK,
        cells: &[(1, Counter, 63, 4)],
        calls: Calls::These("1 1000 probe i64:1169\n1 1000 probe i64:1044681\n"),
        tries: 2,
        meeting: Some(Meeting::RefusedOnce),
        orders: &[&[1, 0]],
        ..TWO
    },
    Row {
        name: "one worker commits each call",
        modules: FIRST,
        cells: &[(0, Counter, 7, 3)],
        calls: Calls::These("0 10 run i64:7\n9 10 run i64:7\n0 6 run i64:7\n0 10 run i64:7\n"),
        fuel: 100,
        orders: &[&[0, 1, 2, 3]],
        published: 4,
        by_workers: Some(4),
        ..ALONE
    },
    Row {
        name: "a call without room is left out",
        modules: FIRST,
        calls: Calls::These("0 60 run i64:7\n0 50 run i64:7\n0 40 run i64:8\n0 1 run i64:8\n"),
        fuel: 100,
        tries: 3,
        ..ALONE
    },
    Row {
        name: "limits count and not the fuel used",
        calls: Calls::These(
            "0 60 bump i64:7 i64:1\n0 50 bump i64:7 i64:1\n0 40 bump i64:7 i64:1\n",
        ),
        fuel: 100,
        tries: 3,
        ..ALONE
    },
    Row {
        name: "no calls, and many workers",
        workers: 64,
        tries: 16,
        ..NO_CALLS
    },
    NO_CALLS,
    // 14 limits of 7 are within 100
    Row {
        name: "four workers over five counters",
        modules: FIRST,
        calls: Calls::Runs(20, 5),
        fuel: 100,
        workers: 4,
        tries: 3,
        meeting: Some(Meeting::FourTries),
        orders: &[],
        published: 14,
        by_workers: None,
        ..TWO
    },
    Row {
        name: "sixty-four workers over ten counters",
        modules: FIRST,
        calls: Calls::Runs(500, 10),
        workers: 64,
        tries: 3,
        meeting: None,
        orders: &[],
        published: 500,
        by_workers: None,
        ..TWO
    },
];

/// Whether calls are published in an order as the row says, and so many by the workers.
fn is_as_said(row: &Row, order: &[u32], by_workers: u32) -> bool {
    order.len() == row.published
        && (row.orders.is_empty() || row.orders.iter().any(|it| *it == order))
        && row.by_workers.unwrap_or(by_workers) == by_workers
}

/// Whether what is mined is what the row says, and its block is that of its order and is accepted without running a position again.
fn is_mined<R: Threads + Wait + Sync>(rt: &R, alloc: Global, row: &Row) -> Result<bool, Fail> {
    let given = give(alloc, row.modules, row.cells, row.calls, row.fuel)?;
    let pace = Meet::new(row.meeting, LOOKS);
    let mined = mined(rt, alloc, &given, row.workers, row.tries, &pace)?;
    let order = order_of(alloc, &mined.block)?;
    let bytes = written(alloc, alloc, &mined.block)?;
    let alone = block_of(alloc, &given, &order, Version::Two)?;
    let judged = judged(rt, alloc, &given, &bytes, 2, &Meet::new(None, LOOKS))?;
    Ok(
        pace.was_met()
            && is_as_said(row, &order, mined.by_workers)
            && bytes == alone
            && judged == Ok(0),
    )
}

#[test]
fn blocks_are_mined_as_said(rt: HostRuntime) -> Result<(), Fail> {
    for row in ROWS {
        holds(&rt, &row.name, is_mined(&rt, rt.alloc(), row)?);
    }
    Ok(())
}

/// What is mined of a row with the book in so many shards, where its calls met.
fn mined_core<R: Threads + Wait + Sync>(
    rt: &R,
    alloc: Global,
    given: &Given,
    row: &Row,
    shards: u32,
) -> Result<MinedCore, Fail> {
    let calls = given.calls.as_slice();
    let Row { workers, tries, .. } = *row;
    if calls.len() > 65_535 || workers < 1 || workers > 64 || tries < 1 || tries > 16 {
        return Err(Fail::from("outside the conditions"));
    }
    if shards < 1 || shards > 16 {
        return Err(Fail::from("outside the conditions"));
    }
    let pace = Meet::new(row.meeting, LOOKS);
    let Ok(mined) = mine_core(
        rt,
        alloc,
        given.world.contracts(),
        given.world.cells(),
        calls,
        given.fuel,
        workers,
        tries,
        &pace,
        shards,
    ) else {
        return Err(Fail::from("refused"));
    };
    if !pace.was_met() {
        return Err(Fail::from("the calls did not meet"));
    }
    Ok(mined)
}

/// Whether calls came to the same.
fn are_same(alone: &Core, mined: &MinedCore) -> bool {
    let mut both = alone.touched.iter().zip(mined.touched.iter());
    alone.receipts == mined.receipts
        && alone.touched.len() == mined.touched.len()
        && both.all(|(one, other)| one.lock_modes() == other.lock_modes())
        && alone.cells.entries().eq(mined.cells.entries())
}

/// Whether what was mined is what its calls come to one after another in its order.
fn is_serial(alloc: Global, given: &Given, mined: &MinedCore) -> Result<bool, Fail> {
    let order = mined.order.as_slice();
    let calls = given.calls.as_slice();
    if !order.iter().all(|call| (*call as usize) < calls.len()) {
        return Ok(false);
    }
    let world = &given.world;
    let alone = serial_core(
        alloc,
        world.contracts(),
        world.cells(),
        calls,
        order,
        Version::Two,
    )?;
    Ok(are_same(&alone, mined))
}

/// Whether what is mined with the book in so many shards is what the row says.
fn is_mined_in<R: Threads + Wait + Sync>(
    rt: &R,
    alloc: Global,
    row: &Row,
    shards: u32,
) -> Result<bool, Fail> {
    let given = give(alloc, row.modules, row.cells, row.calls, row.fuel)?;
    let mined = mined_core(rt, alloc, &given, row, shards)?;
    let is_serial = is_serial(alloc, &given, &mined)?;
    let left = given.calls.len().saturating_sub(mined.order.len());
    Ok(is_serial && is_as_said(row, &mined.order, mined.by_workers) && mined.left.len() == left)
}

#[test]
fn the_number_of_shards_changes_nothing(rt: HostRuntime) -> Result<(), Fail> {
    for row in ROWS {
        for shards in [1, 2, 16] {
            let is_mined = is_mined_in(&rt, rt.alloc(), row, shards)?;
            holds(&rt, &(row.name, shards), is_mined);
        }
    }
    Ok(())
}
