// Every block of memory that mining and validating ask for, refused in turn: alone, and with all that are asked for after it. The answer is out of memory, or
// the one without a refusal, and what was lent is as it was. Which of the two it is has no clause, nor that a worker whose fellow was refused comes to its end.
use crate::assertions::holds;
use crate::given::{
    Calls, CellRow, Given, are_cells, block_of, first_fit, give, judged, world_of, written,
};
use crate::meetings::{FEW_LOOKS, Meet, Meeting};
use crate::paces::{Stopping, Stops};
use crate::road::SPIN;
use block_judge::Reason;
use miner::{Mined, mine_in};
use pace::{NoPace, Pace};
use spec_ledger::Kind::{Counter, Map};
use spec_ledger::Version;
use std::alloc::Global;
use std::process::Abort;
use std::sync::Wait;
use std::test::Fail;
use std::thread::Threads;
use test_support::{EXAMPLE, PROBING, Ration};
use validator::{Verdict, validate_in};
use world::World;

/// What is done with calls.
#[derive(Clone, Copy, Debug)]
enum Work {
    Mine,
    Validate,
    /// A block with another receipt is validated.
    Reject,
}

/// At which pace.
#[derive(Clone, Copy)]
enum Told {
    /// Nobody watches.
    Unwatched,
    Watched,
    /// The workers are watched, and held so that they meet.
    Met(Meeting),
}

/// Calls that are worked on, of which so many fit, and the cells after them.
#[derive(Clone, Copy)]
struct Row {
    name: &'static str,
    modules: &'static [&'static [u8]],
    cells: &'static [CellRow],
    calls: Calls,
    after: &'static [CellRow],
    workers: u32,
    told: Told,
    /// How many blocks each next refusal comes later.
    step: u64,
    /// How often memory is wanted at least, where each block is refused in turn.
    least: u32,
}

/// The fuel of a block.
const FUEL: u64 = 10_000_000;

/// A reader that traps, and a writer of its cell.
const PLAIN: Row = Row {
    name: "two calls",
    modules: &[EXAMPLE],
    cells: &[(0, Map, 1, 10), (0, Counter, 7, 3)],
    calls: Calls::These("0 100 peek i64:1\n0 100 set i64:1 i64:9\n"),
    after: &[(0, Map, 1, 9), (0, Counter, 7, 3)],
    workers: 2,
    told: Told::Unwatched,
    step: 1,
    least: 10,
};

/// Two calls of a contract that asks itself, with key 7: `both` of `fall`, which is dropped, and of `count`, which is kept; and `probe` of
/// `probe` of `spoil` of `store`, where the third level is dropped and the fourth is kept.
const LEVELS: Row = Row {
    name: "calls that ask",
    modules: &[PROBING],
    calls: Calls::These("0 100 both i64:115728\n0 100 probe i64:2081554432\n"),
    after: &[(0, Map, 1, 10), (0, Counter, 7, 4)],
    least: 20,
    ..PLAIN
};

/// Five calls of which two write one cell and one fails, and one that has no room. They come to the same in each order.
const MIXED: Row = Row {
    name: "five calls and one without room, by one worker",
    calls: Calls::These(
        "0 100 bump i64:7 i64:5\n0 100 set i64:1 i64:20\n0 100 bump i64:7 i64:-2\n0 100 set i64:1 i64:20\n0 100 fail i64:8 i64:2\n0 20000000 bump i64:7 i64:1\n",
    ),
    after: &[(0, Map, 1, 20), (0, Counter, 7, 6)],
    workers: 1,
    told: Told::Watched,
    ..PLAIN
};

/// Two calls that move what is in two cells to one another, in either order: each refuses the other, and both run alone when the workers have ended.
const MOVERS: Row = Row {
    name: "movers that run alone",
    cells: &[(0, Map, 1, 10), (0, Map, 2, 10)],
    calls: Calls::These("0 100 move i64:1 i64:2\n0 100 move i64:2 i64:1\n"),
    after: &[(0, Map, 1, 10), (0, Map, 2, 10)],
    told: Told::Met(Meeting::BothRefused),
    ..PLAIN
};

/// Calls long enough for several threads, of which many meet on a cell.
const LONG: Row = Row {
    name: "a list that several threads run",
    modules: &[SPIN],
    cells: &[],
    calls: Calls::Spins(40, 3),
    after: &[(0, Map, 0, 14), (0, Map, 1, 13), (0, Map, 2, 13)],
    workers: 3,
    step: 17,
    ..PLAIN
};

const ROWS: &[Row] = &[
    PLAIN,
    Row {
        name: "two calls, watched",
        told: Told::Watched,
        ..PLAIN
    },
    MIXED,
    Row {
        name: "five calls and one without room, by two",
        workers: 2,
        told: Told::Met(Meeting::BothActed),
        ..MIXED
    },
];

const ROWS_OF_LEVELS: &[Row] = &[
    LEVELS,
    Row {
        name: "calls that ask, watched",
        told: Told::Watched,
        ..LEVELS
    },
];

/// What comes of it.
#[derive(Clone, Copy, Debug, PartialEq)]
enum Came {
    /// What comes of it without a refusal, and what was lent is as it was.
    AsEver,
    /// Out of memory, and what was lent is as it was.
    NoMemory,
    Other,
}

/// A row's world and calls, and the block of the first fit, or one with another receipt.
#[derive(Drop)]
struct Made {
    given: Given,
    bytes: Vec<u8>,
}

fn make(alloc: Global, row: &Row, work: Work) -> Result<Made, Fail> {
    let given = give(alloc, row.modules, row.cells, row.calls, FUEL)?;
    let order = first_fit(alloc, &given)?;
    let mut bytes = block_of(alloc, &given, &order, Version::Two)?;
    if matches!(work, Work::Reject) {
        *bytes.get_mut(80).ok_or("a byte")? ^= 1;
    }
    Ok(Made { given, bytes })
}

/// Whether what was mined is right: the block of the first fit where nobody watches or one worker mines, and else one that is accepted; and the cells after it.
fn is_right<'r, R: Threads + Wait + Sync>(
    rt: &R,
    heap: Global,
    lent: &'r Ration,
    row: &Row,
    made: &Made,
    mined: &Mined<&'r Ration>,
) -> Result<bool, Fail> {
    let bytes = written(heap, lent, &mined.block)?;
    let is_first_fit = row.workers == 1 || matches!(row.told, Told::Unwatched);
    let is_block = if is_first_fit {
        bytes == made.bytes
    } else {
        judged(rt, heap, &made.given, &bytes, 1, &NoPace)?.is_ok()
    };
    Ok(is_block && are_cells(mined.world.cells(), row.after))
}

/// Whether what is mined at this pace is right. None: memory was refused.
fn mines<'r, R: Threads + Wait + Sync, P: Pace>(
    rt: &R,
    heap: Global,
    lent: &'r Ration,
    alloc: &'r Ration,
    world: &World<&'r Ration>,
    row: &Row,
    made: &Made,
    pace: &P,
) -> Result<Option<bool>, Fail> {
    let calls = made.given.calls.as_slice();
    let workers = row.workers;
    if calls.len() > 65_535 || workers < 1 || workers > 64 {
        return Err(Fail::from("outside the conditions"));
    }
    match mine_in(rt, alloc, world, calls, FUEL, workers, 2, pace) {
        Ok(mined) => Ok(Some(is_right(rt, heap, lent, row, made, &mined)?)),
        Err(_) => Ok(None),
    }
}

/// Whether the verdict at this pace is right. None: memory was refused.
fn judges<'r, R: Threads + Wait + Sync, P: Pace>(
    rt: &R,
    alloc: &'r Ration,
    world: &World<&'r Ration>,
    row: &Row,
    made: &Made,
    work: Work,
    pace: &P,
) -> Result<Option<bool>, Fail> {
    let calls = made.given.calls.as_slice();
    let workers = row.workers;
    if calls.len() > 65_535 || workers < 1 || workers > 64 {
        return Err(Fail::from("outside the conditions"));
    }
    let bytes = made.bytes.as_slice();
    match validate_in(rt, alloc, world, calls, FUEL, bytes, workers, pace) {
        Ok(Verdict::Accept(next)) => {
            let is_accepted = matches!(work, Work::Validate);
            Ok(Some(is_accepted && are_cells(next.cells(), row.after)))
        }
        Ok(Verdict::Reject(reason)) => {
            Ok(Some(matches!(work, Work::Reject) && reason == Reason::Deviates(0)))
        }
        Err(_) => Ok(None),
    }
}

/// What comes of work at this pace with memory from `alloc`, where the world is from `lent`.
fn came_at<'r, R: Threads + Wait + Sync, P: Pace>(
    rt: &R,
    heap: Global,
    lent: &'r Ration,
    alloc: &'r Ration,
    row: &Row,
    made: &Made,
    work: Work,
    pace: &P,
) -> Result<Came, Fail> {
    let world = world_of(lent, row.modules, row.cells)?;
    let is_right = match work {
        Work::Mine => mines(rt, heap, lent, alloc, &world, row, made, pace)?,
        _ => judges(rt, alloc, &world, row, made, work, pace)?,
    };
    if !are_cells(world.cells(), row.cells) {
        return Ok(Came::Other);
    }
    match is_right {
        Some(true) => Ok(Came::AsEver),
        Some(false) => Ok(Came::Other),
        None => Ok(Came::NoMemory),
    }
}

/// What comes of work with memory from `alloc`, where the world is from `lent`.
fn came_of<'r, R: Threads + Wait + Sync>(
    rt: &R,
    heap: Global,
    lent: &'r Ration,
    alloc: &'r Ration,
    row: &Row,
    made: &Made,
    work: Work,
) -> Result<Came, Fail> {
    let never = Stops::new(Stopping::Never);
    match row.told {
        Told::Watched => came_at(rt, heap, lent, alloc, row, made, work, &never),
        Told::Unwatched => {
            let pace = never.unwatched();
            came_at(rt, heap, lent, alloc, row, made, work, &pace)
        }
        Told::Met(meeting) => {
            let pace = Meet::new(Some(meeting), FEW_LOOKS);
            came_at(rt, heap, lent, alloc, row, made, work, &pace)
        }
    }
}

/// More blocks of memory than anything here takes.
const AMPLE: u64 = 1_000_000;

/// More refusals in turn than any row has.
const MANY: u64 = 5_000;

/// What comes of work where the block after so many is refused, and maybe all after it, too; and whether one was.
fn refused_after<R: Threads + Wait + Sync>(
    rt: &R,
    heap: Global,
    row: &Row,
    made: &Made,
    work: Work,
    is_one: bool,
    blocks: u64,
) -> Result<(Came, bool), Fail> {
    let lent = Ration::new(heap, AMPLE);
    let ration = if is_one {
        Ration::refusing_one(heap, blocks)
    } else {
        Ration::new(heap, blocks)
    };
    let came = came_of(rt, heap, &lent, &ration, row, made, work)?;
    Ok((came, ration.has_refused()))
}

/// Refuses blocks in turn, and says how often memory was wanted; or the first number of blocks after which another answer came. One worker that mines, and for
/// whom all are refused, has no other answer than out of memory.
fn refused_in_turn<R: Threads + Wait + Sync>(
    rt: &R,
    heap: Global,
    row: &Row,
    work: Work,
    is_one: bool,
) -> Result<Result<u32, u64>, Fail> {
    let made = make(heap, row, work)?;
    let is_strict = row.workers == 1 && matches!(work, Work::Mine);
    let mut wanted = 0u32;
    for round in 0..MANY {
        let blocks = row.step.saturating_mul(round);
        match refused_after(rt, heap, row, &made, work, is_one, blocks)? {
            (Came::NoMemory, true) => wanted = wanted.saturating_add(1),
            (Came::AsEver, true) if is_one || !is_strict => {}
            (Came::AsEver, false) => return Ok(Ok(wanted)),
            _ => return Ok(Err(blocks)),
        }
    }
    Ok(Err(AMPLE))
}

/// Blocks that this work takes are refused in turn.
fn are_refused_in_turn<R: Threads + Wait + Sync + Abort>(
    rt: &R,
    heap: Global,
    row: &Row,
    work: Work,
) -> Result<(), Fail> {
    for is_one in [true, false] {
        let wanted = refused_in_turn(rt, heap, row, work, is_one)?;
        let is_right = matches!(wanted, Ok(times) if times >= row.least);
        holds(rt, &(row.name, (work, is_one), wanted), is_right);
    }
    Ok(())
}

/// Blocks that each work takes are refused in turn.
fn each_is_refused_in_turn<R: Threads + Wait + Sync + Abort>(
    rt: &R,
    heap: Global,
    row: &Row,
) -> Result<(), Fail> {
    for work in [Work::Mine, Work::Validate, Work::Reject] {
        are_refused_in_turn(rt, heap, row, work)?;
    }
    Ok(())
}

#[test]
fn each_block_is_refused_in_turn(rt: HostRuntime) -> Result<(), Fail> {
    for row in ROWS {
        each_is_refused_in_turn(&rt, rt.alloc(), row)?;
    }
    are_refused_in_turn(&rt, rt.alloc(), &MOVERS, Work::Mine)
}

#[test]
fn each_block_is_refused_in_turn_of_calls_that_ask(rt: HostRuntime) -> Result<(), Fail> {
    for row in ROWS_OF_LEVELS {
        each_is_refused_in_turn(&rt, rt.alloc(), row)?;
    }
    Ok(())
}

#[test]
fn blocks_are_refused_in_turn_of_a_list_that_several_threads_run(
    rt: HostRuntime,
) -> Result<(), Fail> {
    are_refused_in_turn(&rt, rt.alloc(), &LONG, Work::Mine)?;
    are_refused_in_turn(&rt, rt.alloc(), &LONG, Work::Validate)
}
