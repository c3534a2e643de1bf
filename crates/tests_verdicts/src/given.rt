// Worlds and calls from rows, the blocks that they come to one after another, and what workers make of them.
use block::{Block, write_block};
use block_judge::{Reason, remaining};
use byte_sinks::{Failures, MemorySink};
use call::Call;
use miner::{Mined, mine};
use pace::Pace;
use serial::run_as;
use spec_ledger::{Kind, Lock, Version};
use std::alloc::{AllocError, Allocator, Global};
use std::sync::Wait;
use std::test::Fail;
use std::thread::Threads;
use storage::Cells;
use test_support::deployed;
use validator::{Verdict, find_verdict};
use wblock_calls::read_calls;
use world::{World, digest_world};

/// A cell: its contract, its kind, its key and its number.
pub(crate) type CellRow = (u32, Kind, u64, u64);

/// The calls of a row.
#[derive(Clone, Copy)]
pub(crate) enum Calls {
    /// The lines of a file of calls.
    These(&'static str),
    /// So many calls of `run`, at so many keys in turn.
    Runs(u32, u32),
    /// So many writers of one cell, one after another.
    Chain(u32),
    /// So many readers of one counter, and then as many that add 1 to it.
    LooksAndBumps(u32),
    /// So many calls of `spin`, of 3,000 rounds each, at so many cells in turn.
    Spins(u32, u32),
    /// So many calls that do nothing.
    Idles(u32),
    /// So many calls of `vote`, of 300 rounds each, at a cell each.
    Votes(u32),
}

/// A world, calls in it, and the fuel of their block.
#[derive(Drop)]
pub(crate) struct Given {
    pub(crate) world: World,
    pub(crate) calls: Vec<Call>,
    pub(crate) fuel: u64,
}

/// A cell of a contract.
fn cell(contract: u32, kind: Kind, key: u64) -> Lock {
    Lock {
        contract,
        kind,
        key,
    }
}

/// These cells.
fn cells_of<A: Allocator + Copy>(alloc: A, rows: &[CellRow]) -> Result<Cells<A>, Fail> {
    let mut cells = Cells::new(alloc);
    for (contract, kind, key, number) in rows {
        if *number == 0 {
            return Err(Fail::from("a cell of 0"));
        }
        cells.insert(cell(*contract, *kind, *key), *number)?;
    }
    Ok(cells)
}

/// Whether these are the cells, and no others.
pub(crate) fn are_cells<A: Allocator + Copy>(cells: &Cells<A>, rows: &[CellRow]) -> bool {
    cells.entries().count() == rows.len()
        && rows.iter().all(|(contract, kind, key, number)| {
            cells.get(cell(*contract, *kind, *key)) == Some(*number)
        })
}

/// The world of the contracts of these modules and of these cells.
pub(crate) fn world_of<A: Allocator + Copy>(
    alloc: A,
    modules: &[&[u8]],
    rows: &[CellRow],
) -> Result<World<A>, Fail> {
    let mut contracts = Vec::new(alloc);
    for module in modules {
        contracts.push(deployed(alloc, *module)?)?;
    }
    if contracts.len() > 3 {
        return Err(Fail::from("too many contracts"));
    }
    Ok(World::new(contracts, cells_of(alloc, rows)?))
}

/// The lines of these calls.
fn text_of(alloc: Global, calls: Calls) -> Result<String, AllocError> {
    let mut text = String::new(alloc);
    match calls {
        Calls::These(lines) => text.push_str(lines)?,
        Calls::Runs(count, keys) => {
            for number in 0..count {
                let key = number.checked_rem(keys).unwrap_or(0);
                writeln!(text, "0 7 run i64:{key}")?;
            }
        }
        Calls::Chain(count) => {
            for number in 0..count {
                writeln!(text, "0 100 set i64:1 i64:{number}")?;
            }
        }
        Calls::Spins(count, keys) => {
            for number in 0..count {
                let key = number.checked_rem(keys).unwrap_or(0);
                writeln!(text, "0 30000 spin i64:{key} i64:3000")?;
            }
        }
        Calls::Idles(count) => {
            for number in 0..count {
                writeln!(text, "0 10000 idle i64:{number} i64:1")?;
            }
        }
        Calls::Votes(count) => {
            for number in 0..count {
                writeln!(text, "0 10000 vote i64:{number} i64:300")?;
            }
        }
        Calls::LooksAndBumps(count) => {
            for _ in 0..count {
                writeln!(text, "0 100 look i64:1")?;
            }
            for _ in 0..count {
                writeln!(text, "0 100 bump i64:1 i64:1")?;
            }
        }
    }
    Ok(text)
}

/// A world of the contracts of these modules and of these cells, these calls, and the fuel of their block.
pub(crate) fn give(
    alloc: Global,
    modules: &[&[u8]],
    cells: &[CellRow],
    calls: Calls,
    fuel: u64,
) -> Result<Given, Fail> {
    let text = text_of(alloc, calls)?;
    let Ok(calls) = read_calls(alloc, text.as_bytes()) else {
        return Err(Fail::from("no calls"));
    };
    let world = world_of(alloc, modules, cells)?;
    Ok(Given { world, calls, fuel })
}

/// The order of a list: each call that has room when its turn comes.
pub(crate) fn first_fit(alloc: Global, given: &Given) -> Result<Vec<u32>, AllocError> {
    let mut order = Vec::new(alloc);
    let mut rest = given.fuel;
    let mut number: u32 = 0;
    for call in &given.calls {
        if let Some(less) = rest.checked_sub(call.fuel()) {
            rest = less;
            order.push(number)?;
        }
        number = number.wrapping_add(1);
    }
    Ok(order)
}

/// The numbers of the calls of a block, by position.
pub(crate) fn order_of<A: Allocator>(alloc: Global, block: &Block<A>) -> Result<Vec<u32>, Fail> {
    let mut order = Vec::new(alloc);
    for position in block.positions() {
        order.push(position.call())?;
    }
    Ok(order)
}

/// The bytes of a block.
pub(crate) fn written<A: Allocator>(
    heap: Global,
    alloc: A,
    block: &Block<A>,
) -> Result<Vec<u8>, Fail> {
    if !block.fits_version() {
        return Err(Fail::from("a receipt that is not told"));
    }
    let mut sink = MemorySink::new(heap, 10_000_000, Failures::none());
    write_block(alloc, block, &mut sink).or(Err("not written"))?;
    Ok(sink.into_bytes())
}

/// The bytes of the block of an order, whose calls run one after another.
pub(crate) fn block_of(
    alloc: Global,
    given: &Given,
    order: &[u32],
    version: Version,
) -> Result<Vec<u8>, Fail> {
    let calls = given.calls.as_slice();
    let known = order.iter().all(|number| (*number as usize) < calls.len());
    if !known || calls.len() > 65_535 || order.len() > calls.len() {
        return Err(Fail::from("outside the conditions"));
    }
    let Some(_) = remaining(calls, order, u64::MAX) else {
        return Err(Fail::from("the limits are too large"));
    };
    let Ok((block, _)) = run_as(alloc, &given.world, calls, order, version) else {
        return Err(Fail::from("not run"));
    };
    written(alloc, alloc, &block)
}

/// What so many workers at this pace mine, each of whom tries a call so often.
pub(crate) fn mined<R: Threads + Wait + Sync, P: Pace>(
    rt: &R,
    alloc: Global,
    given: &Given,
    workers: u32,
    tries: u32,
    pace: &P,
) -> Result<Mined, Fail> {
    let calls = given.calls.as_slice();
    let fuel = given.fuel;
    if calls.len() > 65_535 || workers < 1 || workers > 64 || tries < 1 || tries > 16 {
        return Err(Fail::from("outside the conditions"));
    }
    match mine(rt, alloc, &given.world, calls, fuel, workers, tries, pace) {
        Ok(mined) => Ok(mined),
        Err(_) => Err(Fail::from("not mined")),
    }
}

/// Whether the bytes of a block end with the digest of a world.
fn ends_with(alloc: Global, bytes: &[u8], world: &World) -> Result<bool, Fail> {
    let digest = digest_world(alloc, world).or(Err("a digest"))?;
    Ok(bytes.ends_with(&digest))
}

/// How many positions of an accepted block the calling thread ran again, or why a block is rejected.
pub(crate) type Judged = Result<u32, Reason>;

/// What so many workers at this pace say of the bytes of a block. An accepted one ends with the digest of the world after it.
pub(crate) fn judged<R: Threads + Wait + Sync, P: Pace>(
    rt: &R,
    alloc: Global,
    given: &Given,
    bytes: &[u8],
    workers: u32,
    pace: &P,
) -> Result<Judged, Fail> {
    let calls = given.calls.as_slice();
    if calls.len() > 65_535 || workers < 1 {
        return Err(Fail::from("outside the conditions"));
    }
    let fuel = given.fuel;
    let Ok(found) = find_verdict(rt, alloc, &given.world, calls, fuel, bytes, workers, pace) else {
        return Err(Fail::from("not validated"));
    };
    let next = match &found.verdict {
        Verdict::Reject(reason) => return Ok(Err(*reason)),
        Verdict::Accept(next) => next,
    };
    if ends_with(alloc, bytes, next)? {
        Ok(Ok(found.again))
    } else {
        Err(Fail::from("another world"))
    }
}
