//! How many calls a second are mined, or run one after another, without their block.

ghost use Rattle.std.specs.Prelude.{◌≤◌, length, vec_len};

use crate::inputs::{Inputs, read_inputs};
use crate::orders::all_numbers;
use crate::rates::a_second;
use crate::refusals::refused;
use call::Call;
use lock_profile::Touched;
use miner::mine_core;
use pace::NoPace;
use serial::serial_core;
use spec_ledger::{Receipt, Version};
use std::alloc::Global;
use std::io;
use std::sync::Wait;
use std::thread::Threads;
use std::time::{Clock, Instant};
use storage::Cells;
use world::{World, copy_contracts, digest_world};
use wtypes::NoMemory;

/// How often a worker tries a call.
const TRIES: u32 = 3;

/// How many shards the book of the workers has: as many as where a block is mined.
const SHARDS: u32 = 16;

/// What calls came to. It is dropped outside of the measure.
#[derive(Drop)]
struct Ran {
    /// The numbers of the calls that ran.
    order: Vec<u32>,
    receipts: Vec<Receipt>,
    touched: Vec<Touched>,
    /// The cells after them.
    cells: Cells,
    /// How many of them workers committed.
    by_workers: u32,
}

/// Runs the calls over a world: one after another where there are no workers.
fn run<R: Threads + Wait + Sync>(
    rt: &R,
    alloc: Global,
    world: &World,
    calls: &[Call],
    workers: u32,
) -> Result<Ran, NoMemory>
    requires calls { length calls.now ≤ 65535 }
    requires workers { workers ≤ 64 }
{
    let contracts = world.contracts();
    if workers == 0 {
        let order = all_numbers(alloc, calls.len() as u32)?;
        let core = serial_core(alloc, contracts, world.cells(), calls, &order, Version::Two)?;
        return Ok(Ran {
            order,
            receipts: core.receipts,
            touched: core.touched,
            cells: core.cells,
            by_workers: 0,
        });
    }
    let mined = mine_core(
        rt,
        alloc,
        contracts,
        world.cells(),
        calls,
        u64::MAX,
        workers,
        TRIES,
        &NoPace,
        SHARDS,
    )?;
    Ok(Ran {
        order: mined.order,
        receipts: mined.receipts,
        touched: mined.touched,
        cells: mined.cells,
        by_workers: mined.by_workers,
    })
}

/// The digest of the world after the cells became these, in hexadecimal digits.
fn digest_after(alloc: Global, world: &World, cells: Cells) -> io::Result<String> {
    let Ok(contracts) = copy_contracts(alloc, world.contracts()) else {
        return Err(refused());
    };
    let Ok(digest) = digest_world(alloc, &World::new(contracts, cells)) else {
        return Err(refused());
    };
    Ok(hex::encode(alloc, digest)?)
}

/// The line of the calls a second.
fn line_of<R: Threads + Wait + Clock + Sync>(
    rt: &R,
    alloc: Global,
    inputs: &Inputs,
    workers: u32,
) -> io::Result<String>
    requires { workers ≤ 64 }
{
    let world = &inputs.world;
    let start = Instant::now(rt)?;
    let Ok(ran) = run(rt, alloc, world, &inputs.calls, workers) else {
        return Err(refused());
    };
    let time = start.elapsed(rt)?;
    let Ran {
        order,
        receipts: _,
        touched: _,
        cells,
        by_workers,
    } = ran;
    let left = inputs.calls.len().saturating_sub(order.len());
    let rate = a_second(inputs.calls.len() as u64, time);
    let after = digest_after(alloc, world, cells)?;
    Ok(format!(in alloc;
        "workers {workers} by workers {by_workers} left {left} after {after} a second {rate}"
    )?)
}

/// The line of the calls that the words give.
pub fn measure<R: Threads + Wait + Clock + std::rt::Files + Sync>(
    rt: &R,
    alloc: Global,
    words: &[String],
) -> io::Result<Option<String>> {
    let [workers, world, calls] = words else {
        return Ok(None);
    };
    match workers.as_str().parse::<u32>() {
        Ok(workers) if workers <= 64 => {
            let inputs = read_inputs(rt, alloc, world.as_str(), calls.as_str())?;
            Ok(Some(line_of(rt, alloc, &inputs, workers)?))
        }
        _ => Ok(None),
    }
}
