//! Mining of blocks: threads run the calls of a list at once, and what they come to is published as the block of an order that anyone
//! can run again, one call after another (Dickerson, Gazzillo, Herlihy, Koskinen, "Adding Concurrency to Smart Contracts", PODC
//! 2017, section 4: the miner). Who lists the calls orders the block.
#![tactic(auto)]

mod alone;
mod list_order;
mod mined_core;
mod outcome;
mod rest;
mod sealing;

ghost use Rattle.std.specs.Prelude.{◌≡◌, ◌≤◌, false, IfOk, length};
ghost use Rattle.spec_ledger.specs.declared.Version.TheVariants.{Two};
ghost use Rattle.spec_ledger.specs.Order.{first_fit};
ghost use Rattle.spec_block.specs.Worlds.{limits, order_of};
ghost use Rattle.spec_block.specs.Headline.{Headline, IsLeft};
ghost use Rattle.world.specs.Views.{world_view};

pub use crate::alone::mine_alone;
pub use crate::mined_core::{MinedCore, mine_core};
use crate::sealing::build_block_by;
use block::Block;
use call::Call;
use pace::{Pace, digesters};
use serial::Core;
use spec_ledger::Version;
use std::alloc::{Allocator, Global};
use std::sync::Wait;
use std::thread::Threads;
use world::World;
use wtypes::NoMemory;

/// How many shards the book of the workers has.
const SHARDS: u32 = 16;

/// What was mined.
#[derive(Drop)]
pub struct Mined<A: Allocator = Global> {
    /// The block of the published order.
    pub block: Block<A>,
    /// The world after the block: the same contracts with the cells that the calls left.
    pub world: World<A>,
    /// The numbers of the calls outside the order, rising.
    pub left: Vec<u32, A>,
    /// How many calls of the order came of threads at once: those that workers committed in the book, or those that were done by what they had found and left when they ran ahead of their turn.
    /// The caller ran the others, each in its turn.
    pub by_workers: u32,
}

/// Mines a block of version 2, of calls in a world, with this many workers at once, of which the calling thread is one. The limits of the
/// calls that are published add up to at most the block's fuel, and no call is left out that had room. The world is as it was.
///
/// The order of the block is the list's: each call has its turn as it stands there, and joins where its limit is within the fuel that is left. So a world, a list and a block's fuel have one block, whoever
/// mines it, with however many workers. These run the calls ahead of their turn, and the calling thread does them in that order (`in_order`); it runs a call again that found other cells than there are
/// in its turn. Where few calls remain, or short ones, fewer threads are started, or none. The pace is told the beginning of each call, and may stop a worker there.
///
/// Under a pace that watches, the workers run the calls over one book, as the paper has it, and the order is that in which they commit them. A worker tries a call at most so often; the calls that it tried
/// in vain run alone when the workers have ended. The pace is told each step of the workers, and may stop a worker at any of them: its call, and the calls that nobody drew, then run alone as well.
///
/// Whatever the workers do at once, the block and the world after it are those of its calls run one after another in its order.
///
/// # Errors
///
/// Memory was refused to the caller or to a worker, or a call touched 2^32 locks or more.
pub fn mine<R: Threads + Wait + Sync, P: Pace>(
    rt: &R,
    alloc: Global,
    world: &World,
    calls: &[Call],
    block_fuel: u64,
    workers: u32,
    tries: u32,
    pace: &P,
) -> Result<Mined, NoMemory>
    requires calls { length calls.now ≤ 65535 }
    requires workers { (1 ≤ workers) × (workers ≤ 64) }
    requires tries { (1 ≤ tries) × (tries ≤ 16) }
    ensures headline { IfOk result (λ mined. Headline (world_view world.now) calls.now block_fuel mined.block (world_view mined.world)) }
    ensures order { IfOk result (λ mined. P.watching pace.now ≡ false → order_of mined.block ≡ first_fit (limits calls.now) block_fuel) }
    ensures version { IfOk result (λ mined. mined.block.version ≡ Two) }
    ensures left { IfOk result (λ mined. IsLeft calls.now (order_of mined.block) mined.left.items) }
    ensures by_workers { IfOk result (λ mined. mined.by_workers ≤ length mined.block.positions) }
{
    mine_in(rt, alloc, world, calls, block_fuel, workers, tries, pace)
}

/// As [`mine`], with all memory from this allocator. Out of memory of one worker is that of the whole call.
///
/// # Errors
///
/// Memory was refused to the caller or to a worker, or a call touched 2^32 locks or more.
pub fn mine_in<R: Threads + Wait + Sync, A: Allocator + Copy + Send + Sync, P: Pace>(
    rt: &R,
    alloc: A,
    world: &World<A>,
    calls: &[Call],
    block_fuel: u64,
    workers: u32,
    tries: u32,
    pace: &P,
) -> Result<Mined<A>, NoMemory>
    requires calls { length calls.now ≤ 65535 }
    requires workers { (1 ≤ workers) × (workers ≤ 64) }
    requires tries { (1 ≤ tries) × (tries ≤ 16) }
    ensures headline { IfOk result (λ mined. Headline (world_view world.now) calls.now block_fuel mined.block (world_view mined.world)) }
    ensures order { IfOk result (λ mined. P.watching pace.now ≡ false → order_of mined.block ≡ first_fit (limits calls.now) block_fuel) }
    ensures version { IfOk result (λ mined. mined.block.version ≡ Two) }
    ensures left { IfOk result (λ mined. IsLeft calls.now (order_of mined.block) mined.left.items) }
    ensures by_workers { IfOk result (λ mined. mined.by_workers ≤ length mined.block.positions) }
{
    let MinedCore {
        order,
        receipts,
        touched,
        cells,
        fuel,
        left,
        by_workers,
    } = mine_core(
        rt,
        alloc,
        world.contracts(),
        world.cells(),
        calls,
        block_fuel,
        workers,
        tries,
        pace,
        SHARDS,
    )?;
    let threads = digesters(workers, world.cells(), order.len());
    let core = Core {
        receipts,
        touched,
        cells,
    };
    let (block, world) = build_block_by(
        rt,
        alloc,
        world,
        calls,
        &order,
        core,
        fuel,
        Version::Two,
        threads,
    )?;
    Ok(Mined {
        block,
        world,
        left,
        by_workers,
    })
}
