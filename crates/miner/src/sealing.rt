//! The block of what was mined. Its digests and its positions are made at once, as far as there are workers for them.

ghost use Rattle.std.specs.Prelude.{◌≡◌, ◌<◌, ◌≤◌, ◌^◌, IfOk, length};
ghost use Rattle.sha2.specs.Sha256.{sha256};
ghost use Rattle.spec_block.specs.Blocks.{block_of, fuel_of, positions as positions_by, world_after};
ghost use Rattle.spec_block.specs.Bytes.{calls_bytes, world_bytes};
ghost use Rattle.serial.specs.Positions.{results_of};
ghost use Rattle.serial.specs.OrderOutcomes.{ArePossible};
ghost use Rattle.world.specs.Views.{world_view};

use block::{Block, Position, digest_calls};
use call::Call;
use lock_profile::Touched;
use serial::{Core, positions_of};
use spec_ledger::{Receipt, Version};
use std::alloc::Allocator;
use std::thread::{Threads, join};
use world::{World, copy_contracts, digest_world};
use wtypes::NoMemory;

/// SHA-256 of what a block is made of.
#[derive(Clone, Copy, Debug, PartialEq, Eq)]
struct Digests {
    /// That of the world before.
    before: [u8; 32],
    /// That of the calls.
    calls: [u8; 32],
}

fn digests_of<A: Allocator + Copy>(
    alloc: A,
    world: &World<A>,
    calls: &[Call],
) -> Result<Digests, NoMemory>
    requires { length calls.now ≤ 65535 }
    ensures before { IfOk result (λ digests. digests.before ≡ sha256 (world_bytes (world_view world.now))) }
    ensures calls { IfOk result (λ digests. digests.calls ≡ sha256 (calls_bytes calls.now)) }
{
    Ok(Digests {
        before: digest_world(alloc, world)?,
        calls: digest_calls(alloc, calls)?,
    })
}

/// What a block says of the run beside its fuel.
#[derive(Drop)]
struct BlockParts<A: Allocator> {
    positions: Vec<Position<A>, A>,
    /// SHA-256 of the world after.
    after: [u8; 32],
}

/// What a block says of a run, each of the two by a thread of its own where there are three workers or more.
fn block_parts_of<R: Threads + Sync, A: Allocator + Copy + Send + Sync>(
    rt: &R,
    alloc: &A,
    order: &[u32],
    receipts: &[Receipt],
    touched: &[Touched<A>],
    next: &World<A>,
    workers: u32,
) -> Result<BlockParts<A>, NoMemory>
    requires order { length order.now < 2 ^ 16 }
    requires receipts { length receipts.now ≡ length order.now }
    requires touched { length touched.now ≡ length order.now }
    requires possible { ArePossible receipts.now }
    ensures positions { IfOk result (λ told. told.positions.items ≡ positions_by order.now (results_of receipts.now touched.now)) }
    ensures after { IfOk result (λ told. told.after ≡ sha256 (world_bytes (world_view next.now))) }
{
    if workers < 3 {
        return Ok(BlockParts {
            positions: positions_of(*alloc, order, receipts, touched)?,
            after: digest_world(*alloc, next)?,
        });
    }
    let (after, positions) = join(
        rt,
        move || -> Result<[u8; 32], NoMemory>
            ensures { IfOk result (λ digest. digest ≡ sha256 (world_bytes (world_view next.entry.now))) }
        { digest_world(*alloc, next) },
        move || -> Result<Vec<Position<A>, A>, NoMemory>
            requires { (length order.now < 2 ^ 16) × (length receipts.now ≡ length order.now) × (length touched.now ≡ length order.now) × ArePossible receipts.now }
            ensures { IfOk result (λ made. made.items ≡ positions_by order.entry.now (results_of receipts.entry.now touched.entry.now)) }
        { positions_of(*alloc, order, receipts, touched) },
    );
    Ok(BlockParts {
        positions: positions?,
        after: after?,
    })
}

/// The digests of what was given, and what the block says of the run: the former by a thread of its own where there are two workers or more.
fn digests_and_parts<R: Threads + Sync, A: Allocator + Copy + Send + Sync>(
    rt: &R,
    alloc: &A,
    world: &World<A>,
    calls: &[Call],
    order: &[u32],
    receipts: &[Receipt],
    touched: &[Touched<A>],
    next: &World<A>,
    workers: u32,
) -> Result<(Digests, BlockParts<A>), NoMemory>
    requires calls { length calls.now ≤ 65535 }
    requires order { length order.now < 2 ^ 16 }
    requires receipts { length receipts.now ≡ length order.now }
    requires touched { length touched.now ≡ length order.now }
    requires possible { ArePossible receipts.now }
    ensures before { IfOk result (λ r. r.0.before ≡ sha256 (world_bytes (world_view world.now))) }
    ensures calls { IfOk result (λ r. r.0.calls ≡ sha256 (calls_bytes calls.now)) }
    ensures positions { IfOk result (λ r. r.1.positions.items ≡ positions_by order.now (results_of receipts.now touched.now)) }
    ensures after { IfOk result (λ r. r.1.after ≡ sha256 (world_bytes (world_view next.now))) }
{
    if workers < 2 {
        let digests = digests_of(*alloc, world, calls)?;
        let told = block_parts_of(rt, alloc, order, receipts, touched, next, workers)?;
        return Ok((digests, told));
    }
    let (digests, told) = join(
        rt,
        move || -> Result<Digests, NoMemory>
            requires { length calls.now ≤ 65535 }
            ensures { IfOk result (λ digests. (digests.before ≡ sha256 (world_bytes (world_view world.entry.now))) × (digests.calls ≡ sha256 (calls_bytes calls.entry.now))) }
        { digests_of(*alloc, world, calls) },
        move || -> Result<BlockParts<A>, NoMemory>
            requires { (length order.now < 2 ^ 16) × (length receipts.now ≡ length order.now) × (length touched.now ≡ length order.now) × ArePossible receipts.now }
            ensures { IfOk result (λ told. (told.positions.items ≡ positions_by order.entry.now (results_of receipts.entry.now touched.entry.now)) × (told.after ≡ sha256 (world_bytes (world_view next.entry.now)))) }
        { block_parts_of(rt, alloc, order, receipts, touched, next, workers) },
    );
    Ok((digests?, told?))
}

/// The block of this version of calls that ran in this order in a world, came to `core` and used so much fuel, and the world after them, as
/// [`serial_block::build_block`] makes them, by at most three threads, and at most so many as there are workers. The world after them keeps its digest.
pub(crate) fn build_block_by<R: Threads + Sync, A: Allocator + Copy + Send + Sync>(
    rt: &R,
    alloc: A,
    world: &World<A>,
    calls: &[Call],
    order: &[u32],
    core: Core<A>,
    fuel: u64,
    version: Version,
    workers: u32,
) -> Result<(Block<A>, World<A>), NoMemory>
    requires calls { length calls.now ≤ 65535 }
    requires order { length order.now ≤ Block.MOST_POSITIONS }
    requires receipts { length core.receipts.items ≡ length order.now }
    requires touched { length core.touched.items ≡ length order.now }
    requires possible { ArePossible core.receipts.items }
    requires fuel { fuel ≡ fuel_of (results_of core.receipts.items core.touched.items) }
    ensures block { IfOk result (λ r. r.0 ≡ block_of version (world_view world.now) calls.now order.now (results_of core.receipts.items core.touched.items) core.cells.cells) }
    ensures world { IfOk result (λ r. world_view r.1 ≡ world_after (world_view world.now) core.cells.cells) }
{
    let Core {
        receipts,
        touched,
        cells,
    } = core;
    let next = World::new(copy_contracts(alloc, world.contracts())?, cells);
    let (digests, told) = digests_and_parts(
        rt, &alloc, world, calls, order, &receipts, &touched, &next, workers,
    )?;
    match Block::new(
        version,
        digests.before,
        digests.calls,
        told.positions,
        fuel,
        told.after,
    ) {
        Some(block) => Ok((block, next.with_digest(told.after))),
        None => unreachable!(),
    }
}
