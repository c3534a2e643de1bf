//! The block of an order of calls, by serial execution (Dickerson, Gazzillo, Herlihy, Koskinen, "Adding Concurrency to Smart
//! Contracts", PODC 2017, section 4: what a miner publishes is a serial order with the lock profiles of its calls).

ghost use Rattle.std.specs.Prelude.{◌≡◌, ◌<◌, ◌≤◌, ◌^◌, IfOk, length};
ghost use Rattle.std.specs.List.{All};
ghost use Rattle.spec_ledger.specs.declared.Version.TheVariants.{Two};
ghost use Rattle.spec_ledger.specs.Order.{limits_of};
ghost use Rattle.spec_block.specs.Worlds.{limits};
ghost use Rattle.spec_block.specs.Blocks.{block_of, world_after};
ghost use Rattle.serial.specs.Positions.{results_of};
ghost use Rattle.world.specs.Views.{world_view};
ghost use Rattle.serial.specs.OrderOutcomes.{ArePossible, IsOutcomeOf, fuel_of_receipts};

use crate::positions::{fuel_of, positions_of};
use crate::{Core, serial_core};
use block::{Block, digest_calls};
use call::Call;
use spec_ledger::Version;
use std::alloc::Allocator;
use world::{World, digest_world};
use wtypes::NoMemory;

/// The block of this version of calls that ran in this order in a world and came to `core`, and the world after them: the
/// same contracts with the cells that the calls left. The block has SHA-256 of the world before, of the calls and of the world after; for
/// each position the call's number, its receipt and its locks with modes and turns; and the fuel that the calls used.
///
/// # Errors
///
/// Memory was refused, or a call touched 2^32 locks or more.
pub fn build_block<A: Allocator + Copy>(
    alloc: A,
    world: &World<A>,
    calls: &[Call],
    order: &[u32],
    core: Core<A>,
    version: Version,
) -> Result<(Block<A>, World<A>), NoMemory>
    requires calls { length calls.now ≤ 65535 }
    requires order { length order.now ≤ Block.MOST_POSITIONS }
    requires receipts { length core.receipts.items ≡ length order.now }
    requires touched { length core.touched.items ≡ length order.now }
    requires possible { ArePossible core.receipts.items }
    requires fuel { fuel_of_receipts core.receipts.items < 2 ^ 64 }
    ensures block { IfOk result (λ r. r.0 ≡ block_of version (world_view world.now) calls.now order.now (results_of core.receipts.items core.touched.items) core.cells.cells) }
    ensures world { IfOk result (λ r. world_view r.1 ≡ world_after (world_view world.now) core.cells.cells) }
{
    let positions = positions_of(alloc, order, &core.receipts, &core.touched)?;
    let fuel = fuel_of(&core.receipts);
    let before = digest_world(alloc, world)?;
    let calls_digest = digest_calls(alloc, calls)?;
    let next = world::world_after(alloc, world, core.cells)?;
    let after = digest_world(alloc, &next)?;
    match Block::new(version, before, calls_digest, positions, fuel, after) {
        Some(block) => Ok((block, next)),
        None => unreachable!(),
    }
}

/// Runs the calls of these numbers in a world by the rules of this version, one after another, and gives the block of this
/// order and the world after it. The world is as it was. A call whose number comes again is run again.
///
/// # Errors
///
/// Memory was refused, or a call touched 2^32 locks or more.
pub fn run_as<A: Allocator + Copy>(
    alloc: A,
    world: &World<A>,
    calls: &[Call],
    order: &[u32],
    version: Version,
) -> Result<(Block<A>, World<A>), NoMemory>
    requires calls { length calls.now ≤ 65535 }
    requires order { length order.now ≤ Block.MOST_POSITIONS }
    requires known { All (λ number. number < length calls.now) order.now }
    requires limits { limits_of (limits calls.now) order.now < 2 ^ 64 }
    ensures of_order { IfOk result (λ r. IsOutcomeOf (world_view world.now) calls.now order.now r.0 (world_view r.1)) }
    ensures version { IfOk result (λ r. r.0.version ≡ version) }
{
    let core = serial_core(
        alloc,
        world.contracts(),
        world.cells(),
        calls,
        order,
        version,
    )?;
    Ok(build_block(alloc, world, calls, order, core, version)?)
}

/// As [`run_as`], by the rules of version 2.
///
/// # Errors
///
/// Memory was refused, or a call touched 2^32 locks or more.
pub fn run<A: Allocator + Copy>(
    alloc: A,
    world: &World<A>,
    calls: &[Call],
    order: &[u32],
) -> Result<(Block<A>, World<A>), NoMemory>
    requires calls { length calls.now ≤ 65535 }
    requires order { length order.now ≤ Block.MOST_POSITIONS }
    requires known { All (λ number. number < length calls.now) order.now }
    requires limits { limits_of (limits calls.now) order.now < 2 ^ 64 }
    ensures of_order { IfOk result (λ r. IsOutcomeOf (world_view world.now) calls.now order.now r.0 (world_view r.1)) }
    ensures version { IfOk result (λ r. r.0.version ≡ Two) }
{
    run_as(alloc, world, calls, order, Version::Two)
}
