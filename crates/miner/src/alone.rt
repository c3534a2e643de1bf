//! Mining by the calling thread alone, which takes no runtime: it runs the calls of the list's order one after another.

ghost use Rattle.std.specs.Prelude.{◌≡◌, ◌≤◌, IfOk, length};
ghost use Rattle.spec_ledger.specs.declared.Version.TheVariants.{Two};
ghost use Rattle.spec_ledger.specs.Order.{first_fit};
ghost use Rattle.spec_block.specs.Worlds.{limits, order_of};
ghost use Rattle.spec_block.specs.Headline.{Headline, IsLeft};
ghost use Rattle.world.specs.Views.{world_view};

use crate::Mined;
use crate::list_order::{self, FirstFit};
use call::Call;
use serial::{build_block, serial_core};
use spec_ledger::Version;
use spec_ledger::laws::first_fit_is_admissible;
use std::alloc::Allocator;
use world::World;
use wtypes::NoMemory;

/// Mines the block of [`crate::mine_in`] under a pace that does not watch, by the calling thread alone: it takes no runtime and tells no pace.
///
/// # Errors
///
/// Memory was refused, or a call touched 2^32 locks or more.
pub fn mine_alone<A: Allocator + Copy>(
    alloc: A,
    world: &World<A>,
    calls: &[Call],
    block_fuel: u64,
) -> Result<Mined<A>, NoMemory>
    requires { length calls.now ≤ 65535 }
    ensures headline { IfOk result (λ mined. Headline (world_view world.now) calls.now block_fuel mined.block (world_view mined.world)) }
    ensures order { IfOk result (λ mined. order_of mined.block ≡ first_fit (limits calls.now) block_fuel) }
    ensures version { IfOk result (λ mined. mined.block.version ≡ Two) }
    ensures left { IfOk result (λ mined. IsLeft calls.now (order_of mined.block) mined.left.items) }
{
    first_fit_is_admissible();
    let FirstFit { order, left } = list_order::first_fit(alloc, calls, block_fuel)?;
    let core = serial_core(
        alloc,
        world.contracts(),
        world.cells(),
        calls,
        &order,
        Version::Two,
    )?;
    let (block, world) = build_block(alloc, world, calls, &order, core, Version::Two)?;
    Ok(Mined {
        block,
        world,
        left,
        by_workers: 0,
    })
}
