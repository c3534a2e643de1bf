//! The contracts of a world once more, and over other cells.

ghost use Rattle.std.specs.Prelude.{◌≡◌, IfOk, map};
ghost use Rattle.spec_block.specs.Blocks.{world_after};
ghost use Rattle.world.specs.Views.{contract_view, world_view};

use crate::value::World;
use link::deployed::Deployed;
use std::alloc::Allocator;
use storage::Cells;
use wtypes::NoMemory;

/// The same contracts once more.
///
/// # Errors
///
/// Memory was refused.
pub fn copy_contracts<A: Allocator + Copy>(
    alloc: A,
    contracts: &[Deployed<A>],
) -> Result<Vec<Deployed<A>, A>, NoMemory>
    ensures { IfOk result (λ copies. map contract_view copies.items ≡ map contract_view contracts.now) }
{
    let mut copies = Vec::new(alloc);
    for contract in contracts {
        copies.push(contract.copy_in(alloc)?)?;
    }
    Ok(copies)
}

/// The same contracts over other cells.
///
/// # Errors
///
/// Memory was refused.
pub fn world_after<A: Allocator + Copy>(
    alloc: A,
    world: &World<A>,
    cells: Cells<A>,
) -> Result<World<A>, NoMemory>
    ensures { IfOk result (λ next. world_view next ≡ world_after (world_view world.now) cells.cells) }
{
    Ok(World::new(copy_contracts(alloc, world.contracts())?, cells))
}
