//! Cells and worlds, read.

ghost use Rattle.std.specs.Prelude.{◌≡◌, IfOk, IfErr, ◌⊎◌};
ghost use Rattle.spec_block.specs.Bytes.{SpellsWorld};
ghost use Rattle.world.specs.Views.{world_view};
ghost use Rattle.world.specs.Reading.{IsNoWorld, Refuses};

use std::alloc::Global;
use world::{ReadRefusal, World};

/// As [`world_reader::read_world`].
pub fn read_world(alloc: Global, bytes: &[u8]) -> Result<World, ReadRefusal>
    ensures spelled { IfOk result (λ w. SpellsWorld bytes.now (world_view w)) }
    ensures none { IfErr result (λ refusal. (refusal ≡ ReadRefusal.NoMemory) ⊎ IsNoWorld bytes.now) }
    ensures first { IfErr result (Refuses bytes.now) }
{
    world::read_world(alloc, bytes)
}
