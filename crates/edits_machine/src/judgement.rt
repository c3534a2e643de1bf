//! Judging a block.

ghost use Rattle.std.specs.Prelude.{◌≡◌, ◌≤◌, ◌<◌, All, IfErr, OnOk, length};
ghost use Rattle.spec_block.specs.Worlds.{order_of, profiles_of};
ghost use Rattle.spec_block.specs.Schedule.{HaveTurns};
ghost use Rattle.spec_block.specs.Verdicts.{HoldsOf};
ghost use Rattle.world.specs.Views.{world_view};
ghost use Rattle.block_judge.specs.Judging.{IfRejected, IsFirstFrom, NoneFrom};

use block::Block;
use block_judge::JudgeRefusal;
use call::Call;
use std::alloc::Allocator;
use world::World;

/// As [`block_judge::judge_block`].
pub fn judge_block<A: Allocator + Copy>(
    alloc: A,
    world: &World<A>,
    calls: &[Call],
    fuel: u64,
    block: &Block<A>,
    order: &[u32],
) -> Result<(), JudgeRefusal>
    requires calls { length calls.now ≤ 65535 }
    requires order { order.now ≡ order_of block.now }
    requires few { length (order_of block.now) ≤ 65535 }
    requires profiles { length (profiles_of block.now) ≤ 65535 }
    ensures rejected { IfErr result (λ unfit. IfRejected unfit (IsFirstFrom (HoldsOf (world_view world.now) calls.now fuel block.now) 1)) }
    ensures passed { OnOk result (NoneFrom (HoldsOf (world_view world.now) calls.now fuel block.now) 1 8) }
    ensures known { OnOk result (All (λ number. number < length calls.now) (order_of block.now)) }
    ensures turns { OnOk result (HaveTurns (profiles_of block.now)) }
{
    block_judge::judge_block(alloc, world, calls, fuel, block, order)
}
