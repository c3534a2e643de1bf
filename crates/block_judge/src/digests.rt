//! Whether a block is of the world and of the calls.

ghost use Rattle.std.specs.Prelude.{◌≡◌, ◌≤◌, ◌↔◌, ℕ, IfErr, OnOk, IsTrue, length};
ghost use Rattle.spec_block.specs.Verdicts.{HoldsOf};
ghost use Rattle.world.specs.Views.{world_view};
ghost use Rattle.block_judge.specs.Judging.{IfRejected, IsFirstFrom, NoneFrom};

use crate::reason::{JudgeRefusal, Reason};
use block::{Block, digest_calls};
use call::Call;
use std::alloc::Allocator;
use world::{World, digest_world};

fn is_same(a: &[u8; 32], b: &[u8; 32]) -> bool
    ensures { IsTrue result ↔ (a.now ≡ b.now) }
{
    a == b
}

/// Judges the digests of the world before and of the calls.
///
/// # Errors
///
/// The first of the reasons 2 and 3 that holds; or memory was refused.
pub fn judge_digests<A: Allocator + Copy>(
    alloc: A,
    world: &World<A>,
    calls: &[Call],
    block: &Block<A>,
) -> Result<(), JudgeRefusal>
    requires { length calls.now ≤ 65535 }
    ensures rejected { (fuel : ℕ) → IfErr result (λ unfit. IfRejected unfit (IsFirstFrom (HoldsOf (world_view world.now) calls.now fuel block.now) 1)) }
    ensures passed { OnOk result ((fuel : ℕ) → NoneFrom (HoldsOf (world_view world.now) calls.now fuel block.now) 1 4) }
{
    let before = digest_world(alloc, world)?;
    if !is_same(block.before(), &before) {
        return Err(JudgeRefusal::Rejected(Reason::WrongWorld));
    }
    let digest = digest_calls(alloc, calls)?;
    if !is_same(block.calls(), &digest) {
        return Err(JudgeRefusal::Rejected(Reason::WrongCalls));
    }
    Ok(())
}
