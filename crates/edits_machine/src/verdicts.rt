//! Verdicts.

ghost use Rattle.std.specs.Prelude.{◌≤◌, IfOk, length};
ghost use Rattle.spec_block.specs.Verdicts.{IsVerdictOf};
ghost use Rattle.world.specs.Views.{world_view};
ghost use Rattle.validator.specs.VerdictsFound.{verdict_view};

use call::Call;
use pace::Pace;
use std::alloc::Allocator;
use std::sync::Wait;
use std::thread::Threads;
use validator::Verdict;
use world::World;
use wtypes::NoMemory;

/// As [`validator::validate_in`].
pub fn validate_in<R: Threads + Wait + Sync, A: Allocator + Copy + Send + Sync, P: Pace>(
    rt: &R,
    alloc: A,
    world: &World<A>,
    calls: &[Call],
    block_fuel: u64,
    bytes: &[u8],
    workers: u32,
    pace: &P,
) -> Result<Verdict<A>, NoMemory>
    requires calls { length calls.now ≤ 65535 }
    requires workers { (1 ≤ workers) × (workers ≤ 64) }
    ensures verdict { IfOk result (λ verdict. IsVerdictOf (world_view world.now) calls.now block_fuel bytes.now (verdict_view verdict)) }
{
    validator::validate_in(rt, alloc, world, calls, block_fuel, bytes, workers, pace)
}
