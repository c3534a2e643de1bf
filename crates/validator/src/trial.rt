//! A block that was read, and what it is judged by.

ghost use Rattle.validator.specs.Trials.{IsJudged, MayRun};

use block::Block;
use block_judge::{JudgeRefusal, judge_digests, judge_turns};
use call::Call;
use std::alloc::Allocator;
use world::World;

/// A block of calls over a world, with the fuel that it may have.
#[derive(Drop)]
pub(crate) struct Trial<'s, A: Allocator> {
    pub(crate) world: &'s World<A>,
    pub(crate) calls: &'s [Call],
    pub(crate) fuel: u64,
    pub(crate) block: &'s Block<A>,
    /// The numbers of its calls, by position.
    pub(crate) order: &'s [u32],
}

impl<A: Allocator + Copy> Trial<'_, A> {
    /// The first of the reasons 2 to 7 that holds of the block, whose order was judged, without running a call.
    pub(crate) fn judge(&self, alloc: A) -> Result<(), JudgeRefusal>
        requires { MayRun self.now }
        ensures { IsJudged self.now result }
    {
        judge_digests(alloc, self.world, self.calls, self.block)?;
        judge_turns(alloc, self.block)
    }
}
