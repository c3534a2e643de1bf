//! Verdicts.

ghost use Rattle.std.specs.Prelude.{IfOk};
ghost use Rattle.validator.specs.VerdictsFound.{IsToldBy, verdict_view};

use block_judge::{JudgeRefusal, Reason};
use std::alloc::{Allocator, Global};
use world::World;
use wtypes::NoMemory;

/// What a validator says of a block.
#[derive(Drop)]
pub enum Verdict<A: Allocator = Global> {
    /// The block is accepted, and leaves this world.
    Accept(World<A>),
    /// It is rejected for this reason, the first that holds.
    Reject(Reason),
}

/// What was found of a block.
#[derive(Drop)]
pub struct Validated<A: Allocator = Global> {
    /// The verdict on it.
    pub verdict: Verdict<A>,
    /// How many positions the caller ran in their turn, since nobody had run them before, or since what they did then was not what they do in their turn.
    pub again: u32,
}

/// The verdict on a block of which this was found, without running a call.
pub(crate) fn verdict_on<A: Allocator>(unfit: JudgeRefusal) -> Result<Validated<A>, NoMemory>
    ensures { IfOk result (λ found. IsToldBy unfit (verdict_view found.verdict)) }
{
    match unfit {
        JudgeRefusal::Rejected(reason) => Ok(Validated {
            verdict: Verdict::Reject(reason),
            again: 0,
        }),
        JudgeRefusal::NoMemory => Err(NoMemory),
    }
}
