//! A handover of numbers that lie below a bound.

ghost use Rattle.std.specs.Prelude.{◌≡◌, ◌<◌, IfErr, IfOk, IfSome};
ghost use Rattle.lanes.specs.Passes.{IsPassOf};

use lanes::{ItemFact, QueuePass, TypedQueue};
use std::alloc::Allocator;
use wtypes::NoMemory;

/// That a number lies below the bound.
pub struct Below;

impl ItemFact<u64, u64> for Below {
    ghost use Rattle.std.specs.Prelude.{◌<◌};

    ghost holds = { λ bound number. number < bound };
}

/// As [`TypedQueue::open`].
pub fn open<A: Allocator + Clone>(
    alloc: A,
    capacity: usize,
    bound: u64,
) -> Result<(TypedQueue<u64, u64, Below, A>, QueuePass<u64, u64>), NoMemory>
    requires { 0 < capacity }
    ensures key { IfOk result (λ r. r.0.key ≡ bound) }
    ensures pass { IfOk result (λ r. IsPassOf r.0 r.1) }
{
    TypedQueue::open(alloc, capacity, bound)
}

/// As [`TypedQueue::give`].
pub fn give<A: Allocator>(
    handover: &TypedQueue<u64, u64, Below, A>,
    pass: &mut QueuePass<u64, u64>,
    number: u64,
) -> Result<(), u64>
    requires pass { IsPassOf handover.now pass.old }
    requires fact { number < handover.now.key }
    ensures same { IsPassOf handover.now pass.new }
    ensures back { IfErr result (λ back. back ≡ number) }
{
    handover.give(pass, number)
}

/// As [`TypedQueue::take`].
pub fn take<A: Allocator>(
    handover: &TypedQueue<u64, u64, Below, A>,
    pass: &mut QueuePass<u64, u64>,
) -> Option<u64>
    requires { IsPassOf handover.now pass.old }
    ensures same { IsPassOf handover.now pass.new }
    ensures fact { IfSome result (λ number. number < handover.now.key) }
{
    handover.take(pass)
}

/// As [`TypedQueue::another`], of the second of two handovers.
pub fn another<A: Allocator>(
    _first: &TypedQueue<u64, u64, Below, A>,
    second: &TypedQueue<u64, u64, Below, A>,
    _first_pass: &mut QueuePass<u64, u64>,
    pass: &mut QueuePass<u64, u64>,
) -> QueuePass<u64, u64>
    requires first { IsPassOf _first.now _first_pass.old }
    requires pass { IsPassOf second.now pass.old }
    ensures other { IsPassOf second.now result }
{
    second.another(pass)
}
