//! Whether the order of a block may be published.

ghost use Rattle.std.specs.Prelude.{◌≡◌, ◌≤◌, ◌<◌, ◌^◌, ◌+◌, ℕ, All, IfErr, IfNone, IfOk, IfSome, OnOk, false, length, replicate};
ghost use Rattle.spec_ledger.specs.Order.{IsAdmissible, limits_of};
ghost use Rattle.spec_block.specs.Worlds.{limits, order_of};
ghost use Rattle.spec_block.specs.Verdicts.{HasRoom, IsBadNumber, IsLeast};
ghost use Rattle.block_judge.specs.Judging.{IfRejected, IsReasonOf};
ghost use Rattle.block_judge.specs.Marks.{AreMarked};

use crate::reason::{JudgeRefusal, Reason};
use block::Block;
use call::Call;
use std::alloc::Allocator;
use wtypes::NoMemory;

/// The numbers of a block's calls, by position.
///
/// # Errors
///
/// The allocator refused memory.
pub fn numbers_of<A: Allocator>(alloc: A, block: &Block<A>) -> Result<Vec<u32, A>, NoMemory>
    ensures { IfOk result (λ numbers. numbers.items ≡ order_of block.now) }
{
    let mut numbers = Vec::new(alloc);
    for position in block.positions() {
        numbers.push(position.call())?;
    }
    Ok(numbers)
}

/// Marks the calls of an order. Answers the least position whose number is not that of a call, or stood before.
fn mark<A: Allocator>(calls: &[Call], order: &[u32], marks: &mut Vec<bool, A>) -> Option<u32>
    requires few { length order.now < 2 ^ 32 }
    requires none { marks.old.items ≡ replicate (length calls.now) false }
    ensures bad { IfSome result (IsLeast (IsBadNumber calls.now order.now)) }
    ensures good { IfNone result ((position : ℕ) → ¬ (IsBadNumber calls.now order.now position)) }
    ensures marked { IfNone result (AreMarked order.now marks.new.items) }
    ensures size { length marks.new.items ≡ length calls.now }
{
    for (position, number) in order.iter().enumerate() {
        let call = *number as usize;
        if call >= marks.len() || marks[call] {
            return Some(position as u32);
        }
        marks[call] = true;
    }
    None
}

/// What remains of the fuel when the limits of the calls of an order are taken from it. None where they exceed it.
pub fn remaining(calls: &[Call], order: &[u32], fuel: u64) -> Option<u64>
    requires { All (λ number. number < length calls.now) order.now }
    ensures within { IfSome result (λ rest. rest + limits_of (limits calls.now) order.now ≡ fuel) }
    ensures over { IfNone result (fuel < limits_of (limits calls.now) order.now) }
{
    let mut rest = fuel;
    for number in order {
        rest = rest.checked_sub(calls[*number as usize].fuel())?;
    }
    Some(rest)
}

/// The least call that is not marked and whose limit is not above what remains.
fn least_with_room(
    calls: &[Call],
    order: &[u32],
    marks: &[bool],
    fuel: u64,
    rest: u64,
) -> Option<u32>
    requires few { length calls.now < 2 ^ 32 }
    requires size { length marks.now ≡ length calls.now }
    requires marked { AreMarked order.now marks.now }
    requires rest { rest + limits_of (limits calls.now) order.now ≡ fuel }
    ensures room { IfSome result (IsLeast (HasRoom calls.now fuel order.now)) }
    ensures none { IfNone result ((call : ℕ) → ¬ (HasRoom calls.now fuel order.now call)) }
{
    for (number, call) in calls.iter().enumerate() {
        if marks[number] {
            continue;
        }
        if call.fuel() <= rest {
            return Some(number as u32);
        }
    }
    None
}

/// Judges the order of a block of calls with this fuel: its numbers, then the sum of its limits, then the calls that are left out. Nothing is hashed, and no
/// call runs: who judges the order first knows that the calls of a block which passes stay within its fuel.
///
/// # Errors
///
/// The first of the reasons 4 to 6 that holds; or memory was refused.
pub fn judge_order<A: Allocator>(
    alloc: A,
    calls: &[Call],
    fuel: u64,
    order: &[u32],
) -> Result<(), JudgeRefusal>
    requires calls { length calls.now ≤ 65535 }
    requires order { length order.now ≤ 65535 }
    ensures rejected { IfErr result (λ unfit. IfRejected unfit (IsReasonOf calls.now order.now fuel)) }
    ensures passed { OnOk result (IsAdmissible (limits calls.now) order.now fuel) }
{
    let mut marks = vec![in alloc; false; calls.len()]?;
    if let Some(position) = mark(calls, order, &mut marks) {
        return Err(JudgeRefusal::Rejected(Reason::BadOrder(position)));
    }
    let Some(rest) = remaining(calls, order, fuel) else {
        return Err(JudgeRefusal::Rejected(Reason::OverBudget));
    };
    if let Some(call) = least_with_room(calls, order, &marks, fuel, rest) {
        return Err(JudgeRefusal::Rejected(Reason::RoomLeft(call)));
    }
    Ok(())
}
