//! What a block says of the calls of an order.

ghost use Rattle.std.specs.Prelude.{◌≡◌, ◌≤◌, ◌<◌, ◌^◌, IfOk, length};
ghost use Rattle.spec_block.specs.Blocks.{positions};
ghost use Rattle.serial.specs.Positions.{results_of};
ghost use Rattle.spec_block.specs.Bytes.{IsOutcome};
ghost use Rattle.serial.specs.OrderOutcomes.{ArePossible, IsPossible, fuel_of_receipts};

use block::Position;
use lock_profile::{Profile, Touched, turns};
use spec_ledger::{Outcome, Receipt};
use std::alloc::Allocator;
use wtypes::{NoMemory, Value};

/// A possible outcome has a spelling: by its type, a value is in its range.
fn note_spelling(outcome: Outcome)
    requires { IsPossible outcome }
    ensures { IsOutcome outcome }
{
    match outcome {
        Outcome::Returned(Some(Value::I32(_x))) => {}
        Outcome::Returned(Some(Value::I64(_x))) => {}
        Outcome::Returned(None) => {}
        Outcome::Trapped(_) | Outcome::OutOfFuel | Outcome::Rejected(_) => {}
    }
}

/// The position of a call.
///
/// # Errors
///
/// The profile has 2^32 entries or more.
fn position_of<A: Allocator>(
    call: u32,
    receipt: Receipt,
    profile: Profile<A>,
) -> Result<Position<A>, NoMemory>
    requires { IsPossible receipt.outcome }
    ensures { IfOk result (λ p. p ≡ record { call = call; receipt = receipt; profile = profile }) }
{
    if profile.entries().len() > u32::MAX as usize {
        return Err(NoMemory);
    }
    note_spelling(receipt.outcome);
    match Position::new(call, receipt, profile) {
        Some(position) => Ok(position),
        None => unreachable!(),
    }
}

/// The positions of a block whose calls, in this order, came to these receipts and touched these locks: each has the call's
/// number, the receipt, and the locks with their modes and turns.
///
/// # Errors
///
/// Memory was refused, or a call touched 2^32 locks or more.
pub fn positions_of<A: Allocator + Copy>(
    alloc: A,
    order: &[u32],
    receipts: &[Receipt],
    touched: &[Touched<A>],
) -> Result<Vec<Position<A>, A>, NoMemory>
    requires few { length order.now < 2 ^ 16 }
    requires receipts { length receipts.now ≡ length order.now }
    requires touched { length touched.now ≡ length order.now }
    requires possible { ArePossible receipts.now }
    ensures { IfOk result (λ made. made.items ≡ positions order.now (results_of receipts.now touched.now)) }
{
    let profiles = turns(alloc, touched)?;
    let mut made = Vec::new(alloc);
    for profile in profiles {
        let place = made.len();
        let position = position_of(order[place], receipts[place], profile)?;
        made.push(position)?;
    }
    Ok(made)
}

/// The fuel that calls with these receipts used.
pub(crate) fn fuel_of(receipts: &[Receipt]) -> u64
    requires { fuel_of_receipts receipts.now < 2 ^ 64 }
    ensures { result ≡ fuel_of_receipts receipts.now }
{
    let mut fuel: u64 = 0;
    for receipt in receipts {
        fuel += receipt.used;
    }
    fuel
}
