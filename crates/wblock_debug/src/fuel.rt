//! The fuel with which a block is judged.

ghost use Rattle.std.specs.Prelude.{◌≡◌, ◌-◌, ◌^◌, IfOk, map, min, slice_index};
ghost use Rattle.spec_ledger.specs.Order.{limits_of};
ghost use Rattle.spec_block.specs.Worlds.{Block as TheBlock, Position as ThePosition, limits};
ghost use Rattle.spec_block.specs.Bytes.{SpellsBlock};
ghost use Rattle.block_judge.specs.Meeting.{least_fuel, IsFuelFor};

use block::{BlockRefusal, Position, read_block};
use call::Call;
use std::alloc::Allocator;
use wtypes::NoMemory;

/// The limit of the call of this number; 0 where there is none.
fn limit_of(calls: &[Call], number: u32) -> u64
    ensures { result ≡ slice_index (limits calls.now) number }
{
    match calls.get(number as usize) {
        Some(call) => call.fuel(),
        None => 0,
    }
}

/// The limits of the calls of these positions, added up, as far as 64 bits tell it.
pub(crate) fn limits_in<A: Allocator>(calls: &[Call], positions: &[Position<A>]) -> u64
    ensures { result ≡ min (limits_of (limits calls.now) (map (λ (p : ThePosition). p.call) positions.now)) (2 ^ 64 - 1) }
{
    let mut fuel: u64 = 0;
    for position in positions {
        fuel = fuel.saturating_add(limit_of(calls, position.call()));
    }
    fuel
}

/// The least fuel of the block that the bytes spell; 0 where they spell none.
fn least_fuel_in<A: Allocator + Copy>(
    alloc: A,
    calls: &[Call],
    bytes: &[u8],
) -> Result<u64, NoMemory>
    ensures { IfOk result (λ fuel. (b : TheBlock) → SpellsBlock bytes.now b → fuel ≡ least_fuel calls.now b) }
{
    spec_block::one_block_a_spelling();
    match read_block(alloc, bytes) {
        Ok(block) => Ok(limits_in(calls, block.positions())),
        Err(BlockRefusal::NoMemory) => Err(NoMemory),
        Err(BlockRefusal::Malformed(_) | BlockRefusal::TooLarge) => Ok(0),
    }
}

/// The fuel with which the block that the bytes spell is judged: the one that is given, else the least.
pub(crate) fn fuel_for<A: Allocator + Copy>(
    alloc: A,
    calls: &[Call],
    given: Option<u64>,
    bytes: &[u8],
) -> Result<u64, NoMemory>
    ensures { IfOk result (IsFuelFor calls.now given bytes.now) }
{
    match given {
        Some(fuel) => Ok(fuel),
        None => least_fuel_in(alloc, calls, bytes),
    }
}
