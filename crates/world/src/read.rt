//! Reading a world.

ghost use Rattle.std.specs.Prelude.{◌≡◌, ◌≤◌, ◌⊎◌, IfOk, IfErr, map, vec_len};
ghost use Rattle.spec_block.specs.Bytes.{SpellsWorld};
ghost use Rattle.records.specs.Reading.{Gives};
ghost use Rattle.world.specs.Views.{contract_view, world_view};
ghost use Rattle.records.specs.declared.refusal.ReadRefusal.TheVariants.{NoMemory};
ghost use Rattle.world.specs.Reading.{head_at, StandBehind, IsNoWorld, IsFirstFault, Refuses};

use crate::contracts::contracts_of;
use crate::{World, read_cells};
use link::deployed::Deployed;
use records::{Fault, ReadRefusal, read_tag, read_u32};
use std::alloc::Allocator;

/// The magic, `57 42 57 44`, as a number.
const MAGIC: u32 = 0x4457_4257;

/// The version of the format.
const VERSION: u32 = 1;

#[tactic(auto, unfolding(crate::specs::Reading::head_at))]
fn head_of(bytes: &[u8]) -> Result<(u32, &[u8]), Fault>
    ensures { Gives (λ x. (x.0, x.1.now)) result (head_at bytes.now) }
{
    let rest = read_tag(bytes, MAGIC)?;
    let counted = read_tag(rest, VERSION)?;
    let (count, rest) = read_u32(counted)?;
    if count > 1_024 {
        return Err(Fault::TooLarge);
    }
    if (rest.len() as u64) < 12 * count as u64 {
        return Err(Fault::Malformed(counted.len()));
    }
    Ok((count, rest))
}

/// The contracts, and the bytes behind them.
fn parts_of<A: Allocator + Copy>(
    alloc: A,
    bytes: &[u8],
) -> Result<(Vec<Deployed<A>, A>, &[u8]), Fault>
    ensures few { IfOk result (λ x. vec_len x.0 ≤ World.MOST_CONTRACTS) }
    ensures read { IfOk result (λ x. StandBehind bytes.now (map contract_view x.0.items) x.1.now) }
    ensures none { IfErr result (λ f. (f ≡ Fault.NoMemory) ⊎ IsNoWorld bytes.now) }
    ensures first { IfErr result (IsFirstFault bytes.now) }
{
    laws_modules::one_tree();
    spec_typing::resolved_once();
    let (count, rest) = head_of(bytes)?;
    match contracts_of(alloc, count, rest) {
        Ok((contracts, rest)) => Ok((contracts, rest)),
        Err(fault) => Err(fault),
    }
}

/// The world of all of the bytes.
fn world_of<A: Allocator + Copy>(alloc: A, bytes: &[u8]) -> Result<World<A>, Fault>
    ensures spelled { IfOk result (λ w. SpellsWorld bytes.now (world_view w)) }
    ensures none { IfErr result (λ f. (f ≡ Fault.NoMemory) ⊎ IsNoWorld bytes.now) }
    ensures first { IfErr result (IsFirstFault bytes.now) }
{
    laws_modules::one_tree();
    spec_typing::resolved_once();
    let (contracts, rest) = parts_of(alloc, bytes)?;
    match read_cells(alloc, rest) {
        Err(fault) => Err(fault),
        Ok((cells, over)) => {
            if !over.is_empty() {
                return Err(Fault::Malformed(over.len()));
            }
            Ok(World::new(contracts, cells))
        }
    }
}

/// Reads the world that the bytes spell, all of them. They are refused exactly where they spell none, memory aside. Reading goes from front
/// to back and the first fault is answered.
pub fn read_world<A: Allocator + Copy>(alloc: A, bytes: &[u8]) -> Result<World<A>, ReadRefusal>
    ensures spelled { IfOk result (λ w. SpellsWorld bytes.now (world_view w)) }
    ensures none { IfErr result (λ refusal. (refusal ≡ NoMemory) ⊎ IsNoWorld bytes.now) }
    ensures first { IfErr result (Refuses bytes.now) }
{
    match world_of(alloc, bytes) {
        Ok(world) => Ok(world),
        Err(Fault::Malformed(left)) => Err(ReadRefusal::Malformed(
            bytes.len().saturating_sub(left),
        )),
        Err(Fault::TooLarge) => Err(ReadRefusal::TooLarge),
        Err(Fault::NoMemory) => Err(ReadRefusal::NoMemory),
    }
}
