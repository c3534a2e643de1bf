//! Reading a block.

ghost use Rattle.std.specs.Prelude.{◌≡◌, ◌≤◌, ◌⊎◌, None, Ok, IfOk, IfErr, length};
ghost use Rattle.spec_ledger.specs.declared.Version.{Version};
ghost use Rattle.spec_block.specs.Worlds.{Block as TheBlock};
ghost use Rattle.spec_block.specs.Bytes.{SpellsBlock};
ghost use Rattle.records.specs.Reading.{Gives, items_at, front_at, whole};
ghost use Rattle.records.specs.declared.refusal.BlockRefusal.TheVariants.{NoMemory};
ghost use Rattle.block.specs.Reading.{version_named, version_at, smallest_position, next_position_at, positions_at, block_at};
ghost use Rattle.block.specs.Refusals.{Refuses};

use crate::value::Block;
use records::{BlockRefusal, Fault, Position, read_position, read_tag, read_u32, read_u64};
use spec_ledger::Version;
use std::alloc::Allocator;

/// The magic, `57 42 4C 4B`, as a number.
pub(crate) const MAGIC: u32 = 0x4b4c_4257;

fn version_of(number: u32) -> Option<Version>
    ensures { result ≡ version_named number }
{
    match number {
        1 => Some(Version::One),
        2 => Some(Version::Two),
        _ => None,
    }
}

#[tactic(auto, unfolding(crate::specs::Reading::version_at))]
fn read_version(bytes: &[u8]) -> Result<(Version, &[u8]), Fault>
    ensures { Gives (λ x. (x.0, x.1.now)) result (version_at bytes.now) }
{
    let (number, rest) = read_u32(bytes)?;
    match version_of(number) {
        Some(version) => Ok((version, rest)),
        None => Err(Fault::Malformed(bytes.len())),
    }
}

fn digest_of(bytes: &[u8]) -> Result<([u8; 32], &[u8]), Fault>
    ensures { Gives (λ x. (x.0, x.1.now)) result (front_at 32 bytes.now) }
{
    match bytes.split_first_chunk::<32>() {
        Some((digest, rest)) => Ok((*digest, rest)),
        None => Err(Fault::Malformed(bytes.len())),
    }
}

fn items_of<A: Allocator + Copy>(
    version: Version,
    alloc: A,
    count: u32,
    bytes: &[u8],
) -> Result<(Vec<Position<A>, A>, &[u8]), Fault>
    ensures { Gives (λ x. (x.0.items, x.1.now)) result (items_at (next_position_at version) count None bytes.now) }
{
    let mut positions = Vec::new(alloc);
    let mut rest = bytes;
    for _ in 0..count {
        let (position, after) = read_position(version, alloc, rest)?;
        positions.push(position)?;
        rest = after;
    }
    Ok((positions, rest))
}

/// The bytes of the smallest position.
fn least_size(version: Version) -> u64
    ensures { result ≡ smallest_position version }
{
    match version {
        Version::One => 17,
        Version::Two => 21,
    }
}

#[tactic(auto, unfolding(crate::specs::Reading::positions_at))]
fn list_of<A: Allocator + Copy>(
    version: Version,
    alloc: A,
    bytes: &[u8],
) -> Result<(Vec<Position<A>, A>, &[u8]), Fault>
    ensures { Gives (λ x. (x.0.items, x.1.now)) result (positions_at version bytes.now) }
{
    let (count, rest) = read_u32(bytes)?;
    if count > 65_535 {
        return Err(Fault::TooLarge);
    }
    if (rest.len() as u64) < least_size(version) * count as u64 {
        return Err(Fault::Malformed(bytes.len()));
    }
    items_of(version, alloc, count, rest)
}

/// The same, with the limit on what was read.
fn positions_of<A: Allocator + Copy>(
    version: Version,
    alloc: A,
    bytes: &[u8],
) -> Result<(Vec<Position<A>, A>, &[u8]), Fault>
    ensures few { IfOk result (λ x. length x.0.items ≤ Block.MOST_POSITIONS) }
    ensures first { Gives (λ x. (x.0.items, x.1.now)) result (positions_at version bytes.now) }
{
    records::positions_are_read_exactly();
    list_of(version, alloc, bytes)
}

#[tactic(auto, unfolding(crate::specs::Reading::block_at))]
fn block_of<A: Allocator + Copy>(alloc: A, bytes: &[u8]) -> Result<(Block<A>, &[u8]), Fault>
    ensures { Gives (λ x. (x.0, x.1.now)) result (block_at bytes.now) }
{
    let rest = read_tag(bytes, MAGIC)?;
    let (version, rest) = read_version(rest)?;
    let (before, rest) = digest_of(rest)?;
    let (calls, rest) = digest_of(rest)?;
    let (positions, rest) = positions_of(version, alloc, rest)?;
    let (fuel, rest) = read_u64(rest)?;
    let (after, rest) = digest_of(rest)?;
    match Block::new(version, before, calls, positions, fuel, after) {
        Some(block) => Ok((block, rest)),
        None => unreachable!(),
    }
}

fn all_of<A: Allocator + Copy>(alloc: A, bytes: &[u8]) -> Result<Block<A>, Fault>
    ensures { Gives (λ b. b) result (whole (block_at bytes.now)) }
{
    let (block, rest) = block_of(alloc, bytes)?;
    if !rest.is_empty() {
        return Err(Fault::Malformed(rest.len()));
    }
    Ok(block)
}

/// The block of all of the bytes, and what is known of it.
fn exactly_of<A: Allocator + Copy>(alloc: A, bytes: &[u8]) -> Result<Block<A>, Fault>
    ensures spelled { IfOk result (λ b. SpellsBlock bytes.now b) }
    ensures only { (b : TheBlock) → SpellsBlock bytes.now b → Gives {Y = TheBlock} (λ x. x) result (Ok b) }
    ensures first { Gives (λ b. b) result (whole (block_at bytes.now)) }
{
    records::positions_are_read_exactly();
    all_of(alloc, bytes)
}

/// Reads the block that the bytes spell, all of them, in the version that they name. They are refused exactly where they spell none, memory aside. Reading goes from front
/// to back and the first fault is answered.
pub fn read_block<A: Allocator + Copy>(alloc: A, bytes: &[u8]) -> Result<Block<A>, BlockRefusal>
    ensures spelled { IfOk result (SpellsBlock bytes.now) }
    ensures none { IfErr result (λ refusal. (refusal ≡ NoMemory) ⊎ ((b : TheBlock) → ¬ (SpellsBlock bytes.now b))) }
    ensures first { IfErr result (λ refusal. Refuses (length bytes.now) refusal (whole (block_at bytes.now))) }
{
    match exactly_of(alloc, bytes) {
        Ok(block) => Ok(block),
        Err(Fault::Malformed(left)) => Err(BlockRefusal::Malformed(
            bytes.len().saturating_sub(left),
        )),
        Err(Fault::TooLarge) => Err(BlockRefusal::TooLarge),
        Err(Fault::NoMemory) => Err(BlockRefusal::NoMemory),
    }
}
