//! Blocks: produced in the list's order, verified, and read.

ghost use Rattle.std.specs.Prelude.{◌≡◌, ◌≤◌, Some, IfOk, IfErr, length};
ghost use Rattle.spec_block.specs.Bytes.{SpellsBlock};
ghost use Rattle.spec_block.specs.Verdicts.{IsVerdictOf};
ghost use Rattle.block_judge.specs.Judging as judged;
ghost use Rattle.validator.specs.VerdictsFound.{verdict_view};
ghost use Rattle.world.specs.Views.{world_view};
ghost use Rattle.embed.specs.Given.{Accepts, IsAccepted, IsMined, Leaves, Mines};
ghost use Rattle.embed.specs.Refusals as told;
ghost use Rattle.embed.specs.Refusals.{IfRefused, IsRejection, Rejects, RefusesBlock, RefusesInputs, RefusesVerified};

use crate::failure::{Failure, Subject, refused};
use crate::inputs::{calls_of, world_of};
use crate::refusals::block_refusal;
use block::{Block, BlockRefusal, encode_block, read_block};
use block_judge::Reason;
use call::Call;
use miner::mine_alone;
use std::alloc::Global;
use validator::{Validated, Verdict, validate_alone};
use wblock_line::reason_words;
use wblock_words::block_words;
use world::{World, encode_world};
use wtypes::NoMemory;

/// The bytes of a block, and those of the world after it.
#[derive(Debug, Drop)]
pub struct BlockAndWorld {
    /// The block.
    pub block: Vec<u8>,
    /// The world after it.
    pub next: Vec<u8>,
}

/// The block of calls over a world in the list's order, and the world after it.
fn mine_over(
    alloc: Global,
    world: &World,
    calls: &[Call],
    fuel: u64,
) -> Result<BlockAndWorld, NoMemory>
    requires { length calls.now ≤ 65535 }
    ensures { IfOk result (λ made. IsMined (world_view world.now) calls.now fuel made.block.items made.next.items) }
{
    let mined = mine_alone(alloc, world, calls, fuel)?;
    let block = encode_block(alloc, &mined.block)?;
    let next = encode_world(alloc, &mined.world)?;
    Ok(BlockAndWorld { block, next })
}

/// The block of the calls of a text over a world, in the list's order, with this fuel; and the world after it.
///
/// # Errors
///
/// Why the bytes spell no world, or the text no calls; or memory was refused, or a call touched 2^32 locks or more.
pub fn mine(alloc: Global, world: &[u8], calls: &[u8], fuel: u64) -> Result<BlockAndWorld, Failure>
    ensures mined { IfOk result (λ made. Mines world.now calls.now fuel made.block.items made.next.items) }
    ensures refused { IfErr result (λ f. IfRefused f (RefusesInputs world.now calls.now)) }
{
    let before = world_of(alloc, world)?;
    let list = calls_of(alloc, calls)?;
    let made = mine_over(alloc, &before, &list, fuel)?;
    Ok(made)
}

/// The same place in 64 bits.
fn widened(place: Option<u32>) -> Option<u64>
    ensures { result ≡ place }
{
    match place {
        Some(place) => Some(place as u64),
        None => None,
    }
}

/// The failure of a block of these bytes that is rejected for this reason.
fn reject(alloc: Global, block: &[u8], reason: Reason) -> Failure
    ensures { IfRefused result (λ r. IsRejection (judged.told reason) r) }
{
    refused(
        Subject::Block,
        reason.number() as u32,
        widened(reason.place()),
        reason_words(alloc, block, reason),
    )
}

/// The verdict on the bytes of a block.
fn judge(
    alloc: Global,
    world: &World,
    calls: &[Call],
    fuel: u64,
    block: &[u8],
) -> Result<Verdict, NoMemory>
    requires { length calls.now ≤ 65535 }
    ensures { IfOk result (λ verdict. IsVerdictOf (world_view world.now) calls.now fuel block.now (verdict_view verdict)) }
{
    let Validated { verdict, again: _ } = validate_alone(alloc, world, calls, fuel, block)?;
    Ok(verdict)
}

/// The world that a verdict leaves; or the failure of the block of these bytes, where it rejects.
fn answer_to(alloc: Global, block: &[u8], verdict: Verdict) -> Result<Vec<u8>, Failure>
    ensures accepted { IfOk result (λ next. Leaves (verdict_view verdict) next.items) }
    ensures rejected { IfErr result (λ f. IfRefused f (λ r. IsRejection (verdict_view verdict) r)) }
{
    match verdict {
        Verdict::Accept(next) => {
            let bytes = encode_world(alloc, &next)?;
            Ok(bytes)
        }
        Verdict::Reject(reason) => Err(reject(alloc, block, reason)),
    }
}

/// The world after a block of calls over a world, where it is accepted.
fn verify_over(
    alloc: Global,
    world: &World,
    calls: &[Call],
    fuel: u64,
    block: &[u8],
) -> Result<Vec<u8>, Failure>
    requires { length calls.now ≤ 65535 }
    ensures accepted { IfOk result (λ next. IsAccepted (world_view world.now) calls.now fuel block.now next.items) }
    ensures rejected { IfErr result (λ f. IfRefused f (Rejects (world_view world.now) calls.now fuel block.now)) }
{
    let verdict = judge(alloc, world, calls, fuel, block)?;
    answer_to(alloc, block, verdict)
}

/// The bytes of the world after a block of the calls of a text over a world, with this fuel for the block, where the block is accepted.
///
/// # Errors
///
/// Why the bytes spell no world, or the text no calls; or the first of the nine reasons that holds of the block; or memory was refused.
pub fn verify(
    alloc: Global,
    world: &[u8],
    calls: &[u8],
    fuel: u64,
    block: &[u8],
) -> Result<Vec<u8>, Failure>
    ensures accepted { IfOk result (λ next. Accepts world.now calls.now fuel block.now next.items) }
    ensures refused { IfErr result (λ f. IfRefused f (RefusesVerified world.now calls.now fuel block.now)) }
{
    let before = world_of(alloc, world)?;
    let list = calls_of(alloc, calls)?;
    verify_over(alloc, &before, &list, fuel, block)
}

fn refuse_block(alloc: Global, bytes: &[u8], refusal: BlockRefusal) -> Failure
    ensures { IfRefused result (λ r. told.block_refusal refusal ≡ Some r) }
{
    match block_refusal(refusal) {
        Some(told) => told.with_sentence(block_words(alloc, bytes, refusal)),
        None => Failure::NoMemory,
    }
}

/// The block that bytes spell. It is not verified.
///
/// # Errors
///
/// The bytes spell none; or memory was refused.
pub fn block_of(alloc: Global, bytes: &[u8]) -> Result<Block, Failure>
    ensures spelled { IfOk result (SpellsBlock bytes.now) }
    ensures refused { IfErr result (λ f. IfRefused f (RefusesBlock bytes.now)) }
{
    match read_block(alloc, bytes) {
        Ok(block) => Ok(block),
        Err(refusal) => Err(refuse_block(alloc, bytes, refusal)),
    }
}
