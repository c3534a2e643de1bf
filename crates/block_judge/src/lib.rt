//! What is found of a block before its calls are run: the first seven of the nine reasons for which a validator rejects it, and the cells that one of its
//! calls meets (Dickerson, Gazzillo, Herlihy, Koskinen, "Adding Concurrency to Smart Contracts", PODC 2017, section 4: a validator checks what a miner
//! published).
#![tactic(auto)]

mod digests;
mod laws;
mod order;
mod prefix_laws;
mod reason;
mod turns;

ghost use Rattle.std.specs.Prelude.{◌≡◌, ◌≤◌, ◌<◌, ℕ, List, All, IfOk, IfErr, OnOk, length};
ghost use Rattle.spec_block.specs.Worlds.{Block as TheBlock, Call as TheCall, World as TheWorld, order_of, profiles_of};
ghost use Rattle.spec_block.specs.Bytes.{SpellsBlock};
ghost use Rattle.spec_block.specs.Schedule.{HaveTurns};
ghost use Rattle.spec_block.specs.Verdicts.{HoldsOf, IsVerdictOf};
ghost use Rattle.world.specs.Views.{world_view};
ghost use Rattle.block_judge.specs.Judging.{IfRejected, IsFirstFrom, NoneFrom, Passes};

pub use crate::digests::judge_digests;
pub use crate::laws::first_is_verdict;
pub use crate::order::{judge_order, numbers_of, remaining};
pub use crate::prefix_laws::tells_of_the_run;
pub use crate::reason::{JudgeRefusal, Reason};
pub use crate::turns::judge_turns;
use block::{Block, BlockRefusal, read_block};
use call::Call;
use std::alloc::{Allocator, Global};
use world::World;

/// A block that none of the first seven reasons speaks against.
#[derive(Drop)]
pub struct Fit<A: Allocator = Global> {
    /// The block.
    pub block: Block<A>,
    /// The numbers of its calls, by position.
    pub order: Vec<u32, A>,
}

/// The block that the bytes spell.
///
/// # Errors
///
/// The bytes spell no block; or memory was refused.
pub fn spelled_by<A: Allocator + Copy>(alloc: A, bytes: &[u8]) -> Result<Block<A>, JudgeRefusal>
    ensures spelled { IfOk result (SpellsBlock bytes.now) }
    ensures rejected { IfErr result (λ unfit. (world : TheWorld) (calls : List TheCall) (fuel : ℕ) → IfRejected unfit (IsVerdictOf world calls fuel bytes.now)) }
{
    match read_block(alloc, bytes) {
        Ok(block) => Ok(block),
        Err(BlockRefusal::NoMemory) => Err(JudgeRefusal::NoMemory),
        Err(BlockRefusal::Malformed(_) | BlockRefusal::TooLarge) => {
            Err(JudgeRefusal::Rejected(Reason::Malformed))
        }
    }
}

/// Judges a block of calls over a world, with this fuel for the block and the numbers of its calls by position, without running a call.
///
/// # Errors
///
/// The first of the reasons 2 to 7 that holds; or memory was refused.
pub fn judge_block<A: Allocator + Copy>(
    alloc: A,
    world: &World<A>,
    calls: &[Call],
    fuel: u64,
    block: &Block<A>,
    order: &[u32],
) -> Result<(), JudgeRefusal>
    requires calls { length calls.now ≤ 65535 }
    requires order { order.now ≡ order_of block.now }
    requires few { length (order_of block.now) ≤ 65535 }
    requires profiles { length (profiles_of block.now) ≤ 65535 }
    ensures rejected { IfErr result (λ unfit. IfRejected unfit (IsFirstFrom (HoldsOf (world_view world.now) calls.now fuel block.now) 1)) }
    ensures passed { OnOk result (NoneFrom (HoldsOf (world_view world.now) calls.now fuel block.now) 1 8) }
    ensures known { OnOk result (All (λ number. number < length calls.now) (order_of block.now)) }
    ensures turns { OnOk result (HaveTurns (profiles_of block.now)) }
{
    judge_digests(alloc, world, calls, block)?;
    judge_order(alloc, calls, fuel, order)?;
    judge_turns(alloc, block)
}

/// Judges the bytes of a block of calls over a world, with this fuel for the block, without running a call.
///
/// # Errors
///
/// The first of the reasons 1 to 7 that holds; or memory was refused.
pub fn judge<A: Allocator + Copy>(
    alloc: A,
    world: &World<A>,
    calls: &[Call],
    fuel: u64,
    bytes: &[u8],
) -> Result<Fit<A>, JudgeRefusal>
    requires { length calls.now ≤ 65535 }
    ensures rejected { IfErr result (λ unfit. IfRejected unfit (IsVerdictOf (world_view world.now) calls.now fuel bytes.now)) }
    ensures passed { IfOk result (λ fit. Passes (world_view world.now) calls.now fuel bytes.now fit.block) }
    ensures order { IfOk result (λ fit. fit.order.items ≡ order_of fit.block) }
{
    first_is_verdict();
    let block = spelled_by(alloc, bytes)?;
    block.use_invariant();
    let order = numbers_of(alloc, &block)?;
    judge_block(alloc, world, calls, fuel, &block, &order)?;
    Ok(Fit { block, order })
}
