//! The exports on calls and on blocks, but for those on receipts and on one call.

ghost use Rattle.std.specs.Prelude.{◌≡◌, length};
ghost use Rattle.embed.specs.Given.{Accepts, Mines};
ghost use Rattle.embed.specs.Refusals.{HasCalls, RefusesCalls, RefusesInputs, RefusesVerified};
ghost use Rattle.foshqarel_c.specs.Buffers.{ComeBoth, Comes, Counts};

use crate::buffers::{count, fail, give, give_both};
use crate::told::Told;
use std::alloc::Global;

/// Whether a text spells calls; `told.size` is how many.
#[unsafe(no_mangle)]
pub extern "C" fn foshqarel_calls(
    alloc: Global,
    calls: &[u8],
    sentence: &mut [u8],
    told: &mut Told,
) -> u32
    ensures { Counts (λ count. HasCalls calls.now (λ list. count ≡ length list)) (RefusesCalls calls.now) sentence.old sentence.new told.new result }
{
    match embed::calls_of(alloc, calls) {
        Ok(list) => count(list.len(), told),
        Err(failure) => fail(failure, sentence, told),
    }
}

/// Produces the block of the calls of a text over a world, in the list's order, and the world after it.
#[unsafe(no_mangle)]
pub extern "C" fn foshqarel_mine(
    alloc: Global,
    world: &[u8],
    calls: &[u8],
    fuel: u64,
    block: &mut [u8],
    next: &mut [u8],
    told: &mut Told,
) -> u32
    ensures { ComeBoth (Mines world.now calls.now fuel) (RefusesInputs world.now calls.now) block.old block.new next.old next.new told.new result }
{
    match embed::mine(alloc, world, calls, fuel) {
        Ok(made) => give_both(&made.block, &made.next, block, next, told),
        Err(failure) => fail(failure, block, told),
    }
}

/// Verifies a block of the calls of a text over a world, and gives the world after it.
#[unsafe(no_mangle)]
pub extern "C" fn foshqarel_verify(
    alloc: Global,
    world: &[u8],
    calls: &[u8],
    fuel: u64,
    block: &[u8],
    next: &mut [u8],
    told: &mut Told,
) -> u32
    ensures { Comes (Accepts world.now calls.now fuel block.now) (RefusesVerified world.now calls.now fuel block.now) next.old next.new told.new result }
{
    match embed::verify(alloc, world, calls, fuel, block) {
        Ok(bytes) => give(&bytes, next, told),
        Err(failure) => fail(failure, next, told),
    }
}
