//! How long a block's calls take one after another, with their block, and how much of that is hashing.

ghost use Rattle.std.specs.Prelude.{◌≤◌, length};

use crate::example_load::{calls, world};
use crate::refusals::no_memory;
use crate::sealed::sealed;
use block::digest_calls;
use call::Call;
use std::alloc::Global;
use std::io;
use std::time::{Clock, Instant};
use world::{World, digest_world};
use wtypes::NoMemory;

/// The most calls of a block.
const MOST_CALLS: u32 = 65_535;

/// Makes the digests of a block alone.
fn hash(alloc: Global, before: &World, calls: &[Call], after: &World) -> Result<(), NoMemory>
    requires { length calls.now ≤ 65535 }
{
    digest_world(alloc, before)?;
    digest_calls(alloc, calls)?;
    digest_world(alloc, after)?;
    Ok(())
}

/// The line of this many calls: the time, the calls a second, and how many percent of the time hashing takes.
fn line_of<R: Clock>(rt: &R, alloc: Global, count: u32) -> io::Result<String> {
    let Some(before) = world(alloc) else {
        return Err(no_memory());
    };
    let Ok(calls) = calls(alloc, count) else {
        return Err(no_memory());
    };
    if calls.len() > 65_535 {
        return Err(no_memory());
    }
    let start = Instant::now(rt)?;
    let Some((_, after)) = sealed(alloc, &before, &calls) else {
        return Err(no_memory());
    };
    let whole = start.elapsed(rt)?.as_nanos().max(1);
    let start = Instant::now(rt)?;
    if hash(alloc, &before, &calls, &after).is_err() {
        return Err(no_memory());
    }
    let hashing = start.elapsed(rt)?.as_nanos();
    let rate = (calls.len() as u128) * 1_000_000_000 / whole;
    let micros = whole / 1_000;
    let share = hashing.saturating_mul(100) / whole;
    Ok(format!(in alloc; "calls {count} microseconds {micros} a second {rate} hashing {share}")?)
}

/// The number of calls that one word gives.
fn count_of(words: &[String]) -> Option<u32> {
    let [count] = words else {
        return None;
    };
    let count = count.as_str().parse::<u32>().ok()?;
    (count > 0 && count <= MOST_CALLS).then_some(count)
}

/// The line of so many calls of the example contract.
pub fn measure<R: Clock>(rt: &R, alloc: Global, words: &[String]) -> io::Result<Option<String>> {
    match count_of(words) {
        Some(count) => Ok(Some(line_of(rt, alloc, count)?)),
        None => Ok(None),
    }
}
