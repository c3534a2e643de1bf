// Each block of memory is refused once. What was refused is as it was, so the same done again comes to what it does without a refusal.
use crate::assertions::holds;
use crate::books::{COUNTS, Came, played};
use crate::scripts::GROWTHS;
use std::alloc::Global;
use std::sync::Wait;
use std::test::Fail;
use test_support::Ration;

/// More growths than there are.
const MANY: u64 = 400;

/// Plays two calls over a book, one of which fails, where one block of memory is refused. Says whether it was; None where something else came of it.
fn with_one_refused<R: Wait>(rt: &R, heap: Global, shards: u32, blocks: u64) -> Option<bool> {
    let ration = Ration::refusing_one(heap, blocks);
    let came = played(rt, &ration, shards, &GROWTHS, true);
    let is_refused = ration.has_refused();
    match came {
        Came::AsSaid => Some(is_refused),
        Came::NoMemory if is_refused => Some(true),
        _ => None,
    }
}

/// How many blocks are refused in turn, until there is none to refuse. None where something else came of one.
fn refused_in_turn<R: Wait>(rt: &R, heap: Global, shards: u32) -> Option<u64> {
    for blocks in 0..MANY {
        if !with_one_refused(rt, heap, shards, blocks)? {
            return Some(blocks);
        }
    }
    None
}

#[test]
fn each_growth_is_refused_in_turn(rt: HostRuntime) -> Result<(), Fail> {
    for shards in &COUNTS {
        let blocks = refused_in_turn(&rt, rt.alloc(), *shards);
        holds(&rt, &(shards, blocks), blocks > Some(10));
    }
    Ok(())
}
