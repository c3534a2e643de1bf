// The allocator of `test_support`, which gives so many blocks and then refuses one or all: asked for blocks, for room to grow, and by threads.
ghost use Rattle.std.specs.Prelude.{◌≡◌, IfOk, vec_len};

use crate::assertions::{equal, holds};
use std::alloc::{AllocError, Allocator};
use std::process::Abort;
use std::thread::{self, Threads};
use test_support::Ration;

/// A block is given or refused, as is said, and so many are then left. It is given back.
fn asks(rt: &impl Abort, ration: &Ration, is_given: bool, left: u64) {
    let block = Box::new(ration, 1u64);
    let came = (block.is_ok(), ration.left());
    equal(rt, &"a block", &came, &(is_given, left));
}

#[test]
fn each_block_takes_one(rt: HostRuntime) {
    let ration = Ration::new(rt.alloc(), 2);
    equal(&rt, &"left at first", &ration.left(), &2);
    asks(&rt, &ration, true, 1);
    equal(&rt, &"left when one was given back", &ration.left(), &1);
    asks(&rt, &ration, true, 0);
    holds(&rt, &"none is refused", !ration.has_refused());
    for _ in 0..3u32 {
        asks(&rt, &ration, false, 0);
        holds(&rt, &"each is refused", ration.has_refused());
    }
}

#[test]
fn one_block_alone_is_refused(rt: HostRuntime) {
    let ration = Ration::refusing_one(rt.alloc(), 1);
    asks(&rt, &ration, true, 0);
    holds(&rt, &"none is refused", !ration.has_refused());
    asks(&rt, &ration, false, 0);
    holds(&rt, &"one is refused", ration.has_refused());
    for _ in 0..100u32 {
        asks(&rt, &ration, true, 0);
    }
    holds(&rt, &"one was refused", ration.has_refused());
}

/// Whether these are the numbers from 0 on.
fn are_numbers(items: &[u64]) -> bool {
    let mut number = 0u64;
    for item in items {
        if *item != number {
            return false;
        }
        number = number.wrapping_add(1);
    }
    true
}

#[test]
fn growing_takes_blocks(rt: HostRuntime) {
    let ration = Ration::new(rt.alloc(), 3);
    let mut items = Vec::new(&ration);
    let refused = (0..1000u64).any(|i| items.push(i).is_err());
    let came = (refused, ration.left());
    equal(&rt, &"a refusal", &came, &(true, 0));
    holds(&rt, &"more than 8", items.len() > 8);
    holds(&rt, &"the numbers", are_numbers(items.as_slice()));
}

// The last push asked for what was refused, and the list is as it was.
#[test]
fn a_list_grows_after_a_refusal(rt: HostRuntime) {
    let ration = Ration::refusing_one(rt.alloc(), 1);
    let mut items = Vec::new(&ration);
    let refused = (0..1000u64).position(|i| items.push(i).is_err());
    equal(&rt, &"the refusal", &refused, &Some(items.len()));
    let others = (items.len()..1000).all(|i| items.push(i as u64).is_ok());
    holds(&rt, &"all others", others);
    holds(&rt, &"the numbers", are_numbers(items.as_slice()));
}

/// A list of one number.
fn one<A: Allocator + Copy>(alloc: A, i: usize) -> Result<Vec<u64, A>, AllocError>
    ensures { IfOk result (λ items. vec_len items ≡ 1) }
{
    let mut items = Vec::new(alloc);
    items.push(i as u64)?;
    Ok(items)
}

/// As many lists as asked, each made by a thread over `alloc`, or its refusal. The lists stand in a list over `heap`.
fn lists<R: Threads + Sync, H: Allocator + Copy + Send + Sync, A: Allocator + Copy + Send + Sync>(
    rt: &R,
    heap: H,
    alloc: A,
    n: usize,
) -> Result<Vec<Result<Vec<u64, A>, AllocError>, H>, AllocError>
    ensures { IfOk result (λ lists. vec_len lists ≡ n) }
{
    thread::map_indices(rt, heap, n, &|i| one(alloc, i))
}

/// How many of these lists were made, where each of them begins with its place; None where one does not.
fn made<A: Allocator>(lists: &[Result<Vec<u64, A>, AllocError>]) -> Option<u64> {
    let mut made = 0u64;
    let mut place = 0u64;
    for list in lists {
        if let Ok(list) = list {
            if list.first() != Some(&place) {
                return None;
            }
            made = made.wrapping_add(1);
        }
        place = place.wrapping_add(1);
    }
    Some(made)
}

#[test]
fn threads_share_an_ample_ration(rt: HostRuntime) {
    let ration = Ration::new(rt.alloc(), 1000);
    let lists = lists(&rt, &ration, &ration, 8).expect(&rt, "memory");
    equal(&rt, &"made", &made(lists.as_slice()), &Some(8));
    holds(&rt, &"left", ration.left() < 992);
}

#[test]
fn threads_share_a_small_ration(rt: HostRuntime) {
    let ration = Ration::new(rt.alloc(), 3);
    let lists = lists(&rt, rt.alloc(), &ration, 8).expect(&rt, "memory");
    let came = (made(lists.as_slice()), ration.left());
    equal(&rt, &"made", &came, &(Some(3), 0));
}

#[test]
fn threads_share_one_refusal(rt: HostRuntime) {
    let ration = Ration::refusing_one(rt.alloc(), 3);
    let lists = lists(&rt, rt.alloc(), &ration, 8).expect(&rt, "memory");
    equal(&rt, &"made", &made(lists.as_slice()), &Some(7));
}

#[test]
fn threads_are_refused(rt: HostRuntime) {
    let ration = Ration::new(rt.alloc(), 1);
    let is_refused = lists(&rt, &ration, rt.alloc(), 8).is_err();
    holds(&rt, &"one block", is_refused);
    let none = Ration::new(rt.alloc(), 0);
    holds(&rt, &"no block", lists(&rt, &none, &none, 8).is_err());
}
