//! Linear memory in a heap of fixed size, where growth is refused.

use crate::assertions::{equal, given, holds};
use linked_list_allocator::LocalHeap;
use memory::{Linear, PAGE_LIMIT, StoreRefusal};
use std::process::Abort;
use wtypes::TrapCode;

/// Spells the bytes 8, 7, .. 1.
const VALUE: u64 = 0x0102_0304_0506_0708;

/// The last 4 bytes of a piece: of the first one, and of the first page.
const BORDERS: [u32; 2] = [4_092, 65_532];

/// Two pages.
const BYTES: u32 = 131_072;

/// The last 8 bytes of 1,024 pages.
const LAST: u32 = 67_108_856;

fn assert_all_zero(rt: &impl Abort, memory: &Linear<'_, &LocalHeap>) {
    for word in 0..BYTES / 8 {
        equal(rt, &("word", word), &memory.load(8 * word, 0, 8), &Ok(0));
    }
}

// Each piece that is not there is refused, also the first one.
#[test]
fn a_heap_for_the_list_alone(rt: HostRuntime) {
    let heap = given(&rt, &"heap", LocalHeap::new(rt.alloc(), 1_000));
    let mut memory = given(&rt, &"memory", Linear::new(&heap, 2, 2));
    for border in BORDERS {
        equal(
            &rt,
            &("store over", border),
            &memory.store(border, 0, 8, VALUE),
            &Err(StoreRefusal::NoMemory),
        );
    }
    assert_all_zero(&rt, &memory);
    equal(&rt, &"nothing at 5", &memory.write_all(5, b""), &Ok(()));
    equal(
        &rt,
        &"nothing at the end",
        &memory.write_all(BYTES, b""),
        &Ok(()),
    );
    equal(
        &rt,
        &"nothing past the end",
        &memory.write_all(BYTES + 1, b""),
        &Err(StoreRefusal::Trap(TrapCode::MemoryOutOfBounds)),
    );
    equal(
        &rt,
        &"a byte at 5",
        &memory.write_all(5, b"a"),
        &Err(StoreRefusal::NoMemory),
    );
}

// The store gets one of the two pieces that it meets, and writes nothing.
#[test]
fn a_heap_for_one_piece(rt: HostRuntime) {
    for border in BORDERS {
        let heap = given(&rt, &"heap", LocalHeap::new(rt.alloc(), 5_000));
        let mut memory = given(&rt, &"memory", Linear::new(&heap, 2, 2));
        equal(
            &rt,
            &("store over", border),
            &memory.store(border, 0, 8, VALUE),
            &Err(StoreRefusal::NoMemory),
        );
        assert_all_zero(&rt, &memory);
        equal(
            &rt,
            &("store before", border),
            &memory.store(border, 0, 4, VALUE),
            &Ok(()),
        );
        equal(
            &rt,
            &("segment over", border),
            &memory.write_all(border + 1, b"segment"),
            &Err(StoreRefusal::NoMemory),
        );
        equal(
            &rt,
            &("what was stored before", border),
            &memory.load(border, 0, 8),
            &Ok(0x0506_0708),
        );
    }
}

// Pieces that are made are written again, and absent ones are read, with no memory left.
#[test]
fn a_heap_for_two_pieces(rt: HostRuntime) {
    for border in BORDERS {
        let heap = given(&rt, &"heap", LocalHeap::new(rt.alloc(), 9_000));
        let mut memory = given(&rt, &"memory", Linear::new(&heap, 3, 3));
        equal(
            &rt,
            &("store over", border),
            &memory.store(border, 0, 8, VALUE),
            &Ok(()),
        );
        equal(
            &rt,
            &"store in the third page",
            &memory.store(BYTES, 0, 1, 1),
            &Err(StoreRefusal::NoMemory),
        );
        equal(
            &rt,
            &("store again over", border),
            &memory.store(border, 0, 8, VALUE),
            &Ok(()),
        );
        for at in 0..BYTES {
            holds(&rt, &("a load at", at), memory.load(at, 0, 8).is_ok());
        }
        equal(
            &rt,
            &("what was stored over", border),
            &memory.load(border, 0, 8),
            &Ok(VALUE),
        );
        equal(&rt, &"the third page", &memory.load(BYTES, 0, 8), &Ok(0));
    }
}

// The list is refused where a store makes it too long, and not by growth.
#[test]
fn a_heap_for_a_short_list(rt: HostRuntime) {
    let heap = given(&rt, &"heap", LocalHeap::new(rt.alloc(), 5_000));
    let mut memory = given(&rt, &"memory", Linear::new(&heap, 2, PAGE_LIMIT));
    equal(&rt, &"past the limit", &memory.grow(1_023), &Ok(-1));
    equal(&rt, &"to the limit", &memory.grow(1_022), &Ok(2));
    equal(&rt, &"size", &memory.size(), &1_024);
    equal(
        &rt,
        &"store in the last word",
        &memory.store(LAST, 0, 8, VALUE),
        &Err(StoreRefusal::NoMemory),
    );
    equal(&rt, &"the last word", &memory.load(LAST, 0, 8), &Ok(0));
    equal(&rt, &"store at 0", &memory.store(0, 0, 8, VALUE), &Ok(()));
    equal(&rt, &"at 0", &memory.load(0, 0, 8), &Ok(VALUE));
}

// 1,024 pages of which none was stored to stand in a heap that has no room for a piece, nor for the list of their pieces.
#[test]
fn fresh_pages_take_no_memory(rt: HostRuntime) {
    let heap = given(&rt, &"heap", LocalHeap::new(rt.alloc(), 1_000));
    for (pages, delta) in [(0, 1_024), (1, 1_023), (1_024, 0)] {
        let mut memory = given(&rt, &"memory", Linear::new(&heap, pages, PAGE_LIMIT));
        holds(&rt, &("growth by", delta), memory.grow(delta).is_ok());
        equal(&rt, &"size", &memory.size(), &1_024);
        equal(&rt, &"the last word", &memory.load(LAST, 0, 8), &Ok(0));
    }
}
