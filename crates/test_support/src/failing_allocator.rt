//! An allocator over another one, with a ration: it gives so many blocks, and then refuses one or all.

use std::alloc::{AllocError, Allocator, Global};
use std::sync::atomic::{AtomicU64, Ordering};

/// An allocator that gives so many blocks, and then refuses the next one, or all from then on. Each block that is asked for, also to
/// grow one, takes one from what is left; with none left it is refused. A block that is given back is not given again.
/// A `&` to it is an allocator too, which is copied, and which threads share.
#[derive(Drop)]
pub struct Ration<B: Allocator = Global> {
    heap: B,
    count: Count,
}

/// What was asked for, and what is refused.
#[derive(Drop)]
struct Count {
    /// How many blocks are still given.
    left: AtomicU64,
    /// How many were asked for with none left.
    beyond: AtomicU64,
    /// Whether only the first of these is refused.
    is_one: bool,
}

impl<B: Allocator> Ration<B> {
    /// A ration of so many blocks of the allocator `heap`. All after them are refused.
    pub fn new(heap: B, blocks: u64) -> Ration<B> {
        Ration {
            heap,
            count: count_of(blocks, false),
        }
    }

    /// So many blocks of the allocator `heap`. The one after them is refused, and all others are given.
    pub fn refusing_one(heap: B, blocks: u64) -> Ration<B> {
        Ration {
            heap,
            count: count_of(blocks, true),
        }
    }

    /// How many blocks are still given before one is refused. Another thread may take one at any time.
    pub fn left(&self) -> u64 {
        self.count.left.load(Ordering::SeqCst)
    }

    /// Whether a block was refused. Another thread may be refused one at any time.
    pub fn has_refused(&self) -> bool {
        self.count.beyond.load(Ordering::SeqCst) > 0
    }
}

fn count_of(blocks: u64, is_one: bool) -> Count {
    Count {
        left: AtomicU64::new(blocks),
        beyond: AtomicU64::new(0),
        is_one,
    }
}

// Takes one from what is left, and answers whether it is refused.
fn refuses(count: &Count) -> bool {
    let taken = count
        .left
        .fetch_update(Ordering::SeqCst, Ordering::SeqCst, |blocks| {
            blocks.checked_sub(1)
        });
    if taken.is_ok() {
        return false;
    }
    let before = count.beyond.fetch_add(1, Ordering::SeqCst);
    before == 0 || !count.is_one
}

unsafe impl<B: Allocator> Allocator for Ration<B> {
    ghost dealloc_token = { λ ration ty ptr. B.dealloc_token ration.heap ty ptr };

    fn allocate(&self, size: usize, align: usize) -> Result<*mut u8, AllocError> {
        if refuses(&self.count) {
            return Err(AllocError);
        }
        self.heap.allocate(size, align)
    }

    unsafe fn deallocate(&self, ptr: *mut u8, size: usize, align: usize) {
        self.heap.deallocate(ptr, size, align);
    }
}
