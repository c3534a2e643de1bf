// The right to act for an attempt.
ghost use Rattle.std.specs.Prelude.{◌≡◌, ◌<◌, [], true, false, IsTrue, ◌↔◌, replicate, slice_index_or, slice_set};

use crate::marks::Marks;
use std::alloc::{Allocator, Global};

/// The most shards that a book may have.
pub(crate) const MOST: usize = 16;

/// The right to act for an attempt: its call, its number, by shard whether it has done an operation there, and the marks of its levels. It is of a kind that
/// cannot be copied.
#[derive(Debug, Drop)]
pub struct Ticket<A: Allocator = Global> {
    pub(crate) call: u32,
    pub(crate) number: u64,
    pub(crate) touched: [bool; 16],
    pub(crate) marks: Marks<A>,
}

impl<A: Allocator + Copy> Ticket<A> {
    /// The ticket of an attempt that has done nothing.
    pub(crate) fn new(alloc: A, call: u32, number: u64) -> Self
        ensures call { result.call ≡ call }
        ensures number { result.number ≡ number }
        ensures touched { result.touched ≡ replicate 16 false }
        ensures marks { result.marks ≡ [] }
    {
        Ticket {
            call,
            number,
            touched: [false; MOST],
            marks: Marks::new(alloc),
        }
    }

    /// The call of its attempt.
    pub fn call(&self) -> u32
        ensures { result ≡ self.now.call }
    {
        self.call
    }

    /// The number of its attempt.
    pub fn number(&self) -> u64
        ensures { result ≡ self.now.number }
    {
        self.number
    }

    /// Whether its attempt has done an operation in a shard. No shard from 16 on is one.
    pub(crate) fn has_touched(&self, shard: usize) -> bool
        ensures { result ≡ slice_index_or self.now.touched shard false }
    {
        if shard >= MOST {
            return false;
        }
        self.touched[shard]
    }

    /// Notes that its attempt has done an operation in a shard.
    pub(crate) fn touch(&mut self, shard: u32)
        requires { shard < 16 }
        ensures call { self.new.call ≡ self.old.call }
        ensures number { self.new.number ≡ self.old.number }
        ensures touched { self.new.touched ≡ slice_set self.old.touched shard true }
        ensures marks { self.new.marks ≡ self.old.marks }
    {
        self.touched[shard as usize] = true;
    }
}
