//! By what a thread takes its part.

ghost use Rattle.lanes.specs.Passes.{IsPassOf};

use crate::line::{BatchPass, BatchQueue};
use news::News;
use std::alloc::Allocator;

/// By what a thread hands over the batches that it ran, or takes what others did, and what it knows of the cells.
#[derive(Drop)]
pub(crate) struct QueueEnd<'l, 'a, A: Allocator> {
    pub(crate) line: &'l BatchQueue<'a, A>,
    pub(crate) pass: BatchPass<'a, A>,
    pub(crate) news: &'l News<A>,
    /// The thread's number there.
    pub(crate) thread: usize,
    ghost is_pass: { IsPassOf line.now pass },
}
