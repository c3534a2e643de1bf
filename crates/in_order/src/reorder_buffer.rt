//! What was run ahead of its turn and has come, by batches of positions.

ghost use Rattle.std.specs.Prelude.{IfOk, IfSome};
ghost use Rattle.in_order.specs.Queues.{IsQueueEndOf, IsReorderBufferOf};
ghost use Rattle.in_order.specs.Shares.{AreSpeculativeRunsOf};

use crate::InOrder;
use crate::line::{Batch, receive};
use crate::post::QueueEnd;
use crate::speculative_run::SpeculativeRuns;
use pace::Pace;
use spec_ledger::NoMemory;
use std::alloc::Allocator;
use std::mem;

/// What has come, by batch, and what was done.
#[derive(Drop)]
pub(crate) struct ReorderBuffer<'a, A: Allocator> {
    /// By batch, those that have come and were not taken.
    waiting: Vec<Option<SpeculativeRuns<'a, A>>, A>,
    /// Those that were done. (They are kept to the end: a thread that wants memory would wait for whoever gives memory of its own back.)
    emptied: Vec<SpeculativeRuns<'a, A>, A>,
}

/// A supply of nothing, with places for so many batches.
pub(crate) fn open_reorder_buffer<'a, A: Allocator + Copy, P: Pace>(
    job: &InOrder<'_, 'a, A, P>,
    places: usize,
) -> Result<ReorderBuffer<'a, A>, NoMemory>
    ensures { IfOk result (IsReorderBufferOf job.now.task) }
{
    let mut waiting = Vec::new(job.alloc);
    for _ in 0..places {
        waiting.push(None)?;
    }
    Ok(ReorderBuffer {
        waiting,
        emptied: Vec::with_capacity(job.alloc, places)?,
    })
}

/// Puts a batch in its place.
pub(crate) fn place<'a, A: Allocator + Copy, P: Pace>(
    _job: &InOrder<'_, 'a, A, P>,
    supply: &mut ReorderBuffer<'a, A>,
    batch: Batch<'a, A>,
)
    requires supply { IsReorderBufferOf _job.now.task supply.old }
    requires batch { AreSpeculativeRunsOf _job.now.task batch.share }
    ensures { IsReorderBufferOf _job.now.task supply.new }
{
    let Batch { nth, share } = batch;
    if nth < supply.waiting.len() {
        supply.waiting[nth] = Some(share);
    }
}

/// Puts the batches in their places that were handed over and wait.
pub(crate) fn take_in<'a, A: Allocator + Copy, P: Pace>(
    job: &InOrder<'_, 'a, A, P>,
    supply: &mut ReorderBuffer<'a, A>,
    post: &mut QueueEnd<'_, 'a, A>,
)
    requires supply { IsReorderBufferOf job.now.task supply.old }
    requires post { IsQueueEndOf job.now post.old }
    ensures supply { IsReorderBufferOf job.now.task supply.new }
    ensures post { IsQueueEndOf job.now post.new }
{
    for _ in 0..job.order.len() {
        let Some(batch) = receive(job, post) else {
            return;
        };
        place(job, supply, batch);
    }
}

/// Takes a batch out of its place, if it has come.
pub(crate) fn take_out<'a, A: Allocator + Copy, P: Pace>(
    _job: &InOrder<'_, 'a, A, P>,
    supply: &mut ReorderBuffer<'a, A>,
    nth: usize,
) -> Option<SpeculativeRuns<'a, A>>
    requires { IsReorderBufferOf _job.now.task supply.old }
    ensures supply { IsReorderBufferOf _job.now.task supply.new }
    ensures share { IfSome result (AreSpeculativeRunsOf _job.now.task) }
{
    if nth >= supply.waiting.len() {
        return None;
    }
    mem::replace(&mut supply.waiting[nth], None)
}

/// Keeps a batch that was done.
pub(crate) fn keep<'a, A: Allocator + Copy, P: Pace>(
    _job: &InOrder<'_, 'a, A, P>,
    supply: &mut ReorderBuffer<'a, A>,
    emptied: SpeculativeRuns<'a, A>,
) -> Result<(), NoMemory>
    requires { IsReorderBufferOf _job.now.task supply.old }
    ensures { IsReorderBufferOf _job.now.task supply.new }
{
    supply.emptied.push(emptied)?;
    Ok(())
}
