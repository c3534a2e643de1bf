//! Batches of calls that are run ahead of their turn.

ghost use Rattle.std.specs.Prelude.{◌<◌, IfOk, OnOk, length};
ghost use Rattle.in_order.specs.Progress.{IsKnown};
ghost use Rattle.in_order.specs.Shares.{AreSpeculativeRunsOf};

use crate::line::Batch;
use crate::post::QueueEnd;
use crate::speculative_run::{SpeculativeRuns, open_speculative_runs, run_speculatively};
use crate::straight::must_stop_before;
use crate::{InOrder, NO_MORE};
use pace::Pace;
use serial::Runner;
use spec_ledger::NoMemory;
use std::alloc::Allocator;
use std::sync::atomic::Ordering;

/// From how many calls on the batches are large.
const MANY: usize = 512;

/// How many positions a thread takes at a time, of an order of so many.
pub(crate) fn batch_of(len: usize) -> usize
    ensures { 0 < result }
{
    if len >= MANY { 32 } else { 4 }
}

/// Draws the next batch, if one is left.
pub(crate) fn draw<A: Allocator + Copy, P: Pace>(job: &InOrder<'_, '_, A, P>) -> Option<usize> {
    let nth = job.drawn.fetch_add(1, Ordering::SeqCst) as usize;
    if nth > job.order.len() / batch_of(job.order.len()) {
        return None;
    }
    Some(nth)
}

/// A batch that was run.
#[derive(Drop)]
pub(crate) struct BatchRun<'a, A: Allocator> {
    pub(crate) batch: Batch<'a, A>,
    /// Whether the pace stops the thread.
    pub(crate) stops: bool,
}

/// Runs a call ahead of its turn, over the cells as this thread knows them.
fn run_call<'a, A: Allocator + Copy, P: Pace>(
    job: &InOrder<'_, 'a, A, P>,
    post: &QueueEnd<'_, '_, A>,
    runner: &mut Runner<'a, A>,
    call: u32,
    share: &mut SpeculativeRuns<'_, A>,
) -> Result<(), NoMemory>
    requires call { call < length job.now.task.calls.now }
    requires share { AreSpeculativeRunsOf job.now.task share.old }
    ensures { OnOk result (AreSpeculativeRunsOf job.now.task share.new) }
{
    let view = post.news.view(post.thread, job.cells);
    let from = share.accesses.len();
    run_speculatively(runner, &job.task, &view, call, share)?;
    view.note(&share.accesses, from);
    Ok(())
}

/// Runs the calls of a batch, as long as calls are run ahead of their turn. Answers whether the pace stops the thread.
fn run_calls<'a, A: Allocator + Copy, P: Pace>(
    job: &InOrder<'_, 'a, A, P>,
    post: &QueueEnd<'_, '_, A>,
    runner: &mut Runner<'a, A>,
    nth: usize,
    share: &mut SpeculativeRuns<'_, A>,
) -> Result<bool, NoMemory>
    requires known { IsKnown job.now }
    requires share { AreSpeculativeRunsOf job.now.task share.old }
    ensures { OnOk result (AreSpeculativeRunsOf job.now.task share.new) }
{
    let size = batch_of(job.order.len());
    for offset in 0..size {
        let position = nth.saturating_mul(size).saturating_add(offset);
        if position >= job.order.len() || job.drawn.load(Ordering::SeqCst) >= NO_MORE {
            return Ok(false);
        }
        let call = job.order[position];
        if must_stop_before(job.pace, call) {
            return Ok(true);
        }
        run_call(job, post, runner, call, share)?;
    }
    Ok(false)
}

/// Runs a batch.
pub(crate) fn run_batch<'a, A: Allocator + Copy, P: Pace>(
    job: &InOrder<'_, 'a, A, P>,
    post: &QueueEnd<'_, '_, A>,
    runner: &mut Runner<'a, A>,
    nth: usize,
) -> Result<BatchRun<'a, A>, NoMemory>
    requires { IsKnown job.now }
    ensures { IfOk result (λ made. AreSpeculativeRunsOf job.now.task made.batch.share) }
{
    let mut share = open_speculative_runs(job.alloc, job.task, batch_of(job.order.len()))?;
    post.news.begin_batch(post.thread);
    let stops = run_calls(job, post, runner, nth, &mut share)?;
    share.prepared.reverse();
    Ok(BatchRun {
        batch: Batch { nth, share },
        stops,
    })
}
