//! Where threads hand over the batches of calls that they ran ahead of their turn.

ghost use Rattle.std.specs.Prelude.{◌≡◌, All, IfOk, IfSome};
ghost use Rattle.lanes.specs.Passes.{IsPassOf};
ghost use Rattle.in_order.specs.Queues.{IsQueueEndOf};
ghost use Rattle.in_order.specs.Shares.{AreSpeculativeRunsOf};

use crate::post::QueueEnd;
use crate::speculative_run::SpeculativeRuns;
use crate::{InOrder, Task};
use lanes::{ItemFact, QueuePass, TypedQueue};
use news::News;
use pace::Pace;
use spec_ledger::NoMemory;
use std::alloc::Allocator;
use std::hint::spin_loop;

/// How often a thread tries to hand a batch over while another is in the way.
const TRIES: u32 = 10_000;

/// The calls of a batch of positions, the last first.
#[derive(Drop)]
pub(crate) struct Batch<'a, A: Allocator> {
    /// How many batches come before it.
    pub(crate) nth: usize,
    pub(crate) share: SpeculativeRuns<'a, A>,
}

/// Where the threads hand over the batches that they ran.
pub(crate) type BatchQueue<'a, A> = TypedQueue<Task<'a, A>, Batch<'a, A>, ReadWriteSets, A>;

/// By what a thread calls there.
pub(crate) type BatchPass<'a, A> = QueuePass<Task<'a, A>, Batch<'a, A>>;

/// That what is handed over are read-write sets of calls of the task.
pub(crate) struct ReadWriteSets;

impl<'a, A: Allocator> ItemFact<Task<'a, A>, Batch<'a, A>> for ReadWriteSets {
    ghost use Rattle.in_order.specs.Shares.{AreSpeculativeRunsOf};

    ghost holds = { λ task batch. AreSpeculativeRunsOf task batch.share };
}

/// Hands a batch over. It is dropped where another thread is in the way for too long.
pub(crate) fn hand_over<'a, A: Allocator + Copy, P: Pace>(
    _job: &InOrder<'_, 'a, A, P>,
    post: &mut QueueEnd<'_, 'a, A>,
    batch: Batch<'a, A>,
)
    requires post { IsQueueEndOf _job.now post.old }
    requires batch { AreSpeculativeRunsOf _job.now.task batch.share }
    ensures { IsQueueEndOf _job.now post.new }
{
    let mut next = batch;
    for _ in 0..TRIES {
        let Err(back) = post.line.give(&mut post.pass, next) else {
            return;
        };
        next = back;
        spin_loop();
    }
}

/// Takes a batch that a thread handed over.
pub(crate) fn receive<'a, A: Allocator + Copy, P: Pace>(
    _job: &InOrder<'_, 'a, A, P>,
    post: &mut QueueEnd<'_, 'a, A>,
) -> Option<Batch<'a, A>>
    requires { IsQueueEndOf _job.now post.old }
    ensures post { IsQueueEndOf _job.now post.new }
    ensures batch { IfSome result (λ batch. AreSpeculativeRunsOf _job.now.task batch.share) }
{
    post.line.take(&mut post.pass)
}

/// A post for each of so many threads.
pub(crate) fn make_queue_ends<'l, 'a, A: Allocator + Copy, P: Pace>(
    job: &InOrder<'_, 'a, A, P>,
    line: &'l BatchQueue<'a, A>,
    own: &mut BatchPass<'a, A>,
    news: &'l News<A>,
    count: u32,
) -> Result<Vec<QueueEnd<'l, 'a, A>, A>, NoMemory>
    requires task { line.now.key ≡ job.now.task }
    requires own { IsPassOf line.now own.old }
    ensures own { IsPassOf line.now own.new }
    ensures posts { IfOk result (λ posts. All (IsQueueEndOf job.now) posts.items) }
{
    let mut posts = Vec::new(job.alloc);
    for thread in 0..count {
        let pass = line.another(own);
        posts.push(QueueEnd {
            line,
            pass,
            news,
            thread: thread as usize,
        })?;
    }
    Ok(posts)
}
