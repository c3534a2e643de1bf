//! Threads that run batches of calls ahead of their turn.

ghost use Rattle.std.specs.Prelude.{All};
ghost use Rattle.in_order.specs.Progress.{IsKnown};
ghost use Rattle.in_order.specs.Queues.{IsQueueEndOf};

use crate::InOrder;
use crate::ahead_of_turn::{BatchRun, draw, run_batch};
use crate::line::hand_over;
use crate::post::QueueEnd;
use pace::Pace;
use serial::Runner;
use std::alloc::Allocator;
use std::sync::Wait;
use std::sync::atomic::Ordering;
use std::thread;
use std::thread::Threads;

/// Notes that a thread was refused memory. Nobody begins a further call.
fn note_want<A: Allocator, P: Pace>(job: &InOrder<'_, '_, A, P>) {
    job.lacks_memory.store(true, Ordering::SeqCst);
    job.stop();
}

/// Runs batches and hands them over, until none is left, the pace stops the thread or it is refused memory.
pub(crate) fn work<'a, A: Allocator + Copy, P: Pace>(
    job: &InOrder<'_, 'a, A, P>,
    mut post: QueueEnd<'_, 'a, A>,
)
    requires known { IsKnown job.now }
    requires post { IsQueueEndOf job.now post }
{
    let mut runner = Runner::new(job.alloc);
    for _ in 0..job.order.len() {
        post.news.wait(&job.drawn);
        let Some(nth) = draw(job) else {
            return;
        };
        let Ok(made) = run_batch(job, &post, &mut runner, nth) else {
            note_want(job);
            return;
        };
        let BatchRun { batch, stops } = made;
        hand_over(job, &mut post, batch);
        if stops {
            return;
        }
    }
}

/// Lets a thread work at each post.
pub(crate) fn work_all<'a, R: Threads + Wait + Sync, A: Allocator + Copy + Send + Sync, P: Pace>(
    rt: &R,
    job: &InOrder<'_, 'a, A, P>,
    posts: Vec<QueueEnd<'_, 'a, A>, A>,
)
    requires known { IsKnown job.now }
    requires posts { All (IsQueueEndOf job.now) posts.items }
{
    let worked = thread::map_vec(
        rt,
        posts,
        &|post: QueueEnd<A>|
            requires { IsKnown job.now × IsQueueEndOf job.now post }
        { work(job, post) },
    );
    if worked.is_err() {
        note_want(job);
    }
}
