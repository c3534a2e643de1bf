//! The thread that does the calls in their turn, while others run them ahead.

ghost use Rattle.std.specs.Prelude.{◌≡◌, ◌+◌, ◌<◌, ◌≤◌, All, IfOk, IfSome, length};
ghost use Rattle.in_order.specs.Progress.{IsKnown, IsProgressOf};
ghost use Rattle.in_order.specs.Queues.{IsQueueEndOf, IsReorderBufferOf};
ghost use Rattle.in_order.specs.Shares.{AreSpeculativeRunsOf, IsPreparedOf};

use crate::ahead_of_turn::{BatchRun, batch_of, draw, run_batch};
use crate::line::{BatchQueue, make_queue_ends};
use crate::post::QueueEnd;
use crate::reorder_buffer::{ReorderBuffer, keep, open_reorder_buffer, place, take_in, take_out};
use crate::speculative_run::{SpeculativeRun, SpeculativeRuns};
use crate::straight::{StraightRun, run_straight, run_to};
use crate::turns::do_next;
use crate::working::{work, work_all};
use crate::{InOrder, OrderProgress};
use news::{NO_BATCHES, News, Tally};
use pace::Pace;
use serial::Runner;
use spec_execution::Access;
use spec_ledger::NoMemory;
use std::alloc::Allocator;
use std::hint::spin_loop;
use std::sync::Wait;
use std::sync::atomic::Ordering;
use std::thread::{Threads, join};

/// How often the thread that does the calls looks for a batch that another has drawn, before it runs the calls itself.
const LOOKS: u32 = 100;

/// Takes the next call of a batch.
fn take_next<'a, A: Allocator + Copy, P: Pace>(
    _job: &InOrder<'_, 'a, A, P>,
    share: &mut SpeculativeRuns<'a, A>,
) -> Option<SpeculativeRun<A>>
    requires { AreSpeculativeRunsOf _job.now.task share.old }
    ensures next { IfSome result (IsPreparedOf _job.now.task share.new.accesses.items) }
    ensures share { AreSpeculativeRunsOf _job.now.task share.new }
{
    share.prepared.pop()
}

/// Does a call by its read-write set, or runs it again where it found other cells, and then tells what it changes.
fn do_and_tell<'a, A: Allocator + Copy, P: Pace>(
    job: &InOrder<'_, 'a, A, P>,
    runner: &mut Runner<'a, A>,
    ran: OrderProgress<A>,
    news: &News<A>,
    prepared: SpeculativeRun<A>,
    accesses: &[Access],
) -> Result<OrderProgress<A>, NoMemory>
    requires known { IsKnown job.now }
    requires ran { IsProgressOf job.now ran }
    requires more { length ran.receipts.items < length job.now.order.now }
    requires prepared { IsPreparedOf job.now.task accesses.now prepared }
    ensures ran { IfOk result (IsProgressOf job.now) }
    ensures one { IfOk result (λ next. length next.receipts.items ≡ length ran.receipts.items + 1) }
{
    let (done, ahead) = (ran.receipts.len(), ran.ahead);
    let next = do_next(job, ran, Some(prepared), accesses, None, runner)?;
    if next.ahead == ahead {
        news.tell(&next.touched, done, &next.cells);
    }
    Ok(next)
}

/// Does the calls of a batch by their read-write sets, and runs those again that found other cells, as long as the order is not stopped. Tells what these change.
fn do_batch<'a, A: Allocator + Copy, P: Pace>(
    job: &InOrder<'_, 'a, A, P>,
    runner: &mut Runner<'a, A>,
    mut ran: OrderProgress<A>,
    news: &News<A>,
    share: &mut SpeculativeRuns<'a, A>,
) -> Result<OrderProgress<A>, NoMemory>
    requires known { IsKnown job.now }
    requires ran { IsProgressOf job.now ran }
    requires share { AreSpeculativeRunsOf job.now.task share.old }
    ensures { IfOk result (IsProgressOf job.now) }
{
    for _position in ran.receipts.len()..job.order.len() {
        if job.is_stopped.load(Ordering::SeqCst) {
            return Ok(ran);
        }
        let Some(prepared) = take_next(job, share) else {
            return Ok(ran);
        };
        ran = do_and_tell(job, runner, ran, news, prepared, &share.accesses)?;
    }
    Ok(ran)
}

/// Runs the next calls straight over the cells, up to a position, and tells what they change.
fn run_and_tell<'a, A: Allocator + Copy, P: Pace>(
    job: &InOrder<'_, 'a, A, P>,
    runner: &mut Runner<'a, A>,
    ran: OrderProgress<A>,
    news: &News<A>,
    end: usize,
) -> Result<StraightRun<A>, NoMemory>
    requires known { IsKnown job.now }
    requires ran { IsProgressOf job.now ran }
    ensures { IfOk result (λ came. IsProgressOf job.now came.ran) }
{
    let done = ran.receipts.len();
    let came = run_to(job, runner, ran, end)?;
    news.tell(&came.ran.touched, done, &came.ran.cells);
    Ok(came)
}

/// Does a batch that has come, and keeps what is left of it.
fn do_share<'a, A: Allocator + Copy, P: Pace>(
    job: &InOrder<'_, 'a, A, P>,
    runner: &mut Runner<'a, A>,
    ran: OrderProgress<A>,
    supply: &mut ReorderBuffer<'a, A>,
    news: &News<A>,
    tally: &mut Tally,
    share: SpeculativeRuns<'a, A>,
) -> Result<StraightRun<A>, NoMemory>
    requires known { IsKnown job.now }
    requires ran { IsProgressOf job.now ran }
    requires supply { IsReorderBufferOf job.now.task supply.old }
    requires share { AreSpeculativeRunsOf job.now.task share }
    ensures ran { IfOk result (λ came. IsProgressOf job.now came.ran) }
    ensures supply { IsReorderBufferOf job.now.task supply.new }
{
    let mut share = share;
    let (done, ahead) = (ran.receipts.len(), ran.ahead);
    let ran = do_batch(job, runner, ran, news, &mut share)?;
    keep(job, supply, share)?;
    let calls = ran.receipts.len().saturating_sub(done) as u64;
    let ahead = u64::from(ran.ahead.saturating_sub(ahead));
    if tally.note(news, &job.drawn, calls, ahead) {
        job.close();
        return run_to(job, runner, ran, job.order.len());
    }
    Ok(StraightRun { ran, stops: false })
}

/// Takes a batch that another thread has drawn, where it comes soon.
fn look<'a, A: Allocator + Copy, P: Pace>(
    job: &InOrder<'_, 'a, A, P>,
    supply: &mut ReorderBuffer<'a, A>,
    post: &mut QueueEnd<'_, 'a, A>,
    nth: usize,
) -> Option<SpeculativeRuns<'a, A>>
    requires supply { IsReorderBufferOf job.now.task supply.old }
    requires post { IsQueueEndOf job.now post.old }
    ensures supply { IsReorderBufferOf job.now.task supply.new }
    ensures post { IsQueueEndOf job.now post.new }
    ensures share { IfSome result (AreSpeculativeRunsOf job.now.task) }
{
    for _ in 0..LOOKS {
        take_in(job, supply, post);
        let share = take_out(job, supply, nth);
        if share.is_some() {
            return share;
        }
        spin_loop();
    }
    None
}

/// Draws the next batch, if one is left and it is the one that is done next, or it pays to run it ahead.
fn draw_here<A: Allocator + Copy, P: Pace>(
    job: &InOrder<'_, '_, A, P>,
    news: &News<A>,
    tally: &Tally,
    nth: usize,
) -> Option<usize> {
    let is_next = job.drawn.load(Ordering::SeqCst) <= nth as u64;
    if is_next || tally.pays() && news.is_near(&job.drawn) {
        draw(job)
    } else {
        None
    }
}

/// Goes on by a batch: does the next one, where it has come, or runs one that is drawn, the next straight over the cells and another ahead of its turn. Where none
/// is left to draw and the next one does not come, the calls are run here all the same, and whoever runs them too runs them in vain.
fn lead_on<'a, A: Allocator + Copy, P: Pace>(
    job: &InOrder<'_, 'a, A, P>,
    runner: &mut Runner<'a, A>,
    ran: OrderProgress<A>,
    supply: &mut ReorderBuffer<'a, A>,
    post: &mut QueueEnd<'_, 'a, A>,
    tally: &mut Tally,
) -> Result<StraightRun<A>, NoMemory>
    requires known { IsKnown job.now }
    requires ran { IsProgressOf job.now ran }
    requires supply { IsReorderBufferOf job.now.task supply.old }
    requires post { IsQueueEndOf job.now post.old }
    ensures ran { IfOk result (λ came. IsProgressOf job.now came.ran) }
    ensures supply { IsReorderBufferOf job.now.task supply.new }
    ensures post { IsQueueEndOf job.now post.new }
{
    let size = batch_of(job.order.len());
    let position = ran.receipts.len();
    let nth = position / size;
    let end = nth.saturating_add(1).saturating_mul(size);
    if position % size != 0 {
        return run_and_tell(job, runner, ran, post.news, end);
    }
    take_in(job, supply, post);
    if let Some(share) = take_out(job, supply, nth) {
        return do_share(job, runner, ran, supply, post.news, tally, share);
    }
    if let Some(drawn) = draw_here(job, post.news, tally, nth) {
        if drawn == nth {
            return run_and_tell(job, runner, ran, post.news, end);
        }
        let BatchRun { batch, stops } = run_batch(job, post, runner, drawn)?;
        place(job, supply, batch);
        return Ok(StraightRun { ran, stops });
    }
    match look(job, supply, post, nth) {
        Some(share) => do_share(job, runner, ran, supply, post.news, tally, share),
        None => {
            tally.try_again();
            run_and_tell(job, runner, ran, post.news, end)
        }
    }
}

/// Goes on by a batch. Where threads are told from now on, some of the calls that are done are told, too.
fn lead_on_and_tell<'a, A: Allocator + Copy, P: Pace>(
    job: &InOrder<'_, 'a, A, P>,
    runner: &mut Runner<'a, A>,
    ran: OrderProgress<A>,
    supply: &mut ReorderBuffer<'a, A>,
    post: &mut QueueEnd<'_, 'a, A>,
    tally: &mut Tally,
) -> Result<StraightRun<A>, NoMemory>
    requires known { IsKnown job.now }
    requires ran { IsProgressOf job.now ran }
    requires supply { IsReorderBufferOf job.now.task supply.old }
    requires post { IsQueueEndOf job.now post.old }
    ensures ran { IfOk result (λ came. IsProgressOf job.now came.ran) }
    ensures supply { IsReorderBufferOf job.now.task supply.new }
    ensures post { IsQueueEndOf job.now post.new }
{
    let done = ran.receipts.len();
    let was_told = post.news.is_told();
    post.news.go_to(done / batch_of(job.order.len()));
    let came = lead_on(job, runner, ran, supply, post, tally)?;
    if !was_told {
        let from = post.news.first_told(came.ran.receipts.len());
        post.news.tell(&came.ran.touched, from, &came.ran.cells);
    }
    Ok(came)
}

/// Does the calls in their turn, batch by batch, until all are done or the order or the thread is stopped.
fn commit_in_order<'a, A: Allocator + Copy, P: Pace>(
    job: &InOrder<'_, 'a, A, P>,
    ran: OrderProgress<A>,
    mut post: QueueEnd<'_, 'a, A>,
) -> Result<OrderProgress<A>, NoMemory>
    requires known { IsKnown job.now }
    requires ran { IsProgressOf job.now ran }
    requires post { IsQueueEndOf job.now post }
    ensures { IfOk result (IsProgressOf job.now) }
{
    let places = job.order.len() / batch_of(job.order.len()) + 1;
    let mut supply = open_reorder_buffer(job, places)?;
    let mut tally = NO_BATCHES;
    let mut runner = Runner::new(job.alloc);
    let mut came = StraightRun { ran, stops: false };
    for _ in 0..2 * job.order.len() + 2 {
        let is_whole = came.ran.receipts.len() >= job.order.len();
        if is_whole || came.stops || job.is_stopped.load(Ordering::SeqCst) {
            break;
        }
        came = lead_on_and_tell(
            job,
            &mut runner,
            came.ran,
            &mut supply,
            &mut post,
            &mut tally,
        )?;
    }
    Ok(came.ran)
}

/// Does the calls in their turn. When that ends, nobody begins a further call ahead of its turn.
fn lead_and_close<'a, A: Allocator + Copy, P: Pace>(
    job: &InOrder<'_, 'a, A, P>,
    ran: OrderProgress<A>,
    post: QueueEnd<'_, 'a, A>,
) -> Result<OrderProgress<A>, NoMemory>
    requires known { IsKnown job.now }
    requires ran { IsProgressOf job.now ran }
    requires post { IsQueueEndOf job.now post }
    ensures { IfOk result (IsProgressOf job.now) }
{
    let led = commit_in_order(job, ran, post);
    job.close();
    led
}

/// Does the calls in their turn while a thread works at each post.
fn lead_beside<'a, R: Threads + Wait + Sync, A: Allocator + Copy + Send + Sync, P: Pace>(
    rt: &R,
    job: &InOrder<'_, 'a, A, P>,
    ran: OrderProgress<A>,
    posts: Vec<QueueEnd<'_, 'a, A>, A>,
    own: QueueEnd<'_, 'a, A>,
) -> Result<OrderProgress<A>, NoMemory>
    requires known { IsKnown job.now }
    requires ran { IsProgressOf job.now ran }
    requires posts { All (IsQueueEndOf job.now) posts.items }
    requires own { IsQueueEndOf job.now own }
    ensures { IfOk result (IsProgressOf job.now) }
{
    if posts.is_empty() {
        return lead_and_close(job, ran, own);
    }
    let ((), led) = join(
        rt,
        move ||
            requires { IsKnown job.now × All (IsQueueEndOf job.now) posts.items }
        { work_all(rt, job, posts) },
        move || -> Result<OrderProgress<A>, NoMemory>
            requires { IsKnown job.now × IsProgressOf job.now ran × IsQueueEndOf job.now own }
            ensures { IfOk result (IsProgressOf job.entry.now) }
        { lead_and_close(job, ran, own) },
    );
    led
}

/// Does an errand and then work in another thread, and leads meanwhile.
fn join_errand<
    R: Threads,
    T: Send + Drop,
    X: Drop,
    F: FnOnce() -> T + Send,
    W: FnOnce() + Send,
    L: FnOnce() -> X,
>(rt: &R, errand: F, work: W, commit_in_order: L) -> (T, X)
    requires errand { F.pre errand }
    requires work { W.pre work }
    requires commit_in_order { L.pre commit_in_order }
    ensures errand { F.post errand result.0 }
    ensures commit_in_order { L.post commit_in_order result.1 }
{
    join(
        rt,
        move || -> T
            requires { F.pre errand × W.pre work }
            ensures { F.post errand result }
        {
            let told = errand();
            work();
            told
        },
        commit_in_order,
    )
}

/// Does the calls in their turn while one thread does the errand and then works, and others work at once.
fn join_all<
    'a,
    R: Threads + Wait + Sync,
    A: Allocator + Copy + Send + Sync,
    P: Pace,
    T: Send + Drop,
    F: FnOnce() -> T + Send,
>(
    rt: &R,
    job: &InOrder<'_, 'a, A, P>,
    ran: OrderProgress<A>,
    posts: Vec<QueueEnd<'_, 'a, A>, A>,
    first: QueueEnd<'_, 'a, A>,
    own: QueueEnd<'_, 'a, A>,
    errand: F,
) -> (T, Result<OrderProgress<A>, NoMemory>)
    requires known { IsKnown job.now }
    requires ran { IsProgressOf job.now ran }
    requires posts { All (IsQueueEndOf job.now) posts.items }
    requires first { IsQueueEndOf job.now first }
    requires own { IsQueueEndOf job.now own }
    requires errand { F.pre errand }
    ensures errand { F.post errand result.0 }
    ensures ran { IfOk result.1 (IsProgressOf job.now) }
{
    join_errand(
        rt,
        errand,
        move ||
            requires { IsKnown job.now × IsQueueEndOf job.now first }
        { work(job, first) },
        move || -> Result<OrderProgress<A>, NoMemory>
            requires { IsKnown job.now × IsProgressOf job.now ran × All (IsQueueEndOf job.now) posts.items × IsQueueEndOf job.now own }
            ensures { IfOk result (IsProgressOf job.entry.now) }
        { lead_beside(rt, job, ran, posts, own) },
    )
}

/// Runs the calls by so many threads, one of which does the errand before.
pub(crate) fn run_over<
    'a,
    R: Threads + Wait + Sync,
    A: Allocator + Copy + Send + Sync,
    P: Pace,
    T: Send + Drop,
    F: FnOnce() -> T + Send,
>(
    rt: &R,
    job: &InOrder<'_, 'a, A, P>,
    ran: OrderProgress<A>,
    threads: u32,
    errand: F,
) -> (T, Result<OrderProgress<A>, NoMemory>)
    requires known { IsKnown job.now }
    requires ran { IsProgressOf job.now ran }
    requires threads { 2 ≤ threads }
    requires errand { F.pre errand }
    ensures errand { F.post errand result.0 }
    ensures ran { IfOk result.1 (IsProgressOf job.now) }
{
    let size = batch_of(job.order.len());
    let Ok((line, mut pass)) = BatchQueue::open(job.alloc, job.order.len() / size + 2, job.task)
    else {
        return (errand(), Err(NoMemory));
    };
    let Ok(news) = News::open(job.alloc, job.order.len(), threads) else {
        return (errand(), Err(NoMemory));
    };
    let line = &line;
    let news = &news;
    let own = QueueEnd {
        line,
        pass: line.another(&mut pass),
        news,
        thread: threads as usize - 2,
    };
    let Ok(posts) = make_queue_ends(job, line, &mut pass, news, threads - 2) else {
        return (errand(), Err(NoMemory));
    };
    let first = QueueEnd {
        line,
        pass,
        news,
        thread: threads as usize - 1,
    };
    let begun = ran.receipts.len().div_ceil(size) as u64;
    job.drawn.fetch_add(begun, Ordering::SeqCst);
    let (told, led) = join_all(rt, job, ran, posts, first, own, errand);
    if job.lacks_memory.load(Ordering::SeqCst) {
        return (told, Err(NoMemory));
    }
    (told, led)
}
