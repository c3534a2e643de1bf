//! Calls in their turn, which the thread that does them runs straight over the cells.

ghost use Rattle.std.specs.Prelude.{◌≡◌, ◌+◌, ◌≤◌, IfOk, length};
ghost use Rattle.in_order.specs.Progress.{IsKnown, IsProgressOf};

use crate::turns::do_next;
use crate::{InOrder, OrderProgress};
use lock_profile::Touched;
use pace::{Pace, Step, must_stop_at, threads};
use serial::Runner;
use spec_ledger::{NoMemory, Receipt, goes_with};
use std::alloc::Allocator;
use std::sync::atomic::Ordering;

/// How many calls run before any thread is started, so that it is known how long they are.
const FIRST: usize = 16;

/// How many calls are run by one thread whatever they are.
const FEW: usize = 32;

/// How many times as many calls run before any thread is started, where each has to wait for the one before it: to start threads takes as long as some fifty short calls.
const CHAINED: usize = 32;

/// Tells the pace the beginning of a call, and asks whether it stops the thread.
pub(crate) fn must_stop_before<P: Pace>(pace: &P, call: u32) -> bool {
    must_stop_at(pace, Step::Attempt { call, nth: 0 })
}

/// What the calls of the first positions came to.
#[derive(Drop)]
pub(crate) struct StraightRun<A: Allocator> {
    pub(crate) ran: OrderProgress<A>,
    /// Whether the order or the thread was stopped.
    pub(crate) stops: bool,
}

/// Runs the next calls straight over the cells, up to a position, as long as neither the order nor the thread is stopped.
pub(crate) fn run_to<'a, A: Allocator + Copy, P: Pace>(
    job: &InOrder<'_, 'a, A, P>,
    runner: &mut Runner<'a, A>,
    mut ran: OrderProgress<A>,
    end: usize,
) -> Result<StraightRun<A>, NoMemory>
    requires known { IsKnown job.now }
    requires ran { IsProgressOf job.now ran }
    ensures { IfOk result (λ came. IsProgressOf job.now came.ran) }
{
    let end = end.min(job.order.len());
    for position in ran.receipts.len()..end {
        if job.is_stopped.load(Ordering::SeqCst)
            || must_stop_before(job.pace, job.order[position])
        {
            return Ok(StraightRun { ran, stops: true });
        }
        ran = do_next(job, ran, None, &[], None, runner)?;
    }
    Ok(StraightRun { ran, stops: false })
}

/// Runs all further calls straight over the cells, as long as neither the order nor the thread is stopped.
pub(crate) fn run_straight<'a, A: Allocator + Copy, P: Pace>(
    job: &InOrder<'_, 'a, A, P>,
    runner: &mut Runner<'a, A>,
    ran: OrderProgress<A>,
) -> Result<OrderProgress<A>, NoMemory>
    requires known { IsKnown job.now }
    requires ran { IsProgressOf job.now ran }
    ensures { IfOk result (IsProgressOf job.now) }
{
    let came = run_to(job, runner, ran, job.order.len())?;
    Ok(came.ran)
}

/// The fuel that calls used together, from a position on.
fn fuel_from(receipts: &[Receipt], position: usize) -> u64 {
    let mut fuel = 0u64;
    for at in position..receipts.len() {
        fuel = fuel.saturating_add(receipts[at].used);
    }
    fuel
}

/// Whether a call has to wait for another: they hold a lock in modes that do not go together.
fn has_to_wait<A: Allocator>(before: &Touched<A>, call: &Touched<A>) -> bool {
    let held = before.lock_modes();
    for wanted in call.lock_modes() {
        if let Ok(at) = held.binary_search_by_key(&wanted.lock, |it| it.lock) {
            if !goes_with(held[at].mode, wanted.mode) {
                return true;
            }
        }
    }
    false
}

/// Whether each call from a position on, but the first, has to wait for the one before it.
fn is_chain<A: Allocator>(touched: &[Touched<A>], from: usize) -> bool {
    for at in from..touched.len() {
        if at > from && !has_to_wait(&touched[at - 1], &touched[at]) {
            return false;
        }
    }
    true
}

/// What the first calls came to, and by how many threads the others run.
#[derive(Drop)]
pub(crate) struct Begun<A: Allocator> {
    pub(crate) ran: OrderProgress<A>,
    /// With the caller's; 0 where it was stopped.
    pub(crate) threads: u32,
}

/// Runs some calls straight, where there are so many that other threads may be wanted, and more as long as each has to wait for the one before it. Reckons by the last
/// of them how many threads are wanted.
pub(crate) fn begin_straight<'a, A: Allocator + Copy, P: Pace>(
    job: &InOrder<'_, 'a, A, P>,
    runner: &mut Runner<'a, A>,
    ran: OrderProgress<A>,
    workers: u32,
) -> Result<Begun<A>, NoMemory>
    requires known { IsKnown job.now }
    requires ran { IsProgressOf job.now ran }
    ensures ran { IfOk result (λ begun. IsProgressOf job.now begun.ran) }
{
    let left = job.order.len().saturating_sub(ran.receipts.len());
    if workers < 2 || left <= FEW {
        return Ok(Begun { ran, threads: 1 });
    }
    let mut came = StraightRun { ran, stops: false };
    for _ in 0..CHAINED {
        let done = came.ran.receipts.len();
        came = run_to(job, runner, came.ran, done.saturating_add(FIRST))?;
        if came.stops || !is_chain(&came.ran.touched, done) {
            break;
        }
    }
    let StraightRun { ran, stops } = came;
    if stops {
        return Ok(Begun { ran, threads: 0 });
    }
    let done = ran.receipts.len();
    let fuel = fuel_from(&ran.receipts, done.saturating_sub(FIRST));
    let left = job.order.len().saturating_sub(done);
    let threads = threads(workers, fuel, FIRST as u32, left as u32);
    Ok(Begun { ran, threads })
}
