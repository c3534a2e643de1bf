//! The calls of an order, run ahead of their turn by threads and committed in order by one: the threads run over the cells as they know them, and the one
//! does each call by what it found and left when it was run ahead, or by running it again where it found other cells
//! ("speculative execution with in-order commit"). The miner of Dickerson, Gazzillo, Herlihy, Koskinen, "Adding Concurrency to Smart
//! Contracts", PODC 2017, section 4, runs calls speculatively; here the order is there before they run.
#![tactic(auto)]

mod ahead_of_turn;
mod leading;
mod line;
mod post;
mod reorder_buffer;
mod speculative_run;
mod straight;
mod turns;
mod working;

ghost use Rattle.std.specs.Prelude.{◌≡◌, ◌+◌, ◌<◌, ◌≤◌, [], IfOk, IfSome, length};
ghost use Rattle.in_order.specs.Progress.{IsKnown, IsNextRun, IsProgressOf};

use crate::leading::run_over;
use crate::straight::{Begun, begin_straight, run_straight};
use crate::turns::do_next;
use call::Call;
use interp::finished::Finished;
use link::deployed::Deployed as Contract;
use lock_profile::Touched;
use pace::Pace;
use serial::Runner;
use spec_ledger::{NoMemory, Receipt, Version};
use std::alloc::Allocator;
use std::sync::Wait;
use std::sync::atomic::{AtomicBool, AtomicU64, Ordering};
use std::thread::Threads;
use storage::Cells;

/// What is to be run: calls, over contracts, by the rules of a version.
#[derive(Clone, Copy)]
pub struct Task<'a, A: Allocator> {
    /// The contracts.
    pub contracts: &'a [Contract<A>],
    /// The calls.
    pub calls: &'a [Call],
    /// The version of the block.
    pub version: Version,
}

/// More batches than any order has.
const NO_MORE: u64 = u32::MAX as u64;

/// The calls of an order over cells, which threads run.
#[derive(Drop)]
pub struct InOrder<'s, 'a, A: Allocator, P: Pace> {
    /// Whose memory is taken.
    pub alloc: A,
    /// The calls.
    pub task: Task<'a, A>,
    /// Their numbers, by position.
    pub order: &'s [u32],
    /// The cells before the first call, which nobody changes.
    pub cells: &'s Cells<A>,
    /// Is told the beginning of each call that is run ahead of its turn, and of each that is run in its turn because nobody had run it ahead.
    pub pace: &'s P,
    /// How many batches of positions were drawn; more than any order has where nobody is to begin a further call ahead of its turn.
    drawn: AtomicU64,
    /// Whether nobody is to begin a further call, not in its turn either.
    is_stopped: AtomicBool,
    /// Whether a thread was refused memory.
    lacks_memory: AtomicBool,
}

impl<'s, 'a, A: Allocator, P: Pace> InOrder<'s, 'a, A, P> {
    /// An order of which nothing has run.
    pub fn new(
        alloc: A,
        task: Task<'a, A>,
        order: &'s [u32],
        cells: &'s Cells<A>,
        pace: &'s P,
    ) -> InOrder<'s, 'a, A, P>
        ensures alloc { result.alloc ≡ alloc }
        ensures task { result.task ≡ task.entry }
        ensures order { result.order ≡ order.entry }
        ensures cells { result.cells ≡ cells.entry }
        ensures pace { result.pace ≡ pace.entry }
    {
        InOrder {
            alloc,
            task,
            order,
            cells,
            pace,
            drawn: AtomicU64::new(0),
            is_stopped: AtomicBool::new(false),
            lacks_memory: AtomicBool::new(false),
        }
    }

    /// Nobody begins a further call of the order, ahead of its turn or in it, but by [`complete`] and [`go_on`].
    pub fn stop(&self) {
        self.is_stopped.store(true, Ordering::SeqCst);
        self.close();
    }

    /// Nobody begins a further call ahead of its turn.
    fn close(&self) {
        self.drawn.store(NO_MORE, Ordering::SeqCst);
    }
}

/// What the calls of the first positions came to.
#[derive(Drop)]
pub struct OrderProgress<A: Allocator> {
    /// The receipt at each position.
    pub receipts: Vec<Receipt, A>,
    /// The locks that the call at each position asked for, each with the join of its modes.
    pub touched: Vec<Touched<A>, A>,
    /// The cells after them, in which nothing is unsettled.
    pub cells: Cells<A>,
    /// How many of them were done by what they found and left, or by the replies that they got, when they were run ahead of their turn.
    pub ahead: u32,
}

/// Nothing has run. The cells are copied.
///
/// # Errors
///
/// Memory was refused.
pub fn begin<A: Allocator + Copy, P: Pace>(
    job: &InOrder<'_, '_, A, P>,
) -> Result<OrderProgress<A>, NoMemory>
    ensures ran { IfOk result (IsProgressOf job.now) }
    ensures none { IfOk result (λ ran. ran.receipts.items ≡ []) }
{
    Ok(OrderProgress {
        receipts: Vec::new(job.alloc),
        touched: Vec::new(job.alloc),
        cells: job.cells.copy(job.alloc)?,
        ahead: 0,
    })
}

/// Does the next call of the order with the cells: by this run of it, where there is one each of whose replies is that of the cells, and else by running it.
/// The pace is told nothing.
///
/// # Errors
///
/// Memory was refused.
pub fn go_on<'a, A: Allocator + Copy, P: Pace>(
    job: &InOrder<'_, 'a, A, P>,
    ran: OrderProgress<A>,
    run: Option<&Finished<'a, A>>,
) -> Result<OrderProgress<A>, NoMemory>
    requires known { IsKnown job.now }
    requires ran { IsProgressOf job.now ran }
    requires more { length ran.receipts.items < length job.now.order.now }
    requires run { IfSome run (λ finished. IsNextRun job.now ran finished.now) }
    ensures ran { IfOk result (IsProgressOf job.now) }
    ensures one { IfOk result (λ next. length next.receipts.items ≡ length ran.receipts.items + 1) }
{
    do_next(job, ran, None, &[], run, &mut Runner::new(job.alloc))
}

/// Does all further calls of the order, one after another, each by running it. A stopped order is completed, too. The pace is told nothing.
///
/// # Errors
///
/// Memory was refused.
pub fn complete<A: Allocator + Copy, P: Pace>(
    job: &InOrder<'_, '_, A, P>,
    mut ran: OrderProgress<A>,
) -> Result<OrderProgress<A>, NoMemory>
    requires known { IsKnown job.now }
    requires ran { IsProgressOf job.now ran }
    ensures ran { IfOk result (IsProgressOf job.now) }
    ensures whole { IfOk result (λ ran. length ran.receipts.items ≡ length job.now.order.now) }
{
    let mut runner = Runner::new(job.alloc);
    for _position in ran.receipts.len()..job.order.len() {
        ran = do_next(job, ran, None, &[], None, &mut runner)?;
    }
    Ok(ran)
}

/// Runs the calls of the order by at most so many threads, of which the caller's is one, and does the errand meanwhile, or before where no other thread is
/// started. Not all calls may have run: the order may be stopped ([`InOrder::stop`], which the errand may do), and the pace may stop the thread that does them.
///
/// # Errors
///
/// Memory was refused to the caller or to another thread. The errand is done all the same.
pub fn run_with<
    'a,
    R: Threads + Wait + Sync,
    A: Allocator + Copy + Send + Sync,
    P: Pace,
    T: Send + Drop,
    F: FnOnce() -> T + Send,
>(
    rt: &R,
    job: &InOrder<'_, 'a, A, P>,
    ran: OrderProgress<A>,
    workers: u32,
    errand: F,
) -> (T, Result<OrderProgress<A>, NoMemory>)
    requires known { IsKnown job.now }
    requires ran { IsProgressOf job.now ran }
    requires workers { 1 ≤ workers }
    requires errand { F.pre errand }
    ensures errand { F.post errand result.0 }
    ensures ran { IfOk result.1 (IsProgressOf job.now) }
{
    let mut runner = Runner::new(job.alloc);
    let begun = match begin_straight(job, &mut runner, ran, workers) {
        Ok(begun) => begun,
        Err(_) => return (errand(), Err(NoMemory)),
    };
    let Begun { ran, threads } = begun;
    if threads >= 2 {
        return run_over(rt, job, ran, threads, errand);
    }
    let told = errand();
    if threads == 0 {
        return (told, Ok(ran));
    }
    (told, run_straight(job, &mut runner, ran))
}
