// Mining over contracts and cells.
ghost use Rattle.std.specs.Prelude.{◌≡◌, ◌≤◌, false, All, IfOk, IfSome, length};
ghost use Rattle.std.specs.FinMap as finite;
ghost use Rattle.spec_ledger.specs.Order.{IsAdmissible, first_fit};
ghost use Rattle.spec_execution.specs.Serial.{Serial};
ghost use Rattle.spec_ledger.specs.declared.Version.TheVariants.{Two};
ghost use Rattle.interp.specs.Callee.{setting_view};
ghost use Rattle.serial.specs.Positions.{results_of};
ghost use Rattle.book_workers.specs.Intakes.{IsSeatOf};
ghost use Rattle.publish.specs.Publication.{AreLeft, limits, fuel_of_results};
ghost use Rattle.book_workers.specs.CommittedRuns.{AreRuns};
ghost use Rattle.miner.specs.CallRuns.{IsSerialBook};

use crate::list_order::mine_in_order;
use crate::outcome::publish;
use crate::rest::{draw_rest, make_room};
use book_workers::{AdmissionLimit, Intake, Job, Seat, WorkerResult, work};
use boost::book::Closed;
use call::Call;
use link::deployed::Deployed as Contract;
use lock_profile::Touched;
use pace::Pace;
use sharding::CloseRefusal;
use shards::{NoGate, Shards};
use spec_ledger::{NoMemory, Receipt};
use std::alloc::{Allocator, Global};
use std::sync::Wait;
use std::thread;
use std::thread::Threads;
use storage::Cells;

/// What was mined.
#[derive(Drop)]
pub struct MinedCore<A: Allocator = Global> {
    /// The numbers of the calls, by position.
    pub order: Vec<u32, A>,
    /// The receipt at each position.
    pub receipts: Vec<Receipt, A>,
    /// The locks that the call at each position asked for, each with the join of its modes.
    pub touched: Vec<Touched<A>, A>,
    /// The cells after the last call, in which nothing is unsettled.
    pub cells: Cells<A>,
    /// The fuel that the calls used together.
    pub fuel: u64,
    /// The numbers of the calls outside the order, rising.
    pub left: Vec<u32, A>,
    /// How many calls of the order came of threads at once: those that workers committed in the book, or those that were done by what they had found and left when they ran ahead of their turn.
    /// The caller ran the others, each in its turn.
    pub by_workers: u32,
}

/// Runs calls over contracts and cells, and publishes an order of them that is admissible. The receipts, locks and cells are those of its calls run one after another in that
/// order, whatever threads do at once.
///
/// The order is the list's: each call has its turn as it stands in the list, and joins where its limit is within the fuel that is left. At most so many threads run the calls of the order ahead of their turn,
/// over the cells as they were given, and the calling thread, which is one of them, does them with the cells in that order (`in_order`). Where the pace stops it, the calls that remain run alone, and
/// the pace is told nothing more.
///
/// Under a pace that watches, this many workers, of which the calling thread is one, run the calls over one book, and the order is that in which they commit them. A worker draws the least call that no
/// worker has drawn, reserves its limit of the block's fuel, and tries it at most so often; a try ends when an operation does not go with what another live attempt has done. The pace is told each step,
/// and may stop the worker there: it undoes its live attempt and ends. When the workers have ended, the caller draws the calls that nobody drew. Then these and the calls that were tried in vain or
/// stopped run alone in rising number, and then each other call that still has room. The book is in so many shards, each behind a lock of its own. Where these are not parts of one book at its end, no
/// run stands, and all calls that have room run alone in rising number.
///
/// # Errors
///
/// Memory was refused to the caller or to another thread.
pub fn mine_core<'a, R: Threads + Wait + Sync, A: Allocator + Copy + Send + Sync, P: Pace>(
    rt: &R,
    alloc: A,
    contracts: &'a [Contract<A>],
    cells: &Cells<A>,
    calls: &'a [Call],
    block_fuel: u64,
    workers: u32,
    tries: u32,
    pace: &P,
    shards: u32,
) -> Result<MinedCore<A>, NoMemory>
    requires calls { length calls.now ≤ 65535 }
    requires workers { (1 ≤ workers) × (workers ≤ 64) }
    requires tries { (1 ≤ tries) × (tries ≤ 16) }
    requires shards { (1 ≤ shards) × (shards ≤ 16) }
    ensures serial { IfOk result (λ core. Serial (setting_view Two contracts.now) calls.now core.order.items cells.now.cells (results_of core.receipts.items core.touched.items) core.cells.cells) }
    ensures admissible { IfOk result (λ core. IsAdmissible (limits calls.now) core.order.items block_fuel) }
    ensures order { IfOk result (λ core. P.watching pace.now ≡ false → core.order.items ≡ first_fit (limits calls.now) block_fuel) }
    ensures receipts { IfOk result (λ core. length core.receipts.items ≡ length core.order.items) }
    ensures touched { IfOk result (λ core. length core.touched.items ≡ length core.order.items) }
    ensures settled { IfOk result (λ core. core.cells.unsettled ≡ finite.empty) }
    ensures fuel { IfOk result (λ core. core.fuel ≡ fuel_of_results (results_of core.receipts.items core.touched.items)) }
    ensures left { IfOk result (λ core. AreLeft core.order.items (length calls.now) core.left.items) }
    ensures by_workers { IfOk result (λ core. core.by_workers ≤ length core.order.items) }
{
    if pace.watches() {
        return mine_over_book(
            rt, alloc, contracts, cells, calls, block_fuel, workers, tries, pace, shards,
        );
    }
    mine_in_order(
        rt, alloc, contracts, cells, calls, block_fuel, workers, pace,
    )
}

/// Mines by workers over one book, in so many shards. The order is that in which they commit the calls.
fn mine_over_book<'a, R: Threads + Wait + Sync, A: Allocator + Copy + Send + Sync, P: Pace>(
    rt: &R,
    alloc: A,
    contracts: &'a [Contract<A>],
    cells: &Cells<A>,
    calls: &'a [Call],
    block_fuel: u64,
    workers: u32,
    tries: u32,
    pace: &P,
    shards: u32,
) -> Result<MinedCore<A>, NoMemory>
    requires calls { length calls.now ≤ 65535 }
    requires workers { (1 ≤ workers) × (workers ≤ 64) }
    requires tries { (1 ≤ tries) × (tries ≤ 16) }
    requires shards { (1 ≤ shards) × (shards ≤ 16) }
    ensures serial { IfOk result (λ core. Serial (setting_view Two contracts.now) calls.now core.order.items cells.now.cells (results_of core.receipts.items core.touched.items) core.cells.cells) }
    ensures admissible { IfOk result (λ core. IsAdmissible (limits calls.now) core.order.items block_fuel) }
    ensures receipts { IfOk result (λ core. length core.receipts.items ≡ length core.order.items) }
    ensures touched { IfOk result (λ core. length core.touched.items ≡ length core.order.items) }
    ensures settled { IfOk result (λ core. core.cells.unsettled ≡ finite.empty) }
    ensures fuel { IfOk result (λ core. core.fuel ≡ fuel_of_results (results_of core.receipts.items core.touched.items)) }
    ensures left { IfOk result (λ core. AreLeft core.order.items (length calls.now) core.left.items) }
    ensures by_workers { IfOk result (λ core. core.by_workers ≤ length core.order.items) }
{
    let count = calls.len() as u32;
    let book = Shards::open(alloc, cells.copy(alloc)?, count, shards, &NoGate)?;
    let Ok((intake, mut seats)) = Intake::open(alloc, count, block_fuel, workers + 1) else {
        return Err(NoMemory);
    };
    let Some(own) = seats.pop() else {
        unreachable!()
    };
    let admission = AdmissionLimit::new(workers);
    let (worked, rest) = {
        let job = Job {
            alloc,
            contracts,
            calls,
            book: &book,
            intake: &intake,
            pace,
            tries,
            admission: &admission,
        };
        let worked = run_workers(rt, &job, seats)?;
        (worked, draw_rest(rt, alloc, calls, &intake, own))
    };
    let closed = close(book, cells);
    publish(
        alloc, contracts, calls, cells, block_fuel, closed, worked, rest,
    )
}

/// What is left of the book. None where its shards are not parts of one book: then no run stands.
fn close<A: Allocator + Copy>(
    book: Shards<'_, NoGate, A>,
    _cells: &Cells<A>,
) -> Result<Option<Closed<A>>, NoMemory>
    requires { book.opening ≡ _cells.now.cells }
    ensures { IfOk result (λ closed. IfSome closed (IsSerialBook _cells.now.cells)) }
{
    match book.close() {
        Ok(closed) => Ok(Some(closed)),
        Err(CloseRefusal::Differs) => Ok(None),
        Err(CloseRefusal::NoMemory) => Err(NoMemory),
    }
}

/// What the workers hand back, one for each seat.
fn run_workers<'a, R: Threads + Wait + Sync, A: Allocator + Copy + Send + Sync, P: Pace>(
    rt: &R,
    job: &Job<'_, 'a, A, P>,
    seats: Vec<Seat, A>,
) -> Result<Vec<Result<WorkerResult<'a, A>, NoMemory>, A>, NoMemory>
    requires calls { job.now.intake.now.limits.calls ≡ length job.now.calls.now }
    requires seats { All (IsSeatOf job.now.intake.now) seats.items }
    ensures { IfOk result (λ parts. All (λ part. IfOk part (AreRuns (setting_view Two job.now.contracts.now) job.now.calls.now)) parts.items) }
{
    let parts = thread::map_vec(
        rt,
        seats,
        &|seat: Seat| -> Result<WorkerResult<A>, NoMemory>
            requires { (job.now.intake.now.limits.calls ≡ length job.now.calls.now) × IsSeatOf job.now.intake.now seat }
            ensures { IfOk result (AreRuns (setting_view Two job.entry.now.contracts.now) job.entry.now.calls.now) }
        {
            make_room(job.alloc, job.calls.len())?;
            work(rt, job, seat)
        },
    )?;
    Ok(parts)
}
