//! The calls of a block, each run once its predecessors have ended, as the paper's fork-join program runs them.

ghost use Rattle.std.specs.Prelude.{◌≡◌, ◌≤◌, IfOk, IfSome, OnOk, length};
ghost use Rattle.in_order.specs.Progress.{IsProgressOf};
ghost use Rattle.validator.specs.PositionRuns.{AreFound, AreMade, ArePartsMade, IsMade, IsRunAt};
ghost use Rattle.validator.specs.Jobs.{IsJob};
ghost use Rattle.validator.specs.Trials.{IsFit};

use crate::attempt::attempt;
use crate::job::{Job, PositionResult, PositionRun, WorkerRuns};
use crate::profile::profiles_of;
use crate::shared::Shared;
use in_order::{OrderProgress, begin, go_on};
use interp::finished::Finished;
use lanes::{Lane, Thief, lanes};
use pace::Pace;
use schedule::{Board, Graph};
use spec_ledger::NoMemory;
use std::alloc::Allocator;
use std::sync::atomic::{AtomicBool, AtomicU64, Ordering};
use std::sync::{Mutex, Wait};
use std::thread;
use std::thread::Threads;
use storage::Ahead;

/// The runs of all workers.
type AllWorkerRuns<'a, A> = Vec<Result<WorkerRuns<'a, A>, NoMemory>, A>;

/// A position that may start: of the worker's own lane, and else of another.
fn find<A: Allocator>(lane: &mut Lane<A>, thief: &mut Thief<A>) -> Option<u32> {
    if let Some(position) = lane.take() {
        return Some(position);
    }
    thief.steal()
}

/// Runs the call of a position, keeps the run, and ends the position, also where there is no run of it. Answers whether the worker stops.
#[tactic(auto, using(crate::proofs::Runs::one_more_made))]
fn work_on<'a, R: Wait, A: Allocator + Copy, P: Pace>(
    rt: &R,
    job: &Job<'_, 'a, A, P>,
    shared: &Shared<A>,
    lane: &mut Lane<A>,
    made: &mut Vec<PositionRun<'a, A>, A>,
    position: u32,
) -> Result<bool, NoMemory>
    requires job { IsJob job.now }
    requires made { AreMade job.now made.old.items }
    ensures { OnOk result (AreMade job.now made.new.items) }
{
    let PositionResult { run, stops } = attempt(rt, job, &shared.ahead, position)?;
    if let Some(run) = run {
        made.push(run)?;
    }
    shared.pass_on(rt, job.ordered.alloc, lane, position)?;
    Ok(stops)
}

/// Runs the calls of positions that may start, until every position has ended, some worker gave up, or the pace stops this one. With nothing
/// to do it looks again. What a stopped worker leaves in its lane is stolen by the others; where all are stopped it has no run.
fn work_through<'a, R: Wait, A: Allocator + Copy, P: Pace>(
    rt: &R,
    job: &Job<'_, 'a, A, P>,
    shared: &Shared<A>,
    mut lane: Lane<A>,
    mut thief: Thief<A>,
) -> Result<WorkerRuns<'a, A>, NoMemory>
    requires { IsJob job.now }
    ensures { IfOk result (λ part. AreMade job.now part.made.items) }
{
    let mut made = Vec::new(job.ordered.alloc);
    for _ in rt.forever() {
        if shared.is_over() {
            break;
        }
        match find(&mut lane, &mut thief) {
            Some(position) => {
                if work_on(rt, job, shared, &mut lane, &mut made, position)? {
                    break;
                }
            }
            None => thread::yield_now(),
        }
    }
    Ok(WorkerRuns {
        contracts: job.ordered.task.contracts,
        made,
    })
}

/// The same. A worker that wants memory tells the others.
fn work<'a, R: Wait, A: Allocator + Copy, P: Pace>(
    rt: &R,
    job: &Job<'_, 'a, A, P>,
    shared: &Shared<A>,
    lane: Lane<A>,
    thief: Thief<A>,
) -> Result<WorkerRuns<'a, A>, NoMemory>
    requires { IsJob job.now }
    ensures { IfOk result (λ part. AreMade job.now part.made.items) }
{
    let worked = work_through(rt, job, shared, lane, thief);
    if worked.is_err() {
        shared.given_up.store(true, Ordering::SeqCst);
    }
    worked
}

/// Notes a run by its position.
fn note<'a, A: Allocator + Copy, P: Pace>(
    _job: &Job<'_, 'a, A, P>,
    runs: &mut Vec<Option<PositionRun<'a, A>>, A>,
    made: PositionRun<'a, A>,
)
    requires runs { AreFound _job.now runs.old.items }
    requires made { IsMade _job.now made }
    ensures { AreFound _job.now runs.new.items }
{
    let position = made.position as usize;
    if position < runs.len() {
        runs[position] = Some(made);
    }
}

/// Notes a worker's runs.
fn take_part<'a, A: Allocator + Copy, P: Pace>(
    job: &Job<'_, 'a, A, P>,
    runs: &mut Vec<Option<PositionRun<'a, A>>, A>,
    mut part: Vec<PositionRun<'a, A>, A>,
)
    requires runs { AreFound job.now runs.old.items }
    requires part { AreMade job.now part.items }
    ensures { AreFound job.now runs.new.items }
{
    while let Some(made) = part.pop() {
        note(job, runs, made);
    }
}

/// Notes the runs of all workers. An Err of one is that of all.
fn take_in<'a, A: Allocator + Copy, P: Pace>(
    job: &Job<'_, 'a, A, P>,
    runs: &mut Vec<Option<PositionRun<'a, A>>, A>,
    mut parts: AllWorkerRuns<'a, A>,
) -> Result<(), NoMemory>
    requires runs { AreFound job.now runs.old.items }
    requires parts { ArePartsMade job.now parts.items }
    ensures { OnOk result (AreFound job.now runs.new.items) }
{
    while let Some(part) = parts.pop() {
        take_part(job, runs, part?.made);
    }
    Ok(())
}

/// No runs yet, of all positions.
fn no_runs<'a, A: Allocator + Copy, P: Pace>(
    job: &Job<'_, 'a, A, P>,
) -> Result<Vec<Option<PositionRun<'a, A>>, A>, NoMemory>
    ensures { IfOk result (λ runs. AreFound job.now runs.items) }
{
    let mut runs = Vec::new(job.ordered.alloc);
    for _number in job.ordered.order {
        runs.push(None)?;
    }
    Ok(runs)
}

/// Deals positions out to the lanes in turn.
fn deal<A: Allocator + Copy>(
    rt: &impl Wait,
    alloc: A,
    shared: &Shared<A>,
    pairs: &mut Vec<(Lane<A>, Thief<A>), A>,
    positions: &[u32],
) -> Result<(), NoMemory>
    requires { 1 ≤ length pairs.old.items }
{
    let lanes = pairs.len();
    for (at, position) in positions.iter().enumerate() {
        let (lane, _) = &mut pairs[at % lanes];
        shared.put(rt, alloc, lane, &[*position])?;
    }
    Ok(())
}

/// Runs the workers, each with its own lane.
fn run_workers<'a, R: Threads + Wait + Sync, A: Allocator + Copy + Send + Sync, P: Pace>(
    rt: &R,
    job: &Job<'_, 'a, A, P>,
    shared: &Shared<A>,
    pairs: Vec<(Lane<A>, Thief<A>), A>,
) -> Result<AllWorkerRuns<'a, A>, NoMemory>
    requires { IsJob job.now }
    ensures { IfOk result (λ parts. ArePartsMade job.now parts.items) }
{
    let parts = thread::map_vec(
        rt,
        pairs,
        &|pair: (Lane<A>, Thief<A>)| -> Result<WorkerRuns<A>, NoMemory>
            requires { IsJob job.now }
            ensures { IfOk result (λ part. AreMade job.entry.now part.made.items) }
        {
            let (lane, thief) = pair;
            work(rt, job, shared, lane, thief)
        },
    )?;
    Ok(parts)
}

/// Runs the calls of a block that was judged at once, each over what its predecessors left, and gives the runs by position. A call that asks for an operation outside
/// its published locks and modes has none, nor has one whose worker the pace stopped, nor any where all workers were stopped before it.
fn run_ready<'a, R: Threads + Wait + Sync, A: Allocator + Copy + Send + Sync, P: Pace>(
    rt: &R,
    job: &Job<'_, 'a, A, P>,
    workers: u32,
) -> Result<Vec<Option<PositionRun<'a, A>>, A>, NoMemory>
    requires job { IsJob job.now }
    requires fit { IsFit job.now.trial.now }
    requires workers { 1 ≤ workers }
    ensures { IfOk result (λ runs. AreFound job.now runs.items) }
{
    let alloc = job.ordered.alloc;
    let trial = job.trial;
    let profiles = profiles_of(alloc, trial.block.positions())?;
    let graph = Graph::of(alloc, &profiles)?;
    let board = Board::open(alloc, &graph)?;
    let ready = Vec::from_slice(alloc, board.ready())?;
    let shared = Shared {
        board: Mutex::new(board),
        ahead: Mutex::new(Ahead::open(alloc, job.ordered.cells, profiles.len())?),
        rest: AtomicU64::new(profiles.len() as u64),
        given_up: AtomicBool::new(false),
    };
    let mut pairs = lanes(alloc, workers)?;
    deal(rt, alloc, &shared, &mut pairs, &ready)?;
    let parts = run_workers(rt, job, &shared, pairs)?;
    let mut runs = no_runs(job)?;
    take_in(job, &mut runs, parts)?;
    Ok(runs)
}

/// What was noted of a position.
fn noted<'r, 'a, A: Allocator + Copy, P: Pace>(
    _job: &Job<'_, 'a, A, P>,
    runs: &'r [Option<PositionRun<'a, A>>],
    position: usize,
) -> Option<&'r PositionRun<'a, A>>
    requires { AreFound _job.now runs.now }
    ensures { IfSome result (λ made. IsMade _job.now made.now) }
{
    match runs.get(position) {
        Some(Some(made)) => Some(made),
        _ => None,
    }
}

/// The run that was made of the call of a position, where there is one.
fn run_at<'r, 'a, A: Allocator + Copy, P: Pace>(
    job: &Job<'_, 'a, A, P>,
    runs: &'r [Option<PositionRun<'a, A>>],
    position: usize,
) -> Option<&'r Finished<'a, A>>
    requires { AreFound job.now runs.now }
    ensures { IfSome result (λ run. IsRunAt job.now position run.now) }
{
    let Some(made) = noted(job, runs, position) else {
        return None;
    };
    if made.position as usize != position {
        return None;
    }
    Some(&made.finished)
}

/// Does the calls of all positions one after another, by the runs that were made of them.
fn fold<'a, A: Allocator + Copy, P: Pace>(
    job: &Job<'_, 'a, A, P>,
    runs: &[Option<PositionRun<'a, A>>],
) -> Result<OrderProgress<A>, NoMemory>
    requires job { IsJob job.now }
    requires runs { AreFound job.now runs.now }
    ensures ran { IfOk result (IsProgressOf job.now.ordered) }
    ensures whole { IfOk result (λ ran. length ran.receipts.items ≡ length job.now.ordered.order.now) }
{
    let mut ran = begin(&job.ordered)?;
    for position in 0..job.ordered.order.len() {
        ran = go_on(&job.ordered, ran, run_at(job, runs, position))?;
    }
    Ok(ran)
}

/// Runs the calls of a block that was judged at once, each over what its predecessors left, and then does them one after another, by those runs and else by
/// running them.
pub(crate) fn run_watched<'a, R: Threads + Wait + Sync, A: Allocator + Copy + Send + Sync, P: Pace>(
    rt: &R,
    job: &Job<'_, 'a, A, P>,
    workers: u32,
) -> Result<OrderProgress<A>, NoMemory>
    requires job { IsJob job.now }
    requires fit { IsFit job.now.trial.now }
    requires workers { 1 ≤ workers }
    ensures ran { IfOk result (IsProgressOf job.now.ordered) }
    ensures whole { IfOk result (λ ran. length ran.receipts.items ≡ length job.now.ordered.order.now) }
{
    let runs = run_ready(rt, job, workers)?;
    fold(job, &runs)
}
