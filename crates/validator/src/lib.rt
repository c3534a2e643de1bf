//! Validation of a block: several threads run its calls at once, one does them in the block's order, and the verdict is what they come to so
//! (Dickerson, Gazzillo, Herlihy, Koskinen, "Adding Concurrency to Smart Contracts", PODC 2017, section 4: the fork-join program of a validator).
#![tactic(auto)]

mod attempt;
mod compare;
mod end;
mod job;
mod profile;
mod shared;
mod trial;
mod verdict;
mod workers;

ghost use Rattle.std.specs.Prelude.{◌≡◌, ◌≤◌, IfErr, IfOk, length};
ghost use Rattle.spec_block.specs.Bytes.{SpellsBlock};
ghost use Rattle.spec_block.specs.Verdicts.{IsVerdictOf};
ghost use Rattle.block_judge.specs.Judging.{IfRejected, IsReasonOf, told};
ghost use Rattle.in_order.specs.Progress.{IsProgressOf};
ghost use Rattle.world.specs.Views.{world_view};
ghost use Rattle.validator.specs.Jobs.{IsJob};
ghost use Rattle.validator.specs.VerdictsFound.{verdict_view};
ghost use Rattle.validator.specs.Trials.{IsFirst, IsJudged, IsTrial, MayRun};

use crate::end::{end, end_alone};
use crate::job::Job;
use crate::trial::Trial;
use crate::verdict::verdict_on;
pub use crate::verdict::{Validated, Verdict};
use crate::workers::run_watched;
use block::Block;
pub use block_judge::Reason;
use block_judge::{JudgeRefusal, judge_digests, judge_order, numbers_of, spelled_by};
use call::Call;
use in_order::{InOrder, OrderProgress, Task, begin, complete, run_with};
use pace::Pace;
use std::alloc::{Allocator, Global};
use std::sync::Wait;
use std::thread::Threads;
use world::World;
use wtypes::NoMemory;

/// Judges a block whose order was judged, and has nobody begin a further call of it where it is rejected.
fn judge<A: Allocator + Copy, P: Pace>(
    job: &Job<'_, '_, A, P>,
    _nothing: Vec<u32, A>,
) -> Result<(), JudgeRefusal>
    requires { MayRun job.now.trial.now }
    ensures { IsJudged job.now.trial.now result }
{
    let judged = job.trial.judge(job.ordered.alloc);
    if judged.is_err() {
        job.ordered.stop();
    }
    judged
}

/// Judges a block while its calls run. Not all of them may have run. (The errand owns an empty list: of a closure that owns nothing that has to be dropped, a
/// caller is not told what it ensures.)
fn judge_and_run<'a, R: Threads + Wait + Sync, A: Allocator + Copy + Send + Sync, P: Pace>(
    rt: &R,
    job: &Job<'_, 'a, A, P>,
    ran: OrderProgress<A>,
    workers: u32,
) -> (Result<(), JudgeRefusal>, Result<OrderProgress<A>, NoMemory>)
    requires job { IsJob job.now }
    requires ran { IsProgressOf job.now.ordered ran }
    requires workers { 1 ≤ workers }
    ensures judged { IsJudged job.now.trial.now result.0 }
    ensures ran { IfOk result.1 (IsProgressOf job.now.ordered) }
{
    let nothing = Vec::new(job.ordered.alloc);
    run_with(
        rt,
        &job.ordered,
        ran,
        workers,
        move || -> Result<(), JudgeRefusal>
            requires { MayRun job.now.trial.now }
            ensures { IsJudged job.entry.now.trial.now result }
        { judge(job, nothing) },
    )
}

/// The verdict on a block whose order was judged: its calls run ahead of their turn, whichever threads have a moment, and are done in their turn meanwhile.
fn verdict_in_order<'a, R: Threads + Wait + Sync, A: Allocator + Copy + Send + Sync, P: Pace>(
    rt: &R,
    job: &Job<'_, 'a, A, P>,
    workers: u32,
) -> Result<Validated<A>, NoMemory>
    requires job { IsJob job.now }
    requires workers { 1 ≤ workers }
    ensures { IfOk result (λ found. IsFirst job.now.trial.now (verdict_view found.verdict)) }
{
    let (judged, ran) = judge_and_run(rt, job, begin(&job.ordered)?, workers);
    match judged {
        Ok(()) => end(rt, job, complete(&job.ordered, ran?)?, workers),
        Err(unfit) => verdict_on(unfit),
    }
}

/// The verdict on a block whose order was judged, under a pace that watches: each call runs once those that it waits for have ended, and then they are done in
/// their turn.
fn verdict_watched<'a, R: Threads + Wait + Sync, A: Allocator + Copy + Send + Sync, P: Pace>(
    rt: &R,
    job: &Job<'_, 'a, A, P>,
    workers: u32,
) -> Result<Validated<A>, NoMemory>
    requires job { IsJob job.now }
    requires workers { 1 ≤ workers }
    ensures { IfOk result (λ found. IsFirst job.now.trial.now (verdict_view found.verdict)) }
{
    match job.trial.judge(job.ordered.alloc) {
        Ok(()) => end(rt, job, run_watched(rt, job, workers)?, workers),
        Err(unfit) => verdict_on(unfit),
    }
}

/// The verdict on a block whose order was judged.
fn verdict_by_pace<'a, R: Threads + Wait + Sync, A: Allocator + Copy + Send + Sync, P: Pace>(
    rt: &R,
    job: &Job<'_, 'a, A, P>,
    workers: u32,
) -> Result<Validated<A>, NoMemory>
    requires job { IsJob job.now }
    requires workers { 1 ≤ workers }
    ensures { IfOk result (λ found. IsFirst job.now.trial.now (verdict_view found.verdict)) }
{
    if job.ordered.pace.watches() {
        verdict_watched(rt, job, workers)
    } else {
        verdict_in_order(rt, job, workers)
    }
}

/// The verdict on a block whose order was judged.
fn verdict_within<R: Threads + Wait + Sync, A: Allocator + Copy + Send + Sync, P: Pace>(
    rt: &R,
    alloc: A,
    trial: &Trial<'_, A>,
    workers: u32,
    pace: &P,
) -> Result<Validated<A>, NoMemory>
    requires trial { MayRun trial.now }
    requires workers { 1 ≤ workers }
    ensures { IfOk result (λ found. IsFirst trial.now (verdict_view found.verdict)) }
{
    let task = Task {
        contracts: trial.world.contracts(),
        calls: trial.calls,
        version: trial.block.version(),
    };
    let job = Job {
        ordered: InOrder::new(alloc, task, trial.order, trial.world.cells(), pace),
        trial,
    };
    verdict_by_pace(rt, &job, workers)
}

/// What is found first of a block whose order is rejected for this reason: the reasons of its digests come before.
fn first_unfit<A: Allocator + Copy>(alloc: A, trial: &Trial<'_, A>, reason: Reason) -> JudgeRefusal
    requires trial { IsTrial trial.now }
    requires reason { IsReasonOf trial.now.calls.now trial.now.order.now trial.now.fuel (told reason) }
    ensures { IfRejected result (IsFirst trial.now) }
{
    match judge_digests(alloc, trial.world, trial.calls, trial.block) {
        Ok(()) => JudgeRefusal::Rejected(reason),
        Err(unfit) => unfit,
    }
}

/// The verdict on a block that was read. Its order is judged before anything else: a block that it speaks against makes nobody run a call, and the calls of
/// another stay within the fuel that it may have.
fn verdict_of<R: Threads + Wait + Sync, A: Allocator + Copy + Send + Sync, P: Pace>(
    rt: &R,
    alloc: A,
    trial: &Trial<'_, A>,
    workers: u32,
    pace: &P,
) -> Result<Validated<A>, NoMemory>
    requires trial { IsTrial trial.now }
    requires workers { 1 ≤ workers }
    ensures { IfOk result (λ found. IsFirst trial.now (verdict_view found.verdict)) }
{
    match judge_order(alloc, trial.calls, trial.fuel, trial.order) {
        Ok(()) => verdict_within(rt, alloc, trial, workers, pace),
        Err(JudgeRefusal::Rejected(reason)) => verdict_on(first_unfit(alloc, trial, reason)),
        Err(JudgeRefusal::NoMemory) => Err(NoMemory),
    }
}

/// The block that the bytes spell; or the verdict on them, of these calls over this world with this fuel as of all others.
fn spelled_for<A: Allocator + Copy>(
    alloc: A,
    _world: &World<A>,
    _calls: &[Call],
    _fuel: u64,
    bytes: &[u8],
) -> Result<Block<A>, JudgeRefusal>
    ensures spelled { IfOk result (SpellsBlock bytes.now) }
    ensures rejected { IfErr result (λ unfit. IfRejected unfit (IsVerdictOf (world_view _world.now) _calls.now _fuel bytes.now)) }
{
    spelled_by(alloc, bytes)
}

/// The verdict on a block that was read, by the caller alone. No call runs of a block that its order, its limits, its digests or its turns speak against.
fn verdict_alone<A: Allocator + Copy>(
    alloc: A,
    tried: &Trial<'_, A>,
) -> Result<Validated<A>, NoMemory>
    requires { IsTrial tried.now }
    ensures { IfOk result (λ found. IsFirst tried.now (verdict_view found.verdict)) }
{
    match judge_order(alloc, tried.calls, tried.fuel, tried.order) {
        Ok(()) => match tried.judge(alloc) {
            Ok(()) => end_alone(alloc, tried),
            Err(unfit) => verdict_on(unfit),
        },
        Err(JudgeRefusal::Rejected(reason)) => verdict_on(first_unfit(alloc, tried, reason)),
        Err(JudgeRefusal::NoMemory) => Err(NoMemory),
    }
}

/// As [`find_verdict`], by the caller alone: no runtime is taken, no pace is told, and each call runs once at most.
///
/// # Errors
///
/// The allocator refused memory.
pub fn validate_alone<A: Allocator + Copy>(
    alloc: A,
    world: &World<A>,
    calls: &[Call],
    block_fuel: u64,
    bytes: &[u8],
) -> Result<Validated<A>, NoMemory>
    requires { length calls.now ≤ 65535 }
    ensures verdict { IfOk result (λ v. IsVerdictOf (world_view world.now) calls.now block_fuel bytes.now (verdict_view v.verdict)) }
{
    block_judge::first_is_verdict();
    let block = match spelled_for(alloc, world, calls, block_fuel, bytes) {
        Ok(block) => block,
        Err(unfit) => return verdict_on(unfit),
    };
    block.use_invariant();
    let order = numbers_of(alloc, &block)?;
    let trial = Trial {
        world,
        calls,
        fuel: block_fuel,
        block: &block,
        order: &order,
    };
    let validated = verdict_alone(alloc, &trial)?;
    Ok(validated)
}

/// As [`validate_in`], with how many positions the caller ran in their turn: a measure of the workers' use, on which no verdict rests.
///
/// # Errors
///
/// The allocator refused memory to the caller or to a worker.
pub fn find_verdict<R: Threads + Wait + Sync, A: Allocator + Copy + Send + Sync, P: Pace>(
    rt: &R,
    alloc: A,
    world: &World<A>,
    calls: &[Call],
    block_fuel: u64,
    bytes: &[u8],
    workers: u32,
    pace: &P,
) -> Result<Validated<A>, NoMemory>
    requires calls { length calls.now ≤ 65535 }
    requires workers { 1 ≤ workers }
    ensures verdict { IfOk result (λ v. IsVerdictOf (world_view world.now) calls.now block_fuel bytes.now (verdict_view v.verdict)) }
{
    block_judge::first_is_verdict();
    let block = match spelled_for(alloc, world, calls, block_fuel, bytes) {
        Ok(block) => block,
        Err(unfit) => return verdict_on(unfit),
    };
    block.use_invariant();
    let order = numbers_of(alloc, &block)?;
    let trial = Trial {
        world,
        calls,
        fuel: block_fuel,
        block: &block,
        order: &order,
    };
    let validated = verdict_of(rt, alloc, &trial, workers, pace)?;
    Ok(validated)
}

/// The verdict on the bytes of a block of these calls over a world, with this fuel for the block: the first of the nine reasons that holds, or else
/// the world after the block. Its order and limits are judged first: a block that they speak against makes nobody run a call, and the calls of another stay within
/// the fuel that it may have, each run once ahead of its turn and once in its turn at most.
///
/// At most this many threads, of which the caller's is one, run calls ahead of their turn, while one of them judges what else needs no run, and until it finds
/// that the block is rejected; fewer where little is to be run (`in_order::run_with`). The caller does them in their turn. Under a pace that watches
/// ([`Pace::watches`]) the block is judged before, then so many threads run calls at once, each as soon as those that it waits for have ended, and then the caller
/// does them in their turn. What the pace is told, `pace::Step` says; it may stop a thread there, and what no thread ran the caller runs.
///
/// # Errors
///
/// The allocator refused memory to the caller or to a worker.
pub fn validate_in<R: Threads + Wait + Sync, A: Allocator + Copy + Send + Sync, P: Pace>(
    rt: &R,
    alloc: A,
    world: &World<A>,
    calls: &[Call],
    block_fuel: u64,
    bytes: &[u8],
    workers: u32,
    pace: &P,
) -> Result<Verdict<A>, NoMemory>
    requires calls { length calls.now ≤ 65535 }
    requires workers { (1 ≤ workers) × (workers ≤ 64) }
    ensures verdict { IfOk result (λ verdict. IsVerdictOf (world_view world.now) calls.now block_fuel bytes.now (verdict_view verdict)) }
{
    let Validated { verdict, again: _ } = find_verdict(
        rt, alloc, world, calls, block_fuel, bytes, workers, pace,
    )?;
    Ok(verdict)
}

/// The same over the heap.
///
/// # Errors
///
/// Memory was refused to the caller or to a worker.
pub fn validate<R: Threads + Wait + Sync, P: Pace>(
    rt: &R,
    alloc: Global,
    world: &World,
    calls: &[Call],
    block_fuel: u64,
    bytes: &[u8],
    workers: u32,
    pace: &P,
) -> Result<Verdict, NoMemory>
    requires calls { length calls.now ≤ 65535 }
    requires workers { (1 ≤ workers) × (workers ≤ 64) }
    ensures verdict { IfOk result (λ verdict. IsVerdictOf (world_view world.now) calls.now block_fuel bytes.now (verdict_view verdict)) }
{
    validate_in(rt, alloc, world, calls, block_fuel, bytes, workers, pace)
}
