// A worker: it draws calls until none is left or the pace stops it.
ghost use Rattle.std.specs.Prelude.{◌≡◌, ◌<◌, IfOk, OnOk, length};
ghost use Rattle.spec_ledger.specs.declared.Version.TheVariants.{Two};
ghost use Rattle.interp.specs.Callee.{setting_view};
ghost use Rattle.book_workers.specs.Intakes.{IsSeatOf};
ghost use Rattle.book_workers.specs.CommittedRuns.{AreRuns};

use crate::Seat;
use crate::attempt::{CallResult, CommittedRun, Job, try_call};
use call::Call;
use pace::Pace;
use spec_ledger::NoMemory;
use std::alloc::Allocator;
use std::sync::Wait;

/// What a worker hands back.
#[derive(Drop)]
pub struct WorkerResult<'a, A: Allocator> {
    /// The runs that it committed.
    pub committed: Vec<CommittedRun<'a, A>, A>,
    /// The calls whose tries were all refused, or were stopped.
    pub set_aside: Vec<u32, A>,
}

/// Tries a call, and keeps what it came to. Answers whether the worker stops.
#[tactic(auto, using(crate::proofs::Runs::one_more_run))]
fn work_on<'a, A: Allocator + Copy, R: Wait, P: Pace>(
    rt: &R,
    job: &Job<'_, 'a, A, P>,
    call: u32,
    worked: &mut WorkerResult<'a, A>,
) -> Result<bool, NoMemory>
    requires call { call < length job.now.calls.now }
    requires runs { AreRuns (setting_view Two job.now.contracts.now) job.now.calls.now worked.old }
    ensures { OnOk result (AreRuns (setting_view Two job.now.contracts.now) job.now.calls.now worked.new) }
{
    let CallResult { run, stops } = try_call(rt, job, call)?;
    match run {
        Some(committed) => worked.committed.push(committed)?,
        None => worked.set_aside.push(call)?,
    }
    Ok(stops)
}

/// Draws calls until none is left or the pace stops the worker, and tries each. A call whose limit cannot be reserved is left out.
///
/// # Errors
///
/// Memory was refused, or a call touched 2^32 locks or more.
pub fn work<'a, A: Allocator + Copy, R: Wait, P: Pace>(
    rt: &R,
    job: &Job<'_, 'a, A, P>,
    mut seat: Seat,
) -> Result<WorkerResult<'a, A>, NoMemory>
    requires calls { job.now.intake.now.limits.calls ≡ length job.now.calls.now }
    requires seat { IsSeatOf job.now.intake.now seat }
    ensures { IfOk result (AreRuns (setting_view Two job.now.contracts.now) job.now.calls.now) }
{
    let mut worked = WorkerResult {
        committed: Vec::new(job.alloc),
        set_aside: Vec::new(job.alloc),
    };
    for _ in 0..job.calls.len() {
        let Some(number) = job.intake.draw(&mut seat) else {
            break;
        };
        let limit = job.calls[number as usize].fuel();
        if !job.intake.reserve(rt, &mut seat, limit) {
            continue;
        }
        if work_on(rt, job, number, &mut worked)? {
            break;
        }
    }
    Ok(worked)
}
