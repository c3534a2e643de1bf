//! Calls in their turn, one after another.

ghost use Rattle.std.specs.Prelude.{◌≡◌, ◌+◌, ◌<◌, IfOk, IfNone, IfSome, Some, length, slice_get};
ghost use Rattle.std.specs.FinMap as finite;
ghost use Rattle.spec_execution.specs.Exec.{Executes};
ghost use Rattle.spec_execution.specs.Run.{ContractCall};
ghost use Rattle.interp.specs.Callee.{setting_view};
ghost use Rattle.serial.specs.Runs.{IsRunOf};
ghost use Rattle.in_order.specs.Progress.{IsKnown, IsNextRun, IsProgressOf};
ghost use Rattle.in_order.specs.Shares.{IsPreparedOf};

use crate::speculative_run::{SpeculativeRun, commit_if_valid};
use crate::{InOrder, OrderProgress};
use interp::finished::Finished;
use pace::Pace;
use serial::{Executed, Runner, replay};
use spec_execution::Access;
use spec_ledger::NoMemory;
use std::alloc::Allocator;
use storage::Cells;

/// What one call came to.
#[derive(Drop)]
struct Done<A: Allocator> {
    executed: Executed<A>,
    /// Whether a run that was made ahead of its turn served.
    ahead: bool,
}

/// Executes the call of a number by its read-write set, where one is there and the cells hold what it found.
fn by_footprint<'a, A: Allocator + Copy, P: Pace>(
    job: &InOrder<'_, 'a, A, P>,
    number: u32,
    prepared: Option<SpeculativeRun<A>>,
    accesses: &[Access],
    cells: &mut Cells<A>,
) -> Result<Option<Executed<A>>, NoMemory>
    requires prepared { IfSome prepared (IsPreparedOf job.now.task accesses.now) }
    requires settled { cells.old.unsettled ≡ finite.empty }
    ensures executed { IfOk result (λ o. IfSome o (λ e. (call : ContractCall) → slice_get job.now.task.calls.now number ≡ Some call → Executes (setting_view job.now.task.version job.now.task.contracts.now) call cells.old.cells cells.new.cells e.receipt e.touched)) }
    ensures other { IfOk result (λ o. IfNone o (cells.new ≡ cells.old)) }
    ensures settled { cells.new.unsettled ≡ finite.empty }
{
    let Some(prepared) = prepared else {
        return Ok(None);
    };
    if prepared.call != number {
        return Ok(None);
    }
    let executed = commit_if_valid(&job.task, prepared, accesses, cells)?;
    Ok(executed)
}

/// Executes the call of a number by a run of it, where one is there each of whose replies is that of the cells.
fn by_run<'a, A: Allocator + Copy, P: Pace>(
    job: &InOrder<'_, 'a, A, P>,
    _number: u32,
    run: Option<&Finished<'a, A>>,
    cells: &mut Cells<A>,
) -> Result<Option<Executed<A>>, NoMemory>
    requires run { IfSome run (λ finished. IsRunOf (setting_view job.now.task.version job.now.task.contracts.now) job.now.task.calls.now _number finished.now) }
    requires settled { cells.old.unsettled ≡ finite.empty }
    ensures executed { IfOk result (λ o. IfSome o (λ e. (call : ContractCall) → slice_get job.now.task.calls.now _number ≡ Some call → Executes (setting_view job.now.task.version job.now.task.contracts.now) call cells.old.cells cells.new.cells e.receipt e.touched)) }
    ensures other { IfOk result (λ o. IfNone o (cells.new ≡ cells.old)) }
    ensures settled { cells.new.unsettled ≡ finite.empty }
{
    let Some(finished) = run else {
        return Ok(None);
    };
    let executed = replay(job.alloc, finished, cells)?;
    Ok(executed)
}

/// Executes the call of a number by what was made of it ahead of its turn, and else runs it.
fn execute_one<'a, A: Allocator + Copy, P: Pace>(
    job: &InOrder<'_, 'a, A, P>,
    number: u32,
    prepared: Option<SpeculativeRun<A>>,
    accesses: &[Access],
    run: Option<&Finished<'a, A>>,
    runner: &mut Runner<'a, A>,
    cells: &mut Cells<A>,
) -> Result<Done<A>, NoMemory>
    requires known { number < length job.now.task.calls.now }
    requires prepared { IfSome prepared (IsPreparedOf job.now.task accesses.now) }
    requires run { IfSome run (λ finished. IsRunOf (setting_view job.now.task.version job.now.task.contracts.now) job.now.task.calls.now number finished.now) }
    requires settled { cells.old.unsettled ≡ finite.empty }
    ensures executed { IfOk result (λ done. (call : ContractCall) → slice_get job.now.task.calls.now number ≡ Some call → Executes (setting_view job.now.task.version job.now.task.contracts.now) call cells.old.cells cells.new.cells done.executed.receipt done.executed.touched) }
    ensures settled { cells.new.unsettled ≡ finite.empty }
{
    if let Some(executed) = by_footprint(job, number, prepared, accesses, cells)? {
        return Ok(Done {
            executed,
            ahead: true,
        });
    }
    if let Some(executed) = by_run(job, number, run, cells)? {
        return Ok(Done {
            executed,
            ahead: true,
        });
    }
    let task = &job.task;
    let calls = task.calls;
    let call = &calls[number as usize];
    let executed = runner.execute(task.contracts, call, cells, task.version)?;
    Ok(Done {
        executed,
        ahead: false,
    })
}

/// Does the next call of the order with the cells, by what was made of it ahead of its turn where that serves.
pub(crate) fn do_next<'a, A: Allocator + Copy, P: Pace>(
    job: &InOrder<'_, 'a, A, P>,
    ran: OrderProgress<A>,
    prepared: Option<SpeculativeRun<A>>,
    accesses: &[Access],
    run: Option<&Finished<'a, A>>,
    runner: &mut Runner<'a, A>,
) -> Result<OrderProgress<A>, NoMemory>
    requires known { IsKnown job.now }
    requires ran { IsProgressOf job.now ran }
    requires more { length ran.receipts.items < length job.now.order.now }
    requires prepared { IfSome prepared (IsPreparedOf job.now.task accesses.now) }
    requires run { IfSome run (λ finished. IsNextRun job.now ran finished.now) }
    ensures ran { IfOk result (IsProgressOf job.now) }
    ensures one { IfOk result (λ next. length next.receipts.items ≡ length ran.receipts.items + 1) }
{
    let OrderProgress {
        mut receipts,
        mut touched,
        mut cells,
        ahead,
    } = ran;
    let number = job.order[receipts.len()];
    let done = execute_one(job, number, prepared, accesses, run, runner, &mut cells)?;
    receipts.push(done.executed.receipt)?;
    touched.push(done.executed.touched)?;
    Ok(OrderProgress {
        receipts,
        touched,
        cells,
        ahead: ahead + u32::from(done.ahead),
    })
}
