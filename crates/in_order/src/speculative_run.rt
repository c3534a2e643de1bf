//! Calls that are run ahead of their turn, over cells that are only read, and kept with their read-write sets until it is their turn.

ghost use Rattle.std.specs.Prelude.{◌≡◌, ◌<◌, ◌↔◌, [], All, IfOk, IfNone, IfSome, IsSome, OnOk, Some, length, slice_get};
ghost use Rattle.std.specs.FinMap as finite;
ghost use Rattle.spec_execution.specs.Exec.{Executes};
ghost use Rattle.spec_execution.specs.Run.{ContractCall};
ghost use Rattle.spec_execution.specs.ReadWriteSets.{Agrees};
ghost use Rattle.interp.specs.Callee.{setting_view};
ghost use Rattle.in_order.specs.Shares.{IsSpeculativeRun, AreSpeculativeRunsOf, read_write_set_of};

use crate::Task;
use link::deployed::Deployed as Contract;
use serial::{Executed, Reads, Runner, write_back};
use spec_execution::Access;
use spec_ledger::NoMemory;
use std::alloc::Allocator;
use storage::Cells;

/// A call that was run, and which of the accesses beside it are its read-write set.
#[derive(Drop)]
pub(crate) struct SpeculativeRun<A: Allocator> {
    /// Its number.
    pub(crate) call: u32,
    /// What it came to.
    pub(crate) executed: Executed<A>,
    /// How many accesses come before its own.
    pub(crate) from: usize,
    /// How many there are with its own.
    pub(crate) until: usize,
}

/// Calls that one thread ran, and the contracts that they ran over. (Without the contracts at their side no proof was found that it may go to another
/// thread.)
#[derive(Drop)]
pub(crate) struct SpeculativeRuns<'a, A: Allocator> {
    pub(crate) contracts: &'a [Contract<A>],
    /// The calls that it ran.
    pub(crate) prepared: Vec<SpeculativeRun<A>, A>,
    /// What they did with cells, one call's accesses after another's.
    pub(crate) accesses: Vec<Access, A>,
}

/// How many accesses a call is taken to have, where room is made for them.
const ACCESSES: usize = 4;

/// A share of no calls, with room for so many.
pub(crate) fn open_speculative_runs<'a, A: Allocator + Copy>(
    alloc: A,
    task: Task<'a, A>,
    room: usize,
) -> Result<SpeculativeRuns<'a, A>, NoMemory>
    ensures { IfOk result (AreSpeculativeRunsOf task.entry) }
{
    Ok(SpeculativeRuns {
        contracts: task.contracts,
        prepared: Vec::with_capacity(alloc, room)?,
        accesses: Vec::with_capacity(alloc, room.saturating_mul(ACCESSES))?,
    })
}

/// Runs a call over a view of the cells, and puts it with its read-write set behind those of the share.
pub(crate) fn run_speculatively<'a, A: Allocator + Copy, V: Reads>(
    runner: &mut Runner<'a, A>,
    task: &Task<'a, A>,
    view: &V,
    call: u32,
    share: &mut SpeculativeRuns<'_, A>,
) -> Result<(), NoMemory>
    requires call { call < length task.now.calls.now }
    requires share { AreSpeculativeRunsOf task.now share.old }
    ensures { OnOk result (AreSpeculativeRunsOf task.now share.new) }
{
    let calls = task.calls;
    let from = share.accesses.len();
    let executed = runner.run_over(
        task.contracts,
        &calls[call as usize],
        view,
        &mut share.accesses,
        task.version,
    )?;
    let until = share.accesses.len();
    share.prepared.push(SpeculativeRun {
        call,
        executed,
        from,
        until,
    })?;
    Ok(())
}

/// Does with cells what a call did that was prepared beside these accesses, where they hold what it found, and gives what it came to.
pub(crate) fn commit_if_valid<A: Allocator + Copy>(
    task: &Task<'_, A>,
    prepared: SpeculativeRun<A>,
    accesses: &[Access],
    cells: &mut Cells<A>,
) -> Result<Option<Executed<A>>, NoMemory>
    requires prepared { IsSpeculativeRun (setting_view task.now.version task.now.contracts.now) task.now.calls.now accesses.now prepared }
    requires settled { cells.old.unsettled ≡ finite.empty }
    ensures answer { IfOk result (λ o. IsSome o ↔ All (Agrees cells.old.cells) (read_write_set_of accesses.now prepared)) }
    ensures executed { IfOk result (λ o. IfSome o (λ e. (call : ContractCall) → slice_get task.now.calls.now prepared.call ≡ Some call → Executes (setting_view task.now.version task.now.contracts.now) call cells.old.cells cells.new.cells e.receipt e.touched)) }
    ensures same { IfOk result (λ o. IfNone o (cells.new ≡ cells.old)) }
    ensures settled { cells.new.unsettled ≡ finite.empty }
{
    cells.use_invariant();
    let SpeculativeRun {
        call: _,
        executed,
        from,
        until,
    } = prepared;
    if write_back(cells, &accesses[from..until])? {
        Ok(Some(executed))
    } else {
        Ok(None)
    }
}
