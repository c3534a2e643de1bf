//! Runs of calls, from one request to the host to the next: one after another over boosted storage, with the block of their order, or one over a view of the
//! cells, which gives its read-write set (Dickerson, Gazzillo, Herlihy, Koskinen, "Adding Concurrency to Smart Contracts", PODC 2017, section 4: the serial
//! order that a miner publishes, and calls that run speculatively).
#![tactic(auto)]

mod again;
mod beginning;
mod blocks;
mod listing;
mod locks;
mod over_view;
mod over_view_playing;
mod playing;
mod positions;
mod read_write_set;
mod runner;
mod steps;
mod storage_loop;
mod touches;
mod turn_loop;

ghost use Rattle.std.specs.Prelude.{◌≡◌, ◌<◌, ◌^◌, ◌↔◌, [], IfOk, OnErr, IfSome, IfNone, IsSome, length};
ghost use Rattle.std.specs.List.{All};
ghost use Rattle.std.specs.FinMap as finite;
ghost use Rattle.spec_ledger.specs.Cells.{AreCells};
ghost use Rattle.spec_ledger.specs.Book.{back_all, GetsReplies};
ghost use Rattle.storage.specs.Counts.{AreUnsettled, Store, closed_all};
ghost use Rattle.spec_execution.specs.Exec.{Executes};
ghost use Rattle.spec_execution.specs.Serial.{Serial};
ghost use Rattle.interp.specs.Callee.{setting_view};
ghost use Rattle.interp.specs.FinishedCalls.{IsPlayed, Played, receipt_of};
ghost use Rattle.interp.specs.Progress.{IsFree};
ghost use Rattle.serial.specs.Playing.{AreDone};
ghost use Rattle.serial.specs.Positions.{results_of};

use crate::again::act_again;
pub use crate::beginning::{Begun, begin};
pub use crate::blocks::{build_block, run, run_as};
pub use crate::locks::touched_by;
use crate::locks::touched_in;
pub use crate::over_view::{Reads, run_over};
use crate::playing::{OverCells, begin_in, play, run_in};
pub use crate::read_write_set::write_back;
pub use crate::runner::Runner;
pub use crate::storage_loop::{Storage, play_over};
pub use crate::turn_loop::{HostRequest, next_request};
use call::Call;
use interp::finished::Finished;
use interp::machine::Machine;
use link::deployed::Deployed as Contract;
use lock_profile::{Held, Touched};
pub use positions::positions_of;
use spec_ledger::{Inverse, NoMemory, Receipt, TraceStep, Version};
use std::alloc::{Allocator, Global};
use std::mem;
use storage::{Cells, end_all, end_alone, returned};

/// What calls came to that ran one after another.
#[derive(Drop)]
pub struct Core<A: Allocator = Global> {
    /// The receipt at each position.
    pub receipts: Vec<Receipt, A>,
    /// The locks that the call at each position asked for, each with the join of its modes.
    pub touched: Vec<Touched<A>, A>,
    /// The cells after the last call, in which nothing is unsettled.
    pub cells: Cells<A>,
}

/// What one call came to.
#[derive(Drop)]
pub struct Executed<A: Allocator = Global> {
    /// How it ended, the fuel that it used and the levels that it entered.
    pub receipt: Receipt,
    /// The locks that it asked for, each with the join of its modes.
    pub touched: Touched<A>,
}

/// Ends a run of this receipt and this trace, whose operations were done on the cells: they stand if it returned, and else are taken back. After a refusal of
/// memory they are taken back. The locks are looked for in the room of the last list.
fn conclude<A: Allocator + Copy>(
    alloc: A,
    receipt: Receipt,
    trace: &[TraceStep],
    cells: &mut Cells<A>,
    inverses: &mut Vec<Inverse, A>,
    asked: &mut Vec<Held, A>,
) -> Result<Executed<A>, NoMemory>
    requires unsettled { AreUnsettled inverses.old.items cells.old.unsettled }
    requires alone { closed_all inverses.old.items cells.old.unsettled ≡ finite.empty }
    ensures executed { IfOk result (λ e. (played : Played) → IsPlayed played → receipt ≡ receipt_of played → trace.now ≡ played.trace → (start : Store) → AreDone start played.trace cells.old inverses.old.items → start.unsettled ≡ finite.empty → AreCells start.cells → Executes played.setting played.call start.cells cells.new.cells e.receipt e.touched) }
    ensures err { OnErr result (cells.new.cells ≡ back_all inverses.old.items cells.old.cells) }
    ensures unsettled { cells.new.unsettled ≡ finite.empty }
{
    let Ok(touched) = touched_in(alloc, asked, trace) else {
        end_alone(cells, inverses, false);
        return Err(NoMemory);
    };
    end_alone(cells, inverses, returned(receipt.outcome));
    Ok(Executed { receipt, touched })
}

/// Runs a call over the cells, by the rules of this version, on a machine of its own. Unless it returned they are as before.
fn execute_anew<A: Allocator + Copy>(
    alloc: A,
    contracts: &[Contract<A>],
    call: &Call,
    over: &mut OverCells<A>,
    version: Version,
) -> Result<Executed<A>, NoMemory>
    requires { over.old.cells.unsettled ≡ finite.empty }
    ensures executed { IfOk result (λ e. Executes (setting_view version contracts.now) call.now over.old.cells.cells over.new.cells.cells e.receipt e.touched) }
    ensures settled { over.new.cells.unsettled ≡ finite.empty }
    ensures err { OnErr result (over.new.cells ≡ over.old.cells) }
{
    over.cells.use_invariant();
    let finished = play(alloc, contracts, call, over, version)?;
    finished.is_played();
    conclude(
        alloc,
        finished.receipt(),
        finished.trace(),
        &mut over.cells,
        &mut over.inverses,
        &mut over.asked,
    )
}

/// Runs a call that a machine has begun over the cells. Unless it returned they are as before.
fn execute_begun<'a, A: Allocator + Copy>(
    alloc: A,
    machine: &mut Machine<'a, A>,
    over: &mut OverCells<A>,
) -> Result<Executed<A>, NoMemory>
    requires free { IsFree machine.old.status }
    requires first { machine.old.trace ≡ [] }
    requires limit { machine.old.call.fuel < 2 ^ 64 }
    requires settled { over.old.cells.unsettled ≡ finite.empty }
    ensures executed { IfOk result (λ e. Executes machine.old.setting machine.old.call over.old.cells.cells over.new.cells.cells e.receipt e.touched) }
    ensures settled { over.new.cells.unsettled ≡ finite.empty }
    ensures err { OnErr result (over.new.cells ≡ over.old.cells) }
{
    over.cells.use_invariant();
    run_in(machine, over)?;
    match machine.receipt() {
        Some(receipt) => conclude(
            alloc,
            receipt,
            machine.trace(),
            &mut over.cells,
            &mut over.inverses,
            &mut over.asked,
        ),
        None => unreachable!(),
    }
}

/// Runs a call over the cells, by the rules of this version, on the machine of the call before. Where it has no fuel, or does not begin there, it runs on a
/// machine of its own. Unless it returned the cells are as before.
fn execute_over<'a, A: Allocator + Copy>(
    alloc: A,
    contracts: &'a [Contract<A>],
    call: &'a Call,
    machine: &mut Option<Machine<'a, A>>,
    over: &mut OverCells<A>,
    version: Version,
) -> Result<Executed<A>, NoMemory>
    requires { over.old.cells.unsettled ≡ finite.empty }
    ensures executed { IfOk result (λ e. Executes (setting_view version contracts.now) call.now over.old.cells.cells over.new.cells.cells e.receipt e.touched) }
    ensures settled { over.new.cells.unsettled ≡ finite.empty }
    ensures err { OnErr result (over.new.cells ≡ over.old.cells) }
{
    if call.fuel() == 0 {
        return execute_anew(alloc, contracts, call, over, version);
    }
    let Ok(()) = begin_in(alloc, contracts, call, machine, version) else {
        return execute_anew(alloc, contracts, call, over, version);
    };
    match machine {
        Some(begun) => execute_begun(alloc, begun, over),
        None => unreachable!(),
    }
}

/// The run of a call alone over the cells, by the rules of this version. The cells are as before.
fn run_alone_over<'a, A: Allocator + Copy>(
    alloc: A,
    contracts: &'a [Contract<A>],
    call: &'a Call,
    over: &mut OverCells<A>,
    version: Version,
) -> Result<Finished<'a, A>, NoMemory>
    requires { over.old.cells.unsettled ≡ finite.empty }
    ensures contracts { IfOk result (λ finished. finished.setting ≡ setting_view version contracts.now) }
    ensures call { IfOk result (λ finished. finished.call ≡ call.now) }
    ensures replies { IfOk result (λ finished. GetsReplies finished.trace over.old.cells.cells) }
    ensures cells { over.new.cells ≡ over.old.cells }
{
    over.cells.use_invariant();
    let finished = play(alloc, contracts, call, over, version)?;
    end_alone(&mut over.cells, &mut over.inverses, false);
    Ok(finished)
}

/// Runs a call over the cells, by the rules of this version. Unless it returned they are as before.
///
/// # Errors
///
/// Memory was refused. The cells are as they were.
pub fn execute<A: Allocator + Copy>(
    alloc: A,
    contracts: &[Contract<A>],
    call: &Call,
    cells: &mut Cells<A>,
    version: Version,
) -> Result<Executed<A>, NoMemory>
    requires { cells.old.unsettled ≡ finite.empty }
    ensures executed { IfOk result (λ e. Executes (setting_view version contracts.now) call.now cells.old.cells cells.new.cells e.receipt e.touched) }
    ensures settled { cells.new.unsettled ≡ finite.empty }
    ensures err { OnErr result (cells.new ≡ cells.old) }
{
    Runner::new(alloc).execute(contracts, call, cells, version)
}

/// The run of a call alone over the cells, by the rules of this version. The cells are as before.
///
/// # Errors
///
/// Memory was refused.
pub fn run_alone<'a, A: Allocator + Copy>(
    alloc: A,
    contracts: &'a [Contract<A>],
    call: &'a Call,
    cells: &mut Cells<A>,
    version: Version,
) -> Result<Finished<'a, A>, NoMemory>
    requires { cells.old.unsettled ≡ finite.empty }
    ensures contracts { IfOk result (λ finished. finished.setting ≡ setting_view version contracts.now) }
    ensures call { IfOk result (λ finished. finished.call ≡ call.now) }
    ensures replies { IfOk result (λ finished. GetsReplies finished.trace cells.old.cells) }
    ensures cells { cells.new ≡ cells.old }
{
    let mut over = OverCells::of(alloc, mem::replace(cells, Cells::new(alloc)));
    let finished = run_alone_over(alloc, contracts, call, &mut over, version);
    let OverCells {
        cells: now,
        inverses: _,
        marks: _,
        asked: _,
    } = over;
    *cells = now;
    finished
}

/// Executes a call by a run of it that was made elsewhere, where each reply of the run is the one of these cells. None
/// where one is not. Unless the call returned the cells are as before.
///
/// # Errors
///
/// Memory was refused. The cells are as they were.
pub fn replay<A: Allocator + Copy>(
    alloc: A,
    finished: &Finished<'_, A>,
    cells: &mut Cells<A>,
) -> Result<Option<Executed<A>>, NoMemory>
    requires { cells.old.unsettled ≡ finite.empty }
    ensures executed { IfOk result (λ o. IfSome o (λ e. Executes finished.now.setting finished.now.call cells.old.cells cells.new.cells e.receipt e.touched)) }
    ensures replies { IfOk result (λ o. IsSome o ↔ GetsReplies finished.now.trace cells.old.cells) }
    ensures other { IfOk result (λ o. IfNone o (cells.new ≡ cells.old)) }
    ensures settled { cells.new.unsettled ≡ finite.empty }
    ensures err { OnErr result (cells.new ≡ cells.old) }
{
    cells.use_invariant();
    finished.is_played();
    let mut inverses = Vec::new(alloc);
    match act_again(alloc, cells, &mut inverses, finished.trace()) {
        Ok(true) => {
            let mut asked = Vec::new(alloc);
            let executed = conclude(
                alloc,
                finished.receipt(),
                finished.trace(),
                cells,
                &mut inverses,
                &mut asked,
            )?;
            Ok(Some(executed))
        }
        Ok(false) => {
            end_all(cells, inverses, false);
            Ok(None)
        }
        Err(_) => {
            end_all(cells, inverses, false);
            Err(NoMemory)
        }
    }
}

/// Runs the calls of these numbers by the rules of this version, one after another, each over the cells that the one before
/// left; the first runs over a copy of the cells. The fuel of a receipt is what the call used. A call that does not start has the number of the
/// cause, no fuel and no locks. A call whose number comes again is run again.
///
/// # Errors
///
/// Memory was refused.
pub fn serial_core<'a, A: Allocator + Copy>(
    alloc: A,
    contracts: &'a [Contract<A>],
    cells: &Cells<A>,
    calls: &'a [Call],
    order: &[u32],
    version: Version,
) -> Result<Core<A>, NoMemory>
    requires { All (λ number. number < length calls.now) order.now }
    ensures serial { IfOk result (λ core. Serial (setting_view version contracts.now) calls.now order.now cells.now.cells (results_of core.receipts.items core.touched.items) core.cells.cells) }
    ensures receipts { IfOk result (λ core. length core.receipts.items ≡ length order.now) }
    ensures touched { IfOk result (λ core. length core.touched.items ≡ length order.now) }
    ensures settled { IfOk result (λ core. core.cells.unsettled ≡ finite.empty) }
{
    let mut receipts = Vec::new(alloc);
    let mut touched = Vec::new(alloc);
    let mut current = cells.copy(alloc)?;
    let mut runner = Runner::new(alloc);
    for number in order {
        let executed = runner.execute(contracts, &calls[*number as usize], &mut current, version)?;
        receipts.push(executed.receipt)?;
        touched.push(executed.touched)?;
    }
    Ok(Core {
        receipts,
        touched,
        cells: current,
    })
}
