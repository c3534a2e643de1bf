//! Calls that run over a view of the cells: the view is only read, and what they change is kept apart. Such a run gives the call's read-write set: what
//! it found and leaves at each lock that it asked for (Dickerson, Gazzillo, Herlihy, Koskinen, "Adding Concurrency to Smart Contracts", PODC 2017,
//! section 4: a miner runs calls speculatively).

ghost use Rattle.std.specs.Prelude.{◌≡◌, ◌<◌, ◌^◌, ◌++◌, [], ℕ, All, IfOk, OnOk, Option};
ghost use Rattle.std.specs.FinMap.{get};
ghost use Rattle.spec_ledger.specs.declared.Lock.{Lock};
ghost use Rattle.spec_execution.specs.ReadWriteSets.{IsReadWriteSet};
ghost use Rattle.interp.specs.Callee.{setting_view};
ghost use Rattle.interp.specs.Progress.{IsFree};
ghost use Rattle.serial.specs.Behind.{behind};
ghost use Rattle.serial.specs.FoundCells.{IsFoundBy};
ghost use Rattle.serial.specs.Touches.{AreAccessesAt, IsCellAt};

use crate::Executed;
use crate::listing::list;
use crate::over_view_playing::{play, play_begun};
use call::Call;
use interp::machine::Machine;
use link::deployed::Deployed as Contract;
use spec_execution::{Access, an_execution_has_a_read_write_set};
use spec_ledger::{Lock, NoMemory, Version};
use std::alloc::Allocator;
use storage::{Cells, returned};

/// Cells that can be read. They need not stand still: what is read at one lock may be older or newer than what is read at another, and two reads of one lock
/// may answer differently.
pub trait Reads {
    /// What a read at a lock may answer.
    ghost may_read: { Self → Lock → Option ℕ → Type 0 };

    /// What is held at a lock: any cell that a program can hold there, and that the view may answer.
    fn read(&self, lock: Lock) -> Option<u64>
        ensures cell { IsCellAt lock result }
        ensures may { may_read self.now lock result };
}

impl<A: Allocator + Copy> Reads for Cells<A> {
    ghost may_read = { λ cells lock found. found ≡ get cells.cells lock };

    fn read(&self, lock: Lock) -> Option<u64> {
        self.use_invariant();
        self.get(lock)
    }
}

/// Runs a call over a view, by the rules of this version, and puts its read-write set behind the accesses that are there: what it found and leaves at each lock
/// that it asked for, in the order of locks. The view is read once at each of them, where the call first asks for it, and what it found is what the view may
/// answer.
///
/// # Errors
///
/// Memory was refused. More or fewer of its accesses may have been put down.
pub fn run_over<A: Allocator + Copy, V: Reads>(
    alloc: A,
    contracts: &[Contract<A>],
    call: &Call,
    view: &V,
    accesses: &mut Vec<Access, A>,
    version: Version,
) -> Result<Executed<A>, NoMemory>
    ensures read_write_set { IfOk result (λ e. IsReadWriteSet (setting_view version contracts.now) call.now (behind accesses.old.items accesses.new.items) e.receipt e.touched) }
    ensures told { IfOk result (λ e. AreAccessesAt e.touched (behind accesses.old.items accesses.new.items)) }
    ensures read { IfOk result (λ e. All (IsFoundBy (V.may_read view.now)) (behind accesses.old.items accesses.new.items)) }
    ensures accesses { OnOk result (accesses.new.items ≡ accesses.old.items ++ behind accesses.old.items accesses.new.items) }
{
    an_execution_has_a_read_write_set();
    let (finished, touches) = play(alloc, contracts, call, view, version)?;
    finished.is_played();
    let receipt = finished.receipt();
    let touched = list(alloc, touches, returned(receipt.outcome), accesses)?;
    Ok(Executed { receipt, touched })
}

/// Runs a call that a machine has begun over a view, and puts its read-write set behind the accesses that are there.
pub(crate) fn run_begun<'a, A: Allocator + Copy, V: Reads>(
    alloc: A,
    machine: &mut Machine<'a, A>,
    view: &V,
    accesses: &mut Vec<Access, A>,
) -> Result<Executed<A>, NoMemory>
    requires free { IsFree machine.old.status }
    requires first { machine.old.trace ≡ [] }
    requires limit { machine.old.call.fuel < 2 ^ 64 }
    ensures read_write_set { IfOk result (λ e. IsReadWriteSet machine.old.setting machine.old.call (behind accesses.old.items accesses.new.items) e.receipt e.touched) }
    ensures told { IfOk result (λ e. AreAccessesAt e.touched (behind accesses.old.items accesses.new.items)) }
    ensures read { IfOk result (λ e. All (IsFoundBy (V.may_read view.now)) (behind accesses.old.items accesses.new.items)) }
    ensures accesses { OnOk result (accesses.new.items ≡ accesses.old.items ++ behind accesses.old.items accesses.new.items) }
{
    an_execution_has_a_read_write_set();
    let touches = play_begun(alloc, machine, view)?;
    match machine.receipt() {
        Some(receipt) => {
            let touched = list(alloc, touches, returned(receipt.outcome), accesses)?;
            Ok(Executed { receipt, touched })
        }
        None => unreachable!(),
    }
}
