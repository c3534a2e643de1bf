//! Read-write sets of calls: what a call did with the cell at each lock that it asked for, done again over other cells without running it (Dickerson, Gazzillo,
//! Herlihy, Koskinen, "Adding Concurrency to Smart Contracts", PODC 2017, section 4: a miner runs calls speculatively and publishes the order in which they
//! stand).

ghost use Rattle.std.specs.Prelude.{◌≡◌, ◌↔◌, Ok, true, false, All, IfOk, IsTrue, OnOk};
ghost use Rattle.std.specs.FinMap as finite;
ghost use Rattle.spec_execution.specs.ReadWriteSets.{Agrees, LeavesACell, all_left, left};

use spec_execution::Access;
use spec_ledger::{NoMemory, Op};
use std::alloc::Allocator;
use storage::Cells;

/// Leaves of a cell what an access leaves.
fn leave<A: Allocator + Copy>(cells: &mut Cells<A>, access: Access) -> Result<(), NoMemory>
    requires leaves { LeavesACell access }
    requires settled { cells.old.unsettled ≡ finite.empty }
    ensures left { OnOk result (cells.new.cells ≡ left access cells.old.cells) }
    ensures settled { cells.new.unsettled ≡ finite.empty }
{
    match access {
        Access::Read(_, _) => Ok(()),
        Access::Added(place, amount) => {
            let (_, inverse) = cells.apply(Op::Add(place, amount))?;
            cells.settle(inverse);
            Ok(())
        }
        Access::Replaced(lock, _, later) => cells.set(lock, later),
    }
}

/// Leaves what accesses leave, one after another.
fn leave_all<A: Allocator + Copy>(cells: &mut Cells<A>, accesses: &[Access]) -> Result<(), NoMemory>
    requires leaves { All LeavesACell accesses.now }
    requires settled { cells.old.unsettled ≡ finite.empty }
    ensures left { OnOk result (cells.new.cells ≡ all_left accesses.now cells.old.cells) }
    ensures settled { cells.new.unsettled ≡ finite.empty }
{
    for access in accesses {
        leave(cells, *access)?;
    }
    Ok(())
}

fn is_valid_over<A: Allocator + Copy>(cells: &Cells<A>, access: Access) -> bool
    ensures { IsTrue result ↔ Agrees cells.now.cells access }
{
    match access {
        Access::Read(lock, cell) | Access::Replaced(lock, cell, _) => cells.get(lock) == cell,
        Access::Added(_, _) => true,
    }
}

/// Whether cells hold what a call found where it made these accesses.
fn are_valid_over<A: Allocator + Copy>(cells: &Cells<A>, accesses: &[Access]) -> bool
    ensures { IsTrue result ↔ All (Agrees cells.now.cells) accesses.now }
{
    for access in accesses {
        if !is_valid_over(cells, *access) {
            return false;
        }
    }
    true
}

/// Does with cells what a read-write set did, where they hold what it found. Answers whether they do.
///
/// # Errors
///
/// Memory was refused. The cells may have changed.
pub fn write_back<A: Allocator + Copy>(
    cells: &mut Cells<A>,
    accesses: &[Access],
) -> Result<bool, NoMemory>
    requires leaves { All LeavesACell accesses.now }
    requires settled { cells.old.unsettled ≡ finite.empty }
    ensures answer { IfOk result (λ fits. IsTrue fits ↔ All (Agrees cells.old.cells) accesses.now) }
    ensures left { result ≡ Ok true → cells.new.cells ≡ all_left accesses.now cells.old.cells }
    ensures same { result ≡ Ok false → cells.new ≡ cells.old }
    ensures settled { cells.new.unsettled ≡ finite.empty }
{
    if !are_valid_over(cells, accesses) {
        return Ok(false);
    }
    leave_all(cells, accesses)?;
    Ok(true)
}
