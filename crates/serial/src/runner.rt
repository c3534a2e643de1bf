//! Calls that run one after another in one thread, each on the machine of the one before.

ghost use Rattle.std.specs.Prelude.{◌≡◌, ◌++◌, All, IfOk, OnErr, OnOk};
ghost use Rattle.std.specs.FinMap as finite;
ghost use Rattle.spec_execution.specs.Exec.{Executes};
ghost use Rattle.spec_execution.specs.ReadWriteSets.{IsReadWriteSet};
ghost use Rattle.interp.specs.Callee.{setting_view};
ghost use Rattle.serial.specs.Behind.{behind};
ghost use Rattle.serial.specs.FoundCells.{IsFoundBy};
ghost use Rattle.serial.specs.Touches.{AreAccessesAt};

use crate::over_view::{Reads, run_begun, run_over};
use crate::playing::{OverCells, begin_in};
use crate::{Executed, execute_over};
use call::Call;
use interp::machine::Machine;
use link::deployed::Deployed as Contract;
use spec_execution::Access;
use spec_ledger::{NoMemory, Version};
use std::alloc::Allocator;
use std::mem;
use storage::Cells;

/// Runs calls one after another in one thread, each on the machine of the one before, in the room of its lists. No call sees anything of the one before.
#[derive(Drop)]
pub struct Runner<'a, A: Allocator + Copy> {
    alloc: A,
    machine: Option<Machine<'a, A>>,
    /// No cells between two calls.
    over: OverCells<A>,
}

impl<'a, A: Allocator + Copy> Runner<'a, A> {
    /// A runner that has run no call.
    pub fn new(alloc: A) -> Self {
        Runner {
            alloc,
            machine: None,
            over: OverCells::of(alloc, Cells::new(alloc)),
        }
    }

    /// Runs a call over the cells, by the rules of this version. Unless it returned they are as before.
    ///
    /// # Errors
    ///
    /// Memory was refused.
    pub fn execute(
        &mut self,
        contracts: &'a [Contract<A>],
        call: &'a Call,
        cells: &mut Cells<A>,
        version: Version,
    ) -> Result<Executed<A>, NoMemory>
        requires { cells.old.unsettled ≡ finite.empty }
        ensures executed { IfOk result (λ e. Executes (setting_view version contracts.now) call.now cells.old.cells cells.new.cells e.receipt e.touched) }
        ensures settled { cells.new.unsettled ≡ finite.empty }
        ensures err { OnErr result (cells.new ≡ cells.old) }
    {
        mem::swap(cells, &mut self.over.cells);
        let executed = execute_over(
            self.alloc,
            contracts,
            call,
            &mut self.machine,
            &mut self.over,
            version,
        );
        mem::swap(cells, &mut self.over.cells);
        executed
    }

    /// Runs a call over a view, by the rules of this version, and puts its read-write set behind the accesses that are there: what it found and leaves at each lock
    /// that it asked for, in the order of locks. The view is read once at each of them, where the call first asks for it, and what it found is what the view may
    /// answer.
    ///
    /// # Errors
    ///
    /// Memory was refused. More or fewer of its accesses may have been put down.
    pub fn run_over<V: Reads>(
        &mut self,
        contracts: &'a [Contract<A>],
        call: &'a Call,
        view: &V,
        accesses: &mut Vec<Access, A>,
        version: Version,
    ) -> Result<Executed<A>, NoMemory>
        ensures read_write_set { IfOk result (λ e. IsReadWriteSet (setting_view version contracts.now) call.now (behind accesses.old.items accesses.new.items) e.receipt e.touched) }
        ensures told { IfOk result (λ e. AreAccessesAt e.touched (behind accesses.old.items accesses.new.items)) }
        ensures read { IfOk result (λ e. All (IsFoundBy (V.may_read view.now)) (behind accesses.old.items accesses.new.items)) }
        ensures accesses { OnOk result (accesses.new.items ≡ accesses.old.items ++ behind accesses.old.items accesses.new.items) }
    {
        if call.fuel() == 0 {
            return run_over(self.alloc, contracts, call, view, accesses, version);
        }
        let Ok(()) = begin_in(self.alloc, contracts, call, &mut self.machine, version) else {
            return run_over(self.alloc, contracts, call, view, accesses, version);
        };
        match &mut self.machine {
            Some(begun) => run_begun(self.alloc, begun, view, accesses),
            None => unreachable!(),
        }
    }
}
