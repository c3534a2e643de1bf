// A call that runs over cells, which answer its operations.
ghost use Rattle.std.specs.Prelude.{◌≡◌, ◌<◌, ◌^◌, [], IfOk, IfSome, IsSome, OnErr, OnOk};
ghost use Rattle.std.specs.FinMap as finite;
ghost use Rattle.interp.specs.Callee.{setting_view};
ghost use Rattle.interp.specs.Progress.{IsFree, IsSameCall, IsStartOf};
ghost use Rattle.serial.specs.MachineProgress.{IsEnded};
ghost use Rattle.serial.specs.Playing.{AreDone, AreDoneInLevels, IsPlayedOver};

use crate::steps::{act, leave};
use crate::storage_loop::{Storage, play_over, run_on};
use call::Call;
use interp::finished::Finished;
use interp::machine::Machine;
use interp::start::StartRefusal;
use link::deployed::Deployed as Contract;
use lock_profile::Held;
use spec_ledger::{Inverse, NoMemory, Op, Reply, Version};
use std::alloc::Allocator;
use storage::{Cells, take_back_to};

/// How many items a list holds at most whose room the next call uses. A longer one is given back.
const MOST_KEPT: usize = 2_048;

/// Cells that calls run over, one after another, with lists that each call fills anew, in the room that the one before has left: the inverses of what it did, first
/// to last; how many of them there were where each open level was entered, the innermost last; and the locks that it asked for.
#[derive(Drop)]
pub(crate) struct OverCells<A: Allocator> {
    pub(crate) cells: Cells<A>,
    pub(crate) inverses: Vec<Inverse, A>,
    pub(crate) marks: Vec<usize, A>,
    pub(crate) asked: Vec<Held, A>,
}

impl<A: Allocator + Copy> OverCells<A> {
    /// These cells, over which no call has run yet.
    pub(crate) fn of(alloc: A, cells: Cells<A>) -> Self
        ensures { result.cells ≡ cells }
    {
        OverCells {
            cells,
            inverses: Vec::new(alloc),
            marks: Vec::new(alloc),
            asked: Vec::new(alloc),
        }
    }
}

/// Empties a list, and gives its room back where that is large.
pub(crate) fn empty_list<T: Drop, A: Allocator>(list: &mut Vec<T, A>)
    ensures { list.new.items ≡ [] }
{
    list.clear();
    list.shrink_to(MOST_KEPT);
}

impl<A: Allocator + Copy> Storage for OverCells<A> {
    type Refusal = NoMemory;

    ghost led = { λ start trace now. AreDoneInLevels start.cells trace now.cells now.inverses.items now.marks.items };

    ghost left = { λ start trace now. AreDone start.cells trace now.cells now.inverses.items };

    ghost stay = { λ start now trace done. done.done };

    fn act(&mut self, _asked: u64, op: Op) -> Result<Reply, NoMemory> {
        let reply = act(&mut self.cells, &mut self.inverses, op)?;
        Ok(reply)
    }

    fn enter(&mut self) -> Result<(), NoMemory> {
        self.marks.push(self.inverses.len())?;
        Ok(())
    }

    fn leave(&mut self, keep: bool) -> Result<(), NoMemory> {
        leave(&mut self.cells, &mut self.inverses, &mut self.marks, keep);
        Ok(())
    }

    fn no_memory() -> NoMemory {
        NoMemory
    }
}

/// Runs a call over the cells by the rules of this version, and answers its run. The inverses are then of its operations. After a refusal of memory the
/// cells are as they were.
pub(crate) fn play<'a, A: Allocator + Copy>(
    alloc: A,
    contracts: &'a [Contract<A>],
    call: &'a Call,
    over: &mut OverCells<A>,
    version: Version,
) -> Result<Finished<'a, A>, NoMemory>
    requires { over.old.cells.unsettled ≡ finite.empty }
    ensures ok { IfOk result (λ f. IsPlayedOver (setting_view version contracts.now) call.now over.old.cells f over.new.cells over.new.inverses.items) }
    ensures err { OnErr result (over.new.cells ≡ over.old.cells) }
{
    over.cells.use_invariant();
    empty_list(&mut over.inverses);
    empty_list(&mut over.marks);
    match play_over(alloc, contracts, call, version, over) {
        Ok(finished) => Ok(finished),
        Err(NoMemory) => {
            take_back_to(&mut over.cells, &mut over.inverses, 0);
            Err(NoMemory)
        }
    }
}

/// Begins a call in the place of the one before, where there is one.
pub(crate) fn begin_in<'a, A: Allocator + Copy>(
    alloc: A,
    contracts: &'a [Contract<A>],
    call: &'a Call,
    machine: &mut Option<Machine<'a, A>>,
    version: Version,
) -> Result<(), StartRefusal>
    ensures there { OnOk result (IsSome machine.new) }
    ensures start { OnOk result (IfSome machine.new (IsStartOf (setting_view version contracts.now) call.now)) }
{
    match machine {
        Some(before) => before.start_again(contracts, call, version),
        None => {
            let first = Machine::start_as(alloc, contracts, call, version)?;
            *machine = Some(first);
            Ok(())
        }
    }
}

/// Runs a call that a machine has begun over the cells. The inverses are then of its operations. After a refusal of memory the cells are as they were.
pub(crate) fn run_in<'a, A: Allocator + Copy>(
    machine: &mut Machine<'a, A>,
    over: &mut OverCells<A>,
) -> Result<(), NoMemory>
    requires free { IsFree machine.old.status }
    requires first { machine.old.trace ≡ [] }
    requires limit { machine.old.call.fuel < 2 ^ 64 }
    requires settled { over.old.cells.unsettled ≡ finite.empty }
    ensures same { OnOk result (IsSameCall machine.old machine.new) }
    ensures ended { OnOk result (IsEnded machine.new.status) }
    ensures done { OnOk result (AreDone over.old.cells machine.new.trace over.new.cells over.new.inverses.items) }
    ensures err { OnErr result (over.new.cells ≡ over.old.cells) }
{
    over.cells.use_invariant();
    empty_list(&mut over.inverses);
    empty_list(&mut over.marks);
    match run_on(machine, over) {
        Ok(()) => Ok(()),
        Err(NoMemory) => {
            take_back_to(&mut over.cells, &mut over.inverses, 0);
            Err(NoMemory)
        }
    }
}
