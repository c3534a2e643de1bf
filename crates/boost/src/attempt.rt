// What the book keeps of a call: its live attempt, or its committed entry.
ghost use Rattle.std.specs.Prelude.{◌≡◌, ◌+◌, ◌<◌, ◌≤◌, ℕ, List, ◌∷◌, [], ◌++◌, true, false, IfOk, OnOk, OnErr, IsTrue, ◌↔◌, Some, if◌then◌else◌, length, map, reverse, slice_set};
ghost use Rattle.spec_ledger.specs.Cells.{reply_to, cells_after, inverse_to};
ghost use Rattle.spec_ledger.specs.Book.{extended, entry_of, standing_at, with_step, fresh as fresh_of};
ghost use Rattle.spec_ledger.specs.declared.TraceStep.TheVariants as TheStep;
ghost use Rattle.storage.specs.Counts.{AreCounts, AreUnsettled, Store, opened};
ghost use Rattle.spec_ledger.specs.Cells.{lock_cmp, lock_of};
ghost use Rattle.spec_ledger.specs.Modes.{mode_of, ops_of, touched};
ghost use Rattle.boost.specs.LockRequests.{asked_by};
ghost use Rattle.boost.specs.Marks.{IsLeft};
ghost use Rattle.boost.specs.AttemptNumbers.{marked as marked_of};
ghost use Rattle.std.specs.FinMap as finite;
ghost use Rattle.std.specs.Ordering.{eq_by_cmp};
ghost use Rattle.abstract_locks.specs.Table.{asked, row_at};

use crate::trace::same_trace;
use abstract_locks::{Table, join_to};
use spec_ledger::{Inverse, Lock, Mode, Op, Outcome, Reply, TraceStep};
use std::alloc::{Allocator, Global};
use std::cmp::Ordering;
use std::marker::Model;
use storage::{Cells, NoMemory, lock, mode, take_back_to};

/// A committed call.
#[derive(Drop)]
pub struct CommittedCall<A: Allocator = Global> {
    pub(crate) call: u32,
    pub(crate) trace: Vec<TraceStep, A>,
    pub(crate) outcome: Outcome,
}

impl<A: Allocator> Model for CommittedCall<A> {
    ghost use Rattle.spec_ledger.specs.Book.{CommittedCall as TheEntry};
    ghost use Rattle.spec_ledger.specs.Codes.{coded_entry};
    ghost use Rattle.spec_ledger.specs.Modes.{touched};

    ghost Value = { TheEntry };

    ghost coded = { coded_entry };

    ghost view = { λ e. record { call = e.call; trace = e.trace.items; outcome = e.outcome; modes = touched e.trace.items } };
}

impl<A: Allocator> CommittedCall<A> {
    /// The entry of a call that did these operations with these replies, in order, and ended so.
    pub fn of(call: u32, trace: Vec<TraceStep, A>, outcome: Outcome) -> Self
        ensures call { result.call ≡ call }
        ensures trace { result.trace ≡ trace.items }
        ensures outcome { result.outcome ≡ outcome }
        ensures modes { result.modes ≡ touched trace.items }
    {
        CommittedCall {
            call,
            trace,
            outcome,
        }
    }

    /// The call's number.
    pub fn call(&self) -> u32
        ensures { result ≡ self.now.call }
    {
        self.call
    }

    /// The steps of the call, in order: its operations, with their replies, and the marks of its levels.
    pub fn trace(&self) -> &[TraceStep]
        ensures { result.now ≡ self.now.trace }
    {
        &self.trace
    }

    /// Whether these are the operations that the call did, with their replies, in order.
    pub fn has_trace(&self, trace: &[TraceStep]) -> bool
        ensures { IsTrue result ↔ (self.now.trace ≡ trace.now) }
    {
        same_trace(&self.trace, trace)
    }

    /// How the run ended.
    pub fn outcome(&self) -> Outcome
        ensures { result ≡ self.now.outcome }
    {
        self.outcome
    }

    /// The join of the modes in which the call asked for a lock, or None where it did not ask for it.
    pub fn mode(&self, lock: Lock) -> Option<Mode>
        ensures { result ≡ finite.get self.now.modes lock }
    {
        let mut held = None;
        for step in &self.trace {
            held = asked_at(lock, *step, held);
        }
        held
    }
}

fn is_same_lock(a: Lock, b: Lock) -> bool
    ensures { result ≡ eq_by_cmp lock_cmp a b }
{
    matches!(a.cmp(&b), Ordering::Equal)
}

/// What is held of a lock after a step of a trace.
fn asked_at(at: Lock, step: TraceStep, held: Option<Mode>) -> Option<Mode>
    ensures { result ≡ asked_by at step held }
{
    match step {
        TraceStep::Did(op, _) if is_same_lock(at, lock(op)) => Some(join_to(mode(op), held)),
        _ => held,
    }
}

/// Notes a mark in the list of those that are open, before and after which there is nothing to take back.
fn note_mark<A: Allocator>(noted: &mut Vec<usize, A>, mark: TraceStep) -> Result<(), NoMemory>
    ensures { OnOk result ((trace : List TraceStep) → ops_of (trace ++ mark ∷ []) ≡ [] → reverse noted.old.items ≡ map length (standing_at trace).marks → reverse noted.new.items ≡ map length (standing_at (trace ++ mark ∷ [])).marks) }
{
    match mark {
        TraceStep::Did(_, _) => Ok(()),
        TraceStep::Opened => match noted.push(0) {
            Ok(()) => Ok(()),
            Err(_) => Err(NoMemory),
        },
        TraceStep::Kept => {
            noted.pop();
            Ok(())
        }
        TraceStep::Dropped => {
            noted.pop();
            Ok(())
        }
    }
}

/// A live try of a call. Its trace has room for the marks that close its open levels, so that leaving one takes no memory.
#[derive(Drop)]
pub struct Attempt<A: Allocator = Global> {
    pub(crate) call: u32,
    pub(crate) number: u64,
    pub(crate) trace: Vec<TraceStep, A>,
    pub(crate) inverses: Vec<Inverse, A>,
    /// How many inverses there were at each open mark, the innermost last.
    pub(crate) marks: Vec<usize, A>,
}

impl<A: Allocator> Model for Attempt<A> {
    ghost use Rattle.spec_ledger.specs.Book.{Attempt as TheAttempt};
    ghost use Rattle.spec_ledger.specs.Codes.{coded_attempt};
    ghost use Rattle.spec_ledger.specs.Modes.{touched};
    ghost use Rattle.boost.specs.Marks.{AreMarks};

    ghost Value = { TheAttempt };

    ghost coded = { coded_attempt };

    ghost view = { λ a. record { call = a.call; number = a.number; trace = a.trace.items; modes = touched a.trace.items; inverses = a.inverses.items } };

    ghost invariant = { λ a. AreMarks a.trace a.inverses.items a.marks };
}

impl<A: Allocator + Copy> Attempt<A> {
    /// Does an operation, takes its lock and notes it, and leaves the room for the marks that close open levels. The lock comes second: a change can be taken back without memory, one lock of a call cannot. Where memory is refused, all is as it was.
    pub(crate) fn act(
        &mut self,
        cells: &mut Cells<A>,
        locks: &mut Table<A>,
        op: Op,
    ) -> Result<Reply, NoMemory>
        requires call { self.old.call < length locks.old }
        requires counts { AreCounts cells.old.unsettled }
        ensures reply { IfOk result (λ reply. reply ≡ reply_to op cells.old.cells) }
        ensures attempt { OnOk result (self.new ≡ extended self.old op cells.old.cells) }
        ensures cells { OnOk result (cells.new.cells ≡ cells_after op cells.old.cells) }
        ensures unsettled { OnOk result (cells.new.unsettled ≡ opened (inverse_to op cells.old.cells) cells.old.unsettled) }
        ensures locks { OnOk result (locks.new ≡ slice_set locks.old self.old.call (asked (row_at locks.old self.old.call) (lock_of op) (mode_of op))) }
        ensures err { OnErr result (self.new ≡ self.old) }
        ensures err_cells { OnErr result (cells.new ≡ cells.old) }
        ensures err_locks { OnErr result (locks.new ≡ locks.old) }
    {
        cells.use_invariant();
        self.trace
            .reserve(1 + self.marks.len())
            .map_err(|_| NoMemory)?;
        self.inverses.reserve(1).map_err(|_| NoMemory)?;
        let (reply, inverse) = cells.apply(op)?;
        let Ok(()) = locks.take(self.call, lock(op), mode(op)) else {
            cells.take_back(inverse);
            return Err(NoMemory);
        };
        match self.trace.push(TraceStep::Did(op, reply)) {
            Ok(()) => (),
            Err(_) => unreachable!(),
        }
        match self.inverses.push(inverse) {
            Ok(()) => (),
            Err(_) => unreachable!(),
        }
        Ok(reply)
    }

    /// Makes the room for one level more, so that the next that is entered takes no memory. What is seen stays.
    pub(crate) fn make_room(&mut self) -> Result<(), NoMemory>
        ensures { self.new ≡ self.old }
    {
        self.trace
            .reserve(2 + self.marks.len())
            .map_err(|_| NoMemory)?;
        self.marks.reserve(1).map_err(|_| NoMemory)?;
        Ok(())
    }

    /// Enters a level. The room for its mark and for the one that closes it is made first; where memory is refused, all is as it was.
    pub(crate) fn enter(&mut self) -> Result<(), NoMemory>
        ensures attempt { OnOk result (self.new ≡ with_step self.old TheStep.Opened) }
        ensures err { OnErr result (self.new ≡ self.old) }
    {
        self.trace
            .reserve(2 + self.marks.len())
            .map_err(|_| NoMemory)?;
        self.marks.reserve(1).map_err(|_| NoMemory)?;
        match self.trace.push(TraceStep::Opened) {
            Ok(()) => (),
            Err(_) => unreachable!(),
        }
        match self.marks.push(self.inverses.len()) {
            Ok(()) => (),
            Err(_) => unreachable!(),
        }
        Ok(())
    }

    /// Leaves the innermost level, where one is open, for which it takes no memory: its changes stand.
    fn keep(&mut self) -> bool
        ensures left { IsTrue result → (store : Store) → IsLeft self.old self.new store store true }
        ensures none { result ≡ false → (standing_at self.old.trace).marks ≡ [] }
        ensures unchanged { result ≡ false → self.new ≡ self.old }
    {
        let Some(_mark) = self.marks.pop() else {
            return false;
        };
        match self.trace.push(TraceStep::Kept) {
            Ok(()) => (),
            Err(_) => unreachable!(),
        }
        true
    }

    /// Leaves the innermost level, where one is open, for which it takes no memory: its changes are taken back, last first.
    fn take_back(&mut self, cells: &mut Cells<A>) -> bool
        requires { AreUnsettled self.old.inverses cells.old.unsettled }
        ensures left { IsTrue result → IsLeft self.old self.new cells.old cells.new false }
        ensures none { result ≡ false → (standing_at self.old.trace).marks ≡ [] }
        ensures unchanged { result ≡ false → (self.new ≡ self.old) × (cells.new ≡ cells.old) }
    {
        let Some(mark) = self.marks.pop() else {
            return false;
        };
        take_back_to(cells, &mut self.inverses, mark);
        match self.trace.push(TraceStep::Dropped) {
            Ok(()) => (),
            Err(_) => unreachable!(),
        }
        true
    }

    /// Leaves the innermost level, where one is open, for which it takes no memory: its changes stand, or are taken back, last first.
    pub(crate) fn leave(&mut self, cells: &mut Cells<A>, keep: bool) -> bool
        requires { AreUnsettled self.old.inverses cells.old.unsettled }
        ensures left { IsTrue result → IsLeft self.old self.new cells.old cells.new keep }
        ensures none { result ≡ false → (standing_at self.old.trace).marks ≡ [] }
        ensures unchanged { result ≡ false → (self.new ≡ self.old) × (cells.new ≡ cells.old) }
    {
        if keep {
            self.keep()
        } else {
            self.take_back(cells)
        }
    }
}

impl<A: Allocator + Copy> Attempt<A> {
    pub(crate) fn into_inverses(self) -> Vec<Inverse, A>
        ensures { result.items ≡ self.inverses }
    {
        let Attempt {
            call: _,
            number: _,
            trace: _,
            inverses,
            marks: _,
        } = self;
        inverses
    }

    /// The entry of an attempt, and its inverses.
    pub(crate) fn into_entry(self, outcome: Outcome) -> (CommittedCall<A>, Vec<Inverse, A>)
        ensures entry { result.0 ≡ entry_of self outcome }
        ensures inverses { result.1.items ≡ self.inverses }
    {
        let Attempt {
            call,
            number: _,
            trace,
            inverses,
            marks: _,
        } = self;
        let entry = CommittedCall {
            call,
            trace,
            outcome,
        };
        (entry, inverses)
    }

    /// An attempt with an empty trace.
    pub(crate) fn fresh(alloc: A, call: u32, number: u64) -> Self
        ensures { result ≡ fresh_of call number }
    {
        Attempt {
            call,
            number,
            trace: Vec::new(alloc),
            inverses: Vec::new(alloc),
            marks: Vec::new(alloc),
        }
    }

    /// An attempt that has made these marks of levels and done nothing else, with room for those that close its open levels.
    pub(crate) fn marked(
        alloc: A,
        call: u32,
        number: u64,
        marks: &[TraceStep],
    ) -> Result<Self, NoMemory>
        requires { ops_of marks.now ≡ [] }
        ensures { IfOk result (λ attempt. attempt ≡ marked_of call number marks.now) }
    {
        let mut trace = Vec::new(alloc);
        let mut noted = Vec::new(alloc);
        for mark in marks {
            note_mark(&mut noted, *mark)?;
            match trace.push(*mark) {
                Ok(()) => (),
                Err(_) => return Err(NoMemory),
            }
        }
        trace.reserve(noted.len()).map_err(|_| NoMemory)?;
        Ok(Attempt {
            call,
            number,
            trace,
            inverses: Vec::new(alloc),
            marks: noted,
        })
    }

    pub(crate) fn call(&self) -> u32
        ensures { result ≡ self.now.call }
    {
        self.call
    }

    pub(crate) fn number(&self) -> u64
        ensures { result ≡ self.now.number }
    {
        self.number
    }

    pub(crate) fn trace(&self) -> &[TraceStep]
        ensures { result.now ≡ self.now.trace }
    {
        &self.trace
    }

    /// Whether this is the attempt of that call and number, and has done nothing.
    pub(crate) fn is_fresh(&self, call: u32, number: u64) -> bool
        ensures { IsTrue result ↔ (self.now ≡ fresh_of call number) }
    {
        self.call == call
            && self.number == number
            && self.trace.is_empty()
            && self.inverses.is_empty()
    }
}
