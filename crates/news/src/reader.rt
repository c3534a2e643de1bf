//! What the calls find that one thread runs ahead of their turn.

ghost use Rattle.serial.specs.Touches.{IsCellAt};

use crate::known::Known;
use serial::Reads;
use spec_execution::Access;
use spec_ledger::{CellKey, Kind, Lock, Op};
use std::alloc::{Allocator, Global};
use storage::{Cells, counter_lock, next_cell};

/// The cells as a thread knows them: what the calls before in its batch left, else what threads were told that others left, else what there was before the first call.
#[derive(Clone, Copy)]
pub struct View<'s, A: Allocator = Global> {
    pub(crate) own: Option<&'s Known<A>>,
    /// What threads are told, where they are.
    pub(crate) left: Option<&'s Known<A>>,
    pub(crate) base: &'s Cells<A>,
}

impl<A: Allocator + Copy> View<'_, A> {
    /// What a cell holds, where that was noted or told.
    fn known(&self, lock: Lock) -> Option<Option<u64>> {
        if let Some(own) = self.own {
            if let Some(cell) = own.get(lock) {
                return Some(cell);
            }
        }
        self.left?.get(lock)
    }

    /// Takes note of what a call of the batch leaves at a lock, and tells it where threads are told: its turn may show that it left another cell, and then that one is told, too.
    fn put(&self, lock: Lock, cell: Option<u64>) {
        if let Some(own) = self.own {
            own.set(lock, cell);
        }
        if let Some(left) = self.left {
            left.set(lock, cell);
        }
    }

    /// Takes note of what a call of the batch leaves: of these accesses, those from a place on.
    pub fn note(&self, accesses: &[Access], from: usize) {
        for at in from..accesses.len() {
            match accesses[at] {
                Access::Read(_, _) => (),
                Access::Replaced(lock, _, later) => self.put(lock, later),
                Access::Added(place, amount) => {
                    let lock = counter_lock(place);
                    let op = Op::Add(place, amount);
                    self.put(lock, next_cell(op, self.read(lock)));
                }
            }
        }
    }
}

/// What a lock holds that is said to hold this: no counter is there with 0.
fn held_at(lock: Lock, cell: Option<u64>) -> Option<u64>
    ensures { IsCellAt lock result }
{
    let place = CellKey {
        contract: lock.contract,
        key: lock.key,
    };
    match lock.kind {
        Kind::Map => cell,
        Kind::Counter => next_cell(Op::Add(place, 0), cell),
    }
}

impl<A: Allocator + Copy> Reads for View<'_, A> {
    ghost may_read = { λ _ _ _. Unit {0} };

    fn read(&self, lock: Lock) -> Option<u64> {
        match self.known(lock) {
            Some(cell) => held_at(lock, cell),
            None => self.base.read(lock),
        }
    }
}
