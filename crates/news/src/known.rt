// Cells that are known, as many as there is room for.
use spec_ledger::{Kind, Lock, NoMemory};
use std::alloc::Allocator;
use std::sync::atomic::{AtomicU64, Ordering};

/// How many slots a set has. Where 10,000 cells are known in 30,000 slots, one of 100 is lost with sets of four, and one of seven with single slots.
const SET: usize = 4;

/// A cell that is known.
#[derive(Drop)]
struct Slot {
    /// The name of its lock, or one less where it is absent. 0 where none is known.
    name: AtomicU64,
    /// The number in it, where there is one.
    number: AtomicU64,
}

impl Slot {
    /// Whether the slot is of the lock of this name.
    fn is_of(&self, name: u64) -> bool {
        self.name.load(Ordering::SeqCst) | 1 == name
    }

    fn is_free(&self) -> bool {
        self.name.load(Ordering::SeqCst) == 0
    }

    fn get(&self) -> Option<u64> {
        if self.name.load(Ordering::SeqCst) % 2 == 0 {
            return None;
        }
        Some(self.number.load(Ordering::SeqCst))
    }

    fn set(&self, name: u64, cell: Option<u64>) {
        match cell {
            Some(number) => {
                self.number.store(number, Ordering::SeqCst);
                self.name.store(name, Ordering::SeqCst);
            }
            None => self.name.store(name ^ 1, Ordering::SeqCst),
        }
    }
}

/// The name of a lock, which is odd. Locks may share one: whoever finds the cell of another lock has its call run again, and nothing else comes of it.
fn name_of(lock: Lock) -> u64 {
    let kind = match lock.kind {
        Kind::Map => 0,
        Kind::Counter => 1,
    };
    let place = u64::from(lock.contract).wrapping_mul(2).wrapping_add(kind);
    let mixed = lock.key.wrapping_mul(0x9E37_79B9_7F4A_7C15)
        ^ place.wrapping_mul(0xD6E8_FEB8_6659_FD93);
    mixed | 1
}

/// Cells that are known. Threads share them, and a cell that is found may be half of one and half of another, which is as bad as an old one. A name says in which set of slots its cell is; in a full set it
/// takes the slot of another. So each step is short whatever the keys are, which callers choose.
#[derive(Drop)]
pub(crate) struct Known<A: Allocator> {
    slots: Vec<Slot, A>,
}

impl<A: Allocator + Copy> Known<A> {
    /// No cells, with room for so many.
    pub(crate) fn open(alloc: A, cells: usize) -> Result<Self, NoMemory> {
        let mut slots = Vec::with_capacity(alloc, cells)?;
        for _slot in 0..cells {
            slots.push(Slot {
                name: AtomicU64::new(0),
                number: AtomicU64::new(0),
            })?;
        }
        Ok(Known { slots })
    }

    /// Forgets all cells.
    pub(crate) fn clear(&self) {
        for slot in &self.slots {
            if !slot.is_free() {
                slot.name.store(0, Ordering::SeqCst);
            }
        }
    }

    /// The slots of a name. None where there is room for none.
    fn set_of(&self, name: u64) -> Option<&[Slot]> {
        let sets = (self.slots.len() / SET) as u64;
        let first = (((name >> 32).wrapping_mul(sets) >> 32) as usize).saturating_mul(SET);
        self.slots.get(first..first.saturating_add(SET))
    }

    /// What a cell holds, where that is known.
    pub(crate) fn get(&self, lock: Lock) -> Option<Option<u64>> {
        let name = name_of(lock);
        for slot in self.set_of(name)? {
            if slot.is_of(name) {
                return Some(slot.get());
            }
        }
        None
    }

    /// Takes note of what a cell holds.
    pub(crate) fn set(&self, lock: Lock, cell: Option<u64>) {
        let name = name_of(lock);
        let Some(set) = self.set_of(name) else {
            return;
        };
        for slot in set {
            if slot.is_of(name) || slot.is_free() {
                slot.set(name, cell);
                return;
            }
        }
        if let Some(slot) = set.get((name >> 8) as usize % SET) {
            slot.set(name, cell);
        }
    }
}
