// The cells of a store one after another: those of its base, with the slots over them.
ghost use Rattle.std.specs.Prelude.{◌≡◌};
ghost use Rattle.std.specs.Iterator.{YieldsFirst, item_count};
ghost use Rattle.storage.specs.Slots.{left_of};

use crate::Slot;
use spec_ledger::Lock;
use std::cmp::Ordering;
use std::collections::btree_map::Iter;
use std::marker::Model;

/// The cells of a store that are left to go over, in the order of locks.
#[derive(Drop)]
pub struct Entries<'a> {
    /// Those of the base that are left.
    base: &'a [(Lock, u64)],
    /// The first slot that is left, with its lock.
    slot: Option<(Lock, Slot)>,
    /// The others.
    slots: Iter<'a, Lock, Slot>,
}

impl<'a> Model for Entries<'a> {
    ghost use Rattle.std.specs.Prelude.{ℕ, List};
    ghost use Rattle.spec_ledger.specs.declared.Lock.{Lock};
    ghost use Rattle.storage.specs.Slots.{left_of, merged};

    ghost Value = { List (Lock × ℕ) };

    ghost view = { λ e. merged e.base.now (left_of e.slot e.slots) };
}

/// Takes the first slot, with its lock.
fn take_slot(slots: &mut Iter<'_, Lock, Slot>) -> Option<(Lock, Slot)>
    ensures { left_of result slots.new ≡ slots.old }
{
    match slots.next() {
        Some((lock, slot)) => Some((*lock, *slot)),
        None => None,
    }
}

impl<'a> Entries<'a> {
    ghost use Rattle.storage.specs.Slots.{merged};

    /// Those of a base with slots over it.
    pub(crate) fn new(base: &'a [(Lock, u64)], slots: Iter<'a, Lock, Slot>) -> Entries<'a>
        ensures { result ≡ merged base.now slots.entry }
    {
        let mut slots = slots;
        let slot = take_slot(&mut slots);
        Entries { base, slot, slots }
    }
}

impl<'a> Iterator for Entries<'a> {
    type Item = (Lock, u64);

    ghost next_gives = { YieldsFirst (λ e. e) };

    ghost remaining = { item_count (λ e. e) };

    fn next(&mut self) -> Option<(Lock, u64)> {
        while let Some((lock, slot)) = self.slot {
            if let [first, others @ ..] = self.base {
                match first.0.cmp(&lock) {
                    Ordering::Less => {
                        self.base = others;
                        return Some(*first);
                    }
                    Ordering::Equal => self.base = others,
                    Ordering::Greater => (),
                }
            }
            self.slot = take_slot(&mut self.slots);
            if let Some(value) = slot.cell {
                return Some((lock, value));
            }
        }
        match self.base {
            [] => None,
            [first, others @ ..] => {
                self.base = others;
                Some(*first)
            }
        }
    }
}
