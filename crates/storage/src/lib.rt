// Boosted storage: cells whose changes can be taken back without memory.
#![tactic(auto)]

mod base;
mod cells_ahead;
mod changes;
mod effects;
mod entries;

ghost use Rattle.std.specs.Prelude.{◌≡◌, ◌≢◌, ◌+◌, ◌-◌, ◌<◌, ◌≤◌, ◌^◌, ◌++◌, T, ℕ, max, Some, None, IfOk, IfSome, OnOk, OnErr, ◌↔◌, IsTrue, length};
ghost use Rattle.spec_ledger.specs.Cells.{Cells as TheCells, lock_cmp, cell_after, cells_after, reply_to, inverse_to, back, counter, set_at, update, number, AreCells, IsOfItsType, AreOfTheirTypes};
ghost use Rattle.storage.specs.Counts.{opened, closed, IsUnsettled, count_at};
ghost use Rattle.spec_ledger.specs.declared.Lock.{Lock};
ghost use Rattle.storage.specs.Slots.{base_of, cells_in, counts_in, cell_back, AreFew, AreHeld};
ghost use Rattle.std.specs.FinMap as finite;

use crate::base::{Base, one_list};
pub use crate::entries::Entries;
pub use cells_ahead::Ahead;
pub use changes::{end_all, end_alone, returned, settle_all, take_all_back, take_back_to};
use effects::reads;
pub use effects::{counter_lock, former_cell, inverse, lock, map_lock, mode, next_cell, reply};
pub use spec_ledger::{CellKey, Inverse, Kind, Lock, NoMemory, Op, Reply, TraceStep};
use std::alloc::{Allocator, Global};
use std::collections::BTreeMap;
use std::marker::Model;

/// What a store keeps at a lock.
#[derive(Clone, Copy, Debug, PartialEq, Eq)]
pub struct Slot {
    /// The number in the cell, or None where the cell is absent.
    pub cell: Option<u64>,
    /// The store's floor, and one more for each change of the cell that may still be taken back; or less, where there is none.
    pub unsettled: u64,
}

/// A base and the slots over it have fewer cells together.
const MOST: usize = 0x7fff_ffff_ffff_ffff;

/// A number that is held is of its type, and so is its lock.
fn note_types(lock: Lock, cell: Option<u64>)
    ensures { (value : ℕ) → cell ≡ Some value → IsOfItsType lock value }
{
    let _contract = lock.contract;
    let _key = lock.key;
    if let Some(_value) = cell {}
}

/// What a base holds at a lock, with the slots over it.
fn cell_at<A: Allocator>(base: &Base<A>, slots: &BTreeMap<Lock, Slot, A>, lock: Lock) -> Option<u64>
    ensures { result ≡ finite.get (cells_in (base_of base.now) slots.now.entries) lock }
{
    match slots.get(&lock) {
        None => base.find(lock),
        Some(slot) => slot.cell,
    }
}

/// Drops a slot: its lock has what the base has there.
fn drop_slot<A: Allocator>(slots: &mut BTreeMap<Lock, Slot, A>, lock: Lock)
    ensures cells { (base : TheCells) → cells_in base slots.new.entries ≡ set_at (cells_in base slots.old.entries) lock (finite.get base lock) }
    ensures counts { (floor : ℕ) → counts_in floor slots.new.entries ≡ set_at (counts_in floor slots.old.entries) lock None }
    ensures few { length slots.new.entries ≤ length slots.old.entries }
{
    slots.remove(&lock);
}

fn higher(a: u64, b: u64) -> u64
    ensures { result ≡ max a b }
{
    if a < b { b } else { a }
}

/// The number of a slot with one unsettled change more. None where there is no such number of 64 bits.
fn number_more(number: u64, floor: u64) -> Option<u64>
    ensures { IfSome result (λ next. next - floor ≡ (number - floor) + 1) }
{
    let next = higher(number, floor).checked_add(1)?;
    Some(next)
}

/// How many changes a slot of this number has unsettled.
fn count_above(number: u64, floor: u64) -> u64
    ensures { result ≡ number - floor }
{
    number.saturating_sub(floor)
}

/// Whether there may be a slot more.
fn has_room<A: Allocator>(base: &Base<A>, slots: &BTreeMap<Lock, Slot, A>) -> bool
    ensures { IsTrue result → length base.now + length slots.now.entries + 1 < 2 ^ 63 }
{
    base.len().saturating_add(slots.len()) < MOST
}

/// Does an operation on a lock's slot, in place or in a new one over the base, and answers what the cell held, and the highest number of a slot now. One
/// change more of the lock is unsettled.
fn open_slot<A: Allocator + Copy>(
    base: &Base<A>,
    slots: &mut BTreeMap<Lock, Slot, A>,
    floor: u64,
    top: u64,
    lock: Lock,
    op: Op,
) -> Result<(Option<u64>, u64), NoMemory>
    requires { counts_in top slots.old.entries ≡ finite.empty }
    ensures before { IfOk result (λ r. r.0 ≡ finite.get (cells_in (base_of base.now) slots.old.entries) lock) }
    ensures cells { OnOk result (cells_in (base_of base.now) slots.new.entries ≡ update (cells_in (base_of base.now) slots.old.entries) lock (cell_after op)) }
    ensures counts { OnOk result (counts_in floor slots.new.entries ≡ update (counts_in floor slots.old.entries) lock (λ n. counter (number n + 1))) }
    ensures types { OnOk result (AreOfTheirTypes (cells_in (base_of base.now) slots.old.entries) → AreOfTheirTypes (cells_in (base_of base.now) slots.new.entries)) }
    ensures below { IfOk result (λ r. counts_in r.1 slots.new.entries ≡ finite.empty) }
    ensures cells_at_err { OnErr result (cells_in (base_of base.now) slots.new.entries ≡ cells_in (base_of base.now) slots.old.entries) }
    ensures counts_at_err { OnErr result (counts_in floor slots.new.entries ≡ counts_in floor slots.old.entries) }
    ensures below_at_err { OnErr result (counts_in top slots.new.entries ≡ finite.empty) }
    ensures few { AreFew base.now slots.old.entries → AreFew base.now slots.new.entries }
{
    if !has_room(base, slots) {
        return Err(NoMemory);
    }
    let slot = slots.entry(lock)?.or_insert_with(|| Slot {
        cell: base.find(lock),
        unsettled: 0,
    });
    let Some(number) = number_more(slot.unsettled, floor) else {
        return Err(NoMemory);
    };
    let before = slot.cell;
    let next = next_cell(op, before);
    note_types(lock, next);
    *slot = Slot {
        cell: next,
        unsettled: number,
    };
    Ok((before, higher(top, number)))
}

/// Whether a slot with this number, and with so many changes unsettled, is as good as none: neither it nor the base has a number.
fn is_needless<A: Allocator>(base: &Base<A>, lock: Lock, cell: Option<u64>, left: u64) -> bool
    ensures cell { IsTrue result → cell ≡ finite.get (base_of base.now) lock }
    ensures none { IsTrue result → cell ≡ None }
    ensures left { IsTrue result → left ≡ 0 }
{
    match (cell, left) {
        (None, 0) => base.find(lock).is_none(),
        _ => false,
    }
}

/// Takes a change back in a lock's slot, in place, and drops the slot where it is needless then. One change less of the lock is unsettled.
fn close_slot<A: Allocator + Copy>(
    base: &Base<A>,
    slots: &mut BTreeMap<Lock, Slot, A>,
    floor: u64,
    _top: u64,
    lock: Lock,
    inverse: Inverse,
)
    requires unsettled { 0 < count_at (counts_in floor slots.old.entries) lock }
    requires below { counts_in _top slots.old.entries ≡ finite.empty }
    ensures cells { cells_in (base_of base.now) slots.new.entries ≡ update (cells_in (base_of base.now) slots.old.entries) lock (cell_back inverse) }
    ensures counts { counts_in floor slots.new.entries ≡ update (counts_in floor slots.old.entries) lock (λ n. counter (number n - 1)) }
    ensures types { AreOfTheirTypes (cells_in (base_of base.now) slots.old.entries) → AreOfTheirTypes (cells_in (base_of base.now) slots.new.entries) }
    ensures below { counts_in _top slots.new.entries ≡ finite.empty }
    ensures few { length slots.new.entries ≤ length slots.old.entries }
{
    let Some(slot) = slots.get_mut(&lock) else {
        unreachable!()
    };
    let next = Slot {
        cell: former_cell(inverse, slot.cell),
        unsettled: slot.unsettled - 1,
    };
    note_types(lock, next.cell);
    if is_needless(base, lock, next.cell, count_above(next.unsettled, floor)) {
        drop_slot(slots, lock);
    } else {
        *slot = next;
    }
}

/// Puts a number into a lock's slot, or none, in place or in a new one. Its unsettled changes stay.
fn fill_slot<A: Allocator + Copy>(
    base: &Base<A>,
    slots: &mut BTreeMap<Lock, Slot, A>,
    lock: Lock,
    cell: Option<u64>,
) -> Result<(), NoMemory>
    ensures cells { OnOk result (cells_in (base_of base.now) slots.new.entries ≡ set_at (cells_in (base_of base.now) slots.old.entries) lock cell) }
    ensures counts { OnOk result ((floor : ℕ) → counts_in floor slots.new.entries ≡ counts_in floor slots.old.entries) }
    ensures types { OnOk result (AreOfTheirTypes (cells_in (base_of base.now) slots.old.entries) → AreOfTheirTypes (cells_in (base_of base.now) slots.new.entries)) }
    ensures cells_at_err { OnErr result (cells_in (base_of base.now) slots.new.entries ≡ cells_in (base_of base.now) slots.old.entries) }
    ensures counts_at_err { OnErr result ((floor : ℕ) → counts_in floor slots.new.entries ≡ counts_in floor slots.old.entries) }
    ensures few { AreFew base.now slots.old.entries → AreFew base.now slots.new.entries }
{
    if !has_room(base, slots) {
        return Err(NoMemory);
    }
    let slot = slots.entry(lock)?.or_insert(Slot {
        cell: None,
        unsettled: 0,
    });
    note_types(lock, cell);
    *slot = Slot {
        cell,
        unsettled: slot.unsettled,
    };
    Ok(())
}

fn is_same_entry(a: (Lock, u64), b: (Lock, u64)) -> bool
    ensures { IsTrue result ↔ (a ≡ b) }
{
    a.0 == b.0 && a.1 == b.1
}

/// Cells, with their unsettled changes.
#[derive(Drop)]
pub struct Cells<A: Allocator = Global> {
    /// The cells that there were first.
    base: Base<A>,
    /// What is at a lock since it was changed, in place of what the base has there.
    slots: BTreeMap<Lock, Slot, A>,
    /// What is not above this number of a slot is settled. So it rises where all changes stand.
    floor: u64,
    /// No slot's number is above this one.
    top: u64,
}

impl<A: Allocator> Model for Cells<A> {
    ghost use Rattle.storage.specs.Counts.{Store, store_code};

    ghost Value = { Store };

    ghost coded = { store_code };

    ghost use Rattle.storage.specs.Slots.{base_of, cells_in, counts_in, AreKept};

    ghost view = { λ a. record { cells = cells_in (base_of a.base) a.slots.entries; unsettled = counts_in a.floor a.slots.entries } };

    ghost invariant = { λ a. AreKept a.top a.base a.slots.entries };
}

impl<A: Allocator + Copy> Cells<A> {
    /// No cells.
    pub fn new(alloc: A) -> Self
        ensures cells { result.cells ≡ finite.empty }
        ensures unsettled { result.unsettled ≡ finite.empty }
    {
        Cells::of_base(alloc, Base::empty(alloc))
    }

    /// The cells of a base.
    fn of_base(alloc: A, base: Base<A>) -> Self
        requires cells { AreCells (base_of base) }
        requires types { AreOfTheirTypes (base_of base) }
        ensures cells { result.cells ≡ base_of base }
        ensures unsettled { result.unsettled ≡ finite.empty }
    {
        let _count = base.len();
        Cells {
            base,
            slots: BTreeMap::new(alloc),
            floor: 0,
            top: 0,
        }
    }

    /// The cells of two lists, each in the order of locks. Where both have a lock, the number is that of the first. No counter is at 0, and each cell is of 64 bits at a
    /// lock of its type.
    ///
    /// # Errors
    ///
    /// Memory was refused.
    pub fn from_sorted(
        alloc: A,
        over: Vec<(Lock, u64), A>,
        base: Vec<(Lock, u64), A>,
    ) -> Result<Self, NoMemory>
        requires over { T (finite.is_sorted lock_cmp over.items) }
        requires base { T (finite.is_sorted lock_cmp base.items) }
        requires held { AreHeld over.items × AreHeld base.items }
        ensures cells { IfOk result (λ cells. cells.cells ≡ finite.from_entries (over.items ++ base.items)) }
        ensures unsettled { IfOk result (λ cells. cells.unsettled ≡ finite.empty) }
    {
        let cells = one_list(alloc, base, over)?;
        Ok(Cells::of_base(alloc, Base::from_sorted(cells)))
    }

    /// What the type keeps: no counter is at 0, and each cell is of 64 bits at a lock of its type.
    pub fn use_invariant(&self)
        ensures cells { AreCells self.now.cells }
        ensures types { AreOfTheirTypes self.now.cells }
    {
        let _slots = &self.slots;
    }

    /// What is in a cell.
    pub fn get(&self, lock: Lock) -> Option<u64>
        ensures { result ≡ finite.get self.now.cells lock }
    {
        cell_at(&self.base, &self.slots, lock)
    }

    /// The cells with their numbers, in the order of locks.
    pub fn entries(&self) -> Entries<'_>
        ensures cells { result ≡ finite.entries self.now.cells }
        ensures fits { length result < 2 ^ 63 }
    {
        Entries::new(self.base.as_slice(), self.slots.iter())
    }

    /// Whether other cells have the same numbers at the same locks. Unsettled changes do not matter.
    pub fn has_cells_of(&self, other: &Cells<A>) -> bool
        ensures { IsTrue result ↔ (self.now.cells ≡ other.now.cells) }
    {
        let mut others = other.entries();
        for entry in self.entries() {
            let Some(other) = others.next() else {
                return false;
            };
            if !is_same_entry(entry, other) {
                return false;
            }
        }
        let Some(_more) = others.next() else {
            return true;
        };
        false
    }

    /// The cells with their numbers as a list, in the order of locks.
    fn listed(&self, alloc: A) -> Result<Vec<(Lock, u64), A>, NoMemory>
        ensures { IfOk result (λ cells. cells.items ≡ finite.entries self.now.cells) }
    {
        let room = self.base.len().saturating_add(self.slots.len());
        let mut cells = Vec::with_capacity(alloc, room)?;
        for cell in self.entries() {
            cells.push(cell)?;
        }
        Ok(cells)
    }

    /// The same cells, in which nothing is unsettled.
    pub fn copy(&self, alloc: A) -> Result<Self, NoMemory>
        ensures cells { IfOk result (λ copy. copy.cells ≡ self.now.cells) }
        ensures unsettled { IfOk result (λ copy. copy.unsettled ≡ finite.empty) }
    {
        self.use_invariant();
        let cells = self.listed(alloc)?;
        Ok(Cells::of_base(alloc, Base::from_sorted(cells)))
    }

    /// Puts a number into a cell. No counter is put at 0. Its unsettled changes stay.
    pub fn insert(&mut self, lock: Lock, value: u64) -> Result<(), NoMemory>
        requires { lock.kind ≡ Kind.Counter → 0 < value }
        ensures cells { OnOk result (self.new.cells ≡ finite.insert self.old.cells lock value) }
        ensures unsettled { OnOk result (self.new.unsettled ≡ self.old.unsettled) }
        ensures err { OnErr result (self.new ≡ self.old) }
    {
        fill_slot(&self.base, &mut self.slots, lock, Some(value))?;
        Ok(())
    }

    /// Makes a cell hold this number, or none. No counter is put at 0, and nothing is unsettled.
    pub fn set(&mut self, lock: Lock, cell: Option<u64>) -> Result<(), NoMemory>
        requires counter { lock.kind ≡ Kind.Counter → cell ≢ Some 0 }
        requires settled { self.old.unsettled ≡ finite.empty }
        ensures cells { OnOk result (self.new.cells ≡ set_at self.old.cells lock cell) }
        ensures settled { self.new.unsettled ≡ finite.empty }
        ensures err { OnErr result (self.new ≡ self.old) }
    {
        if is_needless(&self.base, lock, cell, 0) {
            drop_slot(&mut self.slots, lock);
            return Ok(());
        }
        fill_slot(&self.base, &mut self.slots, lock, cell)?;
        Ok(())
    }

    /// Does an operation, and says how to take it back. The place that this needs is kept until then.
    pub fn apply(&mut self, op: Op) -> Result<(Reply, Inverse), NoMemory>
        ensures reply { IfOk result (λ r. r.0 ≡ reply_to op self.old.cells) }
        ensures inverse { IfOk result (λ r. r.1 ≡ inverse_to op self.old.cells) }
        ensures cells { OnOk result (self.new.cells ≡ cells_after op self.old.cells) }
        ensures unsettled { IfOk result (λ r. self.new.unsettled ≡ opened r.1 self.old.unsettled) }
        ensures kept { IfOk result (λ r. IsUnsettled r.1 self.new.unsettled) }
        ensures err { OnErr result (self.new ≡ self.old) }
    {
        let lock = lock(op);
        if reads(op) {
            let cell = cell_at(&self.base, &self.slots, lock);
            return Ok((reply(op, cell), inverse(op, cell)));
        }
        let (cell, top) = open_slot(&self.base, &mut self.slots, self.floor, self.top, lock, op)?;
        self.top = top;
        let inverse = inverse(op, cell);
        Ok((reply(op, cell), inverse))
    }

    /// Takes a change back.
    pub fn take_back(&mut self, inverse: Inverse)
        requires { IsUnsettled inverse self.old.unsettled }
        ensures cells { self.new.cells ≡ back inverse self.old.cells }
        ensures unsettled { self.new.unsettled ≡ closed inverse self.old.unsettled }
    {
        match inverse {
            Inverse::Keep => (),
            Inverse::Subtract(place, _) => {
                let lock = counter_lock(place);
                close_slot(
                    &self.base,
                    &mut self.slots,
                    self.floor,
                    self.top,
                    lock,
                    inverse,
                );
            }
            Inverse::Restore(place, _) => {
                let lock = map_lock(place);
                close_slot(
                    &self.base,
                    &mut self.slots,
                    self.floor,
                    self.top,
                    lock,
                    inverse,
                );
            }
        }
    }

    /// Lets a change stand.
    pub fn settle(&mut self, inverse: Inverse)
        requires { IsUnsettled inverse self.old.unsettled }
        ensures cells { self.new.cells ≡ self.old.cells }
        ensures unsettled { self.new.unsettled ≡ closed inverse self.old.unsettled }
    {
        match inverse {
            Inverse::Keep => (),
            Inverse::Subtract(place, _) => {
                let lock = counter_lock(place);
                settle_slot(&self.base, &mut self.slots, self.floor, self.top, lock);
            }
            Inverse::Restore(place, _) => {
                let lock = map_lock(place);
                settle_slot(&self.base, &mut self.slots, self.floor, self.top, lock);
            }
        }
    }

    /// Lets all changes stand, in one step. A cell that is absent keeps its place until its lock is asked for again.
    pub fn settle_everything(&mut self)
        ensures cells { self.new.cells ≡ self.old.cells }
        ensures unsettled { self.new.unsettled ≡ finite.empty }
    {
        self.floor = self.top;
    }
}

/// One change less of a lock.
fn settle_slot<A: Allocator + Copy>(
    base: &Base<A>,
    slots: &mut BTreeMap<Lock, Slot, A>,
    floor: u64,
    top: u64,
    lock: Lock,
)
    requires unsettled { 0 < count_at (counts_in floor slots.old.entries) lock }
    requires below { counts_in top slots.old.entries ≡ finite.empty }
    ensures cells { cells_in (base_of base.now) slots.new.entries ≡ cells_in (base_of base.now) slots.old.entries }
    ensures counts { counts_in floor slots.new.entries ≡ update (counts_in floor slots.old.entries) lock (λ n. counter (number n - 1)) }
    ensures below { counts_in top slots.new.entries ≡ finite.empty }
    ensures few { length slots.new.entries ≤ length slots.old.entries }
{
    close_slot(base, slots, floor, top, lock, Inverse::Keep);
}
