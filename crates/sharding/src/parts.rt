// What is left of a shard.
ghost use Rattle.std.specs.Prelude.{◌≡◌, ◌<◌, ◌+◌, ℕ, IsTrue, ◌↔◌, IfNone, IfSome, OnOk, None, Some, length};
ghost use Rattle.std.specs.FinMap as finite;
ghost use Rattle.std.specs.List.{AllByRecursion};
ghost use Rattle.spec_ledger.specs.Modes.{touched};
ghost use Rattle.spec_ledger.specs.Shards.{AreCellsOf, entries_in, part as part_of, shard_of, with_trace};
ghost use Rattle.sharding.specs.Parts.{IsPart, IsPartOf};
ghost use Rattle.sharding.specs.Places.{IsAt};

use crate::homes::{home, is_part, same_outcome, touches};
use boost::attempt::CommittedCall;
use boost::book::{Book, Closed};
use spec_ledger::Lock;
use std::alloc::{Allocator, Global};
use std::marker::Model;
use storage::{Cells, NoMemory};

/// What is left of a shard: the cells that its book was opened with, its entries, and the cells that these leave.
#[derive(Drop)]
pub struct Part<A: Allocator = Global> {
    opening: Cells<A>,
    cells: Cells<A>,
    entries: Vec<CommittedCall<A>, A>,
}

impl<A: Allocator> Model for Part<A> {
    ghost use Rattle.sharding.specs.Parts.{IsPart, Part as ThePart, part_code};

    ghost Value = { ThePart };

    ghost coded = { part_code };

    ghost view = { λ p. record { opening = p.opening.cells; cells = p.cells.cells; entries = p.entries.items } };

    ghost invariant = { λ p. IsPart (record { opening = p.opening.cells; cells = p.cells.cells; entries = p.entries.items }) };
}

/// Whether the cell of a lock holds a value.
fn holds<A: Allocator + Copy>(cells: &Cells<A>, lock: Lock, value: u64) -> bool
    ensures { IsTrue result ↔ (finite.get cells.now.cells lock ≡ Some value) }
{
    cells.get(lock) == Some(value)
}

/// Whether each cell at a shard's locks is a cell of others.
fn are_cells_among<A: Allocator + Copy>(
    cells: &Cells<A>,
    others: &Cells<A>,
    shard: u32,
    shards: u32,
) -> bool
    requires { 0 < shards }
    ensures { IsTrue result ↔ ((lock : Lock) (value : ℕ) → shard_of shards lock ≡ shard → finite.get cells.now.cells lock ≡ Some value → finite.get others.now.cells lock ≡ Some value) }
{
    for (lock, value) in cells.entries() {
        if home(lock, shards) != shard {
            continue;
        }
        if !holds(others, lock, value) {
            return false;
        }
    }
    true
}

/// Whether an entry is a shard's part of another.
fn is_entry_in<A: Allocator + Copy>(
    own: &CommittedCall<A>,
    entry: &CommittedCall<A>,
    shard: u32,
    shards: u32,
) -> bool
    requires shards { 0 < shards }
    requires modes { own.now.modes ≡ touched own.now.trace }
    ensures { IsTrue result ↔ (own.now ≡ with_trace entry.now (part_of (shard_of shards) shard entry.now.trace)) }
{
    own.call() == entry.call()
        && same_outcome(own.outcome(), entry.outcome())
        && is_part(own.trace(), entry.trace(), shard, shards)
}

/// Whether entries are those of a journal that touch a shard.
fn are_entries_in<A: Allocator + Copy>(
    own: &[CommittedCall<A>],
    journal: &[CommittedCall<A>],
    shard: u32,
    shards: u32,
) -> bool
    requires shards { 0 < shards }
    requires modes { AllByRecursion (λ e. e.modes ≡ touched e.trace) own.now }
    ensures { IsTrue result ↔ (own.now ≡ entries_in (shard_of shards) shard journal.now) }
{
    let mut next = 0;
    for entry in journal {
        if !touches(entry.trace(), shard, shards) {
            continue;
        }
        if next >= own.len() {
            return false;
        }
        if !is_entry_in(&own[next], entry, shard, shards) {
            return false;
        }
        next += 1;
    }
    next == own.len()
}

/// The place of the shard's next entry once one more entry of the journal was gone over. None where its own is not that one's part.
fn next_after<A: Allocator + Copy>(
    own: &[CommittedCall<A>],
    next: usize,
    journal: &[CommittedCall<A>],
    position: usize,
    shard: u32,
    shards: u32,
) -> Option<usize>
    requires shards { 0 < shards }
    requires modes { AllByRecursion (λ e. e.modes ≡ touched e.trace) own.now }
    requires position { position < length journal.now }
    requires at { IsAt (shard_of shards) shard own.now journal.now next position }
    ensures after { IfSome result (λ after. IsAt (shard_of shards) shard own.now journal.now after (position + 1)) }
    ensures differs { IfNone result (¬ (own.now ≡ entries_in (shard_of shards) shard journal.now)) }
{
    let entry = &journal[position];
    if !touches(entry.trace(), shard, shards) {
        return Some(next);
    }
    if next >= own.len() {
        return None;
    }
    if !is_entry_in(&own[next], entry, shard, shards) {
        return None;
    }
    Some(next + 1)
}

/// Puts the cells at a shard's locks among others.
fn gather<A: Allocator + Copy>(
    all: &mut Cells<A>,
    own: &Cells<A>,
    shard: u32,
    shards: u32,
) -> Result<(), NoMemory>
    requires shards { 0 < shards }
    requires free { (lock : Lock) → shard_of shards lock ≡ shard → finite.get all.old.cells lock ≡ None }
    ensures own { OnOk result ((lock : Lock) → shard_of shards lock ≡ shard → finite.get all.new.cells lock ≡ finite.get own.now.cells lock) }
    ensures others { OnOk result ((lock : Lock) → ¬ (shard_of shards lock ≡ shard) → finite.get all.new.cells lock ≡ finite.get all.old.cells lock) }
    ensures unsettled { OnOk result (all.new.unsettled ≡ all.old.unsettled) }
{
    own.use_invariant();
    for (lock, value) in own.entries() {
        if home(lock, shards) != shard {
            continue;
        }
        all.insert(lock, value)?;
    }
    Ok(())
}

impl<A: Allocator + Copy> Part<A> {
    /// What is left of the book of a shard once every live attempt is undone.
    pub fn of(book: Book<A>) -> Self
        ensures opening { result.opening ≡ book.opening }
        ensures entries { result.entries ≡ book.entries }
    {
        book.use_invariant();
        let Closed {
            opening,
            cells,
            entries,
        } = book.close();
        Part {
            opening,
            cells,
            entries,
        }
    }

    /// What the type keeps: the entries are a serial run from the opening cells, which leaves the cells.
    pub fn use_invariant(&self)
        ensures { IsPart self.now }
    {
        let _entries = &self.entries;
    }

    /// Whether the cells that it was opened with are, at the shard's locks, these.
    pub(crate) fn has_cells_of(&self, opening: &Cells<A>, shard: u32, shards: u32) -> bool
        requires { 0 < shards }
        ensures { IsTrue result ↔ AreCellsOf (shard_of shards) shard opening.now.cells self.now.opening }
    {
        are_cells_among(opening, &self.opening, shard, shards)
            && are_cells_among(&self.opening, opening, shard, shards)
    }

    /// Whether it is the part of a shard in the book with these opening cells and this journal.
    pub(crate) fn is_part_of(
        &self,
        opening: &Cells<A>,
        journal: &[CommittedCall<A>],
        shard: u32,
        shards: u32,
    ) -> bool
        requires { 0 < shards }
        ensures { IsTrue result ↔ IsPartOf (shard_of shards) opening.now.cells journal.now shard self.now }
    {
        self.has_cells_of(opening, shard, shards)
            && are_entries_in(&self.entries, journal, shard, shards)
    }

    /// The place of its next entry once one more entry of the journal was gone over. None where its own is not that one's part.
    pub(crate) fn next_after(
        &self,
        next: usize,
        journal: &[CommittedCall<A>],
        position: usize,
        shard: u32,
        shards: u32,
    ) -> Option<usize>
        requires shards { 0 < shards }
        requires position { position < length journal.now }
        requires at { IsAt (shard_of shards) shard self.now.entries journal.now next position }
        ensures after { IfSome result (λ after. IsAt (shard_of shards) shard self.now.entries journal.now after (position + 1)) }
        ensures differs { IfNone result (¬ (self.now.entries ≡ entries_in (shard_of shards) shard journal.now)) }
    {
        next_after(&self.entries, next, journal, position, shard, shards)
    }

    /// Whether it has so many entries.
    pub(crate) fn ends_at(&self, next: usize) -> bool
        ensures { IsTrue result ↔ (next ≡ length self.now.entries) }
    {
        next == self.entries.len()
    }

    /// Puts its cells at the shard's locks among others.
    pub(crate) fn gather_into(
        &self,
        all: &mut Cells<A>,
        shard: u32,
        shards: u32,
    ) -> Result<(), NoMemory>
        requires shards { 0 < shards }
        requires free { (lock : Lock) → shard_of shards lock ≡ shard → finite.get all.old.cells lock ≡ None }
        ensures own { OnOk result ((lock : Lock) → shard_of shards lock ≡ shard → finite.get all.new.cells lock ≡ finite.get self.now.cells lock) }
        ensures others { OnOk result ((lock : Lock) → ¬ (shard_of shards lock ≡ shard) → finite.get all.new.cells lock ≡ finite.get all.old.cells lock) }
        ensures unsettled { OnOk result (all.new.unsettled ≡ all.old.unsettled) }
    {
        gather(all, &self.cells, shard, shards)
    }
}
