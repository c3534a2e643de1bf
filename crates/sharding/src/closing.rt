// The book that shards were.
ghost use Rattle.std.specs.Prelude.{◌≡◌, ◌<◌, ◌≤◌, ◌+◌, ◌^◌, ℕ, Err, IsTrue, ◌↔◌, IfOk, false, length, slice_index_or};
ghost use Rattle.std.specs.FinMap as finite;
ghost use Rattle.std.specs.List.{AllByRecursion};
ghost use Rattle.spec_ledger.specs.declared.Lock.{Lock};
ghost use Rattle.spec_ledger.specs.Book.{AreDistinct, IsDefined, settled};
ghost use Rattle.spec_ledger.specs.Modes.{touched};
ghost use Rattle.spec_ledger.specs.Shards.{shard_of};
ghost use Rattle.sharding.specs.Parts.{AreParts, AreWhole, Part as ThePart};
ghost use Rattle.sharding.specs.Places.{AreAt, HaveEntriesOf};

use crate::parts::Part;
use boost::attempt::CommittedCall;
use boost::book::Closed;
use spec_ledger::shards_are_one_book;
use std::alloc::Allocator;
use storage::{Cells, NoMemory};
use thiserror::Error;

/// Why what is left of shards is not put together.
#[derive(Clone, Copy, Debug, PartialEq, Eq, Error)]
pub enum CloseRefusal {
    /// A shard has other opening cells than those of all at its locks, or its entries are not those of the journal that touch it.
    #[error("the shards are not parts of one book")]
    Differs,
    /// Memory was refused.
    #[error("memory was refused")]
    NoMemory,
}

impl From<NoMemory> for CloseRefusal {
    ghost use Rattle.sharding.specs.declared.closing.CloseRefusal.{CloseRefusal};

    ghost from_gives = { λ e r. r ≡ CloseRefusal.NoMemory };

    fn from(_: NoMemory) -> Self {
        CloseRefusal::NoMemory
    }
}

/// Moves the place of each shard on past one more entry of the journal. Answers whether it could.
fn move_on<A: Allocator + Copy>(
    parts: &[Part<A>],
    places: &mut [usize; 16],
    journal: &[CommittedCall<A>],
    position: usize,
) -> bool
    requires shards { (1 ≤ length parts.now) × (length parts.now < 2 ^ 32) }
    requires position { position < length journal.now }
    requires at { AreAt journal.now parts.now places.old position }
    ensures after { IsTrue result → AreAt journal.now parts.now places.new (position + 1) }
    ensures differs { result ≡ false → ¬ (HaveEntriesOf journal.now parts.now) }
{
    let shards = parts.len() as u32;
    for shard in 0..shards {
        let place = places[shard as usize];
        match parts[shard as usize].next_after(place, journal, position, shard, shards) {
            Some(next) => places[shard as usize] = next,
            None => return false,
        }
    }
    true
}

/// Whether the places are those after all entries, and the cells that each shard was opened with those of all at its locks.
fn have_ended<A: Allocator + Copy>(
    opening: &Cells<A>,
    parts: &[Part<A>],
    places: &[usize; 16],
    journal: &[CommittedCall<A>],
) -> bool
    requires shards { (1 ≤ length parts.now) × (length parts.now < 2 ^ 32) }
    requires at { AreAt journal.now parts.now places.now (length journal.now) }
    ensures parts { IsTrue result ↔ AreParts opening.now.cells journal.now parts.now }
    ensures whole { IsTrue result → AreWhole parts.now }
{
    let _journal = journal;
    let shards = parts.len() as u32;
    for shard in 0..shards {
        let part = &parts[shard as usize];
        part.use_invariant();
        if !part.ends_at(places[shard as usize]) {
            return false;
        }
        if !part.has_cells_of(opening, shard, shards) {
            return false;
        }
    }
    true
}

/// Whether each is its shard's part of the book with these opening cells and this journal, which is gone over for each shard.
fn are_parts_one_by_one<A: Allocator + Copy>(
    opening: &Cells<A>,
    journal: &[CommittedCall<A>],
    parts: &[Part<A>],
) -> bool
    requires { (1 ≤ length parts.now) × (length parts.now < 2 ^ 32) }
    ensures parts { IsTrue result ↔ AreParts opening.now.cells journal.now parts.now }
    ensures whole { IsTrue result → AreWhole parts.now }
{
    let shards = parts.len() as u32;
    for shard in 0..shards {
        let part = &parts[shard as usize];
        part.use_invariant();
        if !part.is_part_of(opening, journal, shard, shards) {
            return false;
        }
    }
    true
}

/// Whether each is its shard's part of the book with these opening cells and this journal. With 16 shards or fewer the journal is gone over once, with a
/// place in the entries of each.
fn are_parts<A: Allocator + Copy>(
    opening: &Cells<A>,
    journal: &[CommittedCall<A>],
    parts: &[Part<A>],
) -> bool
    requires { (1 ≤ length parts.now) × (length parts.now < 2 ^ 32) }
    ensures parts { IsTrue result ↔ AreParts opening.now.cells journal.now parts.now }
    ensures whole { IsTrue result → AreWhole parts.now }
{
    if parts.len() > 16 {
        return are_parts_one_by_one(opening, journal, parts);
    }
    let mut places = [0usize; 16];
    for position in 0..journal.len() {
        if !move_on(parts, &mut places, journal, position) {
            return false;
        }
    }
    have_ended(opening, parts, &places, journal)
}

/// The cells of all shards, of each those at its own locks.
fn gathered<A: Allocator + Copy>(alloc: A, parts: &[Part<A>]) -> Result<Cells<A>, NoMemory>
    requires { (1 ≤ length parts.now) × (length parts.now < 2 ^ 32) }
    ensures cells { IfOk result (λ all. (lock : Lock) (other : ThePart) → finite.get all.cells lock ≡ finite.get (slice_index_or parts.now (shard_of (length parts.now) lock) other).cells lock) }
    ensures settled { IfOk result (λ all. all.unsettled ≡ finite.empty) }
{
    let shards = parts.len() as u32;
    let mut all = Cells::new(alloc);
    for shard in 0..shards {
        parts[shard as usize].gather_into(&mut all, shard, shards)?;
    }
    Ok(all)
}

/// The book that shards were: the opening cells, the journal's entries, and the cells that they leave, gathered from the shards. The first of the
/// parts is that of shard 0. The entries are a serial run from the opening cells: each reply is the one that its operation gives at that point.
///
/// # Errors
///
/// Differs just where a shard is not its part of the book with these opening cells and this journal: each shard is looked at, the outcomes of its
/// entries too. Else memory was refused.
pub fn close<A: Allocator + Copy>(
    alloc: A,
    opening: Cells<A>,
    entries: Vec<CommittedCall<A>, A>,
    parts: &[Part<A>],
) -> Result<Closed<A>, CloseRefusal>
    requires shards { (1 ≤ length parts.now) × (length parts.now < 2 ^ 32) }
    ensures opening { IfOk result (λ closed. closed.opening.cells ≡ opening.cells) }
    ensures entries { IfOk result (λ closed. closed.entries.items ≡ entries.items) }
    ensures replies { IfOk result (λ closed. IsDefined opening.cells entries.items) }
    ensures cells { IfOk result (λ closed. closed.cells.cells ≡ settled opening.cells entries.items) }
    ensures settled { IfOk result (λ closed. closed.cells.unsettled ≡ finite.empty) }
    ensures differs { (result ≡ Err CloseRefusal.Differs) ↔ ¬ (AreParts opening.cells entries.items parts.now) }
{
    if !are_parts(&opening, &entries, parts) {
        return Err(CloseRefusal::Differs);
    }
    let cells = gathered(alloc, parts)?;
    shards_are_one_book();
    Ok(Closed {
        opening,
        cells,
        entries,
    })
}
