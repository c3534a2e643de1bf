//! The exports on the cells of worlds.

ghost use Rattle.std.specs.Prelude.{◌≡◌, ◌⊎◌, IfOk, IfErr, map};
ghost use Rattle.std.specs.FinMap.{entries};
ghost use Rattle.spec_block.specs.Bytes.{kind_code};
ghost use Rattle.embed.specs.Refusals.{IfRefused, RefusesWorld};
ghost use Rattle.foshqarel_c.specs.Buffers.{Fails, IsCounted, Lists, done, told_given};
ghost use Rattle.foshqarel_c.specs.Records.{AreRecords, IsFoundIn, IsLookedUp, cell_record, count_of, filled, found_at, kind_of};

use crate::buffers::{count, fail, give_items};
use crate::told::Told;
use embed::Failure;
use std::alloc::{AllocError, Global};
use storage::{Cells, Kind, Lock};

/// A cell of a contract's storage.
#[repr(C)]
#[derive(Clone, Copy, Debug, PartialEq, Eq)]
pub struct CellRecord {
    /// The key, as the bit pattern of an `i64`.
    pub key: u64,
    /// The number that it holds.
    pub number: u64,
    /// The number of the contract.
    pub contract: u32,
    /// 0 a cell of a map, 1 a counter.
    pub kind: u32,
}

/// The number of a kind.
pub(crate) fn kind_number(kind: Kind) -> u32
    ensures { result ≡ kind_code kind }
{
    match kind {
        Kind::Map => 0,
        Kind::Counter => 1,
    }
}

/// The kind of this number.
fn kind_of(number: u32) -> Option<Kind>
    ensures { result ≡ kind_of number }
{
    match number {
        0 => Some(Kind::Map),
        1 => Some(Kind::Counter),
        _ => None,
    }
}

/// A cell as a record.
fn cell_record(lock: Lock, number: u64) -> CellRecord
    ensures { result ≡ cell_record (lock, number) }
{
    CellRecord {
        key: lock.key,
        number,
        contract: lock.contract,
        kind: kind_number(lock.kind),
    }
}

/// The cells as records, in the order of locks.
fn records_of(alloc: Global, cells: &Cells) -> Result<Vec<CellRecord>, AllocError>
    ensures { IfOk result (λ all. all.items ≡ map cell_record (entries cells.now.cells)) }
{
    let mut all = Vec::new(alloc);
    for (lock, number) in cells.entries() {
        all.push(cell_record(lock, number))?;
    }
    Ok(all)
}

/// What the cells have at the lock that a record names.
fn found_at(cells: &Cells, cell: CellRecord) -> Option<u64>
    ensures { result ≡ found_at cells.now.cells cell (kind_of cell.kind) }
{
    match kind_of(cell.kind) {
        None => None,
        Some(kind) => cells.get(Lock {
            contract: cell.contract,
            kind,
            key: cell.key,
        }),
    }
}

/// The cells of a world as records; or why the bytes spell none.
fn records_in(alloc: Global, world: &[u8]) -> Result<Vec<CellRecord>, Failure>
    ensures records { IfOk result (λ all. AreRecords world.now all.items) }
    ensures refused { IfErr result (λ f. IfRefused f (RefusesWorld world.now)) }
{
    let cells = embed::cells_of(alloc, world)?;
    let records = records_of(alloc, &cells)?;
    Ok(records)
}

/// What a world has at the lock that a record names; or why the bytes spell none.
fn look_up(alloc: Global, world: &[u8], cell: CellRecord) -> Result<Option<u64>, Failure>
    ensures found { IfOk result (λ number. IsFoundIn world.now cell number) }
    ensures refused { IfErr result (λ f. IfRefused f (RefusesWorld world.now)) }
{
    let cells = embed::cells_of(alloc, world)?;
    Ok(found_at(&cells, cell))
}

/// Puts what was found into a record, where something was, and gives how many were.
fn fill(found: Option<u64>, cell: &mut CellRecord, told: &mut Told) -> u32
    ensures cell { cell.new ≡ filled cell.old found }
    ensures status { result ≡ done }
    ensures told { told.new ≡ told_given (count_of found) 0 }
{
    match found {
        None => count(0, told),
        Some(number) => {
            cell.number = number;
            count(1, told)
        }
    }
}

/// Looks up the cell that a record names, and puts what it holds into it; `told.size` is 1, or 0 where the cell is absent.
#[unsafe(no_mangle)]
pub extern "C" fn foshqarel_world_cell(
    alloc: Global,
    world: &[u8],
    cell: &mut CellRecord,
    sentence: &mut [u8],
    told: &mut Told,
) -> u32
    ensures { IsCounted (IsLookedUp world.now cell.old cell.new) sentence.old sentence.new told.new result ⊎ ((cell.new ≡ cell.old) × Fails (RefusesWorld world.now) sentence.old sentence.new told.new result) }
{
    match look_up(alloc, world, *cell) {
        Ok(found) => fill(found, cell, told),
        Err(failure) => fail(failure, sentence, told),
    }
}

/// Puts the cells of a world from this place on, as many as the list holds; `told.size` is how many the world has.
#[unsafe(no_mangle)]
pub extern "C" fn foshqarel_world_cells(
    alloc: Global,
    world: &[u8],
    from: u64,
    cells: &mut [CellRecord],
    sentence: &mut [u8],
    told: &mut Told,
) -> u32
    ensures { Lists (AreRecords world.now) (RefusesWorld world.now) from cells.old cells.new sentence.old sentence.new told.new result }
{
    match records_in(alloc, world) {
        Ok(records) => give_items(&records, from, cells, told),
        Err(failure) => fail(failure, sentence, told),
    }
}
