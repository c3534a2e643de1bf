//! Writing and hashing a world.

ghost use Rattle.std.specs.Prelude.{◌≡◌, ◌≤◌, ◌++◌, length, map, OnOk, IfOk, IsErrOf, IsTrue};
ghost use Rattle.std.specs.List.{filter, flat_map};
ghost use Rattle.std.specs.Int.{w64, to_le_bytes};
ghost use Rattle.std.specs.FinMap as finite;
ghost use Rattle.byte_sinks.specs.Putting.{IsCutShort, IsRaised};
ghost use Rattle.sha2.specs.Sha256.{sha256};
ghost use Rattle.spec_block.specs.Bytes.{counted, contract_bytes, cell_bytes, cells_bytes, is_counter, is_map, world_bytes};
ghost use Rattle.world.specs.Views.{contract_view, world_view, is_of, is_cell_of};

use crate::value::World;
use byte_sinks::{Sink, WriteRefusal, put_all};
use link::deployed::Deployed;
use records::{append_u32, append_u64};
use sha2::{Digest, Sha256};
use std::alloc::{AllocError, Allocator};
use storage::{Cells, Kind, Lock};
use wtypes::NoMemory;

/// The magic, `57 42 57 44`, as a number.
const MAGIC: u32 = 0x4457_4257;

/// The version of the format.
const VERSION: u32 = 1;

/// The bytes of a cell: its contract, its key and its number.
const CELL_SIZE: usize = 20;

/// The bytes of a count of cells.
const COUNT_SIZE: usize = 8;

/// Appends a length and the shortest spelling of a contract.
fn append_contract<A: Allocator>(
    alloc: A,
    out: &mut Vec<u8, A>,
    contract: &Deployed<A>,
) -> Result<(), NoMemory>
    ensures { OnOk result (out.new.items ≡ out.old.items ++ contract_bytes (contract_view contract.now)) }
{
    let mut body = Vec::new(alloc);
    encoder::encode(contract.module(), &mut body)?;
    append_u32(out, body.len() as u32)?;
    out.extend_from_slice(&body)?;
    Ok(())
}

fn append_contracts<A: Allocator + Copy>(
    alloc: A,
    out: &mut Vec<u8, A>,
    contracts: &[Deployed<A>],
) -> Result<(), NoMemory>
    requires { length contracts.now ≤ World.MOST_CONTRACTS }
    ensures { OnOk result (out.new.items ≡ out.old.items ++ counted contract_bytes (map contract_view contracts.now)) }
{
    append_u32(out, contracts.len() as u32)?;
    for contract in contracts {
        append_contract(alloc, out, contract)?;
    }
    Ok(())
}

/// Whether these are one kind of locks.
pub fn is_kind(a: Kind, b: Kind) -> bool
    ensures { result ≡ is_of a b }
{
    matches!(
        (a, b),
        (Kind::Map, Kind::Map) | (Kind::Counter, Kind::Counter)
    )
}

/// How many cells there are of maps, and how many counters.
fn counts_of<A: Allocator + Copy>(cells: &Cells<A>) -> (u64, u64)
    ensures maps { result.0 ≡ length (filter (is_cell_of Kind.Map) (finite.entries cells.now.cells)) }
    ensures counters { result.1 ≡ length (filter (is_cell_of Kind.Counter) (finite.entries cells.now.cells)) }
{
    let mut maps: u64 = 0;
    let mut counters: u64 = 0;
    for (lock, _number) in cells.entries() {
        match lock.kind {
            Kind::Map => maps += 1,
            Kind::Counter => counters += 1,
        }
    }
    (maps, counters)
}

/// Appends a cell.
fn append_cell<A: Allocator>(out: &mut Vec<u8, A>, cell: &(Lock, u64)) -> Result<(), AllocError>
    ensures { OnOk result (out.new.items ≡ out.old.items ++ cell_bytes cell.now) }
{
    append_u32(out, cell.0.contract)?;
    append_u64(out, cell.0.key)?;
    append_u64(out, cell.1)?;
    Ok(())
}

/// Appends the cells of a kind, in the order of locks.
fn append_cells<A: Allocator + Copy>(
    out: &mut Vec<u8, A>,
    cells: &Cells<A>,
    kind: Kind,
) -> Result<(), AllocError>
    ensures { OnOk result (out.new.items ≡ out.old.items ++ flat_map cell_bytes (filter (is_cell_of kind) (finite.entries cells.now.cells))) }
{
    for cell in cells.entries() {
        if is_kind(kind, cell.0.kind) {
            append_cell(out, &cell)?;
        }
    }
    Ok(())
}

/// Appends the cells of maps, and then the counters, each behind their count. Room for all is made at once.
fn append_storage<A: Allocator + Copy>(
    out: &mut Vec<u8, A>,
    cells: &Cells<A>,
) -> Result<(), AllocError>
    ensures { OnOk result (out.new.items ≡ out.old.items ++ cells_bytes is_map cells.now.cells ++ cells_bytes is_counter cells.now.cells) }
{
    let (maps, counters) = counts_of(cells);
    let room = (maps as usize)
        .saturating_add(counters as usize)
        .saturating_mul(CELL_SIZE)
        .saturating_add(2 * COUNT_SIZE);
    out.reserve(room)?;
    append_u64(out, maps)?;
    append_cells(out, cells, Kind::Map)?;
    append_u64(out, counters)?;
    append_cells(out, cells, Kind::Counter)?;
    Ok(())
}

fn append_world<A: Allocator + Copy>(
    alloc: A,
    out: &mut Vec<u8, A>,
    world: &World<A>,
) -> Result<(), NoMemory>
    ensures { OnOk result (out.new.items ≡ out.old.items ++ world_bytes (world_view world.now)) }
{
    append_u32(out, MAGIC)?;
    append_u32(out, VERSION)?;
    append_contracts(alloc, out, world.contracts())?;
    append_storage(out, world.cells())?;
    Ok(())
}

/// A world's bytes.
pub fn encode_world<A: Allocator + Copy>(alloc: A, world: &World<A>) -> Result<Vec<u8, A>, NoMemory>
    ensures { IfOk result (λ bytes. bytes.items ≡ world_bytes (world_view world.now)) }
{
    let mut bytes = Vec::new(alloc);
    append_world(alloc, &mut bytes, world)?;
    Ok(bytes)
}

/// Writes a world's bytes.
pub fn write_world<A: Allocator + Copy, S: Sink>(
    alloc: A,
    world: &World<A>,
    sink: &mut S,
) -> Result<(), WriteRefusal>
    ensures put { OnOk result (IsTrue S.tells → S.told sink.new ≡ S.told sink.old ++ world_bytes (world_view world.now)) }
    ensures calm { OnOk result (S.failures sink.new ≡ S.failures sink.old) }
    ensures unchanged { IsErrOf result WriteRefusal.NoMemory → sink.new ≡ sink.old }
    ensures failed { IsErrOf result WriteRefusal.Write → IsRaised (S.failures sink.old) (S.failures sink.new) }
    ensures cut_short { IsErrOf result WriteRefusal.Write → IsTrue S.tells → IsCutShort (S.told sink.old) (S.told sink.new) (world_bytes (world_view world.now)) }
{
    let mut bytes = Vec::new(alloc);
    if append_world(alloc, &mut bytes, world).is_err() {
        return Err(WriteRefusal::NoMemory);
    }
    match put_all(sink, &bytes) {
        Ok(()) => Ok(()),
        Err(_fault) => Err(WriteRefusal::Write),
    }
}

/// SHA-256 of a world's bytes: the one that the world keeps, or else it is made.
pub fn digest_world<A: Allocator + Copy>(alloc: A, world: &World<A>) -> Result<[u8; 32], NoMemory>
    ensures { IfOk result (λ digest. digest ≡ sha256 (world_bytes (world_view world.now))) }
{
    if let Some(digest) = world.kept_digest() {
        return Ok(digest);
    }
    let mut bytes = Vec::new(alloc);
    append_world(alloc, &mut bytes, world)?;
    Ok(Sha256::digest(bytes.as_slice()))
}
