//! The lists of cells.

ghost use Rattle.std.specs.Prelude.{◌≡◌, ◌++◌, ℕ, List, None, IfOk};
ghost use Rattle.records.specs.Reading.{Gives, IsRead, items_at};
ghost use Rattle.world.specs.Cells.{Cell, AreLists, cell_at, list_at, lists_at, lists_bytes};

use crate::cell::read_cell;
use records::{Fault, read_u64};
use spec_ledger::{Kind, Lock};
use std::alloc::{Allocator, Global};

/// The cells of the maps, and those of the counters, each rising by contract and key.
#[derive(Debug, Drop)]
pub struct CellLists<A: Allocator = Global> {
    /// The cells of the maps.
    pub maps: Vec<(Lock, u64), A>,
    /// Those of the counters, none at 0.
    pub counters: Vec<(Lock, u64), A>,
}

fn items_of<A: Allocator + Copy>(
    alloc: A,
    kind: Kind,
    count: u64,
    bytes: &[u8],
) -> Result<(Vec<(Lock, u64), A>, &[u8]), Fault>
    ensures { Gives (λ x. (x.0.items, x.1.now)) result (items_at (cell_at kind) count None bytes.now) }
{
    let mut cells = Vec::with_capacity(alloc, count as usize)?;
    let mut before = None;
    let mut rest = bytes;
    for _ in 0..count {
        let (cell, after) = read_cell(kind, before, rest)?;
        cells.push(cell)?;
        before = Some(cell);
        rest = after;
    }
    Ok((cells, rest))
}

#[tactic(auto, unfolding(crate::specs::Cells::list_at))]
fn list_of<A: Allocator + Copy>(
    alloc: A,
    kind: Kind,
    bytes: &[u8],
) -> Result<(Vec<(Lock, u64), A>, &[u8]), Fault>
    ensures { Gives (λ x. (x.0.items, x.1.now)) result (list_at kind bytes.now) }
{
    let (count, rest) = read_u64(bytes)?;
    if (rest.len() as u128) < 20 * count as u128 {
        return Err(Fault::Malformed(bytes.len()));
    }
    items_of(alloc, kind, count, rest)
}

#[tactic(auto, unfolding(crate::specs::Cells::lists_at))]
fn both_of<A: Allocator + Copy>(alloc: A, bytes: &[u8]) -> Result<(CellLists<A>, &[u8]), Fault>
    ensures { Gives (λ x. ((x.0.maps.items, x.0.counters.items), x.1.now)) result (lists_at bytes.now) }
{
    let (maps, rest) = list_of(alloc, Kind::Map, bytes)?;
    let (counters, rest) = list_of(alloc, Kind::Counter, rest)?;
    Ok((CellLists { maps, counters }, rest))
}

/// The two lists, and what is known of them.
pub(crate) fn read_lists<A: Allocator + Copy>(
    alloc: A,
    bytes: &[u8],
) -> Result<(CellLists<A>, &[u8]), Fault>
    ensures spelled { IfOk result (λ x. AreLists (x.0.maps.items, x.0.counters.items) × (bytes.now ≡ lists_bytes (x.0.maps.items, x.0.counters.items) ++ x.1.now)) }
    ensures only { (lists : List Cell × List Cell) (rest : List ℕ) → AreLists lists → bytes.now ≡ lists_bytes lists ++ rest → IsRead (λ x. ((x.0.maps.items, x.0.counters.items), x.1.now)) result lists rest }
    ensures first { Gives (λ x. ((x.0.maps.items, x.0.counters.items), x.1.now)) result (lists_at bytes.now) }
{
    both_of(alloc, bytes)
}
