//! The store that two lists of cells are.

ghost use Rattle.std.specs.Prelude.{◌<◌, ◌^◌, IfOk, length};
ghost use Rattle.std.specs.FinMap as finite;
ghost use Rattle.world.specs.Cells.{AreLists, IsStoreOf};

use crate::list::CellLists;
use std::alloc::Allocator;
use storage::{Cells, NoMemory};

/// The store of two lists of cells.
pub(crate) fn store_of<A: Allocator + Copy>(
    alloc: A,
    lists: CellLists<A>,
) -> Result<Cells<A>, NoMemory>
    requires { AreLists (lists.maps.items, lists.counters.items) }
    ensures store { IfOk result (λ cells. IsStoreOf cells.cells (lists.maps.items, lists.counters.items)) }
    ensures size { IfOk result (λ cells. length (finite.entries cells.cells) < 2 ^ 64) }
{
    let store = Cells::from_sorted(alloc, lists.maps, lists.counters)?;
    note_size(&store);
    Ok(store)
}

/// A store has so many cells at most.
fn note_size<A: Allocator + Copy>(store: &Cells<A>)
    ensures { length (finite.entries store.now.cells) < 2 ^ 64 }
{
    let _entries = store.entries();
}
