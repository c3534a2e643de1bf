// Cells and worlds, as rows name them.
ghost use Rattle.std.specs.Prelude.{◌≡◌, IfSome};
ghost use Rattle.std.specs.FinMap as finite;

use link::deployed::Deployed;
use std::alloc::Global;
use storage::{Cells, Kind, Lock};
use world::World;

/// A cell: its contract, its kind and its key.
pub type Cell = (u32, Kind, u64);

pub fn lock(cell: Cell) -> Lock {
    let (contract, kind, key) = cell;
    Lock {
        contract,
        kind,
        key,
    }
}

/// The cells with these numbers. No counter is at 0.
pub fn cells(alloc: Global, held: &[(Cell, u64)]) -> Option<Cells>
    ensures { IfSome result (λ cells. cells.unsettled ≡ finite.empty) }
{
    let mut cells = Cells::new(alloc);
    for (cell, value) in held {
        let lock = lock(*cell);
        match lock.kind {
            Kind::Counter if *value == 0 => return None,
            _ => cells.insert(lock, *value).ok()?,
        }
    }
    cells.copy(alloc).ok()
}

/// The world of the example contract and these cells.
pub fn world(alloc: Global, held: &[(Cell, u64)]) -> Option<World> {
    world_of(alloc, test_support::example(alloc).ok()?, held)
}

/// The world of this contract and these cells.
fn world_of(alloc: Global, contract: Deployed<Global>, held: &[(Cell, u64)]) -> Option<World> {
    let mut contracts = Vec::new(alloc);
    contracts.push(contract).ok()?;
    let cells = cells(alloc, held)?;
    if contracts.len() > 1 {
        return None;
    }
    Some(World::new(contracts, cells))
}

/// The cells hold this.
pub fn hold(cells: &Cells, held: &[(Cell, Option<u64>)]) -> bool {
    held.iter()
        .all(|(cell, value)| cells.get(lock(*cell)) == *value)
}

/// The text is the hexadecimal digits of the bytes.
pub fn is_hex(alloc: Global, bytes: &[u8], text: &str) -> bool {
    hex::encode(alloc, bytes).is_ok_and(|digits| digits.as_str() == text)
}
