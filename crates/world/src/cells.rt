//! The cells of a world, read.

ghost use Rattle.std.specs.Prelude.{◌≡◌, ◌++◌, ℕ, List, IfOk, IfErr, MatchResult};
ghost use Rattle.spec_ledger.specs.Cells.{Cells as TheCells};
ghost use Rattle.records.specs.Reading.{Fails};
ghost use Rattle.world.specs.Cells.{AreStored, stored_bytes, lists_at};

use crate::list::read_lists;
use crate::store::store_of;
use records::Fault;
use std::alloc::Allocator;
use storage::{Cells, NoMemory};

/// Reads the cells of a world, those of the maps and then those of the counters, each rising by contract and key, and gives the bytes after
/// them. They are refused exactly where no cells stand in front, memory aside, and the first fault is answered: a count whose cells exceed
/// what is left is at fault itself; a contract that falls is, and where it does not, a key that does not rise; a counter's value that is 0.
pub fn read_cells<A: Allocator + Copy>(alloc: A, bytes: &[u8]) -> Result<(Cells<A>, &[u8]), Fault>
    ensures spelled { IfOk result (λ x. AreStored x.0.cells × (bytes.now ≡ stored_bytes x.0.cells ++ x.1.now)) }
    ensures only { (cells : TheCells) (rest : List ℕ) → AreStored cells → bytes.now ≡ stored_bytes cells ++ rest → MatchResult result (λ x. x.1.now ≡ rest) (λ f. f ≡ Fault.NoMemory) }
    ensures first { IfErr result (λ f. Fails f (lists_at bytes.now)) }
{
    match read_lists(alloc, bytes) {
        Err(fault) => Err(fault),
        Ok((lists, rest)) => match store_of(alloc, lists) {
            Ok(store) => Ok((store, rest)),
            Err(NoMemory) => Err(Fault::NoMemory),
        },
    }
}
