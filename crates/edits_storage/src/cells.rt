//! Cells.

ghost use Rattle.std.specs.Prelude.{◌≡◌, IfOk, OnOk, OnErr, ◌<◌};
ghost use Rattle.spec_ledger.specs.Cells.{cells_after, reply_to, inverse_to};
ghost use Rattle.storage.specs.Counts.{IsUnsettled, opened};

use std::alloc::Allocator;
use storage::{Cells, Inverse, NoMemory, Op, Reply};

/// As [`storage::Cells::apply`].
pub fn apply<A: Allocator + Copy>(
    cells: &mut Cells<A>,
    op: Op,
) -> Result<(Reply, Inverse), NoMemory>
    ensures reply { IfOk result (λ r. r.0 ≡ reply_to op cells.old.cells) }
    ensures inverse { IfOk result (λ r. r.1 ≡ inverse_to op cells.old.cells) }
    ensures cells { OnOk result (cells.new.cells ≡ cells_after op cells.old.cells) }
    ensures unsettled { IfOk result (λ r. cells.new.unsettled ≡ opened r.1 cells.old.unsettled) }
    ensures kept { IfOk result (λ r. IsUnsettled r.1 cells.new.unsettled) }
    ensures err { OnErr result (cells.new ≡ cells.old) }
{
    cells.apply(op)
}
