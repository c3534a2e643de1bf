// The steps of a run, done on cells: operations, and levels that are entered and left.
ghost use Rattle.std.specs.Prelude.{◌≡◌, ◌∷◌, ◌++◌, [], List, IfOk, OnOk, OnErr};
ghost use Rattle.spec_execution.specs.Run.{IsReply};
ghost use Rattle.spec_ledger.specs.Cells.{cells_after, inverse_to, reply_to};
ghost use Rattle.spec_ledger.specs.declared.TraceStep.{TraceStep};
ghost use Rattle.storage.specs.Counts.{Store, opened};
ghost use Rattle.interp.specs.Progress.{mark_of};
ghost use Rattle.serial.specs.Playing.{AreDoneInLevels, MayBeLeft};

use spec_ledger::{Inverse, NoMemory, Op, Reply};
use std::alloc::Allocator;
use storage::{Cells, take_back_to};

/// Does an operation, and keeps its inverse. Where memory is refused all is as it was.
pub(crate) fn act<A: Allocator + Copy>(
    cells: &mut Cells<A>,
    inverses: &mut Vec<Inverse, A>,
    op: Op,
) -> Result<Reply, NoMemory>
    ensures reply { IfOk result (λ reply. reply ≡ reply_to op cells.old.cells) }
    ensures is_reply { IfOk result (λ reply. IsReply op reply) }
    ensures cells { OnOk result (cells.new.cells ≡ cells_after op cells.old.cells) }
    ensures unsettled { OnOk result (cells.new.unsettled ≡ opened (inverse_to op cells.old.cells) cells.old.unsettled) }
    ensures inverses { OnOk result (inverses.new.items ≡ inverses.old.items ++ inverse_to op cells.old.cells ∷ []) }
    ensures err { OnErr result (cells.new ≡ cells.old) }
    ensures err_inverses { OnErr result (inverses.new.items ≡ inverses.old.items) }
{
    cells.use_invariant();
    inverses.reserve(1)?;
    let (reply, inverse) = cells.apply(op)?;
    inverses.push_reserved(inverse);
    Ok(reply)
}

/// Leaves the innermost level, which the last mark is of: what was done in it stands, or is taken back, last first. Where no level is open nothing is done.
/// It takes no memory.
pub(crate) fn leave<A: Allocator + Copy>(
    cells: &mut Cells<A>,
    inverses: &mut Vec<Inverse, A>,
    marks: &mut Vec<usize, A>,
    keep: bool,
)
    requires { MayBeLeft cells.old inverses.old.items marks.old.items }
    ensures { (start : Store) (trace : List TraceStep) → AreDoneInLevels start trace cells.old inverses.old.items marks.old.items → AreDoneInLevels start (trace ++ mark_of keep ∷ []) cells.new inverses.new.items marks.new.items }
{
    let Some(mark) = marks.pop() else {
        return;
    };
    if keep {
        return;
    }
    take_back_to(cells, inverses, mark);
}
