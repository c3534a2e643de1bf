// The steps of a trace, done again.
ghost use Rattle.std.specs.Prelude.{◌≡◌, ◌↔◌, [], Ok, true, false, IsTrue};
ghost use Rattle.std.specs.FinMap as finite;
ghost use Rattle.spec_ledger.specs.Book.{GetsReplies};
ghost use Rattle.serial.specs.Playing.{AreDone, AreSomeDone};

use crate::steps::{act, leave};
use spec_ledger::{Inverse, NoMemory, Reply, TraceStep};
use std::alloc::Allocator;
use storage::Cells;

fn is_same(a: Reply, b: Reply) -> bool
    ensures { IsTrue result ↔ (a ≡ b) }
{
    a == b
}

/// Does the operations of a trace, and keeps the inverses of those that stand, until a reply is not that of the trace.
/// Where a level is dropped, the inverses made in it are taken back. Answers whether each reply is that of the trace.
pub(crate) fn act_again<A: Allocator + Copy>(
    alloc: A,
    cells: &mut Cells<A>,
    inverses: &mut Vec<Inverse, A>,
    trace: &[TraceStep],
) -> Result<bool, NoMemory>
    requires none { inverses.old.items ≡ [] }
    requires settled { cells.old.unsettled ≡ finite.empty }
    ensures all { result ≡ Ok true → AreDone cells.old trace.now cells.new inverses.new.items }
    ensures other { result ≡ Ok false → ¬ (GetsReplies trace.now cells.old.cells) }
    ensures some { AreSomeDone cells.old cells.new inverses.new.items }
{
    cells.use_invariant();
    // how many inverses there were at each open mark, the innermost last
    let mut marks = Vec::new(alloc);
    for step in trace {
        match *step {
            TraceStep::Did(op, reply) => {
                let again = act(cells, inverses, op)?;
                if !is_same(again, reply) {
                    return Ok(false);
                }
            }
            TraceStep::Opened => marks.push(inverses.len())?,
            TraceStep::Kept => leave(cells, inverses, &mut marks, true),
            TraceStep::Dropped => leave(cells, inverses, &mut marks, false),
        }
    }
    Ok(true)
}
