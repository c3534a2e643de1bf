// What takes back the operations of levels that are open.
ghost use Rattle.std.specs.Prelude.{◌≡◌, [], drop, take, IfOk, OnOk, MatchOption};
ghost use Rattle.spec_execution.specs.Run.{IsReply};
ghost use Rattle.spec_ledger.specs.Book.{Marked, stepped, back_all};
ghost use Rattle.spec_ledger.specs.Cells.{Cells as TheCells, back, cells_after, inverse_to, reply_to};
ghost use Rattle.spec_ledger.specs.declared.TraceStep.TheVariants.{Did, Opened};
ghost use Rattle.interp.specs.Progress.{mark_of};
ghost use Rattle.debugger.specs.Undoing.{IsNoted};

use spec_ledger::{Inverse, NoMemory, Op, Reply};
use std::alloc::Allocator;
use storage::Cells;

/// What takes the open levels back. Where no level is open nothing is noted.
#[derive(Drop)]
pub struct Undo<A: Allocator> {
    /// The inverses of the operations since the outer open level was entered, first to last.
    pub inverses: Vec<Inverse, A>,
    /// How many inverses there were where each open level was entered, the innermost last.
    pub marks: Vec<usize, A>,
}

/// Where no level is open.
pub(crate) fn nothing_noted<A: Allocator + Copy>(alloc: A) -> Undo<A>
    ensures inverses { result.inverses.items ≡ [] }
    ensures marks { result.marks.items ≡ [] }
{
    Undo {
        inverses: Vec::new(alloc),
        marks: Vec::new(alloc),
    }
}

/// The same, with memory of its own.
pub(crate) fn copy_undo<A: Allocator + Copy>(alloc: A, undo: &Undo<A>) -> Result<Undo<A>, NoMemory>
    ensures inverses { IfOk result (λ copy. copy.inverses.items ≡ undo.now.inverses.items) }
    ensures marks { IfOk result (λ copy. copy.marks.items ≡ undo.now.marks.items) }
{
    Ok(Undo {
        inverses: undo.inverses.to_vec(alloc)?,
        marks: undo.marks.to_vec(alloc)?,
    })
}

// Does an operation on cells, for good, and answers its inverse beside the reply.
fn do_op<A: Allocator + Copy>(cells: &mut Cells<A>, op: Op) -> Result<(Reply, Inverse), NoMemory>
    ensures reply { IfOk result (λ did. did.0 ≡ reply_to op cells.old.cells) }
    ensures inverse { IfOk result (λ did. did.1 ≡ inverse_to op cells.old.cells) }
    ensures cells { OnOk result (cells.new.cells ≡ cells_after op cells.old.cells) }
{
    let (reply, inverse) = cells.apply(op)?;
    cells.settle(inverse);
    Ok((reply, inverse))
}

/// Does an operation on the cells. Where a level is open its inverse is noted.
pub(crate) fn act<A: Allocator + Copy>(
    cells: &mut Cells<A>,
    undo: &mut Undo<A>,
    op: Op,
) -> Result<Reply, NoMemory>
    ensures reply { IfOk result (λ reply. reply ≡ reply_to op cells.old.cells) }
    ensures is_reply { IfOk result (λ reply. IsReply op reply) }
    ensures undo { IfOk result (λ reply. (p : Marked TheCells) → IsNoted undo.old cells.old.cells p → IsNoted undo.new cells.new.cells (stepped cells_after (Did op reply) p)) }
{
    cells.use_invariant();
    let (reply, inverse) = do_op(cells, op)?;
    if !undo.marks.is_empty() {
        undo.inverses.push(inverse)?;
    }
    Ok(reply)
}

/// Notes that a level is entered.
pub(crate) fn enter<A: Allocator + Copy>(undo: &mut Undo<A>) -> Result<(), NoMemory>
    ensures { OnOk result ((cells : TheCells) (p : Marked TheCells) → IsNoted undo.old cells p → IsNoted undo.new cells (stepped cells_after Opened p)) }
{
    undo.marks.push(undo.inverses.len())?;
    Ok(())
}

// The operation that undoes another one. None where nothing is to be undone.
fn undoing(inverse: Inverse) -> Option<Op>
    ensures { MatchOption result ((cells : TheCells) → cells ≡ back inverse cells) (λ op. (cells : TheCells) → cells_after op cells ≡ back inverse cells) }
{
    match inverse {
        Inverse::Keep => None,
        Inverse::Subtract(place, value) => Some(Op::Add(place, value.wrapping_neg())),
        Inverse::Restore(place, Some(value)) => Some(Op::Put(place, value)),
        Inverse::Restore(place, None) => Some(Op::Del(place)),
    }
}

// Takes an operation back.
fn take_back<A: Allocator + Copy>(cells: &mut Cells<A>, inverse: Inverse) -> Result<(), NoMemory>
    ensures { OnOk result (cells.new.cells ≡ back inverse cells.old.cells) }
{
    let Some(op) = undoing(inverse) else {
        return Ok(());
    };
    do_op(cells, op)?;
    Ok(())
}

// Takes back the operations behind so many of these inverses, last first.
fn take_back_to<A: Allocator + Copy>(
    cells: &mut Cells<A>,
    inverses: &mut Vec<Inverse, A>,
    mark: usize,
) -> Result<(), NoMemory>
    ensures inverses { OnOk result (inverses.new.items ≡ take mark inverses.old.items) }
    ensures cells { OnOk result (cells.new.cells ≡ back_all (drop mark inverses.old.items) cells.old.cells) }
{
    while inverses.len() > mark {
        let Some(inverse) = inverses.pop() else {
            return Ok(());
        };
        take_back(cells, inverse)?;
    }
    Ok(())
}

/// Leaves the innermost open level: what was done in it stands, or is taken back.
pub(crate) fn leave<A: Allocator + Copy>(
    cells: &mut Cells<A>,
    undo: &mut Undo<A>,
    keep: bool,
) -> Result<(), NoMemory>
    ensures { OnOk result ((p : Marked TheCells) → IsNoted undo.old cells.old.cells p → IsNoted undo.new cells.new.cells (stepped cells_after (mark_of keep) p)) }
{
    let Some(mark) = undo.marks.pop() else {
        return Ok(());
    };
    if !keep {
        return take_back_to(cells, &mut undo.inverses, mark);
    }
    if undo.marks.is_empty() {
        undo.inverses.clear();
    }
    Ok(())
}
