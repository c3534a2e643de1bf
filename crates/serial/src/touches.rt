// What a call found at the locks that it touched, and what it has made of it.
ghost use Rattle.std.specs.Prelude.{◌≡◌, ◌≤◌, ◌++◌, ◌∷◌, [], ℕ, List, None, IfOk, IfSome, IsSome, OnOk, drop, length, take};
ghost use Rattle.std.specs.FinMap.{get};
ghost use Rattle.std.specs.List.{AllByRecursion};
ghost use Rattle.spec_ledger.specs.Book.{back_all};
ghost use Rattle.spec_ledger.specs.Cells.{back, update};
ghost use Rattle.spec_ledger.specs.Modes.{join_held};
ghost use Rattle.spec_ledger.specs.declared.TraceStep.{TraceStep};
ghost use Rattle.spec_ledger.specs.declared.TraceStep.TheVariants.{Did};
ghost use Rattle.spec_execution.specs.Run.{IsReply};
ghost use Rattle.storage.specs.Slots.{cell_back};
ghost use Rattle.interp.specs.Progress.{mark_of};
ghost use Rattle.serial.specs.Touches.{AreFoundBy, AreTouches, AreTouchesOf, IsCellAt, IsTouched, found_in, later_in, modes_of};

use crate::over_view::Reads;
use abstract_locks::join_to;
use spec_ledger::{Inverse, Lock, Mode, NoMemory, Op, Reply};
use std::alloc::Allocator;
use std::collections::BTreeMap;
use storage::{counter_lock, former_cell, inverse, lock, map_lock, mode, next_cell, reply};

/// What a call did at a lock so far.
#[derive(Clone, Copy, Debug, PartialEq, Eq)]
pub(crate) struct Touch {
    /// The join of the modes that it asked for.
    pub(crate) mode: Mode,
    /// What it found there.
    pub(crate) found: Option<u64>,
    /// What is there now.
    pub(crate) later: Option<u64>,
}

/// What is known of a lock for which an operation asks in this mode: from earlier touches, or else from the view.
fn ask<A: Allocator + Copy, V: Reads>(
    view: &V,
    touches: &BTreeMap<Lock, Touch, A>,
    lock: Lock,
    mode: Mode,
) -> Touch
    ensures mode { result.mode ≡ join_held mode (get (modes_of touches.now.entries) lock) }
    ensures found { IsSome (get (modes_of touches.now.entries) lock) → result.found ≡ get (found_in touches.now.entries) lock }
    ensures later { IsSome (get (modes_of touches.now.entries) lock) → result.later ≡ get (later_in touches.now.entries) lock }
    ensures cell { get (modes_of touches.now.entries) lock ≡ None → IsCellAt lock result.found }
    ensures read { get (modes_of touches.now.entries) lock ≡ None → V.may_read view.now lock result.found }
    ensures first { get (modes_of touches.now.entries) lock ≡ None → result.later ≡ result.found }
{
    match touches.get(&lock) {
        Some(touch) => Touch {
            mode: join_to(mode, Some(touch.mode)),
            found: touch.found,
            later: touch.later,
        },
        None => {
            let found = view.read(lock);
            Touch {
                mode,
                found,
                later: found,
            }
        }
    }
}

/// Does an operation, and keeps its inverse.
pub(crate) fn act<A: Allocator + Copy, V: Reads>(
    view: &V,
    touches: &mut BTreeMap<Lock, Touch, A>,
    inverses: &mut Vec<Inverse, A>,
    op: Op,
) -> Result<Reply, NoMemory>
    ensures is_reply { IfOk result (λ reply. IsReply op reply) }
    ensures touches { IfOk result (λ reply. (trace : List TraceStep) (marks : List ℕ) → AreTouchesOf trace touches.old.entries inverses.old.items marks → AreTouchesOf (trace ++ Did op reply ∷ []) touches.new.entries inverses.new.items marks) }
    ensures read { OnOk result (AreFoundBy (V.may_read view.now) touches.old.entries → AreFoundBy (V.may_read view.now) touches.new.entries) }
{
    let wanted = lock(op);
    let touch = ask(view, touches, wanted, mode(op));
    let next = Touch {
        mode: touch.mode,
        found: touch.found,
        later: next_cell(op, touch.later),
    };
    let Ok(_) = touches.insert(wanted, next) else {
        return Err(NoMemory);
    };
    inverses.push(inverse(op, touch.later))?;
    Ok(reply(op, touch.later))
}

/// Takes a change of the cell at this lock back.
fn change_back<A: Allocator>(touches: &mut BTreeMap<Lock, Touch, A>, lock: Lock, inverse: Inverse)
    requires { IsSome (get (modes_of touches.old.entries) lock) }
    ensures found { found_in touches.new.entries ≡ found_in touches.old.entries }
    ensures later { later_in touches.new.entries ≡ update (later_in touches.old.entries) lock (cell_back inverse) }
    ensures modes { modes_of touches.new.entries ≡ modes_of touches.old.entries }
{
    let Some(touch) = touches.get_mut(&lock) else {
        unreachable!()
    };
    *touch = Touch {
        mode: touch.mode,
        found: touch.found,
        later: former_cell(inverse, touch.later),
    };
}

/// Takes a change back.
fn take_back<A: Allocator>(touches: &mut BTreeMap<Lock, Touch, A>, inverse: Inverse)
    requires { IsTouched (modes_of touches.old.entries) inverse }
    ensures found { found_in touches.new.entries ≡ found_in touches.old.entries }
    ensures later { later_in touches.new.entries ≡ back inverse (later_in touches.old.entries) }
    ensures modes { modes_of touches.new.entries ≡ modes_of touches.old.entries }
{
    match inverse {
        Inverse::Keep => (),
        Inverse::Subtract(place, _) => change_back(touches, counter_lock(place), inverse),
        Inverse::Restore(place, _) => change_back(touches, map_lock(place), inverse),
    }
}

/// Takes changes back, last first, until only the first so many are left.
fn take_back_to<A: Allocator + Copy>(
    touches: &mut BTreeMap<Lock, Touch, A>,
    inverses: &mut Vec<Inverse, A>,
    mark: usize,
)
    requires touched { AllByRecursion (IsTouched (modes_of touches.old.entries)) inverses.old.items }
    requires mark { mark ≤ length inverses.old.items }
    ensures inverses { inverses.new.items ≡ take mark inverses.old.items }
    ensures found { found_in touches.new.entries ≡ found_in touches.old.entries }
    ensures later { later_in touches.new.entries ≡ back_all (drop mark inverses.old.items) (later_in touches.old.entries) }
    ensures modes { modes_of touches.new.entries ≡ modes_of touches.old.entries }
{
    while inverses.len() > mark {
        let Some(inverse) = inverses.pop() else {
            return;
        };
        take_back(touches, inverse);
    }
}

/// Leaves the innermost level, which the last mark is of: what was done in it stands, or is taken back, last first. Where no level is open nothing is done.
/// It takes no memory.
pub(crate) fn leave<A: Allocator + Copy>(
    touches: &mut BTreeMap<Lock, Touch, A>,
    inverses: &mut Vec<Inverse, A>,
    marks: &mut Vec<usize, A>,
    keep: bool,
)
    requires { AreTouches touches.old.entries inverses.old.items marks.old.items }
    ensures touches { (trace : List TraceStep) → AreTouchesOf trace touches.old.entries inverses.old.items marks.old.items → AreTouchesOf (trace ++ mark_of keep ∷ []) touches.new.entries inverses.new.items marks.new.items }
    ensures found { found_in touches.new.entries ≡ found_in touches.old.entries }
    ensures modes { modes_of touches.new.entries ≡ modes_of touches.old.entries }
{
    let Some(mark) = marks.pop() else {
        return;
    };
    if keep {
        return;
    }
    take_back_to(touches, inverses, mark);
}
