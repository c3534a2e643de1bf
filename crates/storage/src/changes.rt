// The end of a call's changes: they stand, or are taken back.
ghost use Rattle.std.specs.Prelude.{◌≡◌, ◌≤◌, [], if◌then◌else◌, length, take, drop};
ghost use Rattle.spec_ledger.specs.Book.{back_all, has_returned};
ghost use Rattle.std.specs.FinMap as finite;
ghost use Rattle.storage.specs.Counts.{AreUnsettled, closed_all};

use crate::Cells;
use spec_ledger::{Inverse, Outcome};
use std::alloc::Allocator;

/// Takes changes back, last first, for which it takes no memory.
pub fn take_all_back<A: Allocator + Copy>(cells: &mut Cells<A>, mut inverses: Vec<Inverse, A>)
    requires { AreUnsettled inverses.items cells.old.unsettled }
    ensures cells { cells.new.cells ≡ back_all inverses.items cells.old.cells }
    ensures unsettled { cells.new.unsettled ≡ closed_all inverses.items cells.old.unsettled }
{
    while let Some(inverse) = inverses.pop() {
        cells.take_back(inverse);
    }
}

/// Takes changes back, last first, until only the first so many are left. It takes no memory.
pub fn take_back_to<A: Allocator + Copy>(
    cells: &mut Cells<A>,
    inverses: &mut Vec<Inverse, A>,
    mark: usize,
)
    requires unsettled { AreUnsettled inverses.old.items cells.old.unsettled }
    requires mark { mark ≤ length inverses.old.items }
    ensures inverses { inverses.new.items ≡ take mark inverses.old.items }
    ensures cells { cells.new.cells ≡ back_all (drop mark inverses.old.items) cells.old.cells }
    ensures unsettled { cells.new.unsettled ≡ closed_all (drop mark inverses.old.items) cells.old.unsettled }
{
    while inverses.len() > mark {
        let Some(inverse) = inverses.pop() else {
            return;
        };
        cells.take_back(inverse);
    }
}

/// Lets changes stand, for which it takes no memory.
pub fn settle_all<A: Allocator + Copy>(cells: &mut Cells<A>, mut inverses: Vec<Inverse, A>)
    requires { AreUnsettled inverses.items cells.old.unsettled }
    ensures cells { cells.new.cells ≡ cells.old.cells }
    ensures unsettled { cells.new.unsettled ≡ closed_all inverses.items cells.old.unsettled }
{
    while let Some(inverse) = inverses.pop() {
        cells.settle(inverse);
    }
}

/// Ends the changes of a call: they stand, or are taken back, last first. Either takes no memory.
pub fn end_all<A: Allocator + Copy>(cells: &mut Cells<A>, inverses: Vec<Inverse, A>, stand: bool)
    requires { AreUnsettled inverses.items cells.old.unsettled }
    ensures cells { cells.new.cells ≡ (if stand then cells.old.cells else back_all inverses.items cells.old.cells) }
    ensures unsettled { cells.new.unsettled ≡ closed_all inverses.items cells.old.unsettled }
{
    if stand {
        settle_all(cells, inverses);
    } else {
        take_all_back(cells, inverses);
    }
}

/// Ends the changes of a call that ran alone: none but its own are unsettled. They stand, all at once, or are taken back, last first. Either takes no memory.
/// The list is left empty, with its room.
pub fn end_alone<A: Allocator + Copy>(
    cells: &mut Cells<A>,
    inverses: &mut Vec<Inverse, A>,
    stand: bool,
)
    requires unsettled { AreUnsettled inverses.old.items cells.old.unsettled }
    requires alone { closed_all inverses.old.items cells.old.unsettled ≡ finite.empty }
    ensures cells { cells.new.cells ≡ (if stand then cells.old.cells else back_all inverses.old.items cells.old.cells) }
    ensures unsettled { cells.new.unsettled ≡ finite.empty }
    ensures inverses { inverses.new.items ≡ [] }
{
    if stand {
        cells.settle_everything();
        inverses.clear();
    } else {
        take_back_to(cells, inverses, 0);
    }
}

/// Whether a call that ended so returned: then its changes stand.
pub fn returned(outcome: Outcome) -> bool
    ensures { result ≡ has_returned outcome }
{
    match outcome {
        Outcome::Returned(_) => true,
        Outcome::Trapped(_) | Outcome::OutOfFuel | Outcome::Rejected(_) => false,
    }
}
