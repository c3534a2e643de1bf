// Breaks.
ghost use Rattle.std.specs.Prelude.{◌≡◌, OnErr, OnOk};
ghost use Rattle.debugger.specs.Breaks.{is_same, is_set, with_break, without_break};

use crate::place::Place;
use spec_ledger::NoMemory;
use std::alloc::Allocator;

fn is_the_same(a: Place, b: Place) -> bool
    ensures { result ≡ is_same a b }
{
    a.contract == b.contract && a.func == b.func && a.ordinal == b.ordinal
}

/// Whether there is a break at the place.
pub fn has_break(breaks: &[Place], place: Place) -> bool
    ensures { result ≡ is_set breaks.now place }
{
    for set in breaks {
        if is_the_same(*set, place) {
            return true;
        }
    }
    false
}

/// Sets a break, unless it is set.
///
/// # Errors
///
/// Memory was refused. The breaks are as they were.
pub fn set_break<A: Allocator>(breaks: &mut Vec<Place, A>, place: Place) -> Result<(), NoMemory>
    ensures set { OnOk result (breaks.new.items ≡ with_break breaks.old.items place) }
    ensures refused { OnErr result (breaks.new.items ≡ breaks.old.items) }
{
    if !has_break(breaks, place) {
        breaks.push(place)?;
    }
    Ok(())
}

/// Clears a break, if it is set.
pub fn clear_break<A: Allocator>(breaks: &mut Vec<Place, A>, place: Place)
    ensures { breaks.new.items ≡ without_break breaks.old.items place }
{
    breaks.retain(|set| !is_the_same(*set, place));
}
