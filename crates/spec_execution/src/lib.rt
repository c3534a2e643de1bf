//! The execution of contracts, and the read-write sets of calls (Core, Execution), which contracts cite: definitions and their laws.
#![tactic(auto)]

mod footprints;

ghost use Rattle.spec_execution.specs.Numbers.{NumbersTakeNoPart};
ghost use Rattle.spec_execution.specs.Places.{PlacesAreKept};
ghost use Rattle.spec_execution.specs.Unique.{CallsAreUnique, ExecutesOneWay, ReducesOneWay, RunsAreUnique, TurnsAreUnique};

pub use crate::footprints::{Access, an_execution_has_a_read_write_set};

/// A configuration reduces in one way, and two runs with the same host are one.
pub fn runs_are_unique()
    ensures one_way { ReducesOneWay }
    ensures runs { RunsAreUnique }
    ensures calls { CallsAreUnique }
    ensures turns { TurnsAreUnique }
    ensures executes { ExecutesOneWay }
{}

/// The numbers that give the place take no part in the reduction, and stay those of the bodies.
pub fn numbers_take_no_part()
    ensures no_part { NumbersTakeNoPart }
    ensures kept { PlacesAreKept }
{}
