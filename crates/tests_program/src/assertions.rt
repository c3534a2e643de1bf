//! Assertions as functions: a macro's branch is proved at each place with all that lives there, and a call in a fraction of the time. A failed one shows
//! the line of this file, so each names its place.

ghost use Rattle.std.specs.Prelude.{◌≡◌, true};

use std::fmt::Debug;
use std::process::Abort;

/// Ends the test where the two differ, and shows both.
pub(crate) fn equal<T: PartialEq + Debug>(
    rt: &impl Abort,
    place: &impl Debug,
    found: &T,
    wanted: &T,
) {
    assert_eq!(rt; found, wanted, "at {place:?}");
}

/// Ends the test where this does not hold.
pub(crate) fn holds(rt: &impl Abort, place: &impl Debug, is: bool)
    ensures { is ≡ true }
{
    assert!(rt; is, "at {place:?}");
}
