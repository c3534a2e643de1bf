//! What the workers of a validator share: lanes of positions, and the cells ahead of the fold.

ghost use Rattle.std.specs.Prelude.{◌≡◌, IfNone, IfSome};
ghost use Rattle.lanes.specs.Lanes.{HasStolen};

use lanes::Thief;
use std::alloc::Allocator;

/// As [`lanes::Thief::steal`].
pub fn steal<A: Allocator>(thief: &mut Thief<A>) -> Option<u32>
    ensures taken { IfSome result (HasStolen thief.old thief.new) }
    ensures none { IfNone result (thief.new ≡ thief.old) }
{
    thief.steal()
}
