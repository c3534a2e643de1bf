//! Blocks and loops that are opened in room that is there, and loops that stay open.

ghost use Rattle.std.specs.Prelude.{◌≡◌, drop, true, false};
ghost use Rattle.laws_reduction.specs.Branches.{IsTarget};
ghost use Rattle.interp_state.specs.Views.{opens_of};
ghost use Rattle.interp_state.specs.Steps.{IsCounted};
ghost use Rattle.interp_state.specs.Branches.{LeadsToLoop, Repeats};

use interp_state::parts::Parts;
use std::alloc::Allocator;

/// As [`interp_state::branches::repeat`].
pub fn repeat<'a, A: Allocator + Copy>(parts: &mut Parts<'a, A>, label: u32) -> bool
    requires target { IsTarget (opens_of parts.old.entries.items) parts.old.stack.items (drop label (opens_of parts.old.entries.items)) }
    requires counted { IsCounted parts.old }
    ensures repeats { result ≡ true → Repeats parts.old (drop label (opens_of parts.old.entries.items)) parts.new }
    ensures other { result ≡ false → LeadsToLoop (drop label (opens_of parts.old.entries.items)) → ⊥ }
    ensures same { result ≡ false → parts.new ≡ parts.old }
    ensures counted { IsCounted parts.new }
    ensures instance { parts.new.instance ≡ parts.old.instance }
{
    interp_state::branches::repeat(parts, label)
}
