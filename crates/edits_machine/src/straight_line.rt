//! Several instructions at once.

ghost use Rattle.std.specs.Prelude.{◌≡◌, ◌≢◌, ◌≤◌, ◌<◌, [], vec_len, vec_capacity};
ghost use Rattle.interp_state.specs.Callee.{contract_of, base_of};
ghost use Rattle.interp_state.specs.Steps.{IsOrderedParts, IsCounted};
ghost use Rattle.interp_state.specs.Views.{view};
ghost use Rattle.interp_steps.specs.StraightLine.{Walks, IsSafeFor, PushesNext};

use interp_state::callee::Callee;
use interp_state::parts::Parts;
use std::alloc::Allocator;

/// As [`interp_steps::straight_line::run_straight_line`].
pub fn run_straight_line<'a, A: Allocator + Copy>(
    lent: &Callee<'a, A>,
    parts: &mut Parts<'a, A>,
    most: u64,
) -> u64
    requires some { parts.old.code.now ≢ [] }
    requires ordered { IsOrderedParts parts.old }
    requires counted { IsCounted parts.old }
    requires safe { IsSafeFor (contract_of lent.now) (view (base_of lent.now) parts.old) most }
    ensures walked { Walks (contract_of lent.now) (view (base_of lent.now) parts.old) result (view (base_of lent.now) parts.new) }
    ensures within { result ≤ most }
    ensures moves { 0 < most → vec_len parts.old.stack < vec_capacity parts.old.stack → PushesNext parts.old.code.now → 0 < result }
    ensures ordered { IsOrderedParts parts.new }
    ensures counted { IsCounted parts.new }
    ensures max { parts.new.instance.memory.max ≡ parts.old.instance.memory.max }
{
    interp_steps::straight_line::run_straight_line(lent, parts, most)
}
