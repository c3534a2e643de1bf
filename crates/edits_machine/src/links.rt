//! The linking of modules.

ghost use Rattle.std.specs.Prelude.{◌≡◌, IfOk, IfErr};
ghost use Rattle.module_tree.specs.Modules.{module_view};
ghost use Rattle.typing.specs.Parts;
ghost use Rattle.link.specs.Parts.{tree_of};
ghost use Rattle.link.specs.Refusals.{Says, PassedBefore};

use link::deployed::Deployed;
use link::refusal::LinkRefusal;
use std::alloc::Allocator;
use typing::valid::Valid;

/// As [`link::deploy::deploy`].
pub fn deploy<A: Allocator + Clone>(
    alloc: &A,
    valid: Valid<A>,
) -> Result<Deployed<A>, (Valid<A>, LinkRefusal)>
    ensures same { IfOk result (λ d. tree_of d ≡ Parts.tree_of valid) }
    ensures back { IfErr result (λ e. e.0 ≡ valid) }
    ensures says { IfErr result (λ e. Says e.1 (module_view (Parts.tree_of valid))) }
    ensures passed { IfErr result (λ e. PassedBefore e.1 (module_view (Parts.tree_of valid))) }
{
    link::deploy::deploy(alloc, valid)
}
