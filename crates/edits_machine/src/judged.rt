//! The check of modules.

ghost use Rattle.std.specs.Prelude.{◌≡◌, IfOk, IfErr};
ghost use Rattle.spec_typing.specs.Modules.{ModuleTyped};
ghost use Rattle.module_tree.specs.Modules.{module_view};
ghost use Rattle.typing.specs.CheckResults.{Denies};
ghost use Rattle.typing.specs.Parts.{tree_of};

use body_typing::scope::TypeRefusal;
use module_tree::module::Module;
use std::alloc::Allocator;
use typing::valid::Valid;

/// As [`typing::check::check`].
pub fn check<A: Allocator, W: Allocator + Clone>(
    alloc: &W,
    tree: Module<A>,
) -> Result<Valid<A>, (Module<A>, TypeRefusal)>
    ensures same { IfOk result (λ v. tree_of v ≡ tree) }
    ensures typed { IfOk result (λ v. ModuleTyped (module_view (tree_of v))) }
    ensures back { IfErr result (λ e. e.0 ≡ tree) }
    ensures untyped { IfErr result (λ e. Denies e.1 (ModuleTyped (module_view tree))) }
{
    typing::check::check(alloc, tree)
}
