//! Types and instructions.

ghost use Rattle.std.specs.Prelude.{◌≡◌, map, IfOk, IfErr};
ghost use Rattle.module_tree.specs.ModuleView.{func_type_view};
ghost use Rattle.text_resolve.specs.declared.refusal.ResolveFault.TheVariants.{NoMemory};
ghost use Rattle.text_resolve.specs.Types.{first_type};

use std::alloc::Allocator;
use text_resolve::ResolveFault;
use wtypes::FuncType;

/// As [`text_resolve::first_type`].
pub fn first_type<A: Allocator>(
    types: &Vec<FuncType<A>, A>,
    wanted: &FuncType<A>,
) -> Result<Option<u32>, ResolveFault>
    ensures found { IfOk result (λ found. found ≡ first_type (func_type_view wanted.now) (map func_type_view types.now.items)) }
    ensures refused { IfErr result (λ e. e ≡ NoMemory) }
{
    text_resolve::first_type(types, wanted)
}
