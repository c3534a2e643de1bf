// The globals that a module begins with.

ghost use Rattle.std.specs.Prelude.{◌≡◌, map, IfOk};
ghost use Rattle.module_tree.specs.ModuleView.{global_view};
ghost use Rattle.module_tree.specs.Modules.{module_view};
ghost use Rattle.spec_execution.specs.Configuration.{constant, fresh};

use crate::expressions::constant_of;
use module_tree::module::{Global, Module};
use std::alloc::{AllocError, Allocator};
use wtypes::Value;

// The first values of globals.
fn values_of<A: Allocator>(alloc: A, declared: &[Global<A>]) -> Result<Vec<Value, A>, AllocError>
    ensures { IfOk result (λ values. values.items ≡ map (λ g. constant g.init) (map global_view declared.now)) }
{
    let mut values = Vec::with_capacity(alloc, declared.len())?;
    for global in declared {
        values.push(constant_of(&global.init))?;
    }
    Ok(values)
}

/// The first values of a module's globals.
pub fn first_globals<A: Allocator + Clone>(
    alloc: &A,
    tree: &Module<A>,
) -> Result<Vec<Value, A>, AllocError>
    ensures { IfOk result (λ values. values.items ≡ (fresh (module_view tree.now)).globals) }
{
    values_of(alloc.clone()?, &tree.globals)
}
