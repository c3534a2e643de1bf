// Lists as a module.
ghost use Rattle.std.specs.Prelude.{◌≡◌, true, nat_le, map, length, IfOk, IfErr};
ghost use Rattle.spec_modules.specs.Limits as limit;
ghost use Rattle.spec_modules.specs.Limits.{module_fits};
ghost use Rattle.spec_modules.specs.Profile.{byte_limit};
ghost use Rattle.spec_modules.specs.Shortest.{shortest};
ghost use Rattle.module_tree.specs.ModuleView.{are_numbered, func_view};
ghost use Rattle.module_tree.specs.Modules.{module_view};
ghost use Rattle.assembler.specs.ListsView.{lists_view, IsTooLarge};
ghost use Rattle.assembler.specs.declared.judge.BuildFault.TheVariants as unsealed;

use crate::builder_lists::Lists;
use crate::builder_parts::all_within;
use crate::ranges::start_in_range;
use encoder::{ModuleLists, encode_lists};
use module_tree::limit::{BYTE_LIMIT, FUNCTION_LIMIT};
use module_tree::module::{Func, Module};
use std::alloc::{AllocError, Allocator};
use thiserror::Error;
use wtypes::NoMemory;

/// Why lists are no `Module`.
#[derive(Clone, Copy, Debug, PartialEq, Eq, Error)]
pub enum BuildFault {
    /// They do not keep the limits of this profile.
    #[error("the module does not keep the limits of this profile")]
    TooLarge,
    /// Memory ran out.
    #[error("memory was refused")]
    NoMemory,
}

impl From<AllocError> for BuildFault {
    ghost from_gives = { λ _ e. e ≡ unsealed.NoMemory };

    fn from(_refused: AllocError) -> BuildFault {
        BuildFault::NoMemory
    }
}

impl From<NoMemory> for BuildFault {
    ghost from_gives = { λ _ e. e ≡ unsealed.NoMemory };

    fn from(_refused: NoMemory) -> BuildFault {
        BuildFault::NoMemory
    }
}

// Whether there are no more functions than there may be, each within its limits.
fn funcs_fit<A: Allocator>(funcs: &Vec<Func<A>, A>) -> bool
    ensures { result ≡ limit.funcs_fit (map func_view funcs.now.items) }
{
    let are_few = funcs.len() <= FUNCTION_LIMIT;
    let fit = all_within(funcs);
    are_few & fit
}

// Whether the lists keep the limits on functions, locals, nesting and labels.
fn lists_fit<A: Allocator>(lists: &Lists<A>) -> bool
    ensures { result ≡ module_fits (lists_view lists.now) }
{
    start_in_range(lists.start);
    let imports = all_within(&lists.imports);
    let funcs = funcs_fit(&lists.funcs);
    let tables = all_within(&lists.tables);
    let memories = all_within(&lists.memories);
    let globals = all_within(&lists.globals);
    let exports = all_within(&lists.exports);
    let elements = all_within(&lists.elements);
    let datas = all_within(&lists.datas);
    imports & funcs & tables & memories & globals & exports & elements & datas
}

// Whether the shortest spelling keeps the limit on bytes.
fn is_short<A: Allocator + Clone>(lists: &Lists<A>) -> Result<bool, BuildFault>
    ensures short { IfOk result (λ b. b ≡ nat_le (length (shortest (lists_view lists.now))) byte_limit) }
    ensures refused { IfErr result (λ e. e ≡ unsealed.NoMemory) }
{
    let borrowed = ModuleLists {
        types: &lists.types,
        imports: &lists.imports,
        funcs: &lists.funcs,
        tables: &lists.tables,
        memories: &lists.memories,
        globals: &lists.globals,
        exports: &lists.exports,
        start: lists.start,
        elements: &lists.elements,
        datas: &lists.datas,
    };
    let mut bytes = Vec::new(lists.types.allocator().clone()?);
    encode_lists(&borrowed, &mut bytes)?;
    Ok(bytes.len() <= BYTE_LIMIT)
}

/// The module of these lists. The instructions of each expression carry their ordinals 0, 1, 2 and so on in preorder.
///
/// # Errors
///
/// `TooLarge` where the lists do not keep the limits of a `Module`, and `NoMemory`.
pub fn build_module<A: Allocator + Clone>(lists: Lists<A>) -> Result<Module<A>, BuildFault>
    requires numbered { are_numbered lists.funcs.items lists.globals.items lists.elements.items lists.datas.items ≡ true }
    ensures same { IfOk result (λ m. module_view m ≡ lists_view lists) }
    ensures refused { IfErr result (λ e. e ≡ unsealed.TooLarge → IsTooLarge (lists_view lists)) }
{
    if !lists_fit(&lists) {
        return Err(BuildFault::TooLarge);
    }
    if !is_short(&lists)? {
        return Err(BuildFault::TooLarge);
    }
    Ok(Module {
        types: lists.types,
        imports: lists.imports,
        funcs: lists.funcs,
        tables: lists.tables,
        memories: lists.memories,
        globals: lists.globals,
        exports: lists.exports,
        start: lists.start,
        elements: lists.elements,
        datas: lists.datas,
    })
}
