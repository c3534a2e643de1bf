// The check of a module.
ghost use Rattle.std.specs.Prelude.{◌≡◌, true, false, ◌&&◌, map, length, is_none, IfOk, IfErr};
ghost use Rattle.std.specs.List.{list_all};
ghost use Rattle.spec_typing.specs.Modules.{imported_globals, ModuleTyped};
ghost use Rattle.module_tree.specs.ModuleView.{func_view, global_type_view};
ghost use Rattle.module_tree.specs.Modules.{module_view};
ghost use Rattle.body_typing.specs.CheckResults.{spaces_view};
ghost use Rattle.body_typing.specs.Spaces.{AreSpaces};
ghost use Rattle.typing.specs.Tests.{func_passes, body_passes, heads_pass, uses_pass, module_passes};
ghost use Rattle.typing.specs.CheckResults.{JudgedBy, Denies};
ghost use Rattle.typing.specs.Parts.{tree_of};

use crate::rules::{Fault, check_imports, func_fault, memory_fault, table_fault, type_fault};
use crate::uses::{data_fault, element_fault, export_fault, global_fault, start_fault};
use crate::valid::Valid;
use body_typing::check::check_func;
use body_typing::scope::TypeRefusal;
use body_typing::spaces::Spaces;
use module_tree::module::{GlobalType, Module};
use std::alloc::{AllocError, Allocator};

// The first fault of the types, the imports, the functions' types, the tables and the memories.
fn heads_fault<A: Allocator>(tree: &Module<A>) -> Option<Fault>
    ensures { is_none result ≡ heads_pass (module_view tree.now) }
{
    let types = tree.types.len();
    if let Some(fault) = type_fault(&tree.types) {
        return Some(fault);
    }
    match check_imports(types, &tree.imports) {
        Err(fault) => Some(fault),
        Ok(seen) => {
            if let Some(fault) = func_fault(types, &tree.funcs) {
                return Some(fault);
            }
            if let Some(fault) = table_fault(seen.table, &tree.tables) {
                return Some(fault);
            }
            memory_fault(seen.memory, &tree.memories)
        }
    }
}

// The types of the imported globals.
fn imported<'s, A: Allocator, W: Allocator>(
    tree: &Module<A>,
    spaces: &'s Spaces<W>,
) -> &'s [GlobalType]
    requires { AreSpaces spaces.now (module_view tree.now) }
    ensures { map global_type_view result.now ≡ imported_globals (module_view tree.now) }
{
    &spaces.globals[..spaces.imported_globals]
}

// The first fault of the globals, the segments, the start function and the exports.
fn uses_fault<A: Allocator, W: Allocator + Clone>(
    alloc: &W,
    tree: &Module<A>,
    spaces: &Spaces<W>,
) -> Result<Option<Fault>, AllocError>
    requires { AreSpaces spaces.now (module_view tree.now) }
    ensures { IfOk result (λ fault. is_none fault ≡ uses_pass (module_view tree.now)) }
{
    let constants = imported(tree, spaces);
    if let Some(fault) = global_fault(constants, &tree.globals) {
        return Ok(Some(fault));
    }
    if let Some(fault) = element_fault(
        spaces.tables.len(),
        spaces.funcs.len(),
        constants,
        &tree.elements,
    ) {
        return Ok(Some(fault));
    }
    if let Some(fault) = data_fault(spaces.memories.len(), constants, &tree.datas) {
        return Ok(Some(fault));
    }
    if let Some(fault) = start_fault(&tree.types, &spaces.funcs, tree.start) {
        return Ok(Some(fault));
    }
    export_fault(alloc, spaces, &tree.exports)
}

// Checks the bodies.
fn check_bodies<A: Allocator, W: Allocator + Clone>(
    alloc: &W,
    tree: &Module<A>,
    spaces: &Spaces<W>,
) -> Result<(), TypeRefusal>
    requires { list_all (func_passes (length tree.now.types.items)) (map func_view tree.now.funcs.items) ≡ true }
    ensures { JudgedBy result (list_all (body_passes (spaces_view tree.now.types.items spaces.now)) (map func_view tree.now.funcs.items)) }
{
    let mut number = u32::try_from(spaces.imported_funcs).unwrap_or(u32::MAX);
    for f in &tree.funcs {
        match check_func(alloc, &tree.types, spaces, f, number) {
            Ok(()) => {}
            Err(refusal) => return Err(refusal),
        }
        number = number.saturating_add(1);
    }
    Ok(())
}

fn broken(fault: Fault) -> TypeRefusal
    ensures { result ≡ TypeRefusal.At None fault.place fault.rule }
{
    TypeRefusal::At {
        func: None,
        ordinal: fault.place,
        rule: fault.rule,
    }
}

fn check_module<A: Allocator, W: Allocator + Clone>(
    alloc: &W,
    tree: &Module<A>,
) -> Result<(), TypeRefusal>
    ensures { JudgedBy result (module_passes (module_view tree.now)) }
{
    match Spaces::of_module(alloc, tree) {
        Err(AllocError) => Err(TypeRefusal::NoMemory),
        Ok(spaces) => {
            if let Some(fault) = heads_fault(tree) {
                return Err(broken(fault));
            }
            match uses_fault(alloc, tree, &spaces) {
                Err(AllocError) => Err(TypeRefusal::NoMemory),
                Ok(Some(fault)) => Err(broken(fault)),
                Ok(None) => check_bodies(alloc, tree, &spaces),
            }
        }
    }
}

/// Checks a module (Core Specification, 3.4 Modules). What passes is typed and is the tree that was handed in. A
/// refused tree is handed back; where memory was not the cause, it is not typed. The working memory is from `alloc`.
pub fn check<A: Allocator, W: Allocator + Clone>(
    alloc: &W,
    tree: Module<A>,
) -> Result<Valid<A>, (Module<A>, TypeRefusal)>
    ensures same { IfOk result (λ v. tree_of v ≡ tree) }
    ensures typed { IfOk result (λ v. ModuleTyped (module_view (tree_of v))) }
    ensures back { IfErr result (λ e. e.0 ≡ tree) }
    ensures untyped { IfErr result (λ e. Denies e.1 (ModuleTyped (module_view tree))) }
{
    match check_module(alloc, &tree) {
        Ok(()) => Ok(Valid::of_typed(tree)),
        Err(refusal) => Err((tree, refusal)),
    }
}
